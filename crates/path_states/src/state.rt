//! A state: what is known of a node by its name and the names of those above it.
ghost use Rattle.std.specs.Prelude.{◌≡◌, true, IfOk};
ghost use Rattle.path_states.specs.Lists.{Climbs};
ghost use Rattle.path_states.specs.State.{AreDead, Gathers, HaveSameParts, IsMade};

use crate::active::have_no_child_edges;
use crate::outputs::{
    contexts_with, given_with, have_firsts, kept_with, pending_with, set_of, whole_with,
};
use crate::paths::PathState;
use gcx_base::Memory;
use role_set::RoleSet;
use std::alloc::Global;
use std::marker::Model;

/// What is known of a node by its name and the names of those above it. Its lists rise, so that states of the same parts
/// are the same.
#[derive(Drop)]
pub struct State {
    active: Vec<u32>,
    pending: Vec<u32>,
    whole: Vec<u32>,
    whole_here: Vec<u32>,
    given: Vec<u32>,
    roles: RoleSet,
    kept: RoleSet,
    whole_set: RoleSet,
    contexts: Vec<u32>,
    has_firsts: bool,
    is_over: bool,
}

impl Model for State {
    ghost use Rattle.path_states.specs.State.{StateView, state_code};

    ghost Value = { StateView };

    ghost coded = { state_code };

    ghost view = { λ s. record {
      active = s.active.items;
      pending = s.pending.items;
      whole = s.whole.items;
      whole_here = s.whole_here.items;
      given = s.given.items;
      roles = s.roles;
      kept = s.kept;
      whole_set = s.whole_set;
      contexts = s.contexts.items;
      has_firsts = s.has_firsts;
      is_over = s.is_over;
    } };
}

/// Whether no path leads below a node where these path states are active and pending.
fn lead_nowhere(tree: &[PathState], active: &[u32], pending: &[u32]) -> bool
    ensures { result ≡ true → AreDead tree.now active.now pending.now }
{
    pending.is_empty() && have_no_child_edges(tree, active)
}

/// The state of a node where these path states are active, below one with these pending and these roles of whole
/// subtrees.
pub(crate) fn make_state(
    alloc: Global,
    tree: &[PathState],
    active: Vec<u32>,
    pending_above: &[u32],
    whole_above: &[u32],
) -> Result<State, Memory>
    ensures active { IfOk result (λ s. s.active ≡ active.items) }
    ensures gathers { IfOk result (λ s. Gathers tree.now pending_above.now whole_above.now s) }
    ensures made { IfOk result (λ s. Climbs whole_above.now → IsMade tree.now s) }
{
    let here = active.as_slice();
    let pending = pending_with(alloc, tree, here, pending_above)?;
    let whole_here = whole_with(alloc, tree, here, &[])?;
    let whole = whole_with(alloc, tree, here, whole_above)?;
    let given = given_with(alloc, tree, here, whole.as_slice())?;
    let roles = set_of(alloc, given.as_slice())?;
    let kept = kept_with(alloc, tree, here, whole_here.as_slice())?;
    let whole_set = set_of(alloc, whole.as_slice())?;
    let contexts = contexts_with(alloc, tree, here)?;
    let has_firsts = have_firsts(tree, here);
    let is_over = lead_nowhere(tree, here, pending.as_slice());
    Ok(State {
        active,
        pending,
        whole,
        whole_here,
        given,
        roles,
        kept,
        whole_set,
        contexts,
        has_firsts,
        is_over,
    })
}

impl State {
    /// The path states whose paths lead to the node.
    #[inline(always)]
    pub fn active(&self) -> &[u32]
        ensures { result.now ≡ self.now.active }
    {
        &self.active
    }

    /// Those of them, and of those of the nodes above it, with a descendant step behind them.
    #[inline(always)]
    pub fn pending(&self) -> &[u32]
        ensures { result.now ≡ self.now.pending }
    {
        &self.pending
    }

    /// The roles of the whole subtrees in which the node lies, rising.
    #[inline(always)]
    pub fn whole(&self) -> &[u32]
        ensures { result.now ≡ self.now.whole }
    {
        &self.whole
    }

    /// Those of them whose paths lead to the node itself, rising.
    #[inline(always)]
    pub fn whole_here(&self) -> &[u32]
        ensures { result.now ≡ self.now.whole_here }
    {
        &self.whole_here
    }

    /// The roles that the node is given, but for those of first matches, rising.
    #[inline(always)]
    pub fn given(&self) -> &[u32]
        ensures { result.now ≡ self.now.given }
    {
        &self.given
    }

    /// The roles of `given` as a set.
    #[inline(always)]
    pub fn roles(&self) -> &RoleSet
        ensures { result.now ≡ self.now.roles }
    {
        &self.roles
    }

    /// Of the roles that the node is given those that paths lead to at the node itself: all but those of whole subtrees
    /// that it has from above.
    #[inline(always)]
    pub fn kept(&self) -> &RoleSet
        ensures { result.now ≡ self.now.kept }
    {
        &self.kept
    }

    /// The roles of the whole subtrees in which the node lies, as a set.
    #[inline(always)]
    pub fn whole_set(&self) -> &RoleSet
        ensures { result.now ≡ self.now.whole_set }
    {
        &self.whole_set
    }

    /// The roles of which the node is a context.
    #[inline(always)]
    pub fn contexts(&self) -> &[u32]
        ensures { result.now ≡ self.now.contexts }
    {
        &self.contexts
    }

    /// Whether the node may be a first match.
    #[inline(always)]
    pub fn has_firsts(&self) -> bool
        ensures { result ≡ self.now.has_firsts }
    {
        self.has_firsts
    }

    /// Whether no path leads to a node below.
    #[inline(always)]
    pub fn is_over(&self) -> bool
        ensures { result ≡ self.now.is_over }
    {
        self.is_over
    }

    /// Whether the other one has the same parts.
    pub(crate) fn has_parts_of(&self, other: &State) -> bool
        ensures { result ≡ true → HaveSameParts self.now other.now }
    {
        self.active.as_slice() == other.active.as_slice()
            && self.pending.as_slice() == other.pending.as_slice()
            && self.whole.as_slice() == other.whole.as_slice()
    }
}
