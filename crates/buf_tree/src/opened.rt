//! Nodes that are opened with their roles as a set.
ghost use Rattle.std.specs.Prelude.{◌≡◌, ◌+◌, ◌≤◌, ◌^◌, ℕ, Some, IfOk, OnOk, OnErr, IsSome, cond, is_some, option_map};
ghost use Rattle.std.specs.FinMap as map;
ghost use Rattle.std.specs.FinSet as set;
ghost use Rattle.std.specs.Ordering.{nat_cmp};
ghost use Rattle.gcx_model.specs.Past.{IsNode, token_for};
ghost use Rattle.buf_tree.specs.PassedCalls.{OpenedWith, StandsWith, MayOpenWith, MayOpenKept};
ghost use Rattle.buf_tree.specs.Shape.{at_place, cells, Shaped};
ghost use Rattle.buf_tree.specs.Spread.{SpreadView};
ghost use Rattle.buf_tree.specs.Tops.{KeptOf, OpensAs, OwnApart};
ghost use Rattle.buf_tree.specs.View.{Innermost, level_in};

use crate::buffer::Buffer;
use crate::edits::add_row;
use crate::row::{Row, is_bare};
use crate::spread::{Spread, covers};
use gcx_base::{Kind, Memory, Serial};
use node_store::{NodeStore, Place};
use role_set::{NodeRoles, RoleSet};
use std::alloc::Global;

impl<N: NodeStore<Row>> Buffer<N> {
    /// A new element or text as last child of the innermost open node, with these roles, of which none is taken in
    /// advance. Of them `kept` are those that are kept at the node if roles are spread, so no row is asked for it. A text
    /// is closed at once, and one without a role is gone at once. Answers the node's place, or None where it is gone.
    ///
    /// There is room for one more departure afterwards. After `Memory` the buffer is unchanged.
    pub fn open_kept(
        &mut self,
        alloc: Global,
        parent: Place,
        kind: Kind,
        given: &RoleSet,
        kept: &RoleSet,
    ) -> Result<Option<Place>, Memory>
        requires parent { Innermost self.old.rows parent.0 }
        requires kind { IsNode kind }
        requires nodes { self.old.nodes ≤ 2 ^ 40 + 1 }
        requires depth { level_in (at_place parent.0 self.old.rows) ≤ 1000 }
        requires spread { MayOpenKept self.old (token_for kind) given.now kept.now }
        ensures opened { IfOk result (λ p. OpenedWith self.old self.new parent.0 (option_map (λ q. q.0) p) kind given.now 0) }
        ensures stands { OnOk result (StandsWith self.old self.new kind given.now) }
        ensures err { OnErr result (self.new ≡ self.old) }
        ensures loans { self.new.loans ≡ self.old.loans }
    {
        let bare = is_bare(&kind, given.is_empty());
        let roles = roles_at(alloc, &self.spread, given, kept)?;
        let place = self.open_child(parent, kind, bare, roles, 0)?;
        Ok(place)
    }

    /// The same, where the rows are asked which roles are kept, and so many others that the node is given are taken in advance.
    #[inline(always)]
    pub(crate) fn open_row(
        &mut self,
        parent: Place,
        kind: Kind,
        roles: NodeRoles,
        ahead: u128,
    ) -> Result<Option<Place>, Memory>
        requires parent { Innermost self.old.rows parent.0 }
        requires kind { IsNode kind }
        requires nodes { self.old.nodes ≤ 2 ^ 40 + 1 }
        requires depth { level_in (at_place parent.0 self.old.rows) ≤ 1000 }
        requires signed { roles.signed ≡ set.empty }
        requires spread { MayOpenWith self.old (token_for kind) roles.held }
        ensures ok { IfOk result (λ p. OpenedWith self.old self.new parent.0 (option_map (λ q. q.0) p) kind roles.held ahead) }
        ensures stands { OnOk result (StandsWith self.old self.new kind roles.held) }
        ensures err { OnErr result (self.new ≡ self.old) }
        ensures loans { self.new.loans ≡ self.old.loans }
    {
        let bare = is_bare(&kind, roles.is_empty());
        let mut kept = roles;
        keep_roles(&mut self.spread, &self.nodes, parent, &kind, &mut kept);
        let place = self.open_child(parent, kind, bare, kept, ahead)?;
        Ok(place)
    }

    /// A node is opened that keeps these of its roles, and is gone at once where it is said to be.
    #[inline(always)]
    fn open_child(
        &mut self,
        parent: Place,
        kind: Kind,
        bare: bool,
        kept: NodeRoles,
        ahead: u128,
    ) -> Result<Option<Place>, Memory>
        requires parent { Innermost self.old.rows parent.0 }
        requires kind { IsNode kind }
        requires nodes { self.old.nodes ≤ 2 ^ 40 + 1 }
        requires depth { level_in (at_place parent.0 self.old.rows) ≤ 1000 }
        requires signed { kept.signed ≡ set.empty }
        requires opens { (roles : set.FinSet nat_cmp) × OpensAs self.old parent.0 kind bare roles kept.held }
        ensures ok { (roles : set.FinSet nat_cmp) → OpensAs self.old parent.0 kind bare roles kept.held
            → IfOk result (λ p. OpenedWith self.old self.new parent.0 (option_map (λ q. q.0) p) kind roles ahead) }
        ensures stands { (roles : set.FinSet nat_cmp) → OpensAs self.old parent.0 kind bare roles kept.held
            → OnOk result (StandsWith self.old self.new kind roles) }
        ensures err { OnErr result (self.new ≡ self.old) }
        ensures loans { self.new.loans ≡ self.old.loans }
    {
        self.gone.reserve(self.held + 1)?;
        if bare {
            self.gone.push_reserved(Serial(self.count));
            self.count += 1;
            self.taken = self.taken.saturating_add(ahead);
            return Ok(None);
        }
        let above = self.nodes.payload(parent);
        let covered = covers(&self.spread, above);
        let row = above.new_child(self.count, kind, kept, covered);
        let place = add_row(&mut self.nodes, parent, row)?;
        self.held += 1;
        self.count += 1;
        self.taken = self.taken.saturating_add(ahead);
        Ok(Some(place))
    }
}

/// The roles that the row of a new node has: those that are kept at it, where roles are spread, else all.
#[inline(always)]
fn roles_at(
    alloc: Global,
    spread: &Option<Spread>,
    given: &RoleSet,
    kept: &RoleSet,
) -> Result<NodeRoles, Memory>
    ensures held { IfOk result (λ roles. roles.held ≡ cond (is_some spread.now) kept.now given.now) }
    ensures signed { IfOk result (λ roles. roles.signed ≡ set.empty) }
{
    match spread {
        Some(_) => Ok(NodeRoles::of(alloc, kept)?),
        None => Ok(NodeRoles::of(alloc, given)?),
    }
}

/// Of the roles that the new child of the row at `parent` has, leaves those that are kept at it.
#[inline(always)]
fn keep_roles<N: NodeStore<Row>>(
    spread: &mut Option<Spread>,
    nodes: &N,
    parent: Place,
    kind: &Kind,
    roles: &mut NodeRoles,
)
    requires shape { Shaped (N.rows nodes.now) }
    requires there { IsSome (map.get (N.rows nodes.now) parent.0) }
    requires own { (s : SpreadView) → spread.old ≡ Some s → OwnApart s.tops }
    ensures held { (serial : ℕ)
        → KeptOf spread.old (cells (N.rows nodes.now)) parent.0 kind.now serial roles.old.held roles.new.held }
    ensures signed { roles.new.signed ≡ roles.old.signed }
    ensures same { spread.new ≡ spread.old }
{
    match spread {
        Some(spread) => spread.keep_tops(nodes, parent, kind, roles),
        None => {}
    }
}
