//! What a node gathers and gives by the path states that are active at it.
ghost use Rattle.std.specs.Prelude.{◌≡◌, ◌↔◌, ℕ, [], true, false, IfOk, OnOk};
ghost use Rattle.std.specs.FinSet as set;
ghost use Rattle.gcx_model.specs.Members.{In};
ghost use Rattle.path_states.specs.Lists.{Climbs, From, Gains, Holds};
ghost use Rattle.path_states.specs.Active.{Tells, Waits};
ghost use Rattle.path_states.specs.State.{GivenBy, context_roles, first_roles, own_roles, whole_roles};

use crate::paths::PathState;
use crate::rising::{rise, rise_all};
use gcx_base::{Memory, Role};
use role_set::RoleSet;
use std::alloc::Global;

/// A list of these numbers.
pub(crate) fn copy_of(alloc: Global, numbers: &[u32]) -> Result<Vec<u32>, Memory>
    ensures { IfOk result (λ copied. copied.items ≡ numbers.now) }
{
    let mut copied = Vec::new(alloc);
    copied.extend_from_slice(numbers)?;
    Ok(copied)
}

/// Adds the path state where a descendant step stands behind it.
fn put_pending(pending: &mut Vec<u32>, tree: &[PathState], number: u32) -> Result<(), Memory>
    ensures { OnOk result (Gains pending.old.items pending.new.items (Waits tree.now number)) }
{
    match tree.get(number as usize) {
        Some(state) => {
            if !state.descendant_edges.as_slice().is_empty() {
                rise(pending, number)?;
            }
            Ok(())
        }
        None => Ok(()),
    }
}

/// Adds those of these path states.
fn put_all_pending(pending: &mut Vec<u32>, tree: &[PathState], active: &[u32]) -> Result<(), Memory>
    ensures { OnOk result (Gains pending.old.items pending.new.items (From active.now (Waits tree.now))) }
{
    for number in active {
        put_pending(pending, tree, *number)?;
    }
    Ok(())
}

/// The pending path states of a node where these are active, below one with these pending.
pub(crate) fn pending_with(
    alloc: Global,
    tree: &[PathState],
    active: &[u32],
    above: &[u32],
) -> Result<Vec<u32>, Memory>
    ensures { IfOk result (λ pending. Gains above.now pending.items (From active.now (Waits tree.now))) }
{
    let mut pending = copy_of(alloc, above)?;
    put_all_pending(&mut pending, tree, active)?;
    Ok(pending)
}

/// Adds the roles of whole subtrees of this path state.
fn put_whole(numbers: &mut Vec<u32>, tree: &[PathState], number: u32) -> Result<(), Memory>
    ensures gains { OnOk result (Gains numbers.old.items numbers.new.items (Tells whole_roles tree.now number)) }
    ensures climbs { OnOk result (Climbs numbers.old.items → Climbs numbers.new.items) }
{
    match tree.get(number as usize) {
        Some(state) => {
            rise_all(numbers, &state.whole)?;
            Ok(())
        }
        None => Ok(()),
    }
}

/// Adds the roles of whole subtrees of these path states.
fn put_all_whole(numbers: &mut Vec<u32>, tree: &[PathState], active: &[u32]) -> Result<(), Memory>
    ensures gains { OnOk result (Gains numbers.old.items numbers.new.items (From active.now (Tells whole_roles tree.now))) }
    ensures climbs { OnOk result (Climbs numbers.old.items → Climbs numbers.new.items) }
{
    for number in active {
        put_whole(numbers, tree, *number)?;
    }
    Ok(())
}

/// The roles of whole subtrees of a node where these path states are active, below one with these.
pub(crate) fn whole_with(
    alloc: Global,
    tree: &[PathState],
    active: &[u32],
    above: &[u32],
) -> Result<Vec<u32>, Memory>
    ensures gains { IfOk result (λ whole. Gains above.now whole.items (From active.now (Tells whole_roles tree.now))) }
    ensures climbs { IfOk result (λ whole. Climbs above.now → Climbs whole.items) }
{
    let mut whole = copy_of(alloc, above)?;
    put_all_whole(&mut whole, tree, active)?;
    Ok(whole)
}

/// Adds the roles of matches of this path state.
fn put_own_of(numbers: &mut Vec<u32>, tree: &[PathState], number: u32) -> Result<(), Memory>
    ensures gains { OnOk result (Gains numbers.old.items numbers.new.items (Tells own_roles tree.now number)) }
    ensures climbs { OnOk result (Climbs numbers.old.items → Climbs numbers.new.items) }
{
    match tree.get(number as usize) {
        Some(state) => {
            rise_all(numbers, &state.own)?;
            Ok(())
        }
        None => Ok(()),
    }
}

/// Adds the roles of matches of these path states.
fn put_own(roles: &mut Vec<u32>, tree: &[PathState], active: &[u32]) -> Result<(), Memory>
    ensures gains { OnOk result (Gains roles.old.items roles.new.items (From active.now (Tells own_roles tree.now))) }
    ensures climbs { OnOk result (Climbs roles.old.items → Climbs roles.new.items) }
{
    for number in active {
        put_own_of(roles, tree, *number)?;
    }
    Ok(())
}

/// The roles that a node with these of whole subtrees gives, where these path states are active.
pub(crate) fn given_with(
    alloc: Global,
    tree: &[PathState],
    active: &[u32],
    whole: &[u32],
) -> Result<Vec<u32>, Memory>
    ensures holds { IfOk result (λ given. Holds given.items (GivenBy tree.now whole.now active.now)) }
    ensures climbs { IfOk result (λ given. Climbs whole.now → Climbs given.items) }
{
    let mut given = copy_of(alloc, whole)?;
    put_own(&mut given, tree, active)?;
    Ok(given)
}

/// Adds the roles of which a match of this path state is a context.
fn put_contexts(numbers: &mut Vec<u32>, tree: &[PathState], number: u32) -> Result<(), Memory>
    ensures { OnOk result (Gains numbers.old.items numbers.new.items (Tells context_roles tree.now number)) }
{
    match tree.get(number as usize) {
        Some(state) => {
            rise_all(numbers, &state.context)?;
            Ok(())
        }
        None => Ok(()),
    }
}

/// The roles of which a node is a context where these path states are active.
pub(crate) fn contexts_with(
    alloc: Global,
    tree: &[PathState],
    active: &[u32],
) -> Result<Vec<u32>, Memory>
    ensures { IfOk result (λ contexts. Holds contexts.items (From active.now (Tells context_roles tree.now))) }
{
    let mut contexts = Vec::new(alloc);
    for number in active {
        put_contexts(&mut contexts, tree, *number)?;
    }
    Ok(contexts)
}

/// Whether a match of this path state may be a first one.
fn has_firsts(tree: &[PathState], number: u32) -> bool
    ensures { result ≡ false → (r : ℕ) → Tells first_roles tree.now number r → ⊥ }
{
    match tree.get(number as usize) {
        Some(state) => !state.first.as_slice().is_empty(),
        None => false,
    }
}

/// Whether a node may be a first match where these path states are active.
pub(crate) fn have_firsts(tree: &[PathState], active: &[u32]) -> bool
    ensures { result ≡ false → (r : ℕ) → From active.now (Tells first_roles tree.now) r → ⊥ }
{
    for number in active {
        if has_firsts(tree, *number) {
            return true;
        }
    }
    false
}

/// The roles as a set.
pub(crate) fn set_of(alloc: Global, numbers: &[u32]) -> Result<RoleSet, Memory>
    ensures { IfOk result (λ roles. (r : ℕ) → set.contains roles r ≡ true ↔ In r numbers.now) }
{
    let mut roles = RoleSet::new(alloc);
    for number in numbers {
        roles.give(Role(*number))?;
    }
    Ok(roles)
}

/// The roles that a node gives by the paths that lead to it, as a set: those of whole subtrees are these alone.
pub(crate) fn kept_with(
    alloc: Global,
    tree: &[PathState],
    active: &[u32],
    whole_here: &[u32],
) -> Result<RoleSet, Memory>
    ensures { IfOk result (λ kept. (r : ℕ) → set.contains kept r ≡ true ↔ GivenBy tree.now whole_here.now active.now r) }
{
    let given = given_with(alloc, tree, active, whole_here)?;
    let kept = set_of(alloc, given.as_slice())?;
    Ok(kept)
}
