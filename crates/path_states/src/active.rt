//! Which path states are active at a node below another one, by the number of its name.
ghost use Rattle.std.specs.Prelude.{◌≡◌, ℕ, true, IfOk, OnOk};
ghost use Rattle.path_states.specs.Lists.{From};
ghost use Rattle.path_states.specs.Active.{ActiveBelow, GainsBy, GainsPassing, HoldsBy, Passes, PassesTo, Tells, Under, child_edges_of};
ghost use Rattle.path_states.specs.Branches.{steps_by};

use crate::branches::{Branch, StepIndex, asking};
use crate::names::takes;
use crate::paths::PathState;
use crate::rising::rise;
use gcx_base::{Axis, Memory};
use std::alloc::Global;

/// Adds the path state where the node passes its test.
fn try_one(
    active: &mut Vec<u32>,
    tree: &[PathState],
    steps: &StepIndex,
    name: usize,
    number: u32,
) -> Result<(), Memory>
    ensures { OnOk result
        (GainsBy tree.now steps.now name active.old.items active.new.items (λ kind. Passes tree.now kind number)) }
{
    match tree.get(number as usize) {
        Some(state) => {
            if takes(&state.step.test, &steps.names, name) {
                rise(active, number)?;
            }
            Ok(())
        }
        None => Ok(()),
    }
}

/// Adds those of the branches' path states whose tests the node passes.
fn try_all(
    active: &mut Vec<u32>,
    tree: &[PathState],
    steps: &StepIndex,
    name: usize,
    branches: &[Branch],
) -> Result<(), Memory>
    ensures { OnOk result
        (GainsBy tree.now steps.now name active.old.items active.new.items
        (λ kind. From branches.now (PassesTo tree.now kind))) }
{
    for branch in branches {
        try_one(active, tree, steps, name, branch.state)?;
    }
    Ok(())
}

/// Adds those of the branches' path states whose tests the node passes. Only those are looked at that ask for the node's
/// name, or for none.
fn try_asking(
    active: &mut Vec<u32>,
    tree: &[PathState],
    steps: &StepIndex,
    name: usize,
    branches: &[Branch],
) -> Result<(), Memory>
    ensures { OnOk result
        (GainsPassing tree.now steps.now name active.old.items active.new.items branches.now) }
{
    let named = asking(branches, name);
    try_all(active, tree, steps, name, named)?;
    let others = asking(branches, steps.names.len());
    try_all(active, tree, steps, name, others)?;
    Ok(())
}

/// Adds those below by a step of the axis from this path state.
fn try_below(
    active: &mut Vec<u32>,
    tree: &[PathState],
    steps: &StepIndex,
    name: usize,
    axis: Axis,
    number: u32,
) -> Result<(), Memory>
    ensures { OnOk result
        (GainsBy tree.now steps.now name active.old.items active.new.items
        (λ kind. Under (steps_by axis) tree.now kind number)) }
{
    match steps.branches.get(number as usize) {
        Some(branches) => {
            try_asking(active, tree, steps, name, branches.by(axis))?;
            Ok(())
        }
        None => Ok(()),
    }
}

/// Adds those below by a step of the axis from these.
fn try_below_all(
    active: &mut Vec<u32>,
    tree: &[PathState],
    steps: &StepIndex,
    name: usize,
    axis: Axis,
    above: &[u32],
) -> Result<(), Memory>
    ensures { OnOk result
        (GainsBy tree.now steps.now name active.old.items active.new.items
        (λ kind. From above.now (Under (steps_by axis) tree.now kind))) }
{
    for number in above {
        try_below(active, tree, steps, name, axis, *number)?;
    }
    Ok(())
}

/// Whether no path state stands below this one by a child step.
fn has_no_child_edges(tree: &[PathState], number: u32) -> bool
    ensures { result ≡ true → (c : ℕ) → Tells child_edges_of tree.now number c → ⊥ }
{
    match tree.get(number as usize) {
        Some(state) => state.child_edges.as_slice().is_empty(),
        None => true,
    }
}

/// Whether none stands below these by a child step.
pub(crate) fn have_no_child_edges(tree: &[PathState], active: &[u32]) -> bool
    ensures { result ≡ true → (c : ℕ) → From active.now (Tells child_edges_of tree.now) c → ⊥ }
{
    for number in active {
        if !has_no_child_edges(tree, *number) {
            return false;
        }
    }
    true
}

/// The path states that are active at a new node whose name has the number, by those that are active and pending at its
/// parent. They rise, so that equal states have equal lists.
pub(crate) fn find_active(
    alloc: Global,
    tree: &[PathState],
    steps: &StepIndex,
    name: usize,
    above: &[u32],
    pending: &[u32],
) -> Result<Vec<u32>, Memory>
    ensures { IfOk result (λ active. HoldsBy tree.now steps.now name active.items
        (λ kind. ActiveBelow tree.now above.now pending.now kind)) }
{
    let mut active = Vec::new(alloc);
    try_below_all(&mut active, tree, steps, name, Axis::Child, above)?;
    try_below_all(&mut active, tree, steps, name, Axis::Descendant, pending)?;
    Ok(active)
}
