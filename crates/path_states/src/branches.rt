//! The path states below each path state, by the names that their steps ask for.
ghost use Rattle.std.specs.Prelude.{◌≡◌, ◌≤◌, IfOk, OnOk};
ghost use Rattle.gcx_model.specs.Members.{In};
ghost use Rattle.path_states.specs.Names.{AreOrdered};
ghost use Rattle.path_states.specs.Branches.{BranchesAreBelow, AreBranches, HaveBranches, IsAskedNumber, IsBranch, IsStepIndex};
ghost use Rattle.path_states.specs.Branches.{PutsBranch, Rise, branches_by};
ghost use Rattle.path_states.specs.declared.branches.Branch.{Branch};

use crate::names::{names_of, number_in};
use crate::paths::PathState;
use gcx_base::{Axis, Memory, Name, Test};
use std::alloc::Global;

/// A path state below another one, and the number of the name that its step asks for: the names' count, where it asks for
/// none.
#[derive(Clone, Copy, Debug)]
pub(crate) struct Branch {
    pub name: usize,
    pub state: u32,
}

/// The edges from one path state, by child steps and by descendant steps, in the order of their names.
#[derive(Drop)]
pub(crate) struct Branches {
    pub child_edges: Vec<Branch>,
    pub descendant_edges: Vec<Branch>,
}

/// The names that steps ask for, and the branches of each path state.
#[derive(Drop)]
pub(crate) struct StepIndex {
    pub names: Vec<Name>,
    pub branches: Vec<Branches>,
}

/// The number of the name that the test asks for.
fn asked(test: &Test, names: &[Name]) -> usize
    ensures { AreOrdered names.now → IsAskedNumber names.now test.now result }
{
    match test {
        Test::Named(name) => number_in(names, name.as_bytes()),
        Test::AnyElement => names.len(),
        Test::AnyText => names.len(),
        Test::AnyNode => names.len(),
    }
}

/// The branch to this path state.
fn branch_to(state: &PathState, names: &[Name], number: u32) -> Branch
    ensures { AreOrdered names.now → IsBranch names.now state.now number result }
{
    let name = asked(&state.step.test, names);
    Branch {
        name,
        state: number,
    }
}

/// Adds the branch to the path state of this number.
fn put_branch(
    branches: &mut Vec<Branch>,
    tree: &[PathState],
    names: &[Name],
    number: u32,
) -> Result<(), Memory>
    ensures { OnOk result (AreOrdered names.now →
        PutsBranch tree.now names.now number branches.old.items branches.new.items) }
{
    match tree.get(number as usize) {
        Some(state) => {
            let branch = branch_to(state, names, number);
            branches.push(branch)?;
            Ok(())
        }
        None => Ok(()),
    }
}

/// The branches to the path states of these numbers.
fn all_branches(
    alloc: Global,
    tree: &[PathState],
    names: &[Name],
    numbers: &[u32],
) -> Result<Vec<Branch>, Memory>
    ensures { IfOk result (λ branches. AreOrdered names.now →
        HaveBranches tree.now names.now numbers.now branches.items) }
{
    let mut branches = Vec::new(alloc);
    for number in numbers {
        put_branch(&mut branches, tree, names, *number)?;
    }
    Ok(branches)
}

/// The branches to these path states, in the order of their names.
fn sorted_branches(
    alloc: Global,
    tree: &[PathState],
    names: &[Name],
    numbers: &[u32],
) -> Result<Vec<Branch>, Memory>
    ensures have { IfOk result (λ branches. AreOrdered names.now →
        HaveBranches tree.now names.now numbers.now branches.items) }
    ensures rise { IfOk result (λ branches. Rise branches.items) }
{
    let mut branches = all_branches(alloc, tree, names, numbers)?;
    branches.sort_by_key(|branch| branch.name)?;
    Ok(branches)
}

/// Those below this path state.
fn branches_below(
    alloc: Global,
    tree: &[PathState],
    names: &[Name],
    state: &PathState,
) -> Result<Branches, Memory>
    ensures { IfOk result (λ branches. AreOrdered names.now → BranchesAreBelow tree.now names.now state.now branches) }
{
    let child_edges = sorted_branches(alloc, tree, names, &state.child_edges)?;
    let descendant_edges = sorted_branches(alloc, tree, names, &state.descendant_edges)?;
    Ok(Branches {
        child_edges,
        descendant_edges,
    })
}

/// Those below each of the path states.
fn branches_of(alloc: Global, tree: &[PathState], names: &[Name]) -> Result<Vec<Branches>, Memory>
    ensures { IfOk result (λ all. AreOrdered names.now → AreBranches tree.now names.now tree.now all.items) }
{
    let mut all = Vec::new(alloc);
    for state in tree {
        let branches = branches_below(alloc, tree, names, state)?;
        all.push(branches)?;
    }
    Ok(all)
}

/// The index of the path states.
pub(crate) fn index_of(alloc: Global, tree: &[PathState]) -> Result<StepIndex, Memory>
    ensures { IfOk result (IsStepIndex tree.now) }
{
    let names = names_of(alloc, tree)?;
    let branches = branches_of(alloc, tree, &names)?;
    Ok(StepIndex { names, branches })
}

impl Branches {
    /// Those of the axis.
    pub(crate) fn by(&self, axis: Axis) -> &[Branch]
        ensures { result.now ≡ branches_by axis self.now }
    {
        match axis {
            Axis::Child => &self.child_edges,
            Axis::Descendant => &self.descendant_edges,
        }
    }
}

/// Those from the name of this number on. The search halves them.
fn from_name(branches: &[Branch], name: usize) -> &[Branch]
    ensures of { (b : Branch) → In b result.now → In b branches.now }
    ensures all { Rise branches.now → (b : Branch) → In b branches.now → name ≤ b.name → In b result.now }
    ensures rise { Rise branches.now → Rise result.now }
{
    let low = branches.partition_point(|branch| branch.name < name);
    branches.split_at(low).1
}

/// Those up to the name of this number.
fn up_to_name(branches: &[Branch], name: usize) -> &[Branch]
    ensures of { (b : Branch) → In b result.now → In b branches.now }
    ensures all { Rise branches.now → (b : Branch) → In b branches.now → b.name ≤ name → In b result.now }
{
    let high = branches.partition_point(|branch| branch.name <= name);
    branches.split_at(high).0
}

/// Those that ask for the name of this number.
pub(crate) fn asking(branches: &[Branch], name: usize) -> &[Branch]
    ensures of { (b : Branch) → In b result.now → In b branches.now }
    ensures all { Rise branches.now → (b : Branch) → In b branches.now → b.name ≡ name → In b result.now }
{
    let behind = from_name(branches, name);
    up_to_name(behind, name)
}
