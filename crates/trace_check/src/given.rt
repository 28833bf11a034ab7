//! The roles given to the nodes, by their definition over the whole tree.
ghost use Rattle.std.specs.Prelude.{◌≡◌, ◌<◌, ◌∷◌, [], suc, All, length, map, replicate, slice_index_or, OnOk, IfOk};
ghost use Rattle.gcx_model.specs.Nodes.{Grown};
ghost use Rattle.gcx_model.specs.PlanView.{plan_tree, role_row_tree, var_row_tree};
ghost use Rattle.trace_check.specs.Reaching.{in_range, covers};
ghost use Rattle.trace_check.specs.Wanting.{AreBelow, CoversGiven, IsGivenTo, given_all, is_last, lists_in, matches_by, numbers_in, row_paths, with_role};

use crate::reach::{Range, reach};
use doc_tree::Tree;
use gcx_base::{Memory, Role, VarId};
use gcx_model::{Given, Plan, RoleRow, VarRow};
use std::alloc::Global;

/// The root alone.
fn root(alloc: Global) -> Result<Vec<usize>, Memory>
    ensures { IfOk result (λ nodes. nodes.items ≡ 0 ∷ []) }
{
    let mut nodes = Vec::new(alloc);
    nodes.push(0)?;
    Ok(nodes)
}

/// The matches of a variable among those of all; of one that isn't there they are the root's.
fn matches_at(alloc: Global, matches: &[Vec<usize>], var: VarId) -> Result<Vec<usize>, Memory>
    ensures { IfOk result (λ nodes. nodes.items ≡ slice_index_or (lists_in matches.now) var.0 (0 ∷ [])) }
{
    match matches.get(var.0 as usize) {
        Some(found) => Ok(found.as_slice().to_vec(alloc)?),
        None => root(alloc),
    }
}

/// For each variable from 0 the matches of its path.
fn matches_of(alloc: Global, tree: &Tree, vars: &[VarRow]) -> Result<Vec<Vec<usize>>, Memory>
    requires grown { Grown tree.now }
    requires some { 0 < length tree.now.nodes }
    ensures { IfOk result (λ matches. lists_in matches.items
        ≡ matches_by tree.now (row_paths (map var_row_tree vars.now))) }
{
    let mut matches = Vec::new(alloc);
    matches.push(root(alloc)?)?;
    for row in vars {
        let parents = matches_at(alloc, &matches, row.parent)?;
        matches.push(tree.reached_from(alloc, &row.step, &parents)?)?;
    }
    Ok(matches)
}

/// Whether the role is the last one.
fn is_last(roles: &[Role], role: Role) -> bool
    ensures { result ≡ is_last roles.now role }
{
    match roles.last() {
        Some(last) => *last == role,
        None => false,
    }
}

/// Adds the role behind those that are below it, unless it is there.
fn add(given: &mut Given, role: Role) -> Result<(), Memory>
    requires { AreBelow (suc role.0) given.old }
    ensures { OnOk result (given.new ≡ with_role role given.old) }
{
    if is_last(given.items(), role) {
        return Ok(());
    }
    given.push(role)
}

/// Gives the role to the nodes of the range. No higher one was given.
fn give_range(given: &mut [Given], range: Range, role: Role) -> Result<(), Memory>
    requires { All (AreBelow (suc role.0)) given.old }
    ensures given { OnOk result (IsGivenTo role (λ k. in_range k range) given.old given.new) }
    ensures below { OnOk result (All (AreBelow (suc role.0)) given.new) }
{
    let mut node = range.first;
    while node <= range.last && node < given.len() {
        add(&mut given[node], role)?;
        node += 1;
    }
    Ok(())
}

/// Gives the role to the nodes of the ranges. No higher one was given.
fn give(given: &mut [Given], ranges: &[Range], role: Role) -> Result<(), Memory>
    requires { All (AreBelow (suc role.0)) given.old }
    ensures given { OnOk result (IsGivenTo role (covers ranges.now) given.old given.new) }
    ensures below { OnOk result (All (AreBelow (suc role.0)) given.new) }
{
    for range in ranges {
        give_range(given, *range, role)?;
    }
    Ok(())
}

/// No role for each of so many nodes.
fn none_given(alloc: Global, count: usize) -> Result<Vec<Given>, Memory>
    ensures { IfOk result (λ given. given.items ≡ replicate count []) }
{
    let mut given = Vec::new(alloc);
    for _ in 0..count {
        given.push(Given::new(alloc))?;
    }
    Ok(given)
}

/// The next number. Where there is none, so many roles find no room.
fn next(number: u32) -> Result<u32, Memory>
    ensures { IfOk result (λ next. next ≡ suc number) }
{
    number.checked_add(1).ok_or(Memory)
}

/// What a role of the row reaches, given the matches of the variables.
fn reached(
    alloc: Global,
    tree: &Tree,
    matches: &[Vec<usize>],
    row: &RoleRow,
) -> Result<Vec<Range>, Memory>
    requires grown { Grown tree.now }
    requires some { 0 < length tree.now.nodes }
    ensures { IfOk result (λ ranges. CoversGiven tree.now (lists_in matches.now) (role_row_tree row.now) ranges.items) }
{
    let nodes = matches_at(alloc, matches, row.var)?;
    reach(alloc, tree, nodes, row.tail.items(), row.kind)
}

/// For each node the roles given to it.
pub(crate) fn given_of(alloc: Global, tree: &Tree, plan: &Plan) -> Result<Vec<Given>, Memory>
    requires grown { Grown tree.now }
    requires some { 0 < length tree.now.nodes }
    ensures { IfOk result (λ given. map numbers_in given.items ≡ given_all (plan_tree plan.now) tree.now) }
{
    let matches = matches_of(alloc, tree, plan.vars.items())?;
    let mut given = none_given(alloc, tree.count())?;
    let mut number: u32 = 0;
    for row in plan.roles.items() {
        let ranges = reached(alloc, tree, &matches, row)?;
        give(&mut given, &ranges, Role(number))?;
        number = next(number)?;
    }
    Ok(given)
}
