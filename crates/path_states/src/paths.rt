//! The paths of a plan as one tree, flat: a path state for each variable, and behind them one for each step of the tails.
ghost use Rattle.std.specs.Prelude.{◌≡◌, ◌<◌, ◌∷◌, ℕ, [], false, List, length, map, Some, slice_get, IfOk, OnOk};
ghost use Rattle.gcx_base.specs.declared.kind.Kind.TheVariants.{Text};
ghost use Rattle.gcx_base.specs.declared.steps.Step.{Step};
ghost use Rattle.gcx_model.specs.Core.{PlanTree};
ghost use Rattle.gcx_model.specs.Held.{paths_from};
ghost use Rattle.gcx_model.specs.ItemView.{role_kind};
ghost use Rattle.gcx_base.specs.Tests.{passes};
ghost use Rattle.gcx_model.specs.PlanView.{plan_tree, role_row_tree, var_row_tree};
ghost use Rattle.path_states.specs.Growing.{Below, Ends, Contexts, IsFresh, TellsMore, TellMore, Growing, GrowsBelow, ReachesEnd, GainsWay, Ended, path_at};
ghost use Rattle.path_states.specs.PathTree.{IsPathTree, kind_with, tail_with};
ghost use Rattle.path_states.specs.declared.paths.PathState.{PathState};
ghost use Rattle.path_states.specs.declared.paths.Way.{Way};

use gcx_base::{Axis, Memory, Step, Test};
use gcx_model::{Plan, RoleKind, RoleRow, VarRow};
use std::alloc::Global;

/// A path state: its path is that of the one above it, and its step. The first one has the empty path.
#[derive(Drop, Debug)]
pub struct PathState {
    /// The number of the one above.
    pub parent: u32,
    /// The last step of its path.
    pub step: Step,
    /// The edges by child steps: the path states to which they lead.
    pub child_edges: Vec<u32>,
    /// The edges by descendant steps.
    pub descendant_edges: Vec<u32>,
    /// The roles that each match of the path is given.
    pub own: Vec<u32>,
    /// The roles that each match of the path is given with its subtree.
    pub whole: Vec<u32>,
    /// The roles that the first match of the path below a context is given.
    pub first: Vec<u32>,
    /// Those of which each match of the path is a context.
    pub context: Vec<u32>,
}

/// The path states of a role: its variable's, and the one behind its tail.
#[derive(Clone, Copy, Debug)]
pub struct Way {
    /// How the role is given; a first match of an empty tail is given as its own.
    pub kind: RoleKind,
    /// That of its variable.
    pub var: u32,
    /// The one behind its tail.
    pub end: u32,
    /// The steps between them.
    pub steps: usize,
}

/// All path states, and the way of each role.
#[derive(Drop, Debug)]
pub struct PathTree {
    /// The path states, each behind the one above it.
    pub states: Vec<PathState>,
    /// The ways of the roles, by role.
    pub ways: Vec<Way>,
    /// Whether some step takes texts.
    pub texts: bool,
}

fn new_path_state(alloc: Global, parent: u32, step: Step) -> PathState
    ensures { IsFresh result parent step }
{
    PathState {
        parent,
        step,
        child_edges: Vec::new(alloc),
        descendant_edges: Vec::new(alloc),
        own: Vec::new(alloc),
        whole: Vec::new(alloc),
        first: Vec::new(alloc),
        context: Vec::new(alloc),
    }
}

/// The path state of variable 0. Its step isn't read.
fn top(alloc: Global) -> PathState
    ensures { (step : Step) × IsFresh result 0 step }
{
    new_path_state(
        alloc,
        0,
        Step {
            axis: Axis::Child,
            test: Test::AnyNode,
        },
    )
}

/// The number of the next path state. `Memory` where a u32 doesn't count them.
fn next_number(tree: &[PathState]) -> Result<u32, Memory>
    ensures { IfOk result (λ number. number ≡ length tree.now) }
{
    match u32::try_from(tree.len()) {
        Ok(number) => Ok(number),
        Err(_) => Err(Memory),
    }
}

/// Notes a path state below.
fn note_below(state: &mut PathState, axis: Axis, number: u32) -> Result<(), Memory>
    ensures { OnOk result (TellsMore (Below axis) number state.old state.new) }
{
    match axis {
        Axis::Child => state.child_edges.push(number)?,
        Axis::Descendant => state.descendant_edges.push(number)?,
    }
    Ok(())
}

/// Notes a role that ends here.
fn note_end(state: &mut PathState, role: u32, kind: RoleKind) -> Result<(), Memory>
    ensures { OnOk result (TellsMore (Ends (role_kind kind)) role state.old state.new) }
{
    match kind {
        RoleKind::Own => state.own.push(role)?,
        RoleKind::First => state.first.push(role)?,
        RoleKind::Whole => state.whole.push(role)?,
    }
    Ok(())
}

/// Notes a role whose contexts the matches are.
fn note_context(state: &mut PathState, role: u32) -> Result<(), Memory>
    ensures { OnOk result (TellsMore Contexts role state.old state.new) }
{
    state.context.push(role)?;
    Ok(())
}

/// Notes a path state at the one above it.
fn link(tree: &mut [PathState], parent: u32, axis: Axis, number: u32) -> Result<(), Memory>
    ensures { OnOk result (TellMore (Below axis) parent number tree.old tree.new) }
{
    let place = parent as usize;
    if place < tree.len() {
        note_below(&mut tree[place], axis, number)?;
    }
    Ok(())
}

/// Notes a role at the path state at its end.
fn link_end(tree: &mut [PathState], end: u32, role: u32, kind: RoleKind) -> Result<(), Memory>
    ensures { OnOk result (TellMore (Ends (role_kind kind)) end role tree.old tree.new) }
{
    let place = end as usize;
    if place < tree.len() {
        note_end(&mut tree[place], role, kind)?;
    }
    Ok(())
}

/// Notes a role at the path state of its contexts.
fn link_context(tree: &mut [PathState], var: u32, role: u32) -> Result<(), Memory>
    ensures { OnOk result (TellMore Contexts var role tree.old tree.new) }
{
    let place = var as usize;
    if place < tree.len() {
        note_context(&mut tree[place], role)?;
    }
    Ok(())
}

/// Adds a path state, and answers its number.
fn put(alloc: Global, tree: &mut Vec<PathState>, parent: u32, step: &Step) -> Result<u32, Memory>
    ensures number { IfOk result (λ number. number ≡ length tree.old.items) }
    ensures grows { OnOk result (GrowsBelow tree.old.items tree.new.items parent step.now) }
{
    let number = next_number(tree)?;
    let step = step.copy(alloc)?;
    link(tree, parent, step.axis, number)?;
    tree.push(new_path_state(alloc, parent, step))?;
    Ok(number)
}

/// A variable that isn't known counts as variable 0.
fn known(count: usize, var: u32) -> u32
    ensures within { 0 < count → result < count }
    ensures is { (paths : List (List Step)) → length paths ≡ count → path_at paths 0 ≡ [] →
        path_at paths result ≡ path_at paths var }
{
    if (var as usize) < count { var } else { 0 }
}

/// Adds the path states of the variables from 1.
fn put_vars(alloc: Global, tree: &mut Vec<PathState>, vars: &[VarRow]) -> Result<(), Memory>
    ensures { OnOk result ((paths : List (List Step)) (ways : List Way) → Growing tree.old.items paths ways →
        Growing tree.new.items (paths_from paths (map var_row_tree vars.now)) ways) }
{
    for row in vars {
        let parent = known(tree.len(), row.parent.0);
        put(alloc, tree, parent, &row.step)?;
    }
    Ok(())
}

/// Adds the path states of a tail, and answers the last one.
fn put_tail(
    alloc: Global,
    tree: &mut Vec<PathState>,
    var: u32,
    tail: &[Step],
) -> Result<u32, Memory>
    ensures { IfOk result (λ end. ReachesEnd tree.old.items tree.new.items var end tail.now) }
{
    let mut end = var;
    for step in tail {
        end = put(alloc, tree, end, step)?;
    }
    Ok(end)
}

/// The steps behind the variable's path. An own role has none.
fn tail_of(row: &RoleRow) -> &[Step]
    ensures { result.now ≡ tail_with (role_kind row.now.kind) row.now.tail }
{
    match row.kind {
        RoleKind::Own => &[],
        RoleKind::First | RoleKind::Whole => row.tail.items(),
    }
}

/// A first match of an empty tail is the context itself.
fn kind_of(row: &RoleRow) -> RoleKind
    ensures { role_kind result ≡ kind_with (role_kind row.now.kind) row.now.tail }
{
    match row.kind {
        RoleKind::First if row.tail.items().is_empty() => RoleKind::Own,
        kind => kind,
    }
}

/// The way of a role whose variable's path state is known.
fn put_way(alloc: Global, tree: &mut Vec<PathState>, var: u32, row: &RoleRow) -> Result<Way, Memory>
    ensures kind { IfOk result (λ way. role_kind way.kind ≡ kind_with (role_kind row.now.kind) row.now.tail) }
    ensures var { IfOk result (λ way. way.var ≡ var) }
    ensures steps { IfOk result (λ way. way.steps ≡ length (tail_with (role_kind row.now.kind) row.now.tail)) }
    ensures reached { IfOk result (λ way. ReachesEnd tree.old.items tree.new.items var way.end
        (tail_with (role_kind row.now.kind) row.now.tail)) }
{
    let tail = tail_of(row);
    let end = put_tail(alloc, tree, var, tail)?;
    Ok(Way {
        kind: kind_of(row),
        var,
        end,
        steps: tail.len(),
    })
}

/// Notes the role at its path states.
fn note(tree: &mut [PathState], role: u32, way: Way) -> Result<(), Memory>
    ensures { OnOk result (GainsWay tree.old tree.new role way) }
{
    link_end(tree, way.end, role, way.kind)?;
    match way.kind {
        RoleKind::First => {
            link_context(tree, way.var, role)?;
            Ok(())
        }
        RoleKind::Own | RoleKind::Whole => Ok(()),
    }
}

/// The number of a role. `Memory` where a u32 doesn't count the roles.
fn role_at(i: usize) -> Result<u32, Memory>
    ensures { IfOk result (λ role. role ≡ i) }
{
    match u32::try_from(i) {
        Ok(role) => Ok(role),
        Err(_) => Err(Memory),
    }
}

/// Adds the path states of the tails and the ways of the roles.
fn put_ways(alloc: Global, tree: &mut Vec<PathState>, rows: &[RoleRow]) -> Result<Vec<Way>, Memory>
    ensures { IfOk result (λ ways. (plan : PlanTree) →
        Growing tree.old.items (paths_from ([] ∷ []) plan.vars) [] →
        Ended plan tree.new.items ways.items (map role_row_tree rows.now)) }
{
    let count = tree.len();
    let mut ways = Vec::new(alloc);
    for (i, row) in rows.iter().enumerate() {
        let role = role_at(i)?;
        let way = put_way(alloc, tree, known(count, row.var.0), row)?;
        note(tree, role, way)?;
        ways.push(way)?;
    }
    Ok(ways)
}

/// Whether some text passes the test.
fn takes_texts(test: &Test) -> bool
    ensures { result ≡ false → (b : List ℕ) → passes test.now (Text b) ≡ false }
{
    matches!(test, Test::AnyText | Test::AnyNode)
}

/// Whether some text passes the test of one of these path states, but the first.
fn take_texts(tree: &[PathState]) -> bool
    ensures { result ≡ false → (c : ℕ) (s : PathState) (b : List ℕ) → slice_get tree.now c ≡ Some s → 0 < c →
        passes s.step.test (Text b) ≡ false }
{
    for i in 1..tree.len() {
        if takes_texts(&tree[i].step.test) {
            return true;
        }
    }
    false
}

/// The path tree of a plan.
pub(crate) fn tree_of(alloc: Global, plan: &Plan) -> Result<PathTree, Memory>
    ensures { IfOk result (λ t. IsPathTree (plan_tree plan.now) t) }
{
    let mut tree = Vec::new(alloc);
    tree.push(top(alloc))?;
    put_vars(alloc, &mut tree, plan.vars.items())?;
    let ways = put_ways(alloc, &mut tree, plan.roles.items())?;
    let texts = take_texts(&tree);
    Ok(PathTree {
        states: tree,
        ways,
        texts,
    })
}
