//! The projection tree: the nodes of variables, and behind each of its roles' tails.
ghost use Rattle.std.specs.Prelude.{◌≡◌, ◌++◌, ◌∷◌, ◌≤◌, ◌==◌, [], suc, map, length, cond, Some, None, option_map, slice_index_or, IfOk, OnOk, OnErr};
ghost use Rattle.gcx_model.specs.Cores.{Good};
ghost use Rattle.gcx_model.specs.ItemView.{body_tree, role_kind};
ghost use Rattle.gcx_model.specs.Placed.{is_own_kind};
ghost use Rattle.gcx_model.specs.PlanView.{role_row_tree, var_row_tree};
ghost use Rattle.gcx_model.specs.Roles.{roles_of};
ghost use Rattle.gcx_model.specs.Variables.{var_rows};
ghost use Rattle.proj_tree.specs.Own.{own_list};
ghost use Rattle.proj_tree.specs.Projection.{HasRolePaths, node_tree, other_nodes, projected, role_nodes, root_node, step_nodes, tail_nodes, var_node, var_nodes};
ghost use Rattle.proj_tree.specs.Adding.{AddsNodes, nodes_of_vars};

use gcx_base::{Memory, Role, Step};
use gcx_model::{Core, RoleKind, RoleRow, RoleRows, VarRow};
use std::alloc::Global;
use std::marker::Model;

/// A node of a projection tree: the number of the node above it, the step from there, and its role.
#[derive(Drop, Debug)]
pub struct ProjNode {
    pub parent: Option<u32>,
    pub step: Option<Step>,
    pub role: Option<Role>,
}

/// The nodes of a projection tree by their numbers, seen as a list.
#[derive(Drop, Debug)]
pub struct ProjNodes {
    nodes: Vec<ProjNode>,
}

impl Model for ProjNodes {
    ghost use Rattle.std.specs.Prelude.{List};
    ghost use Rattle.proj_tree.specs.declared.nodes.ProjNode.{ProjNode};

    ghost Value = { List ProjNode };

    ghost view = { λ l. l.nodes.items };
}

impl ProjNodes {
    /// The empty list.
    pub fn new(alloc: Global) -> ProjNodes
        ensures { result ≡ [] }
    {
        ProjNodes {
            nodes: Vec::new(alloc),
        }
    }

    /// Adds a node at the end. After `Memory` the list is unchanged.
    pub fn push(&mut self, node: ProjNode) -> Result<(), Memory>
        ensures ok { OnOk result (self.new ≡ self.old ++ node ∷ []) }
        ensures err { OnErr result (self.new ≡ self.old) }
    {
        self.nodes.push(node)?;
        Ok(())
    }

    /// The nodes in order.
    pub fn items(&self) -> &[ProjNode]
        ensures { result.now ≡ self.now }
    {
        &self.nodes
    }
}

/// A node for each variable with its own role, and then for each other role one for each step of its tail, or one
/// without a step where the tail is empty.
#[derive(Drop, Debug)]
pub struct ProjTree {
    pub nodes: ProjNodes,
}

/// Adds the role where it is a variable's own.
fn put_own(own: &mut Vec<Role>, role: Role, row: &RoleRow) -> Result<(), Memory>
    ensures { OnOk result (map (λ r. r.0) own.new.items ≡ map (λ r. r.0) own.old.items
        ++ cond (is_own_kind (role_kind row.now.kind)) (role.0 ∷ []) []) }
{
    match row.kind {
        RoleKind::Own => {
            own.push(role)?;
            Ok(())
        }
        RoleKind::First | RoleKind::Whole => Ok(()),
    }
}

/// The own roles of the variables from 0.
pub fn own_roles(alloc: Global, roles: &[RoleRow]) -> Result<Vec<Role>, Memory>
    requires { length roles.now ≤ 2000 }
    ensures { IfOk result (λ own. map (λ r. r.0) own.items ≡ own_list 0 (map role_row_tree roles.now)) }
{
    let mut own = Vec::new(alloc);
    for (i, row) in roles.iter().enumerate() {
        put_own(&mut own, Role(i as u32), row)?;
    }
    Ok(own)
}

/// Adds the node of variable 0.
fn put_root(nodes: &mut ProjNodes, role: Role) -> Result<(), Memory>
    ensures { OnOk result (AddsNodes nodes.old nodes.new (root_node role.0 ∷ [])) }
{
    nodes.push(ProjNode {
        parent: None,
        step: None,
        role: Some(role),
    })
}

/// Adds the node of another variable.
fn put_var(alloc: Global, nodes: &mut ProjNodes, row: &VarRow, role: Role) -> Result<(), Memory>
    ensures { OnOk result (AddsNodes nodes.old nodes.new (var_node role.0 (var_row_tree row.now) ∷ [])) }
{
    let step = row.step.copy(alloc)?;
    nodes.push(ProjNode {
        parent: Some(row.parent.0),
        step: Some(step),
        role: Some(role),
    })
}

/// Adds the nodes of all variables, whose own roles are given from variable 0 on.
fn put_vars(
    alloc: Global,
    nodes: &mut ProjNodes,
    vars: &[VarRow],
    own: &[Role],
) -> Result<(), Memory>
    requires { length own.now ≡ suc (length vars.now) }
    ensures { OnOk result (AddsNodes nodes.old nodes.new (nodes_of_vars own.now vars.now)) }
{
    put_root(nodes, own[0])?;
    for (i, row) in vars.iter().enumerate() {
        put_var(alloc, nodes, row, own[i + 1])?;
    }
    Ok(())
}

/// The number of the next node. `Memory` where a u32 doesn't count the nodes: dozens of bytes each, these would be
/// hundreds of gigabytes. No clause bounds the steps of a tail, so the answer can't be ruled out.
fn next_number(nodes: &ProjNodes) -> Result<u32, Memory>
    ensures { IfOk result (λ number. number ≡ length nodes.now) }
{
    match u32::try_from(nodes.items().len()) {
        Ok(number) => Ok(number),
        Err(_) => Err(Memory),
    }
}

/// The role, at the last step alone.
fn role_behind(rest: &[Step], role: Role) -> Option<Role>
    ensures { option_map (λ r. r.0) result ≡ cond (length rest.now == 0) (Some role.0) None }
{
    if rest.is_empty() { Some(role) } else { None }
}

/// Adds a node for a step.
fn put_step(
    alloc: Global,
    nodes: &mut ProjNodes,
    from: u32,
    step: &Step,
    role: Option<Role>,
) -> Result<(), Memory>
    ensures { OnOk result (AddsNodes nodes.old nodes.new
        (record { parent = Some from; step = Some step.now; role = option_map (λ r. r.0) role } ∷ [])) }
{
    let step = step.copy(alloc)?;
    nodes.push(ProjNode {
        parent: Some(from),
        step: Some(step),
        role,
    })
}

/// Adds a node for each step from `from` on. The last one has the role.
fn put_steps(
    alloc: Global,
    nodes: &mut ProjNodes,
    from: u32,
    steps: &[Step],
    role: Role,
) -> Result<(), Memory>
    ensures { OnOk result (AddsNodes nodes.old nodes.new (step_nodes from (length nodes.old) role.0 steps.now)) }
{
    let mut above = from;
    let mut rest = steps;
    while let Some((step, behind)) = rest.split_first() {
        let number = next_number(nodes)?;
        put_step(alloc, nodes, above, step, role_behind(behind, role))?;
        above = number;
        rest = behind;
    }
    Ok(())
}

/// Adds the node of a role with an empty tail.
fn put_at(nodes: &mut ProjNodes, from: u32, role: Role) -> Result<(), Memory>
    ensures { OnOk result (AddsNodes nodes.old nodes.new
        (record { parent = Some from; step = None; role = Some role.0 } ∷ [])) }
{
    nodes.push(ProjNode {
        parent: Some(from),
        step: None,
        role: Some(role),
    })
}

/// Adds the nodes of a role's tail.
fn put_tail(
    alloc: Global,
    nodes: &mut ProjNodes,
    from: u32,
    tail: &[Step],
    role: Role,
) -> Result<(), Memory>
    ensures { OnOk result (AddsNodes nodes.old nodes.new (tail_nodes from (length nodes.old) role.0 tail.now)) }
{
    if tail.is_empty() {
        put_at(nodes, from, role)
    } else {
        put_steps(alloc, nodes, from, tail, role)
    }
}

/// Adds the nodes of a role that is no variable's own.
fn put_role(alloc: Global, nodes: &mut ProjNodes, role: Role, row: &RoleRow) -> Result<(), Memory>
    ensures { OnOk result (AddsNodes nodes.old nodes.new
        (role_nodes (length nodes.old) role.0 (role_row_tree row.now))) }
{
    match row.kind {
        RoleKind::Own => Ok(()),
        RoleKind::First | RoleKind::Whole => put_tail(
            alloc,
            nodes,
            row.var.0,
            row.tail.items(),
            role,
        ),
    }
}

/// Adds the nodes of all roles that are no variable's own.
fn put_roles(alloc: Global, nodes: &mut ProjNodes, roles: &[RoleRow]) -> Result<(), Memory>
    requires { length roles.now ≤ 2000 }
    ensures { OnOk result (AddsNodes nodes.old nodes.new
        (other_nodes (length nodes.old) 0 (map role_row_tree roles.now))) }
{
    for (i, row) in roles.iter().enumerate() {
        put_role(alloc, nodes, Role(i as u32), row)?;
    }
    Ok(())
}

/// The projection tree of a core, whose roles are given.
pub fn projection(alloc: Global, core: &Core, roles: &RoleRows) -> Result<ProjTree, Memory>
    requires good { Good (body_tree core.now.body) }
    requires rows { map var_row_tree core.now.vars ≡ var_rows (body_tree core.now.body) }
    requires roles { map role_row_tree roles.now ≡ roles_of (body_tree core.now.body) }
    requires few { length roles.now ≤ 2000 }
    ensures nodes { IfOk result (λ tree. map node_tree tree.nodes ≡ projected (body_tree core.now.body)) }
    ensures paths { IfOk result (λ tree. HasRolePaths (body_tree core.now.body) (map node_tree tree.nodes)) }
{
    let own = own_roles(alloc, roles.items())?;
    let mut nodes = ProjNodes::new(alloc);
    put_vars(alloc, &mut nodes, core.vars.items(), &own)?;
    put_roles(alloc, &mut nodes, roles.items())?;
    Ok(ProjTree { nodes })
}
