//! The roles of a core.
ghost use Rattle.std.specs.Prelude.{◌≡◌, ◌≤◌, ◌+◌, ◌++◌, ◌∷◌, [], map, length, IfOk, IfErr, OnOk, Some, None, nat_lt, slice_index_or};
ghost use Rattle.gcx_model.specs.Core.{First};
ghost use Rattle.gcx_model.specs.Cores.{Good};
ghost use Rattle.gcx_model.specs.CondView.{core_cond_tree, core_cond_trees, core_conds_of, operand_tree};
ghost use Rattle.gcx_model.specs.ItemView.{body_tree, item_tree};
ghost use Rattle.gcx_model.specs.Paths.{any};
ghost use Rattle.gcx_model.specs.PlanView.{role_row_tree, var_row_tree};
ghost use Rattle.gcx_model.specs.Roles.{cond_rows, conds_rows, item_rows, operand_rows, own_row, roles_of, rows, whole_row};
ghost use Rattle.gcx_model.specs.Variables.{var_rows};
ghost use Rattle.gcx_model.specs.Refusals.{UnlessMemory};
ghost use Rattle.proj_tree.specs.Depths.{descendants, is_deep, roles_refusal};
ghost use Rattle.proj_tree.specs.Adding.{AddsRows};

use crate::depth::{depths, is_deeper};
use gcx_base::{Memory, Steps, VarId};
use gcx_model::{
    Body, Cond, CondList, Core, Item, Operand, QueryFault, RoleKind, RoleRow, RoleRows, What,
};
use std::alloc::Global;

/// The most roles of a plan.
const MOST_ROLES: usize = 2_000;

/// The most descendant steps on the path of a role.
const MOST_DESCENDANTS: u32 = 6;

/// Adds the role `Own` of a variable.
fn put_own(alloc: Global, out: &mut RoleRows, var: VarId) -> Result<(), Memory>
    ensures { OnOk result (AddsRows out.old out.new (own_row var.0 ∷ [])) }
{
    out.push(RoleRow {
        var,
        tail: Steps::new(alloc),
        kind: RoleKind::Own,
    })
}

/// Adds the role of a copy.
fn put_copy(alloc: Global, out: &mut RoleRows, var: VarId) -> Result<(), Memory>
    ensures { OnOk result (AddsRows out.old out.new (whole_row var.0 ∷ [])) }
{
    out.push(RoleRow {
        var,
        tail: Steps::new(alloc),
        kind: RoleKind::Whole,
    })
}

/// Adds the role of a path that is only looked for.
fn put_first(alloc: Global, out: &mut RoleRows, var: VarId, steps: &Steps) -> Result<(), Memory>
    ensures { OnOk result (AddsRows out.old out.new (record { var = var.0; tail = steps.now; kind = First } ∷ [])) }
{
    let tail = steps.copy(alloc)?;
    out.push(RoleRow {
        var,
        tail,
        kind: RoleKind::First,
    })
}

/// Adds the role of an operand that is a path.
fn put_operand(alloc: Global, out: &mut RoleRows, operand: &Operand) -> Result<(), Memory>
    ensures { OnOk result (AddsRows out.old out.new (operand_rows (operand_tree operand.now))) }
{
    match operand {
        Operand::Path { var, steps } => {
            let tail = steps.copy(alloc)?;
            out.push(RoleRow {
                var: *var,
                tail,
                kind: RoleKind::Whole,
            })
        }
        Operand::Str(_) | Operand::Num(_) => Ok(()),
    }
}

/// Adds the roles of both sides of a comparison, the left one's first.
fn put_comparison(
    alloc: Global,
    out: &mut RoleRows,
    left: &Operand,
    right: &Operand,
) -> Result<(), Memory>
    ensures { OnOk result (AddsRows out.old out.new (operand_rows (operand_tree left.now)
        ++ operand_rows (operand_tree right.now))) }
{
    put_operand(alloc, out, left)?;
    put_operand(alloc, out, right)
}

/// Adds the roles of a condition.
#[cycle(read_conditions)]
fn put_cond(alloc: Global, out: &mut RoleRows, cond: &Cond) -> Result<(), Memory>
    ensures { OnOk result (AddsRows out.old out.new (cond_rows (core_cond_tree cond.now))) }
{
    match cond {
        Cond::True => Ok(()),
        Cond::Exists { var, steps } => put_first(alloc, out, *var, steps),
        Cond::Compare { left, right, .. } => put_comparison(alloc, out, left, right),
        Cond::Not(inner) => put_cond(alloc, out, inner),
        Cond::All(members) | Cond::Any(members) => put_conds(alloc, out, members),
    }
}

/// Adds the roles of the conditions, one behind another.
#[cycle(read_conditions)]
fn put_conds(alloc: Global, out: &mut RoleRows, conds: &CondList) -> Result<(), Memory>
    ensures { OnOk result (AddsRows out.old out.new (conds_rows (core_conds_of (core_cond_trees conds.now)))) }
{
    for cond in conds.items() {
        put_cond(alloc, out, cond)?;
    }
    Ok(())
}

/// Adds the roles of an item.
#[cycle(read_roles)]
fn put_item(alloc: Global, out: &mut RoleRows, item: &Item) -> Result<(), Memory>
    ensures { OnOk result (AddsRows out.old out.new (item_rows (item_tree item.now))) }
{
    match item {
        Item::Write(_) | Item::Off(_) => Ok(()),
        Item::Copy(var) => put_copy(alloc, out, *var),
        Item::For { var, body, .. } => {
            put_own(alloc, out, *var)?;
            put_body(alloc, out, body)
        }
        Item::If { cond, then, other } => {
            put_cond(alloc, out, cond)?;
            put_body(alloc, out, then)?;
            put_body(alloc, out, other)
        }
    }
}

/// Adds the roles of a body, as it is read from the left.
#[cycle(read_roles)]
fn put_body(alloc: Global, out: &mut RoleRows, body: &Body) -> Result<(), Memory>
    ensures { OnOk result (AddsRows out.old out.new (rows (body_tree body.now))) }
{
    for item in body.items() {
        put_item(alloc, out, item)?;
    }
    Ok(())
}

/// All roles of the core.
fn all_roles(alloc: Global, core: &Core) -> Result<RoleRows, Memory>
    ensures { IfOk result (λ rows. map role_row_tree rows ≡ roles_of (body_tree core.now.body)) }
{
    let mut rows = RoleRows::new(alloc);
    put_own(alloc, &mut rows, VarId(0))?;
    put_body(alloc, &mut rows, &core.body)?;
    Ok(rows)
}

/// Whether some role reaches too deep, where the counts of the variables from 0 are known.
fn some_deep(known: &[u32], rows: &[RoleRow]) -> bool
    ensures { result ≡ any (λ r. nat_lt 6 (slice_index_or known.now r.var 0 + descendants r.tail))
        (map role_row_tree rows.now) }
{
    for row in rows {
        if is_deeper(known, row.var, row.tail.items(), MOST_DESCENDANTS) {
            return true;
        }
    }
    false
}

/// Whether the path of some role's variable and the role's tail have more than six descendant steps together.
fn some_too_deep(alloc: Global, core: &Core, rows: &[RoleRow]) -> Result<bool, Memory>
    requires good { Good (body_tree core.now.body) }
    requires rows { map var_row_tree core.now.vars ≡ var_rows (body_tree core.now.body) }
    ensures { IfOk result (λ deep. deep ≡ any (is_deep (body_tree core.now.body)) (map role_row_tree rows.now)) }
{
    let known = depths(alloc, core.vars.items())?;
    Ok(some_deep(&known, rows))
}

/// The roles of a core. `TooLarge` of Roles exactly where there are more than 2,000, else of Descendants exactly where
/// the path of a role's variable and the role's tail have more than six descendant steps together.
pub fn roles(alloc: Global, core: &Core) -> Result<RoleRows, QueryFault>
    requires good { Good (body_tree core.now.body) }
    requires rows { map var_row_tree core.now.vars ≡ var_rows (body_tree core.now.body) }
    ensures rows { IfOk result (λ rows. map role_row_tree rows ≡ roles_of (body_tree core.now.body)) }
    ensures few { OnOk result (length (roles_of (body_tree core.now.body)) ≤ 2000) }
    ensures within { OnOk result (roles_refusal (body_tree core.now.body) ≡ None) }
    ensures refused { IfErr result (UnlessMemory (λ fault. roles_refusal (body_tree core.now.body) ≡ Some fault)) }
{
    let rows = all_roles(alloc, core)?;
    if rows.items().len() > MOST_ROLES {
        return Err(QueryFault::TooLarge(What::Roles, MOST_ROLES as u64));
    }
    let deep = some_too_deep(alloc, core, rows.items())?;
    if deep {
        return Err(QueryFault::TooLarge(What::Descendants, u64::from(MOST_DESCENDANTS)));
    }
    Ok(rows)
}
