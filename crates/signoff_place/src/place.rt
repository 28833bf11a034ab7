//! The statements are put at the ends of bodies.
ghost use Rattle.std.specs.Prelude.{◌≡◌, ◌≤◌, [], map, length, IfOk, OnOk, slice_index_or};
ghost use Rattle.gcx_model.specs.Cores.{Good};
ghost use Rattle.gcx_model.specs.ItemView.{body_tree, item_tree};
ghost use Rattle.gcx_model.specs.Placed.{add_offs, place, place_item, plan_of};
ghost use Rattle.gcx_model.specs.PlanView.{plan_tree, role_row_tree, var_row_tree};
ghost use Rattle.gcx_model.specs.Roles.{roles_of};
ghost use Rattle.gcx_model.specs.Variables.{fsa_list, straight_list, var_rows};
ghost use Rattle.signoff_place.specs.Ends.{ends_of};

use crate::statements::{Known, Offs, ends, rels};
use gcx_base::{Memory, VarId};
use gcx_model::{Body, Core, Item, Off, Plan, RoleRows};
use proj_tree::own_roles;
use std::alloc::Global;
use var_tree::VarTree;

/// The statements at the end of the body of the variable.
fn offs_at(ends: &[Offs], var: VarId) -> &[Off]
    ensures { result.now ≡ slice_index_or ends.now var.0 [] }
{
    match ends.get(var.0 as usize) {
        Some(offs) => offs.items(),
        None => &[],
    }
}

/// Adds the statements at the end of the body of the variable.
fn put_ends(alloc: Global, out: &mut Body, ends: &[Offs], var: VarId) -> Result<(), Memory>
    ensures { OnOk result (body_tree out.new ≡ add_offs (body_tree out.old) (ends_of ends.now var.0)) }
{
    let offs = offs_at(ends, var);
    for off in offs {
        out.push(Item::Off(off.copy(alloc)?))?;
    }
    Ok(())
}

/// The item with the statements in it. Branches have none.
#[cycle(place_statements)]
fn placed_item(alloc: Global, ends: &[Offs], item: &Item) -> Result<Item, Memory>
    ensures { IfOk result (λ placed. item_tree placed ≡ place_item (ends_of ends.now) (item_tree item.now)) }
{
    match item {
        Item::For {
            var,
            from,
            step,
            body,
        } => {
            let step = step.copy(alloc)?;
            let body = placed_body(alloc, ends, *var, body)?;
            Ok(Item::For {
                var: *var,
                from: *from,
                step,
                body,
            })
        }
        _ => item.copy(alloc),
    }
}

/// The body of the variable, with the statements in it and at its end.
#[cycle(place_statements)]
fn placed_body(alloc: Global, ends: &[Offs], var: VarId, body: &Body) -> Result<Body, Memory>
    ensures { IfOk result (λ placed. body_tree placed
        ≡ add_offs (place (ends_of ends.now) (body_tree body.now)) (ends_of ends.now var.0)) }
{
    let mut placed = Body::new(alloc);
    for item in body.items() {
        let item = placed_item(alloc, ends, item)?;
        placed.push(item)?;
    }
    put_ends(alloc, &mut placed, ends, var)?;
    Ok(placed)
}

/// The plan of a core, whose variable tree and roles are given: for each role one statement, at the end of the body of
/// its variable's fsa, by rising role number with the base's own role last.
pub(crate) fn place(
    alloc: Global,
    core: Core,
    tree: VarTree,
    roles: RoleRows,
) -> Result<Plan, Memory>
    requires good { Good (body_tree core.body) }
    requires rows { map var_row_tree core.vars ≡ var_rows (body_tree core.body) }
    requires straight { tree.straight ≡ straight_list (body_tree core.body) }
    requires fsa { map (λ x. x.0) tree.fsa ≡ fsa_list (body_tree core.body) }
    requires roles { map role_row_tree roles ≡ roles_of (body_tree core.body) }
    requires few { length roles ≤ 2000 }
    ensures { IfOk result (λ plan. plan_tree plan ≡ plan_of (body_tree core.body)) }
{
    let known = Known {
        own: own_roles(alloc, roles.items())?,
        rels: rels(alloc, core.vars.items(), tree.straight.items())?,
        fsa: tree.fsa,
    };
    let count = core.vars.items().len() + 1;
    let ends = ends(alloc, &known, roles.items(), count)?;
    let body = placed_body(alloc, &ends, VarId(0), &core.body)?;
    Ok(Plan {
        body,
        vars: core.vars,
        straight: tree.straight,
        fsa: known.fsa,
        roles,
    })
}
