//! The rows of a body's variables.
ghost use Rattle.std.specs.Prelude.{◌≡◌, ◌++◌, map, OnOk};
ghost use Rattle.gcx_model.specs.ItemView.{body_tree, item_tree};
ghost use Rattle.gcx_model.specs.PlanView.{var_row_tree};
ghost use Rattle.gcx_model.specs.Variables.{item_var_rows, var_rows};

use gcx_base::Memory;
use gcx_model::{Body, Item, VarRow, VarRows};
use std::alloc::Global;

/// Puts the rows of an item's variables at the end.
#[cycle(rows)]
fn put_item_rows(alloc: Global, rows: &mut VarRows, item: &Item) -> Result<(), Memory>
    ensures { OnOk result (map var_row_tree rows.new ≡ map var_row_tree rows.old
        ++ item_var_rows (item_tree item.now)) }
{
    match item {
        Item::For {
            from,
            step,
            body,
            ..
        } => {
            let step = step.copy(alloc)?;
            rows.push(VarRow {
                parent: *from,
                step,
            })?;
            put_rows(alloc, rows, body)
        }
        Item::If { then, other, .. } => {
            put_rows(alloc, rows, then)?;
            put_rows(alloc, rows, other)
        }
        Item::Write(_) | Item::Copy(_) | Item::Off(_) => Ok(()),
    }
}

/// Puts the rows of a body's variables at the end, in the order of their loops.
#[cycle(rows)]
pub(crate) fn put_rows(alloc: Global, rows: &mut VarRows, body: &Body) -> Result<(), Memory>
    ensures { OnOk result (map var_row_tree rows.new ≡ map var_row_tree rows.old ++ var_rows (body_tree body.now)) }
{
    for item in body.items() {
        put_item_rows(alloc, rows, item)?;
    }
    Ok(())
}
