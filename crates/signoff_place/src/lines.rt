//! The lines of variables, roles and items.
ghost use Rattle.std.specs.Prelude.{◌≡◌, OnOk};
ghost use Rattle.std.specs.Fmt.{decimal};
ghost use Rattle.gcx_model.specs.ItemView.{off_tree, role_kind};
ghost use Rattle.gcx_model.specs.PlanView.{role_row_tree, var_row_tree};
ghost use Rattle.signoff_place.specs.Explained.{kind_text, loop_text, off_text, reach_text, role_line, role_text, spaces, var_line};
ghost use Rattle.xq_print.specs.Printed.{Prints};

use gcx_base::{Memory, Step, VarId};
use gcx_model::{Off, RoleKind, RoleRow, VarRow};
use xq_normal::{put_step, put_steps};

pub(crate) fn put_number(out: &mut String, number: u32) -> Result<(), Memory>
    ensures { OnOk result (Prints out.old out.new (decimal number)) }
{
    write!(out, "{number}")?;
    Ok(())
}

fn put_reach(out: &mut String, straight: bool, fsa: VarId) -> Result<(), Memory>
    ensures { OnOk result (Prints out.old out.new (reach_text straight fsa.0)) }
{
    if straight {
        out.push_str("straight")?;
        return Ok(());
    }
    out.push_str("fsa ")?;
    put_number(out, fsa.0)
}

/// Appends the line of the variable with this number.
pub(crate) fn put_var(
    out: &mut String,
    number: u32,
    row: &VarRow,
    straight: bool,
    fsa: VarId,
) -> Result<(), Memory>
    ensures { OnOk result (Prints out.old out.new (var_line number (var_row_tree row.now) straight fsa.0)) }
{
    out.push_str("var ")?;
    put_number(out, number)?;
    out.push_str(" of ")?;
    put_number(out, row.parent.0)?;
    out.push_str(" ")?;
    put_step(out, &row.step)?;
    out.push_str(" ")?;
    put_reach(out, straight, fsa)?;
    out.push_str("\n")?;
    Ok(())
}

fn kind_text(kind: RoleKind) -> &'static str
    ensures { result.now ≡ kind_text (role_kind kind) }
{
    match kind {
        RoleKind::Own => "own",
        RoleKind::First => "first",
        RoleKind::Whole => "whole",
    }
}

/// Appends what stands behind a role's number. A variable's own role has no steps.
fn put_role_text(out: &mut String, row: &RoleRow) -> Result<(), Memory>
    ensures { OnOk result (Prints out.old out.new (role_text (role_kind row.now.kind) row.now.var.0 row.now.tail)) }
{
    out.push_str(kind_text(row.kind))?;
    out.push_str(" ")?;
    put_number(out, row.var.0)?;
    match row.kind {
        RoleKind::Own => Ok(()),
        RoleKind::First | RoleKind::Whole => {
            out.push_str(" ")?;
            put_steps(out, row.tail.items())
        }
    }
}

/// Appends the line of the role with this number.
pub(crate) fn put_role(out: &mut String, number: u32, row: &RoleRow) -> Result<(), Memory>
    ensures { OnOk result (Prints out.old out.new (role_line number (role_row_tree row.now))) }
{
    out.push_str("role ")?;
    put_number(out, number)?;
    out.push_str(" ")?;
    put_role_text(out, row)?;
    out.push_str("\n")?;
    Ok(())
}

/// Appends a space for each loop or branch round an item.
pub(crate) fn put_spaces(out: &mut String, depth: u32) -> Result<(), Memory>
    ensures { OnOk result (Prints out.old out.new (spaces depth)) }
{
    for _ in 0..depth {
        out.push_str(" ")?;
    }
    Ok(())
}

pub(crate) fn put_loop(out: &mut String, var: VarId, from: VarId, step: &Step) -> Result<(), Memory>
    ensures { OnOk result (Prints out.old out.new (loop_text var.0 from.0 step.now)) }
{
    out.push_str("for ")?;
    put_number(out, var.0)?;
    out.push_str(" in ")?;
    put_number(out, from.0)?;
    out.push_str("/")?;
    put_step(out, step)
}

pub(crate) fn put_off(out: &mut String, off: &Off) -> Result<(), Memory>
    ensures { OnOk result (Prints out.old out.new (off_text (off_tree off.now))) }
{
    out.push_str("off ")?;
    put_number(out, off.base.0)?;
    out.push_str(" ")?;
    put_number(out, off.role.0)?;
    out.push_str(" ")?;
    put_steps(out, off.rel.items())?;
    out.push_str(" ")?;
    put_steps(out, off.tail.items())?;
    out.push_str(" ")?;
    out.push_str(kind_text(off.kind))?;
    Ok(())
}
