//! The text of a plan.
ghost use Rattle.std.specs.Prelude.{◌≡◌, ◌+◌, ◌<◌, ◌^◌, ◌++◌, suc, map, length, codes, IfOk, OnOk};
ghost use Rattle.std.specs.Fmt.{decimal};
ghost use Rattle.gcx_model.specs.CondView.{core_cond_tree};
ghost use Rattle.gcx_model.specs.ItemView.{body_tree, item_tree, off_tree};
ghost use Rattle.gcx_model.specs.PlanView.{plan_tree, role_row_tree, var_row_tree};
ghost use Rattle.xq_normal.specs.ConditionText.{cond_text};
ghost use Rattle.signoff_place.specs.Explained.{body_text, explained, item_line, item_text, loop_text, off_text, role_lines, var_lines};
ghost use Rattle.signoff_place.specs.Sized.{IsSized};
ghost use Rattle.xq_print.specs.Printed.{Prints};

use crate::lines::{put_loop, put_number, put_off, put_role, put_spaces, put_var};
use gcx_base::{Memory, Step, Text, VarId};
use gcx_model::{Body, Cond, Item, Off, Plan, RoleRow, VarRow};
use std::alloc::Global;
use xq_normal::put_cond;

fn put_write_line(out: &mut String, depth: u32, text: &Text) -> Result<(), Memory>
    ensures { OnOk result (Prints out.old out.new (item_line depth (codes "write " ++ text.now))) }
{
    put_spaces(out, depth)?;
    out.push_str("write ")?;
    out.push_str(text.as_str())?;
    out.push_str("\n")?;
    Ok(())
}

fn put_copy_line(out: &mut String, depth: u32, var: VarId) -> Result<(), Memory>
    ensures { OnOk result (Prints out.old out.new (item_line depth (codes "copy " ++ decimal var.0))) }
{
    put_spaces(out, depth)?;
    out.push_str("copy ")?;
    put_number(out, var.0)?;
    out.push_str("\n")?;
    Ok(())
}

fn put_loop_line(
    out: &mut String,
    depth: u32,
    var: VarId,
    from: VarId,
    step: &Step,
) -> Result<(), Memory>
    ensures { OnOk result (Prints out.old out.new (item_line depth (loop_text var.0 from.0 step.now))) }
{
    put_spaces(out, depth)?;
    put_loop(out, var, from, step)?;
    out.push_str("\n")?;
    Ok(())
}

fn put_if_line(out: &mut String, depth: u32, cond: &Cond) -> Result<(), Memory>
    ensures { OnOk result (Prints out.old out.new (item_line depth (codes "if "
        ++ cond_text (core_cond_tree cond.now)))) }
{
    put_spaces(out, depth)?;
    out.push_str("if ")?;
    put_cond(out, cond)?;
    out.push_str("\n")?;
    Ok(())
}

fn put_else_line(out: &mut String, depth: u32) -> Result<(), Memory>
    ensures { OnOk result (Prints out.old out.new (item_line depth (codes "else"))) }
{
    put_spaces(out, depth)?;
    out.push_str("else\n")?;
    Ok(())
}

fn put_off_line(out: &mut String, depth: u32, off: &Off) -> Result<(), Memory>
    ensures { OnOk result (Prints out.old out.new (item_line depth (off_text (off_tree off.now)))) }
{
    put_spaces(out, depth)?;
    put_off(out, off)?;
    out.push_str("\n")?;
    Ok(())
}

/// Deeper than a u32 counts can't be held.
fn deeper(depth: u32) -> Result<u32, Memory>
    ensures { IfOk result (λ more. more ≡ suc depth) }
{
    depth.checked_add(1).ok_or(Memory)
}

#[cycle(explain_items)]
fn put_item(out: &mut String, depth: u32, item: &Item) -> Result<(), Memory>
    ensures { OnOk result (Prints out.old out.new (item_text (item_tree item.now) depth)) }
{
    match item {
        Item::Write(text) => put_write_line(out, depth, text),
        Item::Copy(var) => put_copy_line(out, depth, *var),
        Item::For {
            var,
            from,
            step,
            body,
        } => {
            put_loop_line(out, depth, *var, *from, step)?;
            put_body(out, deeper(depth)?, body)
        }
        Item::If { cond, then, other } => {
            let inside = deeper(depth)?;
            put_if_line(out, depth, cond)?;
            put_body(out, inside, then)?;
            put_else_line(out, depth)?;
            put_body(out, inside, other)
        }
        Item::Off(off) => put_off_line(out, depth, off),
    }
}

#[cycle(explain_items)]
fn put_body(out: &mut String, depth: u32, body: &Body) -> Result<(), Memory>
    ensures { OnOk result (Prints out.old out.new (body_text (body_tree body.now) depth)) }
{
    for item in body.items() {
        put_item(out, depth, item)?;
    }
    Ok(())
}

/// The lines of the variables from 1.
fn put_vars(
    out: &mut String,
    rows: &[VarRow],
    straight: &[bool],
    fsa: &[VarId],
) -> Result<(), Memory>
    requires straight { length straight.now ≡ length rows.now }
    requires fsa { length fsa.now ≡ length rows.now }
    requires few { length rows.now + 1 < 2 ^ 32 }
    ensures { OnOk result (Prints out.old out.new
        (var_lines 1 (map var_row_tree rows.now) straight.now (map (λ x. x.0) fsa.now))) }
{
    for (i, row) in rows.iter().enumerate() {
        put_var(out, i as u32 + 1, row, straight[i], fsa[i])?;
    }
    Ok(())
}

/// The lines of the roles from 0.
fn put_roles(out: &mut String, rows: &[RoleRow]) -> Result<(), Memory>
    requires { length rows.now < 2 ^ 32 }
    ensures { OnOk result (Prints out.old out.new (role_lines 0 (map role_row_tree rows.now))) }
{
    for (i, row) in rows.iter().enumerate() {
        put_role(out, i as u32, row)?;
    }
    Ok(())
}

/// The text of a plan: its variables, its roles, and its body with each item on lines of its own. Each line ends with
/// a line feed.
pub fn explain(alloc: Global, plan: &Plan) -> Result<Text, Memory>
    requires sized { IsSized plan.now }
    ensures { IfOk result (λ text. text ≡ explained (plan_tree plan.now)) }
{
    let mut out = String::new(alloc);
    out.push_str("var 0 root\n")?;
    put_vars(
        &mut out,
        plan.vars.items(),
        plan.straight.items(),
        plan.fsa.items(),
    )?;
    put_roles(&mut out, plan.roles.items())?;
    out.push_str("plan\n")?;
    put_body(&mut out, 0, &plan.body)?;
    Ok(Text::from_string(out))
}
