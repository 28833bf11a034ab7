//! The text of a core's condition.
ghost use Rattle.std.specs.Prelude.{◌≡◌, ◌++◌, map, codes, OnOk};
ghost use Rattle.gcx_model.specs.CondView.{core_cond_tree, core_cond_trees, core_conds_of, operand_tree};
ghost use Rattle.xq_print.specs.Printed.{Prints, joined, rel_text};
ghost use Rattle.xq_normal.specs.ConditionText.{axis_text, cond_text, cond_texts, operand_text, path_text, step_text, steps_text};
ghost use Rattle.std.specs.Fmt.{decimal};
ghost use Rattle.gcx_model.specs.Core.{Path};

use gcx_base::{Axis, Memory, Rel, Step, VarId};
use gcx_model::{Cond, CondList, Operand};
use xq_print::{put_number, put_string, put_test, put_where, rel_text};

fn axis_text(axis: Axis) -> &'static str
    ensures { result.now ≡ axis_text axis }
{
    match axis {
        Axis::Child => "child::",
        Axis::Descendant => "descendant::",
    }
}

/// Appends a step: its axis, two colons and its test.
pub fn put_step(out: &mut String, step: &Step) -> Result<(), Memory>
    ensures { OnOk result (Prints out.old out.new (step_text step.now)) }
{
    out.push_str(axis_text(step.axis))?;
    put_test(out, &step.test)
}

fn put_joined_steps(out: &mut String, steps: &[Step]) -> Result<(), Memory>
    ensures { OnOk result (Prints out.old out.new (joined (codes "/") (map step_text steps.now))) }
{
    let mut later = false;
    for step in steps {
        put_where(out, later, "/")?;
        put_step(out, step)?;
        later = true;
    }
    Ok(())
}

/// Appends steps with a slash between, or a point where there are none.
pub fn put_steps(out: &mut String, steps: &[Step]) -> Result<(), Memory>
    ensures { OnOk result (Prints out.old out.new (steps_text steps.now)) }
{
    if steps.is_empty() {
        out.push_str(".")?;
        return Ok(());
    }
    put_joined_steps(out, steps)
}

fn put_var(out: &mut String, var: VarId) -> Result<(), Memory>
    ensures { OnOk result (Prints out.old out.new (decimal var.0)) }
{
    let number = var.0;
    write!(out, "{number}")?;
    Ok(())
}

fn put_path(out: &mut String, var: VarId, steps: &[Step]) -> Result<(), Memory>
    ensures { OnOk result (Prints out.old out.new (path_text var.0 steps.now)) }
{
    put_var(out, var)?;
    out.push_str("/")?;
    put_steps(out, steps)
}

fn put_path_operand(out: &mut String, var: VarId, steps: &[Step]) -> Result<(), Memory>
    ensures { OnOk result (Prints out.old out.new (operand_text (Path var.0 steps.now))) }
{
    if steps.is_empty() {
        return put_var(out, var);
    }
    put_path(out, var, steps)
}

fn put_operand(out: &mut String, operand: &Operand) -> Result<(), Memory>
    ensures { OnOk result (Prints out.old out.new (operand_text (operand_tree operand.now))) }
{
    match operand {
        Operand::Path { var, steps } => put_path_operand(out, *var, steps.items()),
        Operand::Str(text) => put_string(out, text),
        Operand::Num(units) => put_number(out, *units),
    }
}

fn put_exists(out: &mut String, var: VarId, steps: &[Step]) -> Result<(), Memory>
    ensures { OnOk result (Prints out.old out.new (codes "exists(" ++ (path_text var.0 steps.now ++ codes ")"))) }
{
    out.push_str("exists(")?;
    put_path(out, var, steps)?;
    out.push_str(")")?;
    Ok(())
}

fn put_comparison(out: &mut String, left: &Operand, rel: Rel, right: &Operand) -> Result<(), Memory>
    ensures { OnOk result (Prints out.old out.new (codes "("
        ++ (operand_text (operand_tree left.now)
        ++ (rel_text rel ++ (operand_text (operand_tree right.now) ++ codes ")"))))) }
{
    out.push_str("(")?;
    put_operand(out, left)?;
    out.push_str(rel_text(rel))?;
    put_operand(out, right)?;
    out.push_str(")")?;
    Ok(())
}

/// Appends a condition as the text of a plan has it. The limit on conditions counts this text.
#[cycle(print_conditions)]
pub fn put_cond(out: &mut String, cond: &Cond) -> Result<(), Memory>
    ensures { OnOk result (Prints out.old out.new (cond_text (core_cond_tree cond.now))) }
{
    match cond {
        Cond::True => {
            out.push_str("true()")?;
            Ok(())
        }
        Cond::Exists { var, steps } => put_exists(out, *var, steps.items()),
        Cond::Compare { left, rel, right } => put_comparison(out, left, *rel, right),
        Cond::Not(inner) => {
            out.push_str("not(")?;
            put_cond(out, inner)?;
            out.push_str(")")?;
            Ok(())
        }
        Cond::All(members) => {
            out.push_str("all(")?;
            put_members(out, members)?;
            out.push_str(")")?;
            Ok(())
        }
        Cond::Any(members) => {
            out.push_str("any(")?;
            put_members(out, members)?;
            out.push_str(")")?;
            Ok(())
        }
    }
}

#[cycle(print_conditions)]
fn put_members(out: &mut String, members: &CondList) -> Result<(), Memory>
    ensures { OnOk result (Prints out.old out.new
        (joined (codes ", ") (cond_texts (core_conds_of (core_cond_trees members.now))))) }
{
    let mut later = false;
    for member in members.items() {
        put_where(out, later, ", ")?;
        put_cond(out, member)?;
        later = true;
    }
    Ok(())
}
