//! Conditions.
ghost use Rattle.std.specs.Prelude.{◌≡◌, ◌++◌, [], codes, OnOk, if◌then◌else◌};
ghost use Rattle.gcx_model.specs.Query.{cond_tree, cond_trees, conds_of};
ghost use Rattle.xq_print.specs.Printed.{Prints, cond_text, is_enclosed, joined, joint_text, member_texts, operand_text, path_text, rel_text};

use crate::literal::{put_number, put_string};
use crate::path::put_path;
use gcx_base::{Memory, Rel};
use gcx_model::{PathExpr, QCond, QConds, QOperand};

/// What stands between the members of a list of conditions.
#[derive(Clone, Copy, Debug)]
pub(crate) enum Joint {
    And,
    Or,
}

impl Joint {
    fn text(self) -> &'static str
        ensures { result.now ≡ joint_text self }
    {
        match self {
            Joint::And => " and ",
            Joint::Or => " or ",
        }
    }

    /// Whether the member stands in parentheses: an `All` or `Any` inside an `All`, and an `Any` inside
    /// an `Any`.
    fn encloses(self, member: &QCond) -> bool
        ensures { result ≡ is_enclosed self (cond_tree member.now) }
    {
        match (self, member) {
            (_, QCond::Any(_)) | (Joint::And, QCond::All(_)) => true,
            _ => false,
        }
    }
}

/// Appends the text where it is wanted, and else nothing.
pub fn put_where(out: &mut String, wanted: bool, text: &str) -> Result<(), Memory>
    ensures { OnOk result (Prints out.old out.new (if wanted then text.now else [])) }
{
    if wanted {
        out.push_str(text)?;
    }
    Ok(())
}

/// How a relation is written, with a space on each side.
pub fn rel_text(rel: Rel) -> &'static str
    ensures { result.now ≡ rel_text rel }
{
    match rel {
        Rel::Eq => " = ",
        Rel::Ne => " != ",
        Rel::Lt => " < ",
        Rel::Le => " <= ",
        Rel::Gt => " > ",
        Rel::Ge => " >= ",
    }
}

fn put_operand(out: &mut String, operand: &QOperand) -> Result<(), Memory>
    ensures { OnOk result (Prints out.old out.new (operand_text operand.now)) }
{
    match operand {
        QOperand::Path(path) => put_path(out, path),
        QOperand::Str(text) => put_string(out, text),
        QOperand::Num(units) => put_number(out, *units),
    }
}

fn put_exists(out: &mut String, path: &PathExpr) -> Result<(), Memory>
    ensures { OnOk result (Prints out.old out.new (codes "exists(" ++ (path_text path.now ++ codes ")"))) }
{
    out.push_str("exists(")?;
    put_path(out, path)?;
    out.push_str(")")?;
    Ok(())
}

fn put_comparison(
    out: &mut String,
    left: &QOperand,
    rel: Rel,
    right: &QOperand,
) -> Result<(), Memory>
    ensures { OnOk result (Prints out.old out.new (operand_text left.now ++ (rel_text rel ++ operand_text right.now))) }
{
    put_operand(out, left)?;
    out.push_str(rel_text(rel))?;
    put_operand(out, right)
}

#[cycle(print_conditions)]
pub(crate) fn put_cond(out: &mut String, cond: &QCond) -> Result<(), Memory>
    ensures { OnOk result (Prints out.old out.new (cond_text (cond_tree cond.now))) }
{
    match cond {
        QCond::True => {
            out.push_str("true()")?;
            Ok(())
        }
        QCond::Exists(path) => put_exists(out, path),
        QCond::Compare { left, rel, right } => put_comparison(out, left, *rel, right),
        QCond::Not(inner) => {
            out.push_str("not(")?;
            put_cond(out, inner)?;
            out.push_str(")")?;
            Ok(())
        }
        QCond::All(members) => put_members(out, Joint::And, members),
        QCond::Any(members) => put_members(out, Joint::Or, members),
    }
}

#[cycle(print_conditions)]
fn put_members(out: &mut String, joint: Joint, members: &QConds) -> Result<(), Memory>
    ensures { OnOk result (Prints out.old out.new
        (joined (joint_text joint) (member_texts joint (conds_of (cond_trees members.now))))) }
{
    let mut later = false;
    for member in members.items() {
        let enclosed = joint.encloses(member);
        put_where(out, later, joint.text())?;
        put_where(out, enclosed, "(")?;
        put_cond(out, member)?;
        put_where(out, enclosed, ")")?;
        later = true;
    }
    Ok(())
}
