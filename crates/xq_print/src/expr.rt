//! Expressions, and the query.
ghost use Rattle.std.specs.Prelude.{◌≡◌, ◌++◌, map, codes, IfOk, OnOk, option_map};
ghost use Rattle.gcx_model.specs.Query.{cond_tree, expr_tree, expr_trees, exprs_of, query_trees};
ghost use Rattle.gcx_model.specs.Written.{end_tag, start_tag};
ghost use Rattle.xq_print.specs.Printed.{Prints, clause_text, cond_text, expr_text, expr_texts, filter_text, joined, printed_query};
ghost use Rattle.xq_print.specs.ReadsBack.{ReadsBack};

use crate::cond::{put_cond, put_where};
use crate::path::{put_name, put_path};
use gcx_base::{Memory, Name, Text};
use gcx_model::{Clause, Clauses, Expr, Exprs, QCond, Query};
use std::alloc::Global;

fn put_start_tag(out: &mut String, name: &Name) -> Result<(), Memory>
    ensures { OnOk result (Prints out.old out.new (start_tag name.now)) }
{
    out.push_str("<")?;
    put_name(out, name)?;
    out.push_str(">")?;
    Ok(())
}

fn put_end_tag(out: &mut String, name: &Name) -> Result<(), Memory>
    ensures { OnOk result (Prints out.old out.new (end_tag name.now)) }
{
    out.push_str("</")?;
    put_name(out, name)?;
    out.push_str(">")?;
    Ok(())
}

fn put_clause(out: &mut String, clause: &Clause) -> Result<(), Memory>
    ensures { OnOk result (Prints out.old out.new (clause_text clause.now)) }
{
    out.push_str("$")?;
    put_name(out, &clause.var)?;
    out.push_str(" in ")?;
    put_path(out, &clause.path)
}

fn put_clauses(out: &mut String, clauses: &Clauses) -> Result<(), Memory>
    ensures { OnOk result (Prints out.old out.new (joined (codes ", ") (map clause_text clauses.now))) }
{
    let mut later = false;
    for clause in clauses.items() {
        put_where(out, later, ", ")?;
        put_clause(out, clause)?;
        later = true;
    }
    Ok(())
}

fn put_filter(out: &mut String, filter: &Option<QCond>) -> Result<(), Memory>
    ensures { OnOk result (Prints out.old out.new (filter_text (option_map cond_tree filter.now))) }
{
    match filter {
        Some(cond) => {
            out.push_str(" where ")?;
            put_cond(out, cond)
        }
        None => Ok(()),
    }
}

/// Appends what stands before the body of a loop.
fn put_loop(out: &mut String, clauses: &Clauses, filter: &Option<QCond>) -> Result<(), Memory>
    ensures { OnOk result (Prints out.old out.new (codes "for "
        ++ (joined (codes ", ") (map clause_text clauses.now)
        ++ (filter_text (option_map cond_tree filter.now) ++ codes " return ")))) }
{
    out.push_str("for ")?;
    put_clauses(out, clauses)?;
    put_filter(out, filter)?;
    out.push_str(" return ")?;
    Ok(())
}

/// Appends what stands before the first branch.
fn put_test(out: &mut String, cond: &QCond) -> Result<(), Memory>
    ensures { OnOk result (Prints out.old out.new (codes "if ("
        ++ (cond_text (cond_tree cond.now) ++ codes ") then "))) }
{
    out.push_str("if (")?;
    put_cond(out, cond)?;
    out.push_str(") then ")?;
    Ok(())
}

#[cycle(print_expressions)]
fn put_expr(out: &mut String, expr: &Expr) -> Result<(), Memory>
    ensures { OnOk result (Prints out.old out.new (expr_text (expr_tree expr.now))) }
{
    match expr {
        Expr::Empty => {
            out.push_str("()")?;
            Ok(())
        }
        Expr::Seq(parts) => {
            out.push_str("(")?;
            put_exprs(out, parts)?;
            out.push_str(")")?;
            Ok(())
        }
        Expr::Elem { name, body } => {
            let filled = !body.items().is_empty();
            put_start_tag(out, name)?;
            put_where(out, filled, "{")?;
            put_exprs(out, body)?;
            put_where(out, filled, "}")?;
            put_end_tag(out, name)
        }
        Expr::Path(path) => put_path(out, path),
        Expr::For {
            clauses,
            filter,
            body,
        } => {
            put_loop(out, clauses, filter)?;
            put_expr(out, body)
        }
        Expr::If { cond, then, other } => {
            put_test(out, cond)?;
            put_expr(out, then)?;
            out.push_str(" else ")?;
            put_expr(out, other)
        }
    }
}

#[cycle(print_expressions)]
fn put_exprs(out: &mut String, exprs: &Exprs) -> Result<(), Memory>
    ensures { OnOk result (Prints out.old out.new
        (joined (codes ", ") (expr_texts (exprs_of (expr_trees exprs.now))))) }
{
    let mut later = false;
    for expr in exprs.items() {
        put_where(out, later, ", ")?;
        put_expr(out, expr)?;
        later = true;
    }
    Ok(())
}

/// The text of a query. Parts, members of a sequence and parts of a constructor's body are joined by
/// `, `. A query that some text spells is spelled by this text too, where it is no longer than a query
/// may be.
pub fn print(alloc: Global, query: &Query) -> Result<Text, Memory>
    ensures text { IfOk result (λ text. text ≡ printed_query (query_trees query.now)) }
    ensures reads_back { IfOk result (λ text. ReadsBack text (query_trees query.now)) }
{
    let mut out = String::new(alloc);
    put_exprs(&mut out, &query.parts)?;
    Ok(Text::from_string(out))
}
