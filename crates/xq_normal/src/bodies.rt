//! Queries as bodies, with each `If` where the query has it.
ghost use Rattle.std.specs.Prelude.{◌≡◌, ◌+◌, ◌<◌, ◌^◌, length, IfOk, OnOk, option_map};
ghost use Rattle.gcx_model.specs.Core.{Copy, Write};
ghost use Rattle.gcx_model.specs.ItemView.{body_tree, item_tree};
ghost use Rattle.gcx_model.specs.Query.{cond_tree, expr_tree, expr_trees, exprs_of};
ghost use Rattle.gcx_model.specs.Normal.{all_loops, clause_loops, loops, nest, one, start_var};
ghost use Rattle.gcx_model.specs.Written.{end_tag, start_tag};
ghost use Rattle.xq_normal.specs.Raw.{innermost, raw_expr, raw_exprs, raw_filtered, raw_turns};
ghost use Rattle.xq_normal.specs.Scopes.{names_of};
ghost use Rattle.xq_normal.specs.Calls.{PutsItems};

use crate::conditions::core_cond;
use crate::scope::{Binding, start_of};
use gcx_base::{Memory, Name, Step, Text, VarId};
use gcx_model::{Body, Clause, Expr, Exprs, Item, PathExpr, QCond};
use std::alloc::Global;
use xq_print::put_name;

/// A body of one item.
pub(crate) fn single(alloc: Global, item: Item) -> Result<Body, Memory>
    ensures { IfOk result (λ body. body_tree body ≡ one (item_tree item)) }
{
    let mut body = Body::new(alloc);
    body.push(item)?;
    Ok(body)
}

/// Puts an item at the end.
pub(crate) fn put_item(out: &mut Body, item: Item) -> Result<(), Memory>
    ensures { OnOk result (PutsItems out.old out.new (one (item_tree item))) }
{
    out.push(item)
}

/// Puts the items at the end.
pub(crate) fn put_body(out: &mut Body, body: Body) -> Result<(), Memory>
    ensures { OnOk result (PutsItems out.old out.new (body_tree body)) }
{
    for item in body.members {
        put_item(out, item)?;
    }
    Ok(())
}

/// The body inside nested loops over the steps from a variable. `var` is the number of the first loop.
fn nested(alloc: Global, from: VarId, steps: &[Step], var: u32, body: Body) -> Result<Body, Memory>
    requires { var + length steps.now < 2 ^ 32 }
    ensures { IfOk result (λ loops. body_tree loops ≡ nest from.0 steps.now var (λ y. body_tree body)) }
{
    match steps.split_first() {
        Some((step, rest)) => {
            let body = nested(alloc, VarId(var), rest, var + 1, body)?;
            let step = step.copy(alloc)?;
            let var = VarId(var);
            single(
                alloc,
                Item::For {
                    var,
                    from,
                    step,
                    body,
                },
            )
        }
        None => Ok(body),
    }
}

/// The variable of the innermost of `count` loops, the first of which has the number `var`.
fn innermost(from: VarId, count: u32, var: u32) -> VarId
    requires { var + count < 2 ^ 32 }
    ensures { result.0 ≡ innermost from.0 count var }
{
    if count == 0 {
        from
    } else {
        VarId(var + count - 1)
    }
}

fn start_tag(alloc: Global, name: &Name) -> Result<Item, Memory>
    ensures { IfOk result (λ item. item_tree item ≡ Write (start_tag name.now)) }
{
    let mut tag = String::new(alloc);
    tag.push_str("<")?;
    put_name(&mut tag, name)?;
    tag.push_str(">")?;
    Ok(Item::Write(Text::from_string(tag)))
}

fn end_tag(alloc: Global, name: &Name) -> Result<Item, Memory>
    ensures { IfOk result (λ item. item_tree item ≡ Write (end_tag name.now)) }
{
    let mut tag = String::new(alloc);
    tag.push_str("</")?;
    put_name(&mut tag, name)?;
    tag.push_str(">")?;
    Ok(Item::Write(Text::from_string(tag)))
}

/// An output path: a copy inside nested loops.
fn path_body(
    alloc: Global,
    scope: &[Binding<'_>],
    next: &mut u32,
    path: &PathExpr,
) -> Result<Body, Memory>
    requires { next.now + length path.now.steps < 2 ^ 32 }
    ensures next { OnOk result (next.new ≡ next.old + length path.now.steps) }
    ensures body { IfOk result (λ body. body_tree body
        ≡ nest (start_var (names_of scope.now) path.now.start) path.now.steps next.old (λ y. one (Copy y))) }
{
    let from = start_of(scope, &path.start);
    let steps = path.steps.items();
    let var = *next;
    let count = steps.len() as u32;
    *next += count;
    let copy = single(alloc, Item::Copy(innermost(from, count, var)))?;
    nested(alloc, from, steps, var, copy)
}

/// Puts what the expression becomes at the end. The next variable has the number `next`.
#[cycle(bodies)]
fn put_expr<'q>(
    alloc: Global,
    scope: &mut Vec<Binding<'q>>,
    next: &mut u32,
    out: &mut Body,
    expr: &'q Expr,
) -> Result<(), Memory>
    requires { next.now + loops (expr_tree expr.now) < 2 ^ 32 }
    ensures scope { OnOk result (scope.new.items ≡ scope.old.items) }
    ensures next { OnOk result (next.new ≡ next.old + loops (expr_tree expr.now)) }
    ensures body { OnOk result (PutsItems out.old out.new
        (raw_expr (expr_tree expr.now) (names_of scope.old.items) next.old)) }
{
    match expr {
        Expr::Empty => Ok(()),
        Expr::Seq(parts) => put_exprs(alloc, scope, next, out, parts),
        Expr::Elem { name, body } => {
            put_item(out, start_tag(alloc, name)?)?;
            put_exprs(alloc, scope, next, out, body)?;
            put_item(out, end_tag(alloc, name)?)
        }
        Expr::Path(path) => {
            let body = path_body(alloc, scope, next, path)?;
            put_body(out, body)
        }
        Expr::For {
            clauses,
            filter,
            body,
        } => put_turns(alloc, scope, next, out, clauses.items(), filter, body),
        Expr::If { cond, then, other } => {
            let cond = core_cond(alloc, scope, cond)?;
            let mut first = Body::new(alloc);
            put_expr(alloc, scope, next, &mut first, then)?;
            let mut second = Body::new(alloc);
            put_expr(alloc, scope, next, &mut second, other)?;
            put_item(
                out,
                Item::If {
                    cond,
                    then: first,
                    other: second,
                },
            )
        }
    }
}

/// Puts what the expressions become at the end, one behind another.
#[cycle(bodies)]
pub(crate) fn put_exprs<'q>(
    alloc: Global,
    scope: &mut Vec<Binding<'q>>,
    next: &mut u32,
    out: &mut Body,
    exprs: &'q Exprs,
) -> Result<(), Memory>
    requires { next.now + all_loops (exprs_of (expr_trees exprs.now)) < 2 ^ 32 }
    ensures scope { OnOk result (scope.new.items ≡ scope.old.items) }
    ensures next { OnOk result (next.new ≡ next.old + all_loops (exprs_of (expr_trees exprs.now))) }
    ensures body { OnOk result (PutsItems out.old out.new
        (raw_exprs (exprs_of (expr_trees exprs.now)) (names_of scope.old.items) next.old)) }
{
    for expr in &exprs.members {
        put_expr(alloc, scope, next, out, expr)?;
    }
    Ok(())
}

/// Puts a loop's body at the end, inside an `If` where there is a filter.
#[cycle(bodies)]
fn put_filtered<'q>(
    alloc: Global,
    scope: &mut Vec<Binding<'q>>,
    next: &mut u32,
    out: &mut Body,
    filter: &'q Option<QCond>,
    body: &'q Expr,
) -> Result<(), Memory>
    requires { next.now + loops (expr_tree body.now) < 2 ^ 32 }
    ensures scope { OnOk result (scope.new.items ≡ scope.old.items) }
    ensures next { OnOk result (next.new ≡ next.old + loops (expr_tree body.now)) }
    ensures body { OnOk result (PutsItems out.old out.new (raw_filtered (option_map cond_tree filter.now)
        (names_of scope.old.items) (raw_expr (expr_tree body.now) (names_of scope.old.items) next.old))) }
{
    match filter {
        Some(cond) => {
            let cond = core_cond(alloc, scope, cond)?;
            let mut then = Body::new(alloc);
            put_expr(alloc, scope, next, &mut then, body)?;
            let other = Body::new(alloc);
            put_item(out, Item::If { cond, then, other })
        }
        None => put_expr(alloc, scope, next, out, body),
    }
}

/// Puts the loops of the clauses at the end, one inside the other.
#[cycle(bodies)]
fn put_turns<'q>(
    alloc: Global,
    scope: &mut Vec<Binding<'q>>,
    next: &mut u32,
    out: &mut Body,
    clauses: &'q [Clause],
    filter: &'q Option<QCond>,
    body: &'q Expr,
) -> Result<(), Memory>
    requires { next.now + (clause_loops clauses.now + loops (expr_tree body.now)) < 2 ^ 32 }
    ensures scope { OnOk result (scope.new.items ≡ scope.old.items) }
    ensures next { OnOk result (next.new ≡ next.old + (clause_loops clauses.now + loops (expr_tree body.now))) }
    ensures body { OnOk result (PutsItems out.old out.new (raw_turns clauses.now (option_map cond_tree filter.now)
        (expr_tree body.now) (names_of scope.old.items) next.old)) }
{
    let Some((clause, rest)) = clauses.split_first() else {
        return put_filtered(alloc, scope, next, out, filter, body);
    };
    let from = start_of(scope, &clause.path.start);
    let steps = clause.path.steps.items();
    let var = *next;
    let count = steps.len() as u32;
    *next += count;
    scope.push(Binding {
        name: &clause.var,
        var: innermost(from, count, var),
    })?;
    let mut inner = Body::new(alloc);
    put_turns(alloc, scope, next, &mut inner, rest, filter, body)?;
    let _ = scope.pop();
    let loops = nested(alloc, from, steps, var, inner)?;
    put_body(out, loops)
}
