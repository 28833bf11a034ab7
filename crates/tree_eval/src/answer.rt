//! What a query writes over a whole document (XQuery 1.0, sections 3.3.1, 3.7.1, 3.8 and 3.10).
ghost use Rattle.std.specs.Prelude.{◌≡◌, ◌++◌, OnOk, IfOk, flat_map, map, option_map};
ghost use Rattle.gcx_model.specs.Document.{Nodes, tree_of};
ghost use Rattle.gcx_model.specs.Query.{expr_tree, expr_trees, exprs_of, query_trees, cond_tree};
ghost use Rattle.gcx_model.specs.Answer.{answer, answer_expr, answer_exprs, filtered, copy_of};
ghost use Rattle.doc_tree.specs.Rows.{node_at};
ghost use Rattle.tree_eval.specs.Scopes.{scope_of};
ghost use Rattle.tree_eval.specs.Turns.{turns_bytes};

use crate::conditions::{found, holds};
use crate::scope::Binding;
use doc_tree::Tree;
use doc_write::{put_end, put_start};
use gcx_base::Memory;
use gcx_model::{Clause, Expr, Exprs, QCond, Query};
use std::alloc::Global;

/// Appends the copies of the nodes.
fn put_copies(out: &mut Vec<u8>, tree: &Tree, nodes: &[usize]) -> Result<(), Memory>
    ensures { OnOk result (out.new.items ≡ out.old.items
        ++ flat_map (copy_of tree.now) (map (node_at tree.now.nodes) nodes.now)) }
{
    for node in nodes {
        tree.put_copy(out, *node)?;
    }
    Ok(())
}

/// Whether a turn of a loop is taken.
fn is_taken(
    alloc: Global,
    tree: &Tree,
    scope: &[Binding<'_>],
    filter: &Option<QCond>,
) -> Result<bool, Memory>
    ensures { IfOk result (λ taken. taken
        ≡ filtered (option_map cond_tree filter.now) (scope_of tree.now scope.now) tree.now) }
{
    match filter {
        Some(cond) => holds(alloc, tree, scope, cond),
        None => Ok(true),
    }
}

/// Appends what the expression writes. The bindings are as before in the end.
#[cycle(answers)]
fn put_expr<'q>(
    alloc: Global,
    tree: &Tree,
    scope: &mut Vec<Binding<'q>>,
    out: &mut Vec<u8>,
    expr: &'q Expr,
) -> Result<(), Memory>
    ensures scope { OnOk result (scope.new.items ≡ scope.old.items) }
    ensures written { OnOk result (out.new.items ≡ out.old.items
        ++ answer_expr (expr_tree expr.now) (scope_of tree.now scope.old.items) tree.now) }
{
    match expr {
        Expr::Empty => Ok(()),
        Expr::Seq(parts) => put_exprs(alloc, tree, scope, out, parts),
        Expr::Elem { name, body } => {
            put_start(out, name)?;
            put_exprs(alloc, tree, scope, out, body)?;
            put_end(out, name)?;
            Ok(())
        }
        Expr::Path(path) => {
            let nodes = found(alloc, tree, scope, path)?;
            put_copies(out, tree, &nodes)
        }
        Expr::For {
            clauses,
            filter,
            body,
        } => put_turns(alloc, tree, scope, out, clauses.items(), filter, body),
        Expr::If { cond, then, other } => {
            if holds(alloc, tree, scope, cond)? {
                put_expr(alloc, tree, scope, out, then)
            } else {
                put_expr(alloc, tree, scope, out, other)
            }
        }
    }
}

/// Appends what the expressions write, one behind another.
#[cycle(answers)]
fn put_exprs<'q>(
    alloc: Global,
    tree: &Tree,
    scope: &mut Vec<Binding<'q>>,
    out: &mut Vec<u8>,
    exprs: &'q Exprs,
) -> Result<(), Memory>
    ensures scope { OnOk result (scope.new.items ≡ scope.old.items) }
    ensures written { OnOk result (out.new.items ≡ out.old.items
        ++ answer_exprs (exprs_of (expr_trees exprs.now)) (scope_of tree.now scope.old.items) tree.now) }
{
    for expr in &exprs.members {
        put_expr(alloc, tree, scope, out, expr)?;
    }
    Ok(())
}

/// Appends what the turns of a loop write, from the clauses that are left.
#[cycle(answers)]
fn put_turns<'q>(
    alloc: Global,
    tree: &Tree,
    scope: &mut Vec<Binding<'q>>,
    out: &mut Vec<u8>,
    clauses: &'q [Clause],
    filter: &'q Option<QCond>,
    body: &'q Expr,
) -> Result<(), Memory>
    ensures scope { OnOk result (scope.new.items ≡ scope.old.items) }
    ensures written { OnOk result (out.new.items ≡ out.old.items
        ++ turns_bytes clauses.now (option_map cond_tree filter.now) (expr_tree body.now)
        (scope_of tree.now scope.old.items) tree.now) }
{
    let Some((clause, rest)) = clauses.split_first() else {
        if is_taken(alloc, tree, scope, filter)? {
            put_expr(alloc, tree, scope, out, body)?;
        }
        return Ok(());
    };
    let nodes = found(alloc, tree, scope, &clause.path)?;
    for node in &nodes {
        scope.push(Binding {
            name: &clause.var,
            node: *node,
        })?;
        put_turns(alloc, tree, scope, out, rest, filter, body)?;
        let _ = scope.pop();
    }
    Ok(())
}

/// What the query writes over the document of the tree: its meaning, where the tree is that of a whole
/// document.
pub fn answer_whole(alloc: Global, query: &Query, tree: &Tree) -> Result<Vec<u8>, Memory>
    ensures { IfOk result (λ bytes. (d : Nodes) → tree.now ≡ tree_of d → bytes.items
        ≡ answer (query_trees query.now) d) }
{
    let mut scope = Vec::new(alloc);
    let mut out = Vec::new(alloc);
    put_exprs(alloc, tree, &mut scope, &mut out, &query.parts)?;
    Ok(out)
}
