//! Conditions, and the comparison of values (XQuery 1.0, section 3.5.2).
ghost use Rattle.std.specs.Prelude.{◌≡◌, IfOk, map, ◌∷◌, []};
ghost use Rattle.gcx_model.specs.Paths.{any};
ghost use Rattle.gcx_model.specs.Values.{compare};
ghost use Rattle.gcx_model.specs.Query.{cond_tree};
ghost use Rattle.gcx_model.specs.Answer.{found, values, some_pair, holds};
ghost use Rattle.doc_tree.specs.Rows.{node_at};
ghost use Rattle.tree_eval.specs.Scopes.{scope_of};
ghost use Rattle.tree_eval.specs.Operands.{value_in, values_at};

use crate::scope::{Binding, look_up};
use doc_tree::Tree;
use gcx_base::{Memory, Rel};
use gcx_model::{PathExpr, QCond, QOperand};
use std::alloc::Global;
use xq_values::{NumText, compare_text};

/// A value that is compared.
#[derive(Drop)]
pub(crate) enum Value {
    /// The bytes of a node or of a literal.
    Bytes(Vec<u8>),
    /// A number in units of 10^-18.
    Units(i128),
}

/// The nodes that a path stands for, in document order.
pub(crate) fn found(
    alloc: Global,
    tree: &Tree,
    scope: &[Binding<'_>],
    path: &PathExpr,
) -> Result<Vec<usize>, Memory>
    ensures { IfOk result (λ nodes. map (node_at tree.now.nodes) nodes.items
        ≡ found path.now (scope_of tree.now scope.now) tree.now) }
{
    let start = match &path.start {
        Some(name) => look_up(scope, name).unwrap_or(0),
        None => 0,
    };
    let nodes = tree.matches(alloc, start, path.steps.items())?;
    Ok(nodes)
}

/// The values of nodes.
fn values_of(alloc: Global, tree: &Tree, nodes: &[usize]) -> Result<Vec<Value>, Memory>
    ensures { IfOk result (λ values. map value_in values.items ≡ map (values_at tree.now) nodes.now) }
{
    let mut values = Vec::new(alloc);
    for node in nodes {
        values.push(Value::Bytes(tree.value(alloc, *node)?))?;
    }
    Ok(values)
}

/// One value.
fn single(alloc: Global, value: Value) -> Result<Vec<Value>, Memory>
    ensures { IfOk result (λ values. map value_in values.items ≡ value_in value ∷ []) }
{
    let mut values = Vec::new(alloc);
    values.push(value)?;
    Ok(values)
}

/// The values of one side of a comparison.
fn values(
    alloc: Global,
    tree: &Tree,
    scope: &[Binding<'_>],
    operand: &QOperand,
) -> Result<Vec<Value>, Memory>
    ensures { IfOk result (λ found. map value_in found.items
        ≡ values operand.now (scope_of tree.now scope.now) tree.now) }
{
    match operand {
        QOperand::Path(path) => {
            let nodes = found(alloc, tree, scope, path)?;
            let found = values_of(alloc, tree, &nodes)?;
            Ok(found)
        }
        QOperand::Str(text) => {
            let bytes = text.as_bytes().to_vec(alloc)?;
            let found = single(alloc, Value::Bytes(bytes))?;
            Ok(found)
        }
        QOperand::Num(units) => {
            let found = single(alloc, Value::Units(*units))?;
            Ok(found)
        }
    }
}

/// Whether the relation holds of the pair. Of a value that isn't a number and a number none does.
fn compares(rel: Rel, left: &Value, right: &Value) -> bool
    ensures { result ≡ compare rel (value_in left.now) (value_in right.now) }
{
    match (left, right) {
        (Value::Bytes(left), Value::Bytes(right)) => xq_values::holds(
            rel,
            compare_text(left, right),
        ),
        (Value::Bytes(left), Value::Units(right)) => match NumText::read(left) {
            Some(number) => xq_values::holds(rel, number.compare(*right)),
            None => false,
        },
        (Value::Units(left), Value::Bytes(right)) => match NumText::read(right) {
            Some(number) => xq_values::holds(rel, number.compare(*left).reverse()),
            None => false,
        },
        (Value::Units(left), Value::Units(right)) => xq_values::holds(rel, left.cmp(right)),
    }
}

/// Whether the relation holds of the value and some value of the others.
fn compares_some(rel: Rel, left: &Value, others: &[Value]) -> bool
    ensures { result ≡ any (compare rel (value_in left.now)) (map value_in others.now) }
{
    for right in others {
        if compares(rel, left, right) {
            return true;
        }
    }
    false
}

/// Whether the relation holds of some pair.
fn some_pair(rel: Rel, left: &[Value], right: &[Value]) -> bool
    ensures { result ≡ some_pair (compare rel) (map value_in left.now) (map value_in right.now) }
{
    for value in left {
        if compares_some(rel, value, right) {
            return true;
        }
    }
    false
}

/// Whether the condition holds.
pub(crate) fn holds(
    alloc: Global,
    tree: &Tree,
    scope: &[Binding<'_>],
    cond: &QCond,
) -> Result<bool, Memory>
    ensures { IfOk result (λ truth. truth ≡ holds (cond_tree cond.now) (scope_of tree.now scope.now) tree.now) }
{
    match cond {
        QCond::True => Ok(true),
        QCond::Exists(path) => {
            let nodes = found(alloc, tree, scope, path)?;
            Ok(!nodes.is_empty())
        }
        QCond::Compare { left, rel, right } => {
            let left = values(alloc, tree, scope, left)?;
            let right = values(alloc, tree, scope, right)?;
            Ok(some_pair(*rel, &left, &right))
        }
        QCond::Not(inner) => {
            let truth = holds(alloc, tree, scope, inner)?;
            Ok(!truth)
        }
        QCond::All(conds) => {
            for inner in &conds.members {
                let truth = holds(alloc, tree, scope, inner)?;
                if !truth {
                    return Ok(false);
                }
            }
            Ok(true)
        }
        QCond::Any(conds) => {
            for inner in &conds.members {
                let truth = holds(alloc, tree, scope, inner)?;
                if truth {
                    return Ok(true);
                }
            }
            Ok(false)
        }
    }
}
