//! Values, each with the time from which on it counts, and their comparison (XQuery 1.0, section 3.5.2).
ghost use Rattle.std.specs.Prelude.{◌≡◌, ◌∷◌, [], map, max, IfOk};
ghost use Rattle.gcx_model.specs.CondView.{operand_tree};
ghost use Rattle.gcx_model.specs.Values.{compare};
ghost use Rattle.time_laws.specs.Times.{timed_values, over_at, sooner, pair_at, earliest_with, earliest};
ghost use Rattle.trace_check.specs.Scopes.{env_of, IsBound};
ghost use Rattle.trace_check.specs.Settling.{value_in, timed_in, value_at, is_sooner};
ghost use Rattle.trace_check.specs.Timing.{clock_in};

use crate::scope::{Binding, node_of};
use crate::timed::Timed;
use gcx_base::{Memory, Rel};
use gcx_model::Operand;
use std::alloc::Global;
use xq_values::{compare_number, compare_text, holds};

/// A value that is compared.
#[derive(Drop)]
pub(crate) enum Value {
    /// The bytes of a node or of a literal.
    Bytes(Vec<u8>),
    /// A number in units of 10^-18.
    Units(i128),
}

/// A value, and the time from which on it counts.
#[derive(Drop)]
pub(crate) struct TimedValue {
    pub at: usize,
    pub value: Value,
}

/// The values of nodes.
fn values_of(alloc: Global, timed: &Timed, nodes: &[usize]) -> Result<Vec<TimedValue>, Memory>
    ensures { IfOk result (λ values. map timed_in values.items ≡ map (value_at timed.now) nodes.now) }
{
    let mut values = Vec::new(alloc);
    for node in nodes {
        values.push(TimedValue {
            at: timed.closed_at(*node),
            value: Value::Bytes(timed.tree.value(alloc, *node)?),
        })?;
    }
    Ok(values)
}

/// A literal, which counts from the beginning on.
fn literal(alloc: Global, value: Value) -> Result<Vec<TimedValue>, Memory>
    ensures { IfOk result (λ values. map timed_in values.items ≡ (0, value_in value) ∷ []) }
{
    let mut values = Vec::new(alloc);
    values.push(TimedValue { at: 0, value })?;
    Ok(values)
}

/// The values of one side of a comparison.
pub(crate) fn values(
    alloc: Global,
    timed: &Timed,
    scope: &[Binding],
    operand: &Operand,
) -> Result<Vec<TimedValue>, Memory>
    requires { IsBound timed.now.tree scope.now }
    ensures { IfOk result (λ found. map timed_in found.items
        ≡ timed_values (clock_in timed.now) timed.now.tree (env_of timed.now.tree scope.now) (operand_tree operand.now)) }
{
    match operand {
        Operand::Path { var, steps } => {
            let nodes = timed
                .tree
                .matches(alloc, node_of(scope, *var), steps.items())?;
            let found = values_of(alloc, timed, &nodes)?;
            Ok(found)
        }
        Operand::Str(text) => {
            let bytes = text.as_bytes().to_vec(alloc)?;
            let found = literal(alloc, Value::Bytes(bytes))?;
            Ok(found)
        }
        Operand::Num(units) => {
            let found = literal(alloc, Value::Units(*units))?;
            Ok(found)
        }
    }
}

/// The time from which on no more values come.
pub(crate) fn over(timed: &Timed, scope: &[Binding], operand: &Operand) -> usize
    requires { IsBound timed.now.tree scope.now }
    ensures { result
        ≡ over_at (clock_in timed.now) (env_of timed.now.tree scope.now) (operand_tree operand.now) }
{
    match operand {
        Operand::Path { var, .. } => timed.closed_at(node_of(scope, *var)),
        Operand::Str(_) | Operand::Num(_) => 0,
    }
}

/// Whether the relation holds of the pair. Of a value that isn't a number and a number none does.
fn compares(rel: Rel, left: &Value, right: &Value) -> bool
    ensures { result ≡ compare rel (value_in left.now) (value_in right.now) }
{
    match (left, right) {
        (Value::Bytes(left), Value::Bytes(right)) => holds(rel, compare_text(left, right)),
        (Value::Bytes(left), Value::Units(right)) => match compare_number(left, *right) {
            Some(order) => holds(rel, order),
            None => false,
        },
        (Value::Units(left), Value::Bytes(right)) => match compare_number(right, *left) {
            Some(order) => holds(rel, order.reverse()),
            None => false,
        },
        (Value::Units(left), Value::Units(right)) => holds(rel, left.cmp(right)),
    }
}

/// Whether the time is sooner than the one that was found.
fn is_sooner(found: Option<usize>, at: usize) -> bool
    ensures { result ≡ is_sooner found at }
{
    match found {
        Some(found) => at < found,
        None => true,
    }
}

/// The time from which on the pair counts where it satisfies the relation, or the one that was found where that is no later.
fn sooner_of(rel: Rel, left: &TimedValue, right: &TimedValue, found: Option<usize>) -> Option<usize>
    ensures { result ≡ sooner found (pair_at (compare rel (value_in left.now.value) (value_in right.now.value))
        (max left.now.at right.now.at)) }
{
    let at = left.at.max(right.at);
    if !is_sooner(found, at) {
        return found;
    }
    if compares(rel, &left.value, &right.value) {
        Some(at)
    } else {
        found
    }
}

/// The time from which on the value is in a pair that satisfies the relation, or the one that was found where that is no later.
fn earliest_with(
    rel: Rel,
    left: &TimedValue,
    others: &[TimedValue],
    found: Option<usize>,
) -> Option<usize>
    ensures { result ≡ sooner found (earliest_with (compare rel) (timed_in left.now) (map timed_in others.now)) }
{
    let mut first = found;
    for right in others {
        first = sooner_of(rel, left, right, first);
    }
    first
}

/// The time from which on some pair satisfies the relation, if one does.
pub(crate) fn earliest(rel: Rel, lefts: &[TimedValue], rights: &[TimedValue]) -> Option<usize>
    ensures { result ≡ earliest (compare rel) (map timed_in lefts.now) (map timed_in rights.now) }
{
    let mut found = None;
    for left in lefts {
        found = earliest_with(rel, left, rights, found);
    }
    found
}
