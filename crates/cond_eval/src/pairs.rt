//! Comparisons: of two sets of nodes, and of a set and a literal.
ghost use Rattle.std.specs.Prelude.{IfOk, OnOk};
ghost use Rattle.cond_eval.specs.Literals.{literal_value, IsLiteral};
ghost use Rattle.cond_eval.specs.Comparing.{IsNodeRow, AreInUse, AreClosed, TakesValues, TellsPaths, TellsLiteral, TellsPair, TellsWith};

use crate::sets::{Member, reached};
use crate::truth::settle;
use crate::values::{satisfies, value};
use buf_tree::{Buffer, Row};
use gcx_base::{Memory, Rel, Step};
use gcx_model::{Operand, Truth};
use node_store::{NodeStore, Place};
use std::alloc::Global;
use value_pairs::{Compared, Hand};

/// The closed ones of the nodes that the steps reach from the row at the place.
pub fn closed_matches<N: NodeStore<Row>>(
    alloc: Global,
    buffer: &Buffer<N>,
    place: Place,
    steps: &[Step],
) -> Result<Vec<Member>, Memory>
    requires { IsNodeRow buffer.now.rows place.0 }
    ensures closed { IfOk result (λ set. AreClosed buffer.now.rows place.0 steps.now set.items) }
    ensures used { IfOk result (λ set. AreInUse buffer.now.rows set.items) }
{
    let all = reached(alloc, buffer, place, steps)?;
    let mut closed = Vec::new(alloc);
    for member in &all {
        if buffer.is_closed(Place(member.place)) {
            closed.push(*member)?;
        }
    }
    Ok(closed)
}

/// The values of the members become those of one side, which had none. Each is read once.
fn take_values<N: NodeStore<Row>>(
    alloc: Global,
    buffer: &Buffer<N>,
    set: &[Member],
    hand: Hand,
    compared: &mut Compared,
) -> Result<(), Memory>
    requires { AreInUse buffer.now.rows set.now }
    ensures { OnOk result (TakesValues buffer.now.rows set.now hand compared.old compared.new) }
{
    let mut room = Vec::new(alloc);
    for member in set {
        let bytes = value(buffer, Place(member.place), &mut room)?;
        compared.take(alloc, hand, bytes)?;
    }
    Ok(())
}

/// Whether the relation holds of the values of some pair. Where one side is empty no value is read.
fn some_pair_satisfies<N: NodeStore<Row>>(
    alloc: Global,
    buffer: &Buffer<N>,
    lefts: &[Member],
    rel: Rel,
    rights: &[Member],
) -> Result<bool, Memory>
    requires lefts { AreInUse buffer.now.rows lefts.now }
    requires rights { AreInUse buffer.now.rows rights.now }
    ensures { IfOk result (λ b. TellsPair buffer.now.rows lefts.now rel rights.now b) }
{
    if lefts.is_empty() {
        return Ok(false);
    }
    if rights.is_empty() {
        return Ok(false);
    }
    let mut compared = Compared::new(alloc, rel);
    take_values(alloc, buffer, lefts, Hand::Left, &mut compared)?;
    take_values(alloc, buffer, rights, Hand::Right, &mut compared)?;
    Ok(compared.found())
}

/// The truth of a comparison of two paths, from the rows at the places. Both sides are collected once.
pub(crate) fn paths_truth<N: NodeStore<Row>>(
    alloc: Global,
    buffer: &Buffer<N>,
    left: Place,
    left_steps: &[Step],
    rel: Rel,
    right: Place,
    right_steps: &[Step],
) -> Result<Truth, Memory>
    requires left { IsNodeRow buffer.now.rows left.0 }
    requires right { IsNodeRow buffer.now.rows right.0 }
    ensures { IfOk result (λ t. TellsPaths buffer.now.rows left.0 left_steps.now rel right.0 right_steps.now t) }
{
    let lefts = closed_matches(alloc, buffer, left, left_steps)?;
    let rights = closed_matches(alloc, buffer, right, right_steps)?;
    let found = some_pair_satisfies(alloc, buffer, &lefts, rel, &rights)?;
    Ok(settle(found, buffer.is_closed(left) && buffer.is_closed(right)))
}

/// Whether the relation holds of some node's value and the literal.
fn some_satisfies<N: NodeStore<Row>>(
    alloc: Global,
    buffer: &Buffer<N>,
    set: &[Member],
    rel: Rel,
    literal: &Operand,
) -> Result<bool, Memory>
    requires used { AreInUse buffer.now.rows set.now }
    requires literal { IsLiteral literal.now }
    ensures { IfOk result (λ b. TellsWith buffer.now.rows set.now rel (literal_value literal.now) b) }
{
    let mut room = Vec::new(alloc);
    for member in set {
        let left = value(buffer, Place(member.place), &mut room)?;
        if satisfies(left, rel, literal) {
            return Ok(true);
        }
    }
    Ok(false)
}

/// The truth of a comparison of a path, from the row at the place, and a literal.
pub(crate) fn literal_truth<N: NodeStore<Row>>(
    alloc: Global,
    buffer: &Buffer<N>,
    place: Place,
    steps: &[Step],
    rel: Rel,
    literal: &Operand,
) -> Result<Truth, Memory>
    requires place { IsNodeRow buffer.now.rows place.0 }
    requires literal { IsLiteral literal.now }
    ensures { IfOk result (λ t. TellsLiteral buffer.now.rows place.0 steps.now rel (literal_value literal.now) t) }
{
    let set = closed_matches(alloc, buffer, place, steps)?;
    let found = some_satisfies(alloc, buffer, &set, rel, literal)?;
    Ok(settle(found, buffer.is_closed(place)))
}
