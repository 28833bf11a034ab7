//! String values of nodes, and their comparison with literals.
ghost use Rattle.std.specs.Prelude.{◌≡◌, IfOk, IfSome, IsUtf8, OnOk, MatchOption};
ghost use Rattle.gcx_model.specs.Values.{ComparedValue, Bytes, Units, compare};
ghost use Rattle.gcx_model.specs.Members.{In};
ghost use Rattle.gcx_base.specs.Kinds.{is_text};
ghost use Rattle.buf_tree.specs.Shape.{Cell};
ghost use Rattle.buf_tree.specs.View.{InUse};
ghost use Rattle.cond_eval.specs.Literals.{literal_value, IsLiteral};
ghost use Rattle.cond_eval.specs.Reads.{texts_below, bytes_of, IsOnly, NoText, AreTexts, IsValue};

use buf_tree::{Buffer, Row};
use gcx_base::{Axis, Kind, Memory, Rel, Step, Test};
use gcx_model::Operand;
use node_store::{NodeStore, Place};
use xq_values::{compare_number, compare_text, holds};

/// The step to all texts below a node.
pub(crate) fn to_texts() -> Step
    ensures { result ≡ texts_below }
{
    Step {
        axis: Axis::Descendant,
        test: Test::AnyText,
    }
}

/// The bytes of a text, and none of another node.
fn bytes_at<N: NodeStore<Row>>(buffer: &Buffer<N>, place: Place) -> &[u8]
    requires { InUse buffer.now.rows place.0 }
    ensures bytes { (c : Cell) → In c buffer.now.rows → c.place ≡ place.0 → result.now ≡ bytes_of c }
    ensures utf8 { IsUtf8 result.now }
{
    match buffer.at(place).payload().kind() {
        Kind::Text(text) => text.as_bytes(),
        Kind::Element(_) => &[],
        Kind::Document => &[],
    }
}

/// Whether the node is a text.
fn is_text<N: NodeStore<Row>>(buffer: &Buffer<N>, place: Place) -> bool
    requires { InUse buffer.now.rows place.0 }
    ensures { (c : Cell) → In c buffer.now.rows → c.place ≡ place.0 → result ≡ is_text c.row.kind }
{
    matches!(buffer.at(place).payload().kind(), Kind::Text(_))
}

/// The one text whose bytes are the value of the node. None where it has several texts, or none.
fn only_text<N: NodeStore<Row>>(buffer: &Buffer<N>, place: Place) -> Option<Place>
    requires { InUse buffer.now.rows place.0 }
    ensures { MatchOption result (NoText buffer.now.rows place.0) (λ text. IsOnly buffer.now.rows place.0 text.0) }
{
    if is_text(buffer, place) {
        return Some(place);
    }
    let first = buffer.match_behind(place, &to_texts(), place)?;
    match buffer.match_behind(place, &to_texts(), first) {
        Some(_) => None,
        None => Some(first),
    }
}

/// The text that is the only child of the node. None where it has another child, or none.
#[inline(always)]
fn text_alone<N: NodeStore<Row>>(buffer: &Buffer<N>, place: Place) -> Option<Place>
    requires { InUse buffer.now.rows place.0 }
    ensures { IfSome result (λ text. IsOnly buffer.now.rows place.0 text.0) }
{
    let child = buffer.at(place).first()?;
    if child.next().is_some() {
        return None;
    }
    if child.payload().kind().is_text() {
        Some(child.place)
    } else {
        None
    }
}

/// Puts the texts below the node together.
fn gather<N: NodeStore<Row>>(
    buffer: &Buffer<N>,
    place: Place,
    room: &mut Vec<u8>,
) -> Result<(), Memory>
    requires { InUse buffer.now.rows place.0 }
    ensures texts { OnOk result (AreTexts buffer.now.rows place.0 room.new.items) }
    ensures utf8 { OnOk result (IsUtf8 room.new.items) }
{
    room.clear();
    let step = to_texts();
    let mut at = buffer.match_behind(place, &step, place);
    'texts: while let Some(here) = at {
        room.extend_from_slice(bytes_at(buffer, here))?;
        at = buffer.match_behind(place, &step, here);
    }
    Ok(())
}

/// The string value of a closed node: lent where it is one text, else put together in `room`.
#[inline(always)]
pub fn value<'a, N: NodeStore<Row>>(
    buffer: &'a Buffer<N>,
    place: Place,
    room: &'a mut Vec<u8>,
) -> Result<&'a [u8], Memory>
    requires { InUse buffer.now.rows place.0 }
    ensures value { IfOk result (λ v. IsValue buffer.now.rows place.0 v.now) }
    ensures utf8 { IfOk result (λ v. IsUtf8 v.now) }
{
    if let Some(text) = text_alone(buffer, place) {
        return Ok(bytes_at(buffer, text));
    }
    value_of_texts(buffer, place, room)
}

/// The string value, where it may be put together of many texts.
#[inline(never)]
fn value_of_texts<'a, N: NodeStore<Row>>(
    buffer: &'a Buffer<N>,
    place: Place,
    room: &'a mut Vec<u8>,
) -> Result<&'a [u8], Memory>
    requires { InUse buffer.now.rows place.0 }
    ensures value { IfOk result (λ v. IsValue buffer.now.rows place.0 v.now) }
    ensures utf8 { IfOk result (λ v. IsUtf8 v.now) }
{
    if let Some(text) = only_text(buffer, place) {
        return Ok(bytes_at(buffer, text));
    }
    gather(buffer, place, room)?;
    Ok(room.as_slice())
}

/// Whether the relation holds of a value and a number in units of 10^-18. It holds of none that isn't a number.
fn satisfies_number(value: &[u8], rel: Rel, units: i128) -> bool
    ensures { result ≡ compare rel (Bytes value.now) (Units units) }
{
    match compare_number(value, units) {
        Some(order) => holds(rel, order),
        None => false,
    }
}

/// Whether the relation holds of a value and a literal. Of a path none does.
pub fn satisfies(value: &[u8], rel: Rel, literal: &Operand) -> bool
    requires { IsLiteral literal.now }
    ensures { result ≡ compare rel (Bytes value.now) (literal_value literal.now) }
{
    match literal {
        Operand::Str(text) => holds(rel, compare_text(value, text.as_bytes())),
        Operand::Num(units) => satisfies_number(value, rel, *units),
        Operand::Path { .. } => false,
    }
}

/// The relation with its sides exchanged.
pub fn flipped(rel: Rel) -> Rel
    ensures { (v w : ComparedValue) → compare result w v ≡ compare rel v w }
{
    match rel {
        Rel::Eq => Rel::Eq,
        Rel::Ne => Rel::Ne,
        Rel::Lt => Rel::Gt,
        Rel::Le => Rel::Ge,
        Rel::Gt => Rel::Lt,
        Rel::Ge => Rel::Le,
    }
}

/// Whether the relation holds of two literals.
pub(crate) fn literals_satisfy(left: &Operand, rel: Rel, right: &Operand) -> bool
    requires left { IsLiteral left.now }
    requires right { IsLiteral right.now }
    ensures { result ≡ compare rel (literal_value left.now) (literal_value right.now) }
{
    match (left, right) {
        (Operand::Str(text), _) => satisfies(text.as_bytes(), rel, right),
        (_, Operand::Str(text)) => satisfies(text.as_bytes(), flipped(rel), left),
        (Operand::Num(left), Operand::Num(right)) => holds(rel, left.cmp(right)),
        _ => false,
    }
}
