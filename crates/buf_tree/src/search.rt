//! Walks over the rows in document order, and the searches for matches.
ghost use Rattle.std.specs.Prelude.{◌≡◌, ◌==◌, cond, Option, Some, None, IsSome, option_map};
ghost use Rattle.std.specs.FinMap as map;
ghost use Rattle.gcx_base.specs.declared.steps.Axis.TheVariants.{Child, Descendant};
ghost use Rattle.gcx_base.specs.Tests.{passes};
ghost use Rattle.node_store.specs.Rows.{head_of, children_in};
ghost use Rattle.buf_tree.specs.Shape.{cells, Shaped, AtPlaces};
ghost use Rattle.buf_tree.specs.Walk.{Nested, Within};
ghost use Rattle.buf_tree.specs.Match.{FindsAbove, FindsBehind, IsFrom};
ghost use Rattle.buf_tree.specs.Search.{LastAt, BeforeAt, LastBelow, BeforeBelow, BehindBelow, ChildBehind};

use crate::row::Row;
use gcx_base::{Step, Test};
use node_store::{NodeStore, Place};

#[inline(always)]
pub(crate) fn is_same(place: Place, other: Place) -> bool
    ensures { result ≡ (place.0 == other.0) }
{
    place.0 == other.0
}

/// The last row of the subtree.
#[inline(always)]
fn tail<N: NodeStore<Row>>(nodes: &N, top: Place) -> Place
    requires shape { Shaped (N.rows nodes.now) }
    requires nested { Nested (cells (N.rows nodes.now)) }
    requires there { IsSome (map.get (N.rows nodes.now) top.0) }
    ensures { LastAt (cells (N.rows nodes.now)) top.0 result.0 }
{
    let mut at = top;
    'down: while let Some(child) = nodes.last(at) {
        at = child;
    }
    at
}

/// The row before this one in document order, or None at the first.
#[inline(always)]
fn before<N: NodeStore<Row>>(nodes: &N, place: Place) -> Option<Place>
    requires shape { Shaped (N.rows nodes.now) }
    requires nested { Nested (cells (N.rows nodes.now)) }
    requires there { IsSome (map.get (N.rows nodes.now) place.0) }
    ensures { BeforeAt (cells (N.rows nodes.now)) place.0 result }
{
    match nodes.prev(place) {
        Some(sibling) => Some(tail(nodes, sibling)),
        None => nodes.parent(place),
    }
}

/// The last row below this one, or None where there is none.
#[inline(always)]
pub(crate) fn last_below<N: NodeStore<Row>>(nodes: &N, top: Place) -> Option<Place>
    requires shape { Shaped (N.rows nodes.now) }
    requires nested { Nested (cells (N.rows nodes.now)) }
    requires there { IsSome (map.get (N.rows nodes.now) top.0) }
    ensures { LastBelow (cells (N.rows nodes.now)) top.0 result }
{
    let last = tail(nodes, top);
    if is_same(last, top) { None } else { Some(last) }
}

/// The row before this one that lies below `top`, as this one does, or None where it is the first of these.
#[inline(always)]
pub(crate) fn before_below<N: NodeStore<Row>>(nodes: &N, top: Place, place: Place) -> Option<Place>
    requires shape { Shaped (N.rows nodes.now) }
    requires nested { Nested (cells (N.rows nodes.now)) }
    requires there { IsSome (map.get (N.rows nodes.now) place.0) }
    ensures { BeforeBelow (cells (N.rows nodes.now)) top.0 place.0 result }
{
    match before(nodes, place) {
        Some(row) => { if is_same(row, top) { None } else { Some(row) } }
        None => None,
    }
}

/// The first of the children above `bound` that passes the test. The children are looked at from the last one back.
#[inline(always)]
pub(crate) fn first_child<N: NodeStore<Row>>(
    nodes: &N,
    top: Place,
    step: &Step,
    bound: u64,
) -> Option<Place>
    requires shape { Shaped (N.rows nodes.now) }
    requires there { IsSome (map.get (N.rows nodes.now) top.0) }
    requires axis { step.now.axis ≡ Child }
    ensures { FindsAbove (cells (N.rows nodes.now)) top.0 step.now bound result }
{
    let mut found = None;
    let mut at = nodes.last(top);
    'back: while let Some(here) = at {
        let row = nodes.payload(here);
        if row.serial().0 <= bound {
            break;
        }
        found = pick(&step.test, row, here, found);
        at = nodes.prev(here);
    }
    found
}

/// This place where its row passes the test, else the one found before.
#[inline(always)]
fn pick(test: &Test, row: &Row, here: Place, found: Option<Place>) -> Option<Place>
    ensures { option_map (λ p. p.0) result
        ≡ cond (passes test.now row.now.kind) (Some here.0) (option_map (λ p. p.0) found) }
{
    if test.passes(row.kind()) {
        Some(here)
    } else {
        found
    }
}

/// The first of the rows below the row at `top` and above `bound` that passes the test. The rows are looked at from
/// the last one back.
pub(crate) fn first_below<N: NodeStore<Row>>(
    nodes: &N,
    top: Place,
    step: &Step,
    bound: u64,
) -> Option<Place>
    requires shape { Shaped (N.rows nodes.now) }
    requires nested { Nested (cells (N.rows nodes.now)) }
    requires there { IsSome (map.get (N.rows nodes.now) top.0) }
    requires axis { step.now.axis ≡ Descendant }
    ensures { FindsAbove (cells (N.rows nodes.now)) top.0 step.now bound result }
{
    let mut found = None;
    let mut at = last_below(nodes, top);
    'back: while let Some(here) = at {
        let row = nodes.payload(here);
        if row.serial().0 <= bound {
            break;
        }
        found = pick(&step.test, row, here, found);
        at = before_below(nodes, top, here);
    }
    found
}

/// The row behind the subtree of this one, which has no child, as far as it lies below `top`.
#[inline(always)]
fn behind<N: NodeStore<Row>>(nodes: &N, top: Place, place: Place) -> Option<Place>
    requires shape { Shaped (N.rows nodes.now) }
    requires nested { Nested (cells (N.rows nodes.now)) }
    requires top { IsSome (map.get (N.rows nodes.now) top.0) }
    requires there { IsSome (map.get (N.rows nodes.now) place.0) }
    requires within { AtPlaces (cells (N.rows nodes.now)) top.0 place.0 (Within (cells (N.rows nodes.now))) }
    requires leaf { head_of (children_in (map.get (N.rows nodes.now) place.0)) ≡ None }
    ensures { BehindBelow (cells (N.rows nodes.now)) top.0 place.0 result }
{
    let mut at = place;
    'up: while !is_same(at, top) {
        if let Some(sibling) = nodes.next(at) {
            return Some(sibling);
        }
        match nodes.parent(at) {
            Some(above) => at = above,
            None => return None,
        }
    }
    None
}

/// The row behind this one that lies below `top`, where this one is `top` or lies below it, or None where it is the
/// last of these.
#[inline(always)]
pub(crate) fn after<N: NodeStore<Row>>(nodes: &N, top: Place, place: Place) -> Option<Place>
    requires shape { Shaped (N.rows nodes.now) }
    requires nested { Nested (cells (N.rows nodes.now)) }
    requires top { IsSome (map.get (N.rows nodes.now) top.0) }
    requires there { IsSome (map.get (N.rows nodes.now) place.0) }
    requires within { AtPlaces (cells (N.rows nodes.now)) top.0 place.0 (Within (cells (N.rows nodes.now))) }
    ensures { BehindBelow (cells (N.rows nodes.now)) top.0 place.0 result }
{
    match nodes.first(place) {
        Some(child) => Some(child),
        None => behind(nodes, top, place),
    }
}

/// The first child, or the next one behind `from`, a child.
#[inline(always)]
fn child_after<N: NodeStore<Row>>(nodes: &N, top: Place, from: Place) -> Option<Place>
    requires shape { Shaped (N.rows nodes.now) }
    requires top { IsSome (map.get (N.rows nodes.now) top.0) }
    requires from { IsSome (map.get (N.rows nodes.now) from.0) }
    ensures { ChildBehind (cells (N.rows nodes.now)) top.0 from.0 result }
{
    if is_same(from, top) {
        nodes.first(top)
    } else {
        nodes.next(from)
    }
}

/// The next child behind `from`, a child or `top` itself, that passes the test.
#[inline(always)]
pub(crate) fn next_child<N: NodeStore<Row>>(
    nodes: &N,
    top: Place,
    step: &Step,
    from: Place,
) -> Option<Place>
    requires shape { Shaped (N.rows nodes.now) }
    requires top { IsSome (map.get (N.rows nodes.now) top.0) }
    requires used { IsSome (map.get (N.rows nodes.now) from.0) }
    requires axis { step.now.axis ≡ Child }
    requires from { AtPlaces (cells (N.rows nodes.now)) top.0 from.0 (IsFrom (cells (N.rows nodes.now)) step.now.axis) }
    ensures { FindsBehind (cells (N.rows nodes.now)) top.0 from.0 step.now result }
{
    let mut at = child_after(nodes, top, from);
    'on: while let Some(here) = at {
        if step.test.passes(nodes.payload(here).kind()) {
            return Some(here);
        }
        at = nodes.next(here);
    }
    None
}

/// The next row behind `from`, a row below `top` or `top` itself, that lies below `top` and passes the test.
pub(crate) fn next_below<N: NodeStore<Row>>(
    nodes: &N,
    top: Place,
    step: &Step,
    from: Place,
) -> Option<Place>
    requires shape { Shaped (N.rows nodes.now) }
    requires nested { Nested (cells (N.rows nodes.now)) }
    requires top { IsSome (map.get (N.rows nodes.now) top.0) }
    requires used { IsSome (map.get (N.rows nodes.now) from.0) }
    requires axis { step.now.axis ≡ Descendant }
    requires from { AtPlaces (cells (N.rows nodes.now)) top.0 from.0 (IsFrom (cells (N.rows nodes.now)) step.now.axis) }
    ensures { FindsBehind (cells (N.rows nodes.now)) top.0 from.0 step.now result }
{
    let mut at = after(nodes, top, from);
    'on: while let Some(here) = at {
        if step.test.passes(nodes.payload(here).kind()) {
            return Some(here);
        }
        at = after(nodes, top, here);
    }
    None
}
