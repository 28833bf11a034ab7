//! The matches of a step among the rows of a buffer, and where steps lead.
ghost use Rattle.std.specs.Prelude.{◌≡◌, IfSome};
ghost use Rattle.std.specs.FinMap as map;
ghost use Rattle.buf_tree.specs.View.{InUse};
ghost use Rattle.buf_tree.specs.Match.{GoesFrom};

use super::{followed, place_of, plan_of};
use crate::matchers::{first_step, steps};
use buf_tree::{Buffer, Row};
use gcx_base::{Axis, Serial, Step, Steps, Test};
use node_store::{NodeStore, Place, SlabNodes};
use raw_nodes::RawNodes;
use std::alloc::Global;
use std::process::Abort;
use std::test::Fail;

/// A node, a step as a matcher's tests spell it, the serial behind which to look, and the match.
type Match = (u64, &'static str, u64, Option<u64>);

// Over <a><b>x</b><c><b/>x</c><b/></a>, where a has 1, b 2, c 4, b 5, and b 7.
const MATCHES: [Match; 16] = [
    (0, "a", 0, Some(1)),
    (0, "b", 0, None),
    (0, "/b", 0, Some(2)),
    (0, "/b", 2, Some(5)),
    (0, "/b", 5, Some(7)),
    (0, "/b", 7, None),
    (1, "b", 1, Some(2)),
    (1, "b", 2, Some(7)),
    (1, "e", 2, Some(4)),
    (1, "/t", 1, Some(3)),
    (1, "/t", 3, Some(6)),
    (4, "/b", 4, Some(5)),
    (4, "/b", 5, None),
    (4, "n", 5, Some(6)),
    (2, "/n", 3, None),
    (1, "t", 1, None),
];

/// A node, steps as those of a match, another node, and whether they lead there.
type Way = (u64, &'static str, u64, bool);

// Over the same.
const WAYS: [Way; 14] = [
    (1, "", 1, true),
    (1, "", 2, false),
    (0, "a", 1, true),
    (0, "ab", 2, true),
    (0, "ab", 5, false),
    (0, "a/b", 5, true),
    (0, "/cb", 5, true),
    (0, "/cb", 7, false),
    (0, "/e/e/b", 5, true),
    (0, "/e/e/b", 7, false),
    (0, "ac", 5, false),
    (1, "/t", 6, true),
    (2, "/b", 5, false),
    (5, "c", 4, false),
];

/// The serial of what was found.
fn serial_of<N: NodeStore<Row>>(buffer: &Buffer<N>, found: Option<Place>) -> Option<u64>
    requires { IfSome found (λ p. InUse buffer.now.rows p.0) }
{
    match found {
        Some(place) => Some(buffer.serial(place).0),
        None => None,
    }
}

/// What the step finds behind the serial.
fn found_behind<N: NodeStore<Row>>(
    buffer: &Buffer<N>,
    place: Place,
    step: &Step,
    serial: u64,
) -> Option<u64>
    requires { InUse buffer.now.rows place.0 }
{
    serial_of(buffer, buffer.next_match(place, step, Serial(serial)))
}

/// The first node of this axis behind the serial, from where a search along the axis may go on.
fn from_behind<N: NodeStore<Row>>(
    buffer: &Buffer<N>,
    place: Place,
    axis: Axis,
    serial: u64,
) -> Option<Place>
    requires { InUse buffer.now.rows place.0 }
    ensures { IfSome result (λ p. GoesFrom buffer.now.rows place.0 axis p.0) }
{
    let step = Step {
        axis,
        test: Test::AnyNode,
    };
    buffer.next_match(place, &step, Serial(serial))
}

/// What the step finds from the row itself.
fn found_from_top<N: NodeStore<Row>>(buffer: &Buffer<N>, place: Place, step: &Step) -> Option<u64>
    requires { InUse buffer.now.rows place.0 }
{
    serial_of(buffer, buffer.match_behind(place, step, place))
}

/// What the step finds from the first node of its axis behind the serial.
fn found_from<N: NodeStore<Row>>(
    buffer: &Buffer<N>,
    place: Place,
    step: &Step,
    serial: u64,
) -> Option<u64>
    requires { InUse buffer.now.rows place.0 }
{
    match from_behind(buffer, place, step.axis, serial) {
        Some(from) => serial_of(buffer, buffer.match_behind(place, step, from)),
        None => None,
    }
}

/// What the step finds behind the serial `after`, searched from the first node of its axis that is not before it.
fn found_on<N: NodeStore<Row>>(
    buffer: &Buffer<N>,
    place: Place,
    step: &Step,
    serial: u64,
    after: u64,
) -> Option<u64>
    requires { InUse buffer.now.rows place.0 }
{
    if after == serial {
        found_from_top(buffer, place, step)
    } else {
        found_from(buffer, place, step, after.saturating_sub(1))
    }
}

fn is_found<N: NodeStore<Row>>(
    rt: &impl Abort,
    alloc: Global,
    buffer: &Buffer<N>,
    (serial, step, after, want): Match,
) -> Result<(), Fail> {
    let place = place_of(buffer, serial)?;
    let step = first_step(alloc, step.as_bytes())?;
    let behind = found_behind(buffer, place, &step, after);
    let on = found_on(buffer, place, &step, serial, after);
    assert_eq!(rt;
        (behind, on),
        (want, want),
        "{serial}, behind and from {after}"
    );
    Ok(())
}

/// Whether the steps lead from one node to another.
fn leads<N: NodeStore<Row>>(
    buffer: &Buffer<N>,
    flags: &mut Vec<bool>,
    from: u64,
    steps: &Steps,
    to: u64,
) -> Result<bool, Fail> {
    let top = place_of(buffer, from)?;
    let end = place_of(buffer, to)?;
    Ok(buffer.leads(top, steps.items(), end, flags)?)
}

fn is_way<N: NodeStore<Row>>(
    rt: &impl Abort,
    alloc: Global,
    buffer: &Buffer<N>,
    flags: &mut Vec<bool>,
    (from, letters, to, want): Way,
) -> Result<(), Fail> {
    let steps = steps(alloc, letters.as_bytes())?;
    let got = leads(buffer, flags, from, &steps, to)?;
    assert_eq!(rt; got, want, "{from} to {to}");
    Ok(())
}

/// A buffer to which the whole document was fed.
fn fed<N: NodeStore<Row> + Drop>(alloc: Global, nodes: N) -> Result<Buffer<N>, Fail>
    requires { N.rows nodes ≡ map.empty }
{
    let plan = plan_of(alloc, b"/a")?;
    let mut told = String::new(alloc);
    let document = b"<a><b>x</b><c><b/>x</c><b/></a>";
    followed(alloc, &mut told, nodes, &plan, document, "12", false)
}

fn are_found<N: NodeStore<Row>>(
    rt: &impl Abort,
    alloc: Global,
    buffer: &Buffer<N>,
) -> Result<(), Fail> {
    for case in MATCHES {
        is_found(rt, alloc, buffer, case)?;
    }
    Ok(())
}

fn are_ways<N: NodeStore<Row>>(
    rt: &impl Abort,
    alloc: Global,
    buffer: &Buffer<N>,
) -> Result<(), Fail> {
    let mut flags = Vec::new(alloc);
    for case in WAYS {
        is_way(rt, alloc, buffer, &mut flags, case)?;
    }
    Ok(())
}

/// Both tables hold.
fn tables_hold<N: NodeStore<Row>>(
    rt: &impl Abort,
    alloc: Global,
    buffer: &Buffer<N>,
) -> Result<(), Fail> {
    are_found(rt, alloc, buffer)?;
    are_ways(rt, alloc, buffer)
}

/// Both tables hold over this store.
fn tables_hold_over<N: NodeStore<Row> + Drop>(
    rt: &impl Abort,
    alloc: Global,
    nodes: N,
) -> Result<(), Fail>
    requires { N.rows nodes ≡ map.empty }
{
    let buffer = fed(alloc, nodes)?;
    tables_hold(rt, alloc, &buffer)
}

#[test]
fn matches_and_ways_are_those_of_the_tables(rt: HostRuntime) -> Result<(), Fail> {
    let alloc = rt.alloc();
    tables_hold_over(&rt, alloc, SlabNodes::new(alloc))?;
    tables_hold_over(&rt, alloc, RawNodes::new(alloc))
}
