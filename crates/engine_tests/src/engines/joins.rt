//! Conditions with an index: how many lists a run makes, and how many steps a look-up takes.
use super::{Built, How, far, is_left, plainly, plan_of, run_indexed};
use crate::large::{Part, spelled};
use engine::Ended;
use gcx_base::Text;
use join_index::{Probes, Values};
use std::alloc::Global;
use std::process::Abort;
use std::test::Fail;

/// A join of each x with each y.
const JOIN: &[u8] =
    b"for $a in /r/x return for $b in /r/y return if ($a/k = $b/k) then <m/> else ()";

const LISTS: [Built<'static>; 6] = [
    Built(
        JOIN,
        b"<r><x><k>1</k></x><y><k>1</k></y><y><k>2</k></y></r>",
        b"<m></m>",
        1,
    ),
    Built(
        JOIN,
        b"<r><x><k>1</k></x><x><k>2</k></x><x><k>1</k></x><y><k>1</k></y><y><k>3</k></y><y><k>1</k></y></r>",
        b"<m></m><m></m><m></m><m></m>",
        3,
    ),
    Built(
        b"for $a in /r/x return for $b in /r/y return if ($a/k = $b/k and $b/k = $a/k) then <m/> else ()",
        b"<r><x><k>1</k></x><y><k>1</k></y></r>",
        b"<m></m>",
        2,
    ),
    Built(
        b"for $a in /r/x return for $b in /r/y return if ($a/k = $b/k and $a/k = $b/k) then <m/> else ()",
        b"<r><x><k>1</k></x><y><k>1</k></y></r>",
        b"<m></m>",
        1,
    ),
    Built(
        b"for $a in /r/x return for $b in /r/y return if ($a/j = \"2\" and $a/k = $b/k) then <m/> else ()",
        b"<r><x><j>1</j><k>1</k></x><y><k>1</k></y></r>",
        b"",
        0,
    ),
    Built(
        b"for $a in /r/x return for $b in /r/y return if ($a/k != $b/k) then <m/> else ()",
        b"<r><x><k>1</k></x><y><k>1</k></y></r>",
        b"",
        0,
    ),
];

/// The run with an index ends with the answer, and makes so many lists.
pub(super) fn builds(
    rt: &impl Abort,
    alloc: Global,
    row: &Built<'_>,
    how: How<'_>,
) -> Result<(), Fail> {
    let Built(query, document, answer, lists) = row;
    let plan = plan_of(alloc, query)?;
    let (ran, built) = run_indexed(rt, alloc, &plan, document, how)?;
    is_left(rt, &ran, query, Ended::Ok, answer);
    assert_eq!(rt; built, *lists, "{query:?}");
    Ok(())
}

#[test]
fn each_outer_node_gets_a_list(rt: HostRuntime) -> Result<(), Fail> {
    for row in &LISTS {
        builds(&rt, rt.alloc(), row, plainly(7))?;
    }
    Ok(())
}

/// The document of these parts.
fn builds_by(
    rt: &impl Abort,
    alloc: Global,
    parts: &[Part],
    how: How<'_>,
    answer: &[u8],
) -> Result<(), Fail> {
    let document = spelled(alloc, parts)?;
    builds(rt, alloc, &Built(JOIN, &document, answer, 1), how)
}

const ONE_OF_MANY: &[Part] = &[
    ("<r><x>", 0, 1),
    ("<k>#</k>", 0, 1_000),
    ("</x><y><k>500</k></y></r>", 0, 1),
];

#[test]
fn one_node_of_many_values_gets_one_list(rt: HostRuntime) -> Result<(), Fail> {
    builds_by(&rt, rt.alloc(), ONE_OF_MANY, plainly(65_536), b"<m></m>")
}

/// No value of an inner node of many values is one of the outer node, which has as many.
const NONE_OF_MANY: &[Part] = &[
    ("<r><x>", 0, 1),
    ("<k>#</k>", 0, 40_000),
    ("</x><y>", 0, 1),
    ("<k>#</k>", 40_000, 80_000),
    ("</y></r>", 0, 1),
];

// Compared pair by pair they would take some 10^11 steps.
#[test]
fn many_values_are_looked_up_among_as_many(rt: HostRuntime) -> Result<(), Fail> {
    builds_by(&rt, rt.alloc(), NONE_OF_MANY, far(65_536), b"")
}

// Looked up again behind each token they would take some 10^10 steps.
#[test]
fn each_value_of_an_open_node_is_looked_up_once(rt: HostRuntime) -> Result<(), Fail> {
    builds_by(&rt, rt.alloc(), NONE_OF_MANY, plainly(65_536), b"")
}

/// The texts of the numbers below this one.
fn texts_of(alloc: Global, count: u64) -> Result<Vec<Text>, Fail> {
    let mut texts = Vec::new(alloc);
    for number in 0..count {
        texts.push(Text::from_string(format!(in alloc; "{number}")?))?;
    }
    Ok(texts)
}

/// Whether the number is there, and the steps that it took.
fn looked_up(alloc: Global, values: &Values, number: u64) -> Result<(bool, u64), Fail> {
    let mut probes = Probes::new();
    let text = format!(in alloc; "{number}")?;
    let found = values.contains(text.as_bytes(), &mut probes);
    Ok((found, probes.steps()))
}

#[test]
fn a_look_up_among_a_thousand_takes_ten_steps(rt: HostRuntime) -> Result<(), Fail> {
    let alloc = rt.alloc();
    let values = Values::make(texts_of(alloc, 1_000)?)?;
    for number in 0..2_000_u64 {
        let (found, steps) = looked_up(alloc, &values, number)?;
        assert_eq!(&rt; found, number < 1_000, "{number}");
        assert!(&rt; (1..=10).contains(&steps), "{number}");
    }
    Ok(())
}

#[test]
fn nothing_is_found_in_an_empty_list(rt: HostRuntime) -> Result<(), Fail> {
    let alloc = rt.alloc();
    let values = Values::make(Vec::new(alloc))?;
    assert_eq!(&rt; looked_up(alloc, &values, 0)?, (false, 0));
    Ok(())
}
