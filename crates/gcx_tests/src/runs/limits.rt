//! Queries at the limits of a plan.
use super::{is_answered, is_refused};
use crate::large::{Part, joined_by_commas};
use gcx_cmd::Status;
use gcx_model::{QueryFault, What};
use std::alloc::Global;
use std::process::Abort;
use std::test::Fail;

const SIX: &[u8] =
    b"for $a in //x return for $b in $a//x return for $c in $b//x return for $d in $c//x return for $e in $d//x return for $f in $e//x return ()";

const SEVEN: &[u8] =
    b"for $a in //x return for $b in $a//x return for $c in $b//x return for $d in $c//x return for $e in $d//x return for $f in $e//x return for $g in $f//x return ()";

/// The parts of queries that are accepted.
const WITHIN: &[&[Part]] = &[
    &[Part::Paths(500)],
    &[Part::LookingFar(8_000)],
    &[Part::Copied(8)],
    &[Part::Looking(1_999)],
    &[Part::Text(SIX)],
];

#[test]
fn queries_may_reach_each_limit(rt: HostRuntime) -> Result<(), Fail> {
    for parts in WITHIN {
        let query = joined_by_commas(rt.alloc(), parts)?;
        is_answered(&rt, rt.alloc(), &query, b"<x/>", b"")?;
    }
    Ok(())
}

/// The parts of a query, the first limit that it passes, and the line that says so.
type Past = (&'static [Part], What, u64, &'static [u8]);

/// One limit is passed.
const PAST: &[Past] = &[
    (
        &[Part::Paths(501)],
        What::Loops,
        500,
        b"gcx: query TooLarge Loops 500\n",
    ),
    (
        &[Part::LookingFar(8_001)],
        What::Steps,
        8_000,
        b"gcx: query TooLarge Steps 8000\n",
    ),
    (
        &[Part::Copied(9)],
        What::Conditions,
        8_388_608,
        b"gcx: query TooLarge Conditions 8388608\n",
    ),
    (
        &[Part::Looking(2_000)],
        What::Roles,
        2_000,
        b"gcx: query TooLarge Roles 2000\n",
    ),
    (
        &[Part::Text(SEVEN)],
        What::Descendants,
        6,
        b"gcx: query TooLarge Descendants 6\n",
    ),
];

/// Two limits are passed: loops are told before steps, steps before bytes, and bytes and roles before descendant steps.
const ORDER: &[Past] = &[
    (
        &[Part::LookingFar(8_001), Part::Paths(501)],
        What::Loops,
        500,
        b"gcx: query TooLarge Loops 500\n",
    ),
    (
        &[Part::Copied(9), Part::LookingFar(8_001)],
        What::Steps,
        8_000,
        b"gcx: query TooLarge Steps 8000\n",
    ),
    (
        &[Part::Text(SEVEN), Part::Copied(9)],
        What::Conditions,
        8_388_608,
        b"gcx: query TooLarge Conditions 8388608\n",
    ),
    (
        &[Part::Text(SEVEN), Part::Looking(2_000)],
        What::Roles,
        2_000,
        b"gcx: query TooLarge Roles 2000\n",
    ),
];

/// The queries pass these limits.
fn are_past(rt: &impl Abort, alloc: Global, rows: &[Past]) -> Result<(), Fail> {
    for &(parts, what, limit, line) in rows {
        let query = joined_by_commas(alloc, parts)?;
        let status = Status::QueryRefused(QueryFault::TooLarge(what, limit));
        is_refused(rt, alloc, (&query, b"<x/>"), status, line)?;
    }
    Ok(())
}

#[test]
fn a_query_past_a_limit_is_told(rt: HostRuntime) -> Result<(), Fail> {
    are_past(&rt, rt.alloc(), PAST)
}

#[test]
fn limits_are_told_in_their_order(rt: HostRuntime) -> Result<(), Fail> {
    are_past(&rt, rt.alloc(), ORDER)
}
