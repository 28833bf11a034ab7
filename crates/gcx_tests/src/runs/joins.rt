//! Joins of many values and chains of many elements, by the words of a command.
use super::ends_in_pieces;
use super::many::ends_with_files_by;
use super::objects::{End, NOTHING, run};
use crate::large::{joined, repeated};
use gcx_base::Memory;
use gcx_cmd::Status;
use std::alloc::Global;
use std::process::Abort;
use std::test::Fail;

const JOIN: &[u8] =
    b"for $a in /r/x return for $b in /r/y return if ($a/k = $b/k) then <m/> else ()";

/// `<k>i</k>` for each number from one up to another.
fn keys(alloc: Global, from: u64, upto: u64) -> Result<Vec<u8>, Memory> {
    let mut bytes = Vec::new(alloc);
    for number in from..upto {
        bytes.extend_from_slice(format!(in alloc; "<k>{number}</k>")?.as_bytes())?;
    }
    Ok(bytes)
}

/// An outer node of so many values, and an inner one of as many others.
fn apart(alloc: Global, count: u64) -> Result<Vec<u8>, Memory> {
    let outer = keys(alloc, 0, count)?;
    let inner = keys(alloc, count, count.saturating_add(count))?;
    joined(alloc, &[b"<r><x>", &outer, b"</x><y>", &inner, b"</y></r>"])
}

/// The words answer the join of so many values with nothing.
fn joins_nothing(rt: &impl Abort, alloc: Global, words: &[&[u8]], count: u64) -> Result<(), Fail> {
    let document = apart(alloc, count)?;
    let ran = run(rt, alloc, words, (JOIN, &document), 65_536, NOTHING)?;
    let end = End {
        status: Status::Ok,
        out: b"",
        err: b"",
    };
    assert_eq!(rt; ran.end(), end);
    Ok(())
}

#[test]
fn many_values_are_looked_up_among_as_many(rt: HostRuntime) -> Result<(), Fail> {
    let words: &[&[u8]] = &[b"run", b"--ahead", b"1000", b"q", b"d"];
    joins_nothing(&rt, rt.alloc(), words, 40_000)
}

// Compared pair by pair they would take minutes: 120,000 by 120,000 comparisons.
#[test]
fn a_run_looks_up_each_value(rt: HostRuntime) -> Result<(), Fail> {
    joins_nothing(&rt, rt.alloc(), &[b"run", b"q", b"d"], 120_000)
}

#[test]
fn several_queries_look_up_each_value(rt: HostRuntime) -> Result<(), Fail> {
    let alloc = rt.alloc();
    let document = apart(alloc, 120_000)?;
    ends_with_files_by(
        &rt,
        alloc,
        &[b"many", b"d", b"q", b"o"],
        &[(b"q", JOIN), (b"d", &document)],
        65_536,
        (Status::Ok, &[(b"o", Some(b""))]),
    )
}

/// Six descendant steps lead to an innermost element by some 10^15 chains.
#[test]
fn many_chains_to_a_node_are_walked_once(rt: HostRuntime) -> Result<(), Fail> {
    let alloc = rt.alloc();
    let query = b"if (//x//x//x//x//x//x = \"1\") then <y/> else <n/>";
    let starts = repeated(alloc, b"<x>", 1_000)?;
    let document = joined(alloc, &[&starts, &repeated(alloc, b"</x>", 1_000)?])?;
    let end = End {
        status: Status::Ok,
        out: b"<n></n>",
        err: b"",
    };
    ends_in_pieces(&rt, alloc, &[b"run", b"q", b"d"], (query, &document), end)
}
