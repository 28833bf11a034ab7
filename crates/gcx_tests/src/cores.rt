//! Queries and their cores.
use crate::large::{Part, joined_by_commas};
use gcx_base::{Axis, Memory, Step, Test, VarId};
use gcx_model::{Body, Cond, Item, QueryFault, What};
use std::alloc::Global;
use std::process::Abort;
use std::test::Fail;
use xq_normal::{normalise, put_cond, put_step, put_steps};
use xq_parse::parse;

fn put_loop(out: &mut String, var: VarId, from: VarId, step: &Step) -> Result<(), Memory> {
    write!(out, "for {} in {}/", var.0, from.0)?;
    put_step(out, step)?;
    out.push_str(" { ")?;
    Ok(())
}

fn put_branch(out: &mut String, cond: &Cond) -> Result<(), Memory> {
    out.push_str("if ")?;
    put_cond(out, cond)?;
    out.push_str(" { ")?;
    Ok(())
}

#[cycle(shown_items)]
fn put_item(out: &mut String, item: &Item) -> Result<(), Memory> {
    match item {
        Item::Write(text) => write!(out, "{} ", text.as_str())?,
        Item::Copy(var) => write!(out, "copy {} ", var.0)?,
        Item::For {
            var,
            from,
            step,
            body,
        } => {
            put_loop(out, *var, *from, step)?;
            put_shown(out, body)?;
            out.push_str("} ")?;
        }
        Item::If { cond, then, other } => {
            put_branch(out, cond)?;
            put_shown(out, then)?;
            out.push_str("} else { ")?;
            put_shown(out, other)?;
            out.push_str("} ")?;
        }
        Item::Off(_) => out.push_str("off ")?,
    }
    Ok(())
}

#[cycle(shown_items)]
fn put_shown(out: &mut String, body: &Body) -> Result<(), Memory> {
    for item in body.items() {
        put_item(out, item)?;
    }
    Ok(())
}

/// The core of the query.
fn shown(alloc: Global, query: &[u8]) -> Result<String, Fail> {
    let query = parse(alloc, query)?;
    let core = normalise(alloc, &query)?;
    let mut out = String::new(alloc);
    put_shown(&mut out, &core.body)?;
    Ok(out)
}

/// Why the query has no core.
fn refusal(alloc: Global, query: &[u8]) -> Result<Option<QueryFault>, Fail> {
    let query = parse(alloc, query)?;
    match normalise(alloc, &query) {
        Ok(_) => Ok(None),
        Err(QueryFault::Memory) => Err(QueryFault::Memory)?,
        Err(fault) => Ok(Some(fault)),
    }
}

/// These queries have these cores.
fn are_shown(rt: &impl Abort, alloc: Global, rows: &[(&[u8], &str)]) -> Result<(), Fail> {
    for &(query, core) in rows {
        let shown = shown(alloc, query)?;
        assert_eq!(rt; shown.as_str(), core, "{query:?}");
    }
    Ok(())
}

/// Queries and their cores: paths become loops, and branches go into loops.
const CORES: &[(&[u8], &str)] = &[
    (
        b"for $x in /a/b where exists($x) return $x",
        "for 1 in 0/child::a { for 2 in 1/child::b { if true() { copy 2 } else { } } } ",
    ),
    (
        b"for $x in /a return for $x in $x/b return $x",
        "for 1 in 0/child::a { for 2 in 1/child::b { copy 2 } } ",
    ),
    (
        b"for $x in /r/p return if (exists($x/k)) then for $y in $x/j return $y else ()",
        "for 1 in 0/child::r { for 2 in 1/child::p { for 3 in 2/child::j { if exists(2/child::k) { copy 3 } else { } } } } ",
    ),
    (
        b"for $x in /r/p return if (exists($x/k)) then (<a/>, $x/j, <b/>) else $x/k",
        "for 1 in 0/child::r { for 2 in 1/child::p { if exists(2/child::k) { <a> </a> } else { } for 3 in 2/child::j { if exists(2/child::k) { copy 3 } else { } } if exists(2/child::k) { <b> </b> } else { } for 4 in 2/child::k { if exists(2/child::k) { } else { copy 4 } } } } ",
    ),
];

#[test]
fn queries_have_these_cores(rt: HostRuntime) -> Result<(), Fail> {
    are_shown(&rt, rt.alloc(), CORES)
}

/// The query of these parts is refused so, or has a core.
fn is_refused(
    rt: &impl Abort,
    alloc: Global,
    parts: &[Part],
    wanted: Option<QueryFault>,
) -> Result<(), Fail> {
    let query = joined_by_commas(alloc, parts)?;
    let found = refusal(alloc, &query)?;
    assert_eq!(rt; found, wanted);
    Ok(())
}

/// The parts of queries, and the first limit that each passes, or None.
const LIMITS: &[(&[Part], Option<QueryFault>)] = &[
    (&[Part::Paths(500)], None),
    (
        &[Part::Paths(501)],
        Some(QueryFault::TooLarge(What::Loops, 500)),
    ),
    (&[Part::LookingFar(8_000)], None),
    (
        &[Part::LookingFar(8_001)],
        Some(QueryFault::TooLarge(What::Steps, 8_000)),
    ),
    (&[Part::Copied(8)], None),
    (
        &[Part::Copied(9)],
        Some(QueryFault::TooLarge(What::Conditions, 8_388_608)),
    ),
];

#[test]
fn what_passes_a_limit_is_refused(rt: HostRuntime) -> Result<(), Fail> {
    for &(parts, wanted) in LIMITS {
        is_refused(&rt, rt.alloc(), parts, wanted)?;
    }
    Ok(())
}

#[test]
fn no_steps_are_a_point(rt: HostRuntime) -> Result<(), Fail> {
    let alloc = rt.alloc();
    let mut out = String::new(alloc);
    put_steps(&mut out, &[])?;
    let any = [
        Step {
            axis: Axis::Descendant,
            test: Test::AnyText,
        },
        Step {
            axis: Axis::Child,
            test: Test::AnyNode,
        },
    ];
    out.push_str(" and ")?;
    put_steps(&mut out, &any)?;
    assert_eq!(rt; out.as_str(), ". and descendant::text()/child::node()");
    Ok(())
}

#[test]
fn nothing_is_written_by_nothing(rt: HostRuntime) -> Result<(), Fail> {
    let alloc = rt.alloc();
    let query = parse(alloc, b"()")?;
    let core = normalise(alloc, &query)?;
    assert!(rt; core.body.items().is_empty());
    Ok(())
}
