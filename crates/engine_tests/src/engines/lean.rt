//! The engine over documents that are cut, beside the two actors by hand: so many tokens are fed, each with its row, and
//! then every possible action is taken.
ghost use Rattle.std.specs.Prelude.{◌≤◌, ◌<◌, length as size};
ghost use Rattle.gcx_model.specs.Core.{BodyTree};
ghost use Rattle.gcx_model.specs.Cores.{Good};
ghost use Rattle.gcx_model.specs.Placed.{Placed};
ghost use Rattle.gcx_model.specs.PlanView.{plan_tree};

use super::turns::tokens_of_front;
use super::{How, plainly, plan_of, run_over};
use buf_tree::Row;
use cond_eval::Plain;
use engine::{Turn, interleave};
use gcx_base::Kind;
use gcx_model::Plan;
use node_store::{At, NodeStore, SlabNodes};
use std::alloc::Global;
use std::fmt::Write;
use std::process::Abort;
use std::test::Fail;

/// Queries whose roles lie at single nodes, at first matches and in whole subtrees, and one that gives none.
const QUERIES: [&[u8]; 5] = [
    b"<o>{ for $x in /a/b return $x/c }</o>",
    b"<o>{ for $x in //b return if (exists($x/c)) then $x/a else () }</o>",
    b"<o>{ for $x in /a return $x }</o>",
    b"<o>{ for $x in //c return $x/text() }</o>",
    b"<o>{ /x/y }</o>",
];

/// Elements with and without roles in each other, texts, an attribute, a reference and a section.
const DOCUMENTS: [&[u8]; 3] = [
    b"<a><d><d><c>t</c></d>u</d><b><c/>v</b></a>",
    b"<a x='1'>&lt;<b><a/><c><d/></c></b><d/></a>",
    b"<d><b><d><![CDATA[t]]></d><a>u</a></b><c>v</c></d>",
];

/// So many actions are tried behind a group: more than there may be.
const ACTIONS: u32 = 60;

/// The most rows that are drawn of one document.
const ROWS: u32 = 99;

/// A row's number, what it is, and whether it is open.
fn put_row(out: &mut String, row: &Row) -> Result<(), Fail> {
    match row.kind() {
        Kind::Document => out.push_str("/")?,
        Kind::Element(name) => out.push_str(name.as_str())?,
        Kind::Text(text) => out.push_str(text.as_str())?,
    }
    let mark = if row.is_closed() { "" } else { "+" };
    write!(out, "{}{mark}", row.serial().0)?;
    Ok(())
}

/// The row and those behind it of the same parent, each with its children in parentheses.
fn put_rows<N: NodeStore<Row>>(
    out: &mut String,
    at: At<'_, N, Row>,
    steps: u32,
) -> Result<(), Fail> {
    put_row(out, at.payload())?;
    if steps == 0 {
        return Err("too many rows")?;
    }
    if let Some(child) = at.first() {
        out.push('(')?;
        put_rows(out, child, steps - 1)?;
        out.push(')')?;
    }
    if let Some(sibling) = at.next() {
        out.push(' ')?;
        put_rows(out, sibling, steps - 1)?;
    }
    Ok(())
}

/// The numbers of a run: nodes, roles given and taken back, and rows that are held.
type Numbers = (u64, u128, u128, u64);

/// What is left: the bytes written, the rows, how many rows there were at most, and the numbers.
#[derive(Drop, Debug, PartialEq, Eq)]
struct Left {
    out: Vec<u8>,
    rows: String,
    most: usize,
    numbers: Numbers,
}

fn what_is_left<N: NodeStore<Row>>(
    alloc: Global,
    out: Vec<u8>,
    nodes: &N,
    numbers: Numbers,
) -> Result<Left, Fail> {
    let mut rows = String::new(alloc);
    if let Some(root) = nodes.root() {
        put_rows(&mut rows, At::new(nodes, root), ROWS)?;
    }
    let most = nodes.most();
    Ok(Left {
        out,
        rows,
        most,
        numbers,
    })
}

/// What the engine leaves behind so many bytes of the document, and the peak that it tells.
fn left_by_engine(
    rt: &impl Abort,
    alloc: Global,
    plan: &Plan,
    document: &[u8],
    length: usize,
    ahead: u32,
) -> Result<(Left, u64), Fail>
    requires placed { (core : BodyTree) × Good core × Placed core (plan_tree plan.now) }
    requires some { 0 < length }
{
    // the second read fails
    let how = How {
        reads: &[2],
        ahead,
        ..plainly(length)
    };
    let nodes = SlabNodes::new(alloc);
    let (ran, nodes) = run_over(rt, alloc, plan, nodes, Plain, document, how)?;
    let report = ran.report;
    let numbers = (report.nodes, report.given, report.taken, report.held);
    let left = what_is_left(alloc, ran.out, &nodes, numbers)?;
    Ok((left, report.peak))
}

/// Puts so many turns.
fn put_turns(turns: &mut Vec<Turn>, turn: Turn, count: u32) -> Result<(), Fail> {
    for _ in 0..count {
        turns.push(turn)?;
    }
    Ok(())
}

/// The turns of the evaluator before any token, and as many groups as there are tokens: so many turns of the projector, and
/// those of the evaluator behind them.
fn groups_of(alloc: Global, tokens: usize, ahead: u32) -> Result<Vec<Turn>, Fail> {
    let mut turns = Vec::new(alloc);
    put_turns(&mut turns, Turn::Act, ACTIONS)?;
    for _ in 0..tokens {
        put_turns(&mut turns, Turn::Feed, ahead)?;
        put_turns(&mut turns, Turn::Act, ACTIONS)?;
    }
    Ok(turns)
}

/// What the two actors leave by hand.
fn left_by_hand(alloc: Global, plan: &Plan, front: &[u8], ahead: u32) -> Result<Left, Fail>
    requires placed { (core : BodyTree) × Good core × Placed core (plan_tree plan.now) }
{
    let tokens = tokens_of_front(alloc, front)?;
    let turns = groups_of(alloc, tokens.len(), ahead)?;
    let (mut nodes, mut out) = (SlabNodes::new(alloc), Vec::new(alloc));
    let reached = interleave(alloc, plan, &mut nodes, Plain, tokens, &turns, &mut out)?;
    let numbers = (reached.nodes, reached.given, reached.taken, reached.held);
    what_is_left(alloc, out, &nodes, numbers)
}

/// Both leave the same, and the peak of the run is the greatest number of rows.
fn is_same(
    rt: &impl Abort,
    alloc: Global,
    plan: &Plan,
    document: &[u8],
    length: usize,
    ahead: u32,
) -> Result<(), Fail>
    requires placed { (core : BodyTree) × Good core × Placed core (plan_tree plan.now) }
    requires some { 0 < length }
    requires within { length ≤ size document.now }
{
    let want = left_by_hand(alloc, plan, &document[..length], ahead)?;
    let (got, peak) = left_by_engine(rt, alloc, plan, document, length, ahead)?;
    assert_eq!(rt; got, want, "{document:?}, {length}, {ahead}");
    assert_eq!(rt; peak, want.most as u64, "{document:?}, {length}, {ahead}");
    Ok(())
}

/// The same however far the projector goes ahead.
fn is_same_ahead(
    rt: &impl Abort,
    alloc: Global,
    plan: &Plan,
    document: &[u8],
    length: usize,
) -> Result<(), Fail>
    requires placed { (core : BodyTree) × Good core × Placed core (plan_tree plan.now) }
    requires some { 0 < length }
    requires within { length ≤ size document.now }
{
    for ahead in 1..5 {
        is_same(rt, alloc, plan, document, length, ahead)?;
    }
    Ok(())
}

/// The same of the document cut at each byte.
fn is_same_cut(rt: &impl Abort, alloc: Global, query: &[u8], document: &[u8]) -> Result<(), Fail> {
    let plan = plan_of(alloc, query)?;
    for length in 1..document.len() + 1 {
        is_same_ahead(rt, alloc, &plan, document, length)?;
    }
    Ok(())
}

#[test]
fn the_engine_leaves_what_the_actors_leave_by_hand(rt: HostRuntime) -> Result<(), Fail> {
    for query in QUERIES {
        for document in DOCUMENTS {
            is_same_cut(&rt, rt.alloc(), query, document)?;
        }
    }
    Ok(())
}
