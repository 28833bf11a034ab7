//! Projectors that make rows late, beside those that make each row at once.
ghost use Rattle.std.specs.Prelude.{◌≡◌, ◌≤◌, ◌^◌, ◌+◌, true, IfOk, OnOk};
ghost use Rattle.std.specs.FinMap as map;
ghost use Rattle.gcx_model.specs.Core.{BodyTree, PlanTree};
ghost use Rattle.gcx_model.specs.Cores.{Good};
ghost use Rattle.gcx_model.specs.Placed.{Placed};
ghost use Rattle.gcx_model.specs.PlanView.{plan_tree};
ghost use Rattle.doc_reader.specs.Standing.{said_of};
ghost use Rattle.buf_tree.specs.Loose.{Loosely};
ghost use Rattle.projector.specs.Projector.{Places};
ghost use Rattle.projector.specs.Late.{FeedsLate, IsShallow, MayBeFedLate, passed_in};
ghost use Rattle.buffer_tests.specs.Late.{IsFedLate, IsTokenPart, LiesAt};

use super::passed::told_rows;
use super::{MANY, begin, feed, is_same, plan_of, read};
use buf_tree::{Buffer, Row};
use doc_reader::{Reader, Token};
use gcx_base::Memory;
use gcx_model::Plan;
use node_store::{NodeStore, SlabNodes};
use projector::{Projector, Tally};
use raw_nodes::RawNodes;
use std::alloc::Global;
use std::fmt::Write;
use std::process::Abort;
use std::test::Fail;

/// Queries whose roles lie at single nodes, at first matches and in whole subtrees, and one that gives none.
const QUERIES: [&str; 5] = [
    "<o>{ for $x in /a/b return $x/c }</o>",
    "<o>{ for $x in //b return if (exists($x/c)) then $x/a else () }</o>",
    "<o>{ for $x in /a return $x }</o>",
    "<o>{ for $x in //c return $x/text() }</o>",
    "<o>{ /x/y }</o>",
];

/// What an element may hold.
const INNER: [&str; 6] = ["", "t", "<b/>", "<c>t</c>", "<b>t<c/></b>", "<c><b/>t</c>"];

/// The names and texts of a document's tokens in one list of bytes, and where each lies.
#[derive(Drop)]
struct Parts {
    bytes: Vec<u8>,
    places: Vec<(usize, usize)>,
}

/// Puts a name or a text behind the others.
fn put_part(parts: &mut Parts, part: &[u8]) -> Result<(), Fail> {
    let from = parts.bytes.len();
    parts.bytes.extend_from_slice(part)?;
    parts.places.push((from, parts.bytes.len()))?;
    Ok(())
}

/// Puts that of a token, which is empty for an end.
fn put_token(parts: &mut Parts, token: &Token) -> Result<(), Fail> {
    match token {
        Token::Start(name) => put_part(parts, name.as_bytes()),
        Token::Text(text) => put_part(parts, text.as_bytes()),
        Token::End | Token::EndOfDocument => put_part(parts, &[]),
    }
}

/// Those of this document.
fn parts_of(alloc: Global, document: &[u8]) -> Result<Parts, Fail> {
    let mut reader = read(alloc, document)?;
    let mut parts = Parts {
        bytes: Vec::new(alloc),
        places: Vec::new(alloc),
    };
    for _ in 0..document.len() {
        if let Some(token) = reader.next() {
            put_token(&mut parts, &token)?;
        }
    }
    Ok(parts)
}

/// Whether this part of the bytes is that.
fn is_part(bytes: &[u8], from: usize, to: usize, part: &[u8]) -> bool
    ensures { result ≡ true → LiesAt bytes.now from to part.now }
{
    from <= to && to <= bytes.len() && &bytes[from..to] == part
}

/// Whether this part of the bytes is the token's name or text, if it has one.
fn has_part(bytes: &[u8], from: usize, to: usize, token: &Token) -> bool
    ensures { result ≡ true → IsTokenPart bytes.now from to (said_of token.now) }
{
    match token {
        Token::Start(name) => is_part(bytes, from, to, name.as_bytes()),
        Token::Text(text) => is_part(bytes, from, to, text.as_bytes()),
        Token::End | Token::EndOfDocument => true,
    }
}

/// Feeds a token whose name or text lies there.
fn feed_late<N: NodeStore<Row>>(
    alloc: Global,
    projector: &mut Projector,
    buffer: &mut Buffer<N>,
    bytes: &[u8],
    part: (usize, usize),
    token: &Token,
) -> Result<Option<Tally>, Memory>
    requires part { IsTokenPart bytes.now part.0 part.1 (said_of token.now) }
    requires place { Places projector.old buffer.old }
    requires may { MayBeFedLate bytes.now projector.old buffer.old (said_of token.now) }
    requires nodes { buffer.old.nodes ≤ 2 ^ 40 + 1 }
    requires depth { Loosely IsShallow (passed_in bytes.now projector.old.passed) buffer.old }
    ensures { IfOk result (FeedsLate bytes.now projector.old projector.new buffer.old buffer.new (said_of token.now)) }
{
    match token {
        Token::Start(_) => projector.start_late(alloc, buffer, bytes, part.0, part.1),
        Token::Text(_) => projector.text_late(alloc, buffer, bytes, part.0, part.1),
        Token::End | Token::EndOfDocument => projector.end_late(buffer),
    }
}

/// Feeds the next token.
fn feed_next<N: NodeStore<Row>>(
    alloc: Global,
    reader: &mut Reader,
    projector: &mut Projector,
    buffer: &mut Buffer<N>,
    bytes: &[u8],
    part: (usize, usize),
) -> Result<(), Fail>
    requires { (plan : PlanTree) × IsFedLate plan bytes.now reader.old projector.old buffer.old }
    ensures { OnOk result ((plan : PlanTree) → IsFedLate plan bytes.now reader.old projector.old buffer.old
        → IsFedLate plan bytes.now reader.new projector.new buffer.new) }
{
    if buffer.nodes() > MANY {
        return Err("too many nodes")?;
    }
    let Some(token) = reader.next() else {
        return Err("no token")?;
    };
    if !has_part(bytes, part.0, part.1, &token) {
        return Err("another name")?;
    }
    feed_late(alloc, projector, buffer, bytes, part, &token)?;
    Ok(())
}

/// Feeds the first tokens, whose names and texts lie there, and makes the rows of what was passed.
fn feed_first<N: NodeStore<Row>>(
    alloc: Global,
    reader: &mut Reader,
    projector: &mut Projector,
    buffer: &mut Buffer<N>,
    bytes: &[u8],
    places: &[(usize, usize)],
) -> Result<(), Fail>
    requires { (plan : PlanTree) × IsFedLate plan bytes.now reader.old projector.old buffer.old }
{
    for part in places {
        feed_next(alloc, reader, projector, buffer, bytes, *part)?;
    }
    projector.settle(alloc, buffer, bytes)?;
    Ok(())
}

/// What is told behind the first tokens where each row is made at once, and the greatest number of rows so far.
fn told_at_once<N: NodeStore<Row> + Drop>(
    alloc: Global,
    nodes: N,
    plan: &Plan,
    document: &[u8],
    count: usize,
) -> Result<(String, u64), Fail>
    requires empty { N.rows nodes ≡ map.empty }
    requires placed { (core : BodyTree) × Good core × Placed core (plan_tree plan.now) }
{
    if count > 1_000 {
        return Err("too many tokens")?;
    }
    let mut out = String::new(alloc);
    let mut reader = read(alloc, document)?;
    let (mut projector, mut buffer) = begin(alloc, &mut out, nodes, plan, true)?;
    feed(
        alloc,
        &mut out,
        &mut reader,
        &mut projector,
        &mut buffer,
        count as u32,
    )?;
    Ok((told_rows(alloc, &buffer)?, buffer.most()))
}

/// The same where rows are made late.
fn told_late<N: NodeStore<Row> + Drop>(
    alloc: Global,
    nodes: N,
    plan: &Plan,
    document: &[u8],
    bytes: &[u8],
    places: &[(usize, usize)],
) -> Result<(String, u64), Fail>
    requires empty { N.rows nodes ≡ map.empty }
    requires placed { (core : BodyTree) × Good core × Placed core (plan_tree plan.now) }
{
    let mut out = String::new(alloc);
    let mut reader = read(alloc, document)?;
    let (mut projector, mut buffer) = begin(alloc, &mut out, nodes, plan, true)?;
    feed_first(
        alloc,
        &mut reader,
        &mut projector,
        &mut buffer,
        bytes,
        places,
    )?;
    Ok((told_rows(alloc, &buffer)?, buffer.most()))
}

/// Both tell the same behind the first tokens, and late no more rows were there at once.
fn is_told_alike(
    rt: &impl Abort,
    alloc: Global,
    plan: &Plan,
    document: &str,
    bytes: &[u8],
    places: &[(usize, usize)],
) -> Result<(), Fail>
    requires placed { (core : BodyTree) × Good core × Placed core (plan_tree plan.now) }
{
    let (text, count) = (document.as_bytes(), places.len());
    let (want, most) = told_at_once(alloc, SlabNodes::new(alloc), plan, text, count)?;
    let (got, late) = told_late(alloc, RawNodes::new(alloc), plan, text, bytes, places)?;
    is_same(rt, got.as_str(), want.as_str(), "late", document, "");
    assert!(rt; late <= most, "{document}, {count}: {late} rows");
    Ok(())
}

/// So they do behind each token.
fn are_told_alike(rt: &impl Abort, alloc: Global, plan: &Plan, document: &str) -> Result<(), Fail>
    requires placed { (core : BodyTree) × Good core × Placed core (plan_tree plan.now) }
{
    let parts = parts_of(alloc, document.as_bytes())?;
    let bytes = parts.bytes.as_slice();
    let places = parts.places.as_slice();
    for count in 0..places.len() + 1 {
        is_told_alike(rt, alloc, plan, document, bytes, &places[..count])?;
    }
    Ok(())
}

/// The same of the document that holds these two parts in an element.
fn is_alike_in(
    rt: &impl Abort,
    alloc: Global,
    plan: &Plan,
    outer: &str,
    first: &str,
    second: &str,
) -> Result<(), Fail>
    requires placed { (core : BodyTree) × Good core × Placed core (plan_tree plan.now) }
{
    let mut document = String::new(alloc);
    write!(document, "<{outer}>{first}<a>{second}</a>{first}</{outer}>")?;
    are_told_alike(rt, alloc, plan, document.as_str())
}

/// The same of each document that holds these parts, one before and behind the other.
fn are_alike_around(rt: &impl Abort, alloc: Global, query: &str, first: &str) -> Result<(), Fail> {
    let plan = plan_of(alloc, query.as_bytes())?;
    for second in INNER {
        is_alike_in(rt, alloc, &plan, "a", first, second)?;
        is_alike_in(rt, alloc, &plan, "b", first, second)?;
    }
    Ok(())
}

#[test]
fn rows_made_late_are_those_of_tokens_fed_at_once(rt: HostRuntime) -> Result<(), Fail> {
    let alloc = rt.alloc();
    for query in QUERIES {
        for first in INNER {
            are_alike_around(&rt, alloc, query, first)?;
        }
    }
    Ok(())
}
