//! Queries that nest as far as they may, and further.
use super::{fault, told};
use gcx_model::{QueryFault, What};
use std::alloc::{AllocError, Global};
use std::process::Abort;
use std::test::Fail;

/// The fault where too many are open.
const TOO_LARGE: Option<QueryFault> = Some(QueryFault::TooLarge(What::Nesting, 200));

/// So many copies of `open`, then `middle`, then as many of `close`.
#[derive(Clone, Copy)]
struct Nest<'a> {
    open: &'a [u8],
    middle: &'a [u8],
    close: &'a [u8],
}

fn put_repeated(out: &mut Vec<u8>, piece: &[u8], count: usize) -> Result<(), AllocError> {
    for _ in 0..count {
        out.extend_from_slice(piece)?;
    }
    Ok(())
}

fn put_nest(out: &mut Vec<u8>, count: usize, nest: Nest<'_>) -> Result<(), AllocError> {
    put_repeated(out, nest.open, count)?;
    out.extend_from_slice(nest.middle)?;
    put_repeated(out, nest.close, count)
}

/// What is nested so often, between a front and a rest.
fn nested(
    alloc: Global,
    front: &[u8],
    count: usize,
    nest: Nest<'_>,
    rest: &[u8],
) -> Result<Vec<u8>, AllocError> {
    let mut text = front.to_vec(alloc)?;
    put_nest(&mut text, count, nest)?;
    text.extend_from_slice(rest)?;
    Ok(text)
}

/// The query is accepted, and its printed form is printed so again.
fn is_accepted(rt: &impl Abort, alloc: Global, query: &[u8]) -> Result<(), Fail> {
    assert_eq!(rt; fault(alloc, query), None, "{query:?}");
    let printed = told(alloc, query)?;
    let again = told(alloc, printed.as_bytes())?;
    assert_eq!(rt; again.as_str(), printed.as_str());
    Ok(())
}

/// So many are accepted, whose printed form is printed so again, and one more is too many.
fn are_most(
    rt: &impl Abort,
    alloc: Global,
    front: &[u8],
    most: usize,
    nest: Nest<'_>,
    rest: &[u8],
) -> Result<(), Fail> {
    is_accepted(rt, alloc, &nested(alloc, front, most, nest, rest)?)?;
    let more = nested(alloc, front, most.wrapping_add(1), nest, rest)?;
    assert_eq!(rt; fault(alloc, &more), TOO_LARGE, "{more:?}");
    Ok(())
}

#[test]
fn two_hundred_constructs_are_open_at_most(rt: HostRuntime) -> Result<(), Fail> {
    let rows: &[(usize, &[u8], &[u8], &[u8])] = &[
        (200, b"(", b"", b")"),
        (200, b"(", b"/b", b")"),
        (200, b"(/a, ", b"/b", b")"),
        (200, b"<a>", b"", b"</a>"),
        (200, b"<a>{", b"/b", b"}</a>"),
        (200, b"for $x in /a return ", b"/b", b""),
        (200, b"for $x in /a where true() return ", b"/b", b""),
        (200, b"if (true()) then ", b"/b", b" else /c"),
        (200, b"if (exists(/a)) then /c else ", b"/b", b""),
        // what stands within the innermost one is one more
        (199, b"(/a, (), ", b"/b", b")"),
        (199, b"<a><b/>", b"", b"</a>"),
        (199, b"if (true()) then () else ", b"/b", b""),
        (199, b"if (not(true())) then /c else ", b"/b", b""),
        (199, b"for $x in /a where (true()) return ", b"/b", b""),
    ];
    for &(most, open, middle, close) in rows {
        let nest = Nest {
            open,
            middle,
            close,
        };
        are_most(&rt, rt.alloc(), b"", most, nest, b"")?;
    }
    Ok(())
}

#[test]
fn conditions_nest_as_constructs_do(rt: HostRuntime) -> Result<(), Fail> {
    let rows: &[(&[u8], &[u8])] = &[
        (b"(", b")"),
        (b"not(", b")"),
        (b"(true() and ", b")"),
        (b"(true() or exists(/a) and ", b")"),
    ];
    for &(open, close) in rows {
        let nest = Nest {
            open,
            middle: b"exists(/b)",
            close,
        };
        let rest = b") then /b else /c";
        // the branch is one construct, and the loop
        are_most(&rt, rt.alloc(), b"if (", 199, nest, rest)?;
        let front = b"for $x in /a return if (";
        are_most(&rt, rt.alloc(), front, 198, nest, rest)?;
    }
    Ok(())
}

/// So many parentheses that open, and the rest.
fn opened(alloc: Global, count: usize, rest: &[u8]) -> Result<Vec<u8>, AllocError> {
    let mut query = Vec::new(alloc);
    put_repeated(&mut query, b"(", count)?;
    query.extend_from_slice(rest)?;
    Ok(query)
}

/// The query that so many parentheses open and this goes on is refused with the fault, or accepted.
fn is_judged(
    rt: &impl Abort,
    alloc: Global,
    count: usize,
    rest: &[u8],
    wanted: Option<QueryFault>,
) -> Result<(), Fail> {
    let query = opened(alloc, count, rest)?;
    assert_eq!(rt; fault(alloc, &query), wanted, "{count} {rest:?}");
    Ok(())
}

#[test]
fn the_token_that_opens_one_more_is_refused(rt: HostRuntime) -> Result<(), Fail> {
    let rows: &[(usize, &[u8], Option<QueryFault>)] = &[
        (200, b"", Some(QueryFault::Syntax(200))),
        (200, b"}", Some(QueryFault::Syntax(200))),
        (200, b"a", Some(QueryFault::Syntax(200))),
        (200, b"/a(", Some(QueryFault::Syntax(202))),
        (200, b"/a ()", Some(QueryFault::Syntax(203))),
        (200, b"/a <b/>", Some(QueryFault::Syntax(203))),
        (200, b"/a for", Some(QueryFault::Syntax(203))),
        (200, b"(", TOO_LARGE),
        (200, b"<", TOO_LARGE),
        (200, b"<1", TOO_LARGE),
        (200, b"for", TOO_LARGE),
        (200, b"if", TOO_LARGE),
        (200, b"/a, (", TOO_LARGE),
        (200, b";", Some(QueryFault::Lex(200))),
        (200, b"( ;", Some(QueryFault::Lex(202))),
        (199, b"if (not", TOO_LARGE),
        (199, b"if ((", TOO_LARGE),
        (199, b"if (exists(", Some(QueryFault::Syntax(210))),
        (199, b"if (exists((", Some(QueryFault::Syntax(210))),
        (199, b"if (true()) then (", TOO_LARGE),
        (199, b"for $x in (", Some(QueryFault::Syntax(209))),
        (199, b"for $x in /a where not", TOO_LARGE),
        (199, b"<a><b", TOO_LARGE),
        (199, b"<a>{(", TOO_LARGE),
        (199, b"<a></b>", Some(QueryFault::TagMismatch(204))),
    ];
    for &(count, rest, wanted) in rows {
        is_judged(&rt, rt.alloc(), count, rest, wanted)?;
    }
    Ok(())
}

#[test]
fn a_loop_and_a_branch_are_two(rt: HostRuntime) -> Result<(), Fail> {
    let alloc = rt.alloc();
    let mut rest = b"for $x in /a where exists($x) return if (true()) then /b else /c".to_vec(
        alloc,
    )?;
    put_repeated(&mut rest, b")", 198)?;
    is_judged(&rt, alloc, 198, &rest, None)
}

#[test]
fn what_stands_side_by_side_is_not_counted(rt: HostRuntime) -> Result<(), Fail> {
    let mut many = Vec::new(rt.alloc());
    put_repeated(&mut many, b"(), ", 300)?;
    many.extend_from_slice(b"()")?;
    is_judged(&rt, rt.alloc(), 0, &many, None)
}
