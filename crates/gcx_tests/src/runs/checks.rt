//! The judging of traces, over files in memory.
use super::commands::{AB, BS, JS, KS, ONES, TRACE_BS, TRACE_KS, TRACE_ONES};
use super::ends_in_pieces;
use super::objects::{End, FailingCalls, NOTHING, run, run_check};
use crate::large::joined;
use gcx_cmd::Status;
use gcx_model::{DocFault, QueryFault};
use std::alloc::Global;
use std::process::Abort;
use std::test::Fail;

const LINES: &[u8] = b"trace 33 lines\n";

const EITHER: &[u8] =
    b"for $x in /r/p return if (exists($x/k) or exists($x/j)) then <y/> else <n/>";

/// No match: the condition is false as `p` closes.
const TRACE_NONE: &[u8] = b"+ 0 / 0
+ 1 r 1
+ 2 p 2
- 2
w 3
w 4
o 2 3
o 2 2
x 2
- 1
o 1 1
x 1
- 0
o 0 0
x 0
";

/// The right operand is known first, and settles nothing.
const TRACE_RIGHT: &[u8] = b"+ 0 / 0
+ 1 r 1
+ 2 p 2
+ 3 j 4
- 3
- 2
w 3
w 4
o 2 3
o 2 4
x 3
o 2 2
x 2
- 1
o 1 1
x 1
- 0
o 0 0
x 0
";

/// The left operand is known as `k` opens.
const TRACE_LEFT: &[u8] = b"+ 0 / 0
+ 1 r 1
+ 2 p 2
+ 3 k 3
w 3
w 4
o 2 3
o 2 4
o 2 2
- 3
x 3
- 2
x 2
- 1
o 1 1
x 1
- 0
o 0 0
x 0
";

/// The trace `TRACE_BS` with another line 12: a role that is taken twice.
const TAKEN_TWICE: &[u8] = b"+ 0 / 0
w 3
+ 1 a 1
+ 2 b 2 3
w 3
+ 3 # 3
w 1
- 2
w 4
o 2 3
x 3
o 2 3
x 2
+ 4 c
- 4
x 4
+ 5 b 2 3
w 3
+ 6 # 3
w 1
- 5
w 4
o 5 3
x 6
o 5 2
x 5
- 1
o 1 1
x 1
- 0
w 4
o 0 0
x 0
";

/// The trace is judged so, by calls that move a byte, some or all.
fn is_judged(
    rt: &impl Abort,
    alloc: Global,
    files: (&[u8], &[u8]),
    trace: &[u8],
    end: End<'_>,
) -> Result<(), Fail> {
    for &most in &[1, 7, 65_536] {
        let ran = run_check(rt, alloc, files, trace, most, NOTHING)?;
        assert_eq!(rt; ran.end(), end, "{files:?} {most}");
    }
    Ok(())
}

#[test]
fn the_trace_of_a_run_is_accepted(rt: HostRuntime) -> Result<(), Fail> {
    let rows: &[(&[u8], &[u8], &[u8], &[u8])] = &[
        (BS, AB, TRACE_BS, LINES),
        (KS, b"<r><p><k/></p></r>", TRACE_KS, b"trace 18 lines\n"),
        (
            ONES,
            b"<r><p><k>1</k><k>2</k><k>3</k></p></r>",
            TRACE_ONES,
            b"trace 30 lines\n",
        ),
        (KS, b"<r><p></p></r>", TRACE_NONE, b"trace 15 lines\n"),
        (
            EITHER,
            b"<r><p><j/></p></r>",
            TRACE_RIGHT,
            b"trace 19 lines\n",
        ),
        (
            EITHER,
            b"<r><p><k/></p></r>",
            TRACE_LEFT,
            b"trace 19 lines\n",
        ),
    ];
    for &(query, document, trace, out) in rows {
        let end = End {
            status: Status::Ok,
            out,
            err: b"",
        };
        is_judged(&rt, rt.alloc(), (query, document), trace, end)?;
    }
    Ok(())
}

#[test]
fn another_trace_is_refused_at_its_first_line(rt: HostRuntime) -> Result<(), Fail> {
    let alloc = rt.alloc();
    let longer = joined(alloc, &[TRACE_BS, b"x 0\n"])?;
    let shorter = &TRACE_BS[..TRACE_BS.len().saturating_sub(1)];
    // the lines up to the one that is refused
    let front = &TAKEN_TWICE[..TAKEN_TWICE.len().min(70)];
    let rows: &[(&[u8], u64, &[u8])] = &[
        (TAKEN_TWICE, 12, b"gcx: trace 12\n"),
        (front, 12, b"gcx: trace 12\n"),
        (shorter, 33, b"gcx: trace 33\n"),
        (longer.as_slice(), 34, b"gcx: trace 34\n"),
        (b"", 1, b"gcx: trace 1\n"),
        (b"x", 1, b"gcx: trace 1\n"),
        (b"+ 0 / 0\r\n", 1, b"gcx: trace 1\n"),
    ];
    for &(trace, line, err) in rows {
        let end = End {
            status: Status::TraceRefused(line),
            out: b"",
            err,
        };
        is_judged(&rt, alloc, (BS, AB), trace, end)?;
    }
    Ok(())
}

#[test]
fn a_trace_that_is_not_there_comes_behind_the_other_files(rt: HostRuntime) -> Result<(), Fail> {
    let rows: &[(&[u8], &[u8], Status, &[u8])] = &[
        (BS, AB, Status::ReadFault, b"gcx: read fault\n"),
        (
            BS,
            b"<a><b></a>",
            Status::DocumentRefused(DocFault::Syntax(8)),
            b"gcx: document Syntax 8\n",
        ),
        (
            b"/a//b/c",
            AB,
            Status::QueryRefused(QueryFault::DescendantNotLast(2)),
            b"gcx: query DescendantNotLast 2\n",
        ),
    ];
    let words: &[&[u8]] = &[b"check", b"q", b"d", b"e"];
    for &(query, document, status, err) in rows {
        let end = End {
            status,
            out: b"",
            err,
        };
        ends_in_pieces(&rt, rt.alloc(), words, (query, document), end)?;
    }
    Ok(())
}

/// The judging of `TRACE_BS` ends so where these calls fail.
fn ends_where(
    rt: &impl Abort,
    alloc: Global,
    failing: FailingCalls,
    end: End<'_>,
) -> Result<(), Fail> {
    let ran = run_check(rt, alloc, (BS, AB), TRACE_BS, 7, failing)?;
    assert_eq!(rt; ran.end(), end);
    Ok(())
}

#[test]
fn each_call_of_the_files_of_a_check_fails_once(rt: HostRuntime) -> Result<(), Fail> {
    let end = End {
        status: Status::ReadFault,
        out: b"",
        err: b"gcx: read fault\n",
    };
    // three files are attached, and seven bytes a read, and the end, are read of 33, 27 and 174 bytes
    for number in 1..=40u64 {
        let failing = FailingCalls {
            files: Some(number),
            ..NOTHING
        };
        ends_where(&rt, rt.alloc(), failing, end)?;
    }
    Ok(())
}

#[test]
fn each_write_of_the_line_of_a_check_fails_once(rt: HostRuntime) -> Result<(), Fail> {
    for &(number, most) in &[(1, 0), (2, 7), (3, 14)] {
        let failing = FailingCalls {
            out: Some(number),
            ..NOTHING
        };
        let end = End {
            status: Status::WriteFault,
            out: &LINES[..most],
            err: b"gcx: write fault\n",
        };
        ends_where(&rt, rt.alloc(), failing, end)?;
    }
    Ok(())
}

/// What `run --trace` wrote on standard error is accepted.
pub(super) fn is_accepted(
    rt: &impl Abort,
    alloc: Global,
    query: &[u8],
    document: &[u8],
) -> Result<(), Fail> {
    let words: &[&[u8]] = &[b"run", b"--trace", b"q", b"d"];
    let ran = run(rt, alloc, words, (query, document), 65_536, NOTHING)?;
    let judged = run_check(rt, alloc, (query, document), &ran.err, 65_536, NOTHING)?;
    assert_eq!(rt;
        (ran.status, judged.status),
        (Status::Ok, Status::Ok),
        "{query:?}"
    );
    Ok(())
}

#[test]
fn what_a_run_told_is_accepted(rt: HostRuntime) -> Result<(), Fail> {
    let rows: &[(&[u8], &[u8])] = &[
        (JS, b"<r><p><k/><j>1</j><j>2</j></p></r>"),
        (b"//a", b"<a>1<a>2<b/></a></a>"),
        (
            b"for $x in //a return for $y in $x//b return $y",
            b"<a><a><b/></a></a>",
        ),
        (b"for $t in /a/text() return ($t, /a/b)", b"<a>1<b/>2</a>"),
    ];
    for &(query, document) in rows {
        is_accepted(&rt, rt.alloc(), query, document)?;
    }
    Ok(())
}
