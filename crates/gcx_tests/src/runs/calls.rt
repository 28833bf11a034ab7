//! How many calls a command makes of its objects.
use super::objects::{End, FailingCalls, NOTHING, run};
use gcx_cmd::Status;
use gcx_model::{DocFault, QueryFault, What};
use std::alloc::Global;
use std::process::Abort;
use std::test::Fail;

/// A query that is accepted, and its answer.
const BS: &[u8] = b"<r>{for $x in /a/b return $x}</r>";

const ANSWER: &[u8] = b"<r><b>1</b><b>2</b></r>";

/// A document that has all of the answer, and one that is refused.
const AB: &[u8] = b"<a><b>1</b><c/><b>2</b></a>";

const CUT: &[u8] = b"<a><b></a>";

const CUT_LINE: &[u8] = b"gcx: document Syntax 8\n";

const LEX: &[u8] = b"/a ; /b";

const LEX_LINE: &[u8] = b"gcx: query Lex 3\n";

const READ_LINE: &[u8] = b"gcx: read fault\n";

const RUN: &[&[u8]] = &[b"run", b"q", b"d"];

const WHOLE: &[&[u8]] = &[b"whole", b"q", b"d"];

const PEAK: &[&[u8]] = &[b"peak", b"q", b"d"];

const EXPLAIN: &[&[u8]] = &[b"explain", b"q"];

/// The words of a command, a query and a document, the number of its calls of the files, and how it ends.
type Row = (
    &'static [&'static [u8]],
    (&'static [u8], &'static [u8]),
    u64,
    End<'static>,
);

/// The call of the files of this number fails, where there is one.
fn files_fail_at(number: u64) -> FailingCalls {
    FailingCalls {
        files: Some(number),
        ..NOTHING
    }
}

/// With a fault of the files at this call the command ends with a read fault, and the file behind it isn't called again.
fn is_read_fault(
    rt: &impl Abort,
    alloc: Global,
    words: &[&[u8]],
    files: (&[u8], &[u8]),
    number: u64,
) -> Result<(), Fail> {
    let ran = run(rt, alloc, words, files, 65_536, files_fail_at(number))?;
    let end = (ran.status, ran.err.as_slice());
    assert_eq!(rt; end, (Status::ReadFault, READ_LINE), "{words:?} {number}");
    Ok(())
}

/// This is the number of the last call of the files: one behind it isn't made.
fn is_last_call(
    rt: &impl Abort,
    alloc: Global,
    words: &[&[u8]],
    files: (&[u8], &[u8]),
    number: u64,
    end: End<'_>,
) -> Result<(), Fail> {
    is_read_fault(rt, alloc, words, files, number)?;
    let behind = files_fail_at(number.saturating_add(1));
    let ran = run(rt, alloc, words, files, 65_536, behind)?;
    assert_eq!(rt; ran.end(), end, "{words:?} {number}");
    Ok(())
}

const LEX_REFUSED: End<'static> = End {
    status: Status::QueryRefused(QueryFault::Lex(3)),
    out: b"",
    err: LEX_LINE,
};

const CUT_REFUSED: End<'static> = End {
    status: Status::DocumentRefused(DocFault::Syntax(8)),
    out: b"",
    err: CUT_LINE,
};

const UNREAD: End<'static> = End {
    status: Status::ReadFault,
    out: b"",
    err: READ_LINE,
};

const ANSWERED: End<'static> = End {
    status: Status::Ok,
    out: ANSWER,
    err: b"",
};

const PEAK_TOLD: End<'static> = End {
    out: b"peak 4 nodes 7 given 8 taken 8\n",
    ..ANSWERED
};

const BEGUN: End<'static> = End {
    out: b"<r><b>",
    ..CUT_REFUSED
};

/// An attach, a read of all the bytes and one that answers the end, of each file that is there.
const CALLED: &[Row] = &[
    (RUN, (BS, AB), 6, ANSWERED),
    (WHOLE, (BS, AB), 6, ANSWERED),
    (PEAK, (BS, AB), 6, PEAK_TOLD),
    (RUN, (BS, CUT), 5, BEGUN),
    (WHOLE, (BS, CUT), 5, CUT_REFUSED),
    (PEAK, (BS, CUT), 5, CUT_REFUSED),
    (RUN, (LEX, AB), 3, LEX_REFUSED),
    (WHOLE, (LEX, AB), 3, LEX_REFUSED),
    (PEAK, (LEX, AB), 3, LEX_REFUSED),
    (EXPLAIN, (LEX, AB), 3, LEX_REFUSED),
    (&[b"run", b"q", b"e"], (BS, AB), 4, UNREAD),
    (&[b"whole", b"e", b"d"], (BS, AB), 1, UNREAD),
];

#[test]
fn no_call_comes_behind_the_end_a_fault_or_a_miss(rt: HostRuntime) -> Result<(), Fail> {
    for &(words, files, number, end) in CALLED {
        is_last_call(&rt, rt.alloc(), words, files, number, end)?;
    }
    Ok(())
}

#[test]
fn no_read_comes_behind_the_limit_of_a_query(rt: HostRuntime) -> Result<(), Fail> {
    let alloc = rt.alloc();
    let query = vec![in alloc; b' '; 1_100_000]?;
    let end = End {
        status: Status::QueryRefused(QueryFault::TooLarge(What::Text, 1_048_576)),
        out: b"",
        err: b"gcx: query TooLarge Text 1048576\n",
    };
    // an attach, 256 reads of 4,096 bytes, and one more
    for words in &[RUN, WHOLE, PEAK, EXPLAIN] {
        is_last_call(&rt, alloc, words, (&query, AB), 258, end)?;
    }
    Ok(())
}

/// Each call of the files fails once, which ends the command; nothing is written.
fn stops_at_each_call(
    rt: &impl Abort,
    alloc: Global,
    words: &[&[u8]],
    calls: u64,
) -> Result<(), Fail> {
    for number in 1..=calls {
        let ran = run(rt, alloc, words, (BS, AB), 65_536, files_fail_at(number))?;
        assert_eq!(rt; ran.end(), UNREAD, "{words:?} {number}");
    }
    Ok(())
}

#[test]
fn a_read_fault_ends_the_command_and_nothing_is_written(rt: HostRuntime) -> Result<(), Fail> {
    for &(words, calls) in &[(WHOLE, 6), (PEAK, 6), (EXPLAIN, 3)] {
        stops_at_each_call(&rt, rt.alloc(), words, calls)?;
    }
    Ok(())
}

/// The second write of `err` fails, and the line is whole: it is one write.
fn line_is_one_write(
    rt: &impl Abort,
    alloc: Global,
    words: &[&[u8]],
    files: (&[u8], &[u8]),
    out: Option<u64>,
    end: End<'_>,
) -> Result<(), Fail> {
    let failing = FailingCalls {
        out,
        err: Some(2),
        ..NOTHING
    };
    let ran = run(rt, alloc, words, files, 65_536, failing)?;
    assert_eq!(rt; ran.end(), end, "{words:?}");
    Ok(())
}

const UNWRITTEN: End<'static> = End {
    status: Status::WriteFault,
    out: b"",
    err: b"gcx: write fault\n",
};

const MISUSED: End<'static> = End {
    status: Status::Usage,
    out: b"",
    err: b"gcx: the words are not a command line\n",
};

/// The words of a command, a query and a document, the write of `out` that fails, and how the command ends.
type Told = (
    &'static [&'static [u8]],
    (&'static [u8], &'static [u8]),
    Option<u64>,
    End<'static>,
);

const LINES: &[Told] = &[
    (RUN, (LEX, AB), None, LEX_REFUSED),
    (WHOLE, (BS, CUT), None, CUT_REFUSED),
    (&[b"run", b"q", b"e"], (BS, AB), None, UNREAD),
    (RUN, (BS, AB), Some(1), UNWRITTEN),
    (&[b"run"], (BS, AB), None, MISUSED),
];

#[test]
fn a_line_is_one_write(rt: HostRuntime) -> Result<(), Fail> {
    for &(words, files, out, end) in LINES {
        line_is_one_write(&rt, rt.alloc(), words, files, out, end)?;
    }
    Ok(())
}

#[test]
fn a_line_behind_a_trace_that_cannot_be_written_changes_no_status(
    rt: HostRuntime,
) -> Result<(), Fail> {
    let words: &[&[u8]] = &[b"run", b"--trace", b"q", b"d"];
    let whole = run(&rt, rt.alloc(), words, (BS, CUT), 65_536, NOTHING)?;
    assert!(rt; whole.err.ends_with(CUT_LINE));
    let trace = &whole.err[..whole.err.len().saturating_sub(CUT_LINE.len())];
    // one write of the trace before the document is read, one behind the read, and the line
    let failing = FailingCalls {
        err: Some(3),
        ..NOTHING
    };
    let ran = run(&rt, rt.alloc(), words, (BS, CUT), 65_536, failing)?;
    let end = End {
        err: trace,
        ..whole.end()
    };
    assert_eq!(rt; ran.end(), end);
    Ok(())
}
