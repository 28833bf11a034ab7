//! Runs of `many` over files in memory, of which one call fails or none.
ghost use Rattle.std.specs.Prelude.{◌<◌, []};

use super::objects::{fails, mem_sink, mem_status, put_file, text, texts};
use gcx_base::Text;
use gcx_cmd::Status;
use gcx_io::MemShelf;
use gcx_model::{DocFault, QueryFault};
use std::alloc::Global;
use std::process::Abort;
use std::test::Fail;

/// The names of files and what they hold.
pub(super) type Files<'a> = &'a [(&'a [u8], &'a [u8])];

/// A query and its OUT, and how much of what it writes is settled before the tags of so many bytes of the document are
/// read: up to each of these counts so many. Behind the last one and before the end `whole` lacks what the end settles.
#[derive(Clone, Copy)]
struct Asked<'a> {
    query: &'a [u8],
    out: &'a [u8],
    settled: &'a [(usize, usize)],
    whole: &'a [u8],
}

impl Asked<'_> {
    /// How much is settled by so many bytes of the document, before its end.
    fn settled_by(&self, count: usize) -> usize {
        for &(upto, written) in self.settled {
            if count <= upto {
                return written;
            }
        }
        self.whole.len()
    }
}

/// Words over files, what they ask of the document `d`, and how the run ends. At most three queries.
#[derive(Clone, Copy)]
struct Case<'a> {
    words: &'a [&'a [u8]],
    files: Files<'a>,
    document: &'a [u8],
    asked: &'a [Asked<'a>],
    status: Status,
    /// How many bytes tell that the document is refused; more than there are where it isn't.
    refused_by: usize,
}

const LOOP_QUERY: &[u8] = b"<r>{for $x in /a/b return $x}</r>";

const PATH_QUERY: &[u8] = b"/a/c";

const DOCUMENT: &[u8] = b"<a><b>1</b><c/><b>2</b></a>";

const LOOP: Asked<'static> = Asked {
    query: LOOP_QUERY,
    out: b"o1",
    settled: &[(5, 3), (10, 6), (17, 11), (22, 14), (27, 19)],
    whole: b"<r><b>1</b><b>2</b></r>",
};

const PATH: Asked<'static> = Asked {
    query: PATH_QUERY,
    out: b"o2",
    settled: &[(14, 0), (27, 7)],
    whole: b"<c></c>",
};

const NOTHING: Asked<'static> = Asked {
    query: b"//none",
    out: b"o3",
    settled: &[],
    whole: b"",
};

const TWO_WORDS: &[&[u8]] = &[b"many", b"d", b"q1", b"o1", b"q2", b"o2"];

/// The loop over `b` and a path.
const BOTH: Case<'static> = Case {
    words: TWO_WORDS,
    files: &[(b"d", DOCUMENT), (b"q1", LOOP_QUERY), (b"q2", PATH_QUERY)],
    document: DOCUMENT,
    asked: &[LOOP, PATH],
    status: Status::Ok,
    refused_by: 28,
};

/// One more that nothing matches.
const THREE: Case<'static> = Case {
    words: &[b"many", b"d", b"q2", b"o2", b"q3", b"o3", b"q1", b"o1"],
    files: &[
        (b"d", DOCUMENT),
        (b"q1", LOOP_QUERY),
        (b"q2", PATH_QUERY),
        (b"q3", b"//none"),
    ],
    document: DOCUMENT,
    asked: &[PATH, NOTHING, LOOP],
    status: Status::Ok,
    refused_by: 28,
};

const UNCLOSED: &[u8] = b"<a><b></a>";

/// The end tag doesn't fit: each has what the two tags before it settle.
const REFUSED: Case<'static> = Case {
    words: TWO_WORDS,
    files: &[(b"d", UNCLOSED), (b"q1", b"<r>{/a/b}</r>"), (b"q2", b"/a")],
    document: UNCLOSED,
    asked: &[
        Asked {
            query: b"<r>{/a/b}</r>",
            out: b"o1",
            settled: &[(5, 3)],
            whole: b"<r><b>",
        },
        Asked {
            query: b"/a",
            out: b"o2",
            settled: &[(2, 0), (5, 3)],
            whole: b"<a><b>",
        },
    ],
    status: Status::DocumentRefused(DocFault::Syntax(8)),
    refused_by: 9,
};

const CUT_DOCUMENT: &[u8] = b"<a><b>1</b><c/>";

/// The document ends too early: each has what its tags settle.
const CUT: Case<'static> = Case {
    words: TWO_WORDS,
    files: &[
        (b"d", CUT_DOCUMENT),
        (b"q1", LOOP_QUERY),
        (b"q2", PATH_QUERY),
    ],
    document: CUT_DOCUMENT,
    asked: &[
        Asked {
            query: LOOP_QUERY,
            out: b"o1",
            settled: &[(5, 3), (10, 6)],
            whole: b"<r><b>1</b>",
        },
        Asked {
            query: PATH_QUERY,
            out: b"o2",
            settled: &[(14, 0)],
            whole: b"<c></c>",
        },
    ],
    status: Status::DocumentRefused(DocFault::Truncated(15)),
    refused_by: 16,
};

/// How many bytes the OUT of each query holds: None where it isn't there.
type Held = [Option<usize>; 3];

/// How a run ends.
#[derive(Clone, Copy, Debug, PartialEq)]
struct End {
    status: Status,
    held: Held,
}

/// The calls of the shelf, of which one fails.
#[derive(Clone, Copy)]
struct Calls {
    made: usize,
    failing: usize,
}

impl Calls {
    fn fails(&mut self) -> bool {
        self.made = self.made.saturating_add(1);
        self.made == self.failing
    }

    /// Whether one of so many calls fails.
    fn fail_in(&mut self, count: usize) -> bool {
        for _call in 0..count {
            if self.fails() {
                return true;
            }
        }
        false
    }
}

/// How many calls read or write so many bytes.
fn pieces(bytes: usize, most: usize) -> usize {
    bytes.div_ceil(most.max(1))
}

/// The queries are attached and read to their ends, the OUTs are made and DOC is attached: the status to end with, where a
/// call fails.
fn begins(calls: &mut Calls, case: &Case<'_>, most: usize, held: &mut Held) -> Option<Status> {
    for asked in case.asked {
        let count = pieces(asked.query.len(), most).saturating_add(2);
        if calls.fail_in(count) {
            return Some(Status::ReadFault);
        }
    }
    for index in 0..case.asked.len() {
        if calls.fails() {
            return Some(Status::WriteFault);
        }
        if let Some(slot) = held.get_mut(index) {
            *slot = Some(0);
        }
    }
    if calls.fails() {
        return Some(Status::ReadFault);
    }
    None
}

/// An OUT that holds so many bytes takes up to this many. None where a write fails, and else what it holds then.
fn taken(calls: &mut Calls, before: usize, upto: usize, most: usize) -> (usize, bool) {
    let mut held = before;
    for _write in 0..1_000 {
        if held < upto {
            if calls.fails() {
                return (held, true);
            }
            held = held.saturating_add(most).min(upto);
        }
    }
    (held, false)
}

/// Each OUT takes what is settled by so many bytes, one behind the other, or all that its query writes. True where a write
/// fails.
fn write_fails(
    calls: &mut Calls,
    case: &Case<'_>,
    held: &mut Held,
    read: Option<usize>,
    most: usize,
) -> bool {
    for (index, asked) in case.asked.iter().enumerate() {
        let upto = match read {
            Some(read) => asked.settled_by(read),
            None => asked.whole.len(),
        };
        if let Some(slot) = held.get_mut(index) {
            let (now, failed) = taken(calls, slot.unwrap_or(0), upto, most);
            *slot = Some(now);
            if failed {
                return true;
            }
        }
    }
    false
}

/// The run once DOC is attached: before each read each OUT takes what is settled.
fn ran(calls: &mut Calls, case: &Case<'_>, most: usize, held: &mut Held) -> Status {
    let mut read = 0;
    for _turn in 0..100 {
        if write_fails(calls, case, held, Some(read), most) {
            return Status::WriteFault;
        }
        if calls.fails() {
            return Status::ReadFault;
        }
        let now = read.saturating_add(most).min(case.document.len());
        if read == case.document.len() || case.refused_by <= now {
            if write_fails(calls, case, held, None, most) {
                return Status::WriteFault;
            }
            return case.status;
        }
        read = now;
    }
    Status::Usage
}

/// How the run ends whose call of this number fails, told apart from the program.
fn expected(case: &Case<'_>, most: usize, failing: usize) -> End {
    let mut calls = Calls { made: 0, failing };
    let mut held = [None; 3];
    let status = match begins(&mut calls, case, most, &mut held) {
        Some(status) => status,
        None => ran(&mut calls, case, most, &mut held),
    };
    End { status, held }
}

/// Files of these names, each call of which moves at most `most` bytes.
fn files_of(
    alloc: Global,
    files: Files<'_>,
    most: usize,
    failing: Option<u64>,
) -> Result<MemShelf, Fail>
    requires { 0 < most }
{
    let mut shelf = MemShelf::new(alloc, 100, most, fails(alloc, failing)?);
    for &(name, bytes) in files {
        put_file(alloc, &mut shelf, name, bytes)?;
    }
    Ok(shelf)
}

/// What the name holds.
fn bytes_of<'f>(
    rt: &impl Abort,
    alloc: Global,
    files: &'f MemShelf,
    name: &[u8],
) -> Result<Option<&'f [u8]>, Fail> {
    let name = text(alloc, name)?;
    assert!(rt; files.is_whole());
    Ok(files.bytes(&name))
}

/// How a run of these words over the files ends. It writes no output.
fn status_of(
    rt: &impl Abort,
    alloc: Global,
    words: &[Text],
    files: &mut MemShelf,
    most: usize,
) -> Result<Status, Fail>
    requires { 0 < most }
{
    let mut out = mem_sink(alloc, 10, most, None)?;
    let mut err = mem_sink(alloc, 100, most, None)?;
    let status = mem_status(alloc, words, files, &mut out, &mut err);
    assert!(rt; out.is_whole());
    assert!(rt; out.bytes().is_empty());
    Ok(status)
}

/// The number of bytes that each OUT holds, which are a front of what its query writes.
fn held_by(
    rt: &impl Abort,
    alloc: Global,
    files: &MemShelf,
    case: &Case<'_>,
) -> Result<Held, Fail> {
    let mut held = [None; 3];
    for (index, asked) in case.asked.iter().enumerate() {
        if let Some(bytes) = bytes_of(rt, alloc, files, asked.out)? {
            assert!(rt; asked.whole.starts_with(bytes));
            if let Some(slot) = held.get_mut(index) {
                *slot = Some(bytes.len());
            }
        }
    }
    Ok(held)
}

/// A run in which the call of this number of the shelf fails.
fn run_many(
    rt: &impl Abort,
    alloc: Global,
    words: &[Text],
    case: &Case<'_>,
    most: usize,
    failing: u64,
) -> Result<End, Fail>
    requires { 0 < most }
{
    let mut files = files_of(alloc, case.files, most, Some(failing))?;
    let status = status_of(rt, alloc, words, &mut files, most)?;
    let held = held_by(rt, alloc, &files, case)?;
    Ok(End { status, held })
}

/// Each call fails once, and then none does. True where the last run had no fault.
fn each_call_of(
    rt: &impl Abort,
    alloc: Global,
    words: &[Text],
    case: &Case<'_>,
    most: usize,
) -> Result<bool, Fail> {
    assert!(rt; most > 0);
    for failing in 1..300usize {
        let wanted = expected(case, most, failing);
        let ended = run_many(rt, alloc, words, case, most, failing as u64)?;
        assert_eq!(rt; ended, wanted, "{most} {failing}");
        if wanted.status == case.status {
            return Ok(true);
        }
    }
    Ok(false)
}

fn each_call_fails(rt: &impl Abort, alloc: Global, case: Case<'_>) -> Result<(), Fail> {
    let words = texts(alloc, case.words)?;
    for &most in &[1, 7, 65_536] {
        let over = each_call_of(rt, alloc, &words, &case, most)?;
        assert!(rt; over);
    }
    Ok(())
}

#[test]
fn each_call_of_a_shelf_fails_in_many(rt: HostRuntime) -> Result<(), Fail> {
    for &case in &[BOTH, THREE, REFUSED, CUT] {
        each_call_fails(&rt, rt.alloc(), case)?;
    }
    Ok(())
}

/// What names hold: None where they aren't there.
pub(super) type Kept<'a> = &'a [(&'a [u8], Option<&'a [u8]>)];

/// The words over these files, at most so many bytes a call, end so, and then these names hold so much.
pub(super) fn ends_with_files_by(
    rt: &impl Abort,
    alloc: Global,
    words: &[&[u8]],
    files: Files<'_>,
    most: usize,
    end: (Status, Kept<'_>),
) -> Result<(), Fail> {
    let (status, kept) = end;
    assert!(rt; most > 0);
    let words = texts(alloc, words)?;
    let mut shelf = files_of(alloc, files, most, None)?;
    let ended = status_of(rt, alloc, &words, &mut shelf, most)?;
    assert_eq!(rt; ended, status, "{most}");
    holds(rt, alloc, &shelf, kept)
}

/// The same by one byte a call, by some and by all.
fn ends_with_files(
    rt: &impl Abort,
    alloc: Global,
    words: &[&[u8]],
    files: Files<'_>,
    status: Status,
    kept: Kept<'_>,
) -> Result<(), Fail> {
    for &most in &[1, 7, 65_536] {
        ends_with_files_by(rt, alloc, words, files, most, (status, kept))?;
    }
    Ok(())
}

fn holds(rt: &impl Abort, alloc: Global, files: &MemShelf, kept: Kept<'_>) -> Result<(), Fail> {
    for &(name, bytes) in kept {
        let found = bytes_of(rt, alloc, files, name)?;
        assert_eq!(rt; found, bytes, "{name:?}");
    }
    Ok(())
}

const AB: &[u8] = b"<a><b>1</b><c/></a>";

/// One query twice.
const WORDS: &[&[u8]] = &[b"many", b"d", b"p", b"o1", b"q", b"o2", b"p", b"o3"];

/// Two queries, and an OUT that is there already.
const FILES: Files<'static> = &[
    (b"d", AB),
    (b"p", b"/a/b"),
    (b"q", b"/a/c"),
    (b"o1", b"before"),
];

/// No OUT is made.
const UNTOUCHED: Kept<'static> = &[(b"o1", Some(b"before")), (b"o2", None), (b"o3", None)];

const SIXTEEN: &[&[u8]] = &[
    b"many", b"d", b"p", b"o00", b"q", b"o01", b"p", b"o02", b"q", b"o03", b"p", b"o04", b"q",
    b"o05", b"p", b"o06", b"q", b"o07", b"p", b"o08", b"q", b"o09", b"p", b"o10", b"q", b"o11",
    b"p", b"o12", b"q", b"o13", b"p", b"o14", b"q", b"o15",
];

const ANSWERS: Kept<'static> = &[
    (b"o00", Some(b"<b>1</b>")),
    (b"o01", Some(b"<c></c>")),
    (b"o02", Some(b"<b>1</b>")),
    (b"o03", Some(b"<c></c>")),
    (b"o04", Some(b"<b>1</b>")),
    (b"o05", Some(b"<c></c>")),
    (b"o06", Some(b"<b>1</b>")),
    (b"o07", Some(b"<c></c>")),
    (b"o08", Some(b"<b>1</b>")),
    (b"o09", Some(b"<c></c>")),
    (b"o10", Some(b"<b>1</b>")),
    (b"o11", Some(b"<c></c>")),
    (b"o12", Some(b"<b>1</b>")),
    (b"o13", Some(b"<c></c>")),
    (b"o14", Some(b"<b>1</b>")),
    (b"o15", Some(b"<c></c>")),
];

/// Words over files, how they end, and what names hold then.
type Made = (
    &'static [&'static [u8]],
    Files<'static>,
    Status,
    Kept<'static>,
);

const MADE: &[Made] = &[
    (
        WORDS,
        FILES,
        Status::Ok,
        &[
            (b"o1", Some(b"<b>1</b>")),
            (b"o2", Some(b"<c></c>")),
            (b"o3", Some(b"<b>1</b>")),
            (b"d", Some(AB)),
        ],
    ),
    // the query in the middle isn't there, or is refused
    (
        WORDS,
        &[(b"d", AB), (b"p", b"/a/b"), (b"o1", b"before")],
        Status::ReadFault,
        UNTOUCHED,
    ),
    (
        WORDS,
        &[
            (b"d", AB),
            (b"p", b"/a/b"),
            (b"q", b"/a)"),
            (b"o1", b"before"),
        ],
        Status::QueryRefused(QueryFault::Syntax(2)),
        UNTOUCHED,
    ),
    // DOC isn't there
    (
        WORDS,
        &[(b"p", b"/a/b"), (b"q", b"/a/c"), (b"o1", b"before")],
        Status::ReadFault,
        &[(b"o1", Some(b"")), (b"o2", Some(b"")), (b"o3", Some(b""))],
    ),
    // the words are no pairs, or have an OUT twice
    (&[b"many", b"d", b"p"], FILES, Status::Usage, UNTOUCHED),
    (
        &[b"many", b"d", b"p", b"o2", b"q", b"o2"],
        FILES,
        Status::Usage,
        UNTOUCHED,
    ),
    (SIXTEEN, FILES, Status::Ok, ANSWERS),
];

#[test]
fn outs_are_made_behind_all_queries(rt: HostRuntime) -> Result<(), Fail> {
    for &(words, files, status, kept) in MADE {
        ends_with_files(&rt, rt.alloc(), words, files, status, kept)?;
    }
    Ok(())
}
