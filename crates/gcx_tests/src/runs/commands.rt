//! The commands, over files in memory.
use super::ends_in_pieces;
use super::objects::{End, FailingCalls, NOTHING, Ran, run};
use buf_trace::{put_line, read_line};
use gcx_cmd::Status;
use gcx_model::{DocFault, QueryFault};
use std::alloc::Global;
use std::process::Abort;
use std::test::Fail;

/// A query, and a document that has all its forms.
pub(super) const BS: &[u8] = b"<r>{for $x in /a/b return $x}</r>";

pub(super) const AB: &[u8] = b"<a><b>1</b><c/><b>2</b></a>";

const PAIRS: &[u8] =
    b"for $a in /r/x return for $b in /r/y return if ($a/k = $b/k) then <m/> else ()";

const XY: &[u8] = b"<r><x><k>1</k></x><y><k>1</k></y><y><k>2</k></y></r>";

pub(super) const KS: &[u8] = b"for $x in /r/p return if (exists($x/k)) then <y/> else <n/>";

pub(super) const ONES: &[u8] = b"for $x in /r/p return if ($x/k = \"1\") then <y/> else <n/>";

const CHEAP: &[u8] = b"<out>{
  for $b in /bib/book
  where $b/price < 50 and not(exists($b/editor))
  return <cheap>{$b/title}</cheap>
}</out>
";

const BIB: &[u8] = b"<?xml version=\"1.0\" encoding=\"UTF-8\"?>
<!DOCTYPE bib SYSTEM \"bib.dtd\">
<!-- two books -->
<bib>
  <book>
    <title>Data on the Web</title>
    <price>39</price>
  </book>
  <book>
    <title>TCP/IP &amp; more</title>
    <price>65</price>
  </book>
</bib>
";

pub(super) const JS: &[u8] =
    b"for $x in /r/p return if (exists($x/k)) then for $y in $x/j return $y else ()";

const EXPLAINED_BS: &[u8] = b"var 0 root
var 1 of 0 child::a straight
var 2 of 1 child::b straight
role 0 own 0
role 1 own 1
role 2 own 2
role 3 whole 2 .
plan
write <r>
for 1 in 0/child::a
 for 2 in 1/child::b
  copy 2
  off 2 3 . . whole
  off 2 2 . . own
 off 1 1 . . own
write </r>
off 0 0 . . own
";

const EXPLAINED_PAIRS: &[u8] = b"var 0 root
var 1 of 0 child::r straight
var 2 of 1 child::x straight
var 3 of 0 child::r fsa 0
var 4 of 3 child::y fsa 0
role 0 own 0
role 1 own 1
role 2 own 2
role 3 own 3
role 4 own 4
role 5 whole 2 child::k
role 6 whole 4 child::k
plan
for 1 in 0/child::r
 for 2 in 1/child::x
  for 3 in 0/child::r
   for 4 in 3/child::y
    if (2/child::k = 4/child::k)
     write <m>
     write </m>
    else
  off 2 5 . child::k whole
  off 2 2 . . own
 off 1 1 . . own
off 0 3 child::r . own
off 0 4 child::r/child::y . own
off 0 6 child::r/child::y child::k whole
off 0 0 . . own
";

pub(super) const TRACE_BS: &[u8] = b"+ 0 / 0
w 3
+ 1 a 1
+ 2 b 2 3
w 3
+ 3 # 3
w 1
- 2
w 4
o 2 3
x 3
o 2 2
x 2
+ 4 c
- 4
x 4
+ 5 b 2 3
w 3
+ 6 # 3
w 1
- 5
w 4
o 5 3
x 6
o 5 2
x 5
- 1
o 1 1
x 1
- 0
w 4
o 0 0
x 0
";

pub(super) const TRACE_KS: &[u8] = b"+ 0 / 0
+ 1 r 1
+ 2 p 2
+ 3 k 3
w 3
w 4
o 2 3
o 2 2
- 3
x 3
- 2
x 2
- 1
o 1 1
x 1
- 0
o 0 0
x 0
";

/// The comparison is true once the first `k` is closed, so the later ones leave at once.
pub(super) const TRACE_ONES: &[u8] = b"+ 0 / 0
+ 1 r 1
+ 2 p 2
+ 3 k 3
+ 4 # 3
- 3
w 3
w 4
o 2 3
x 4
x 3
o 2 2
+ 5 k 3
+ 6 # 3
x 6
- 5
x 5
+ 7 k 3
+ 8 # 3
x 8
- 7
x 7
- 2
x 2
- 1
o 1 1
x 1
- 0
o 0 0
x 0
";

/// Words between bars, a query and a document; then how the call ends, what it writes and what `err` takes.
type Row = (
    &'static [u8],
    &'static [u8],
    &'static [u8],
    Status,
    &'static [u8],
    &'static [u8],
);

/// The words between bars.
fn split(alloc: Global, line: &[u8]) -> Result<Vec<&[u8]>, Fail> {
    let mut words = Vec::new(alloc);
    for word in line.split(|byte| *byte == b'|') {
        words.push(word)?;
    }
    Ok(words)
}

/// Each row, over objects whose calls move a byte, some or all.
fn are_met(rt: &impl Abort, alloc: Global, rows: &[Row]) -> Result<(), Fail> {
    for &(line, query, document, status, out, err) in rows {
        let words = split(alloc, line)?;
        let end = End { status, out, err };
        ends_in_pieces(rt, alloc, &words, (query, document), end)?;
    }
    Ok(())
}

const ANSWER_BS: &[u8] = b"<r><b>1</b><b>2</b></r>";

const USAGE: &[u8] = b"gcx: the words are not a command line\n";

const RUNS: &[Row] = &[
    (b"run|--trace|q|d", BS, AB, Status::Ok, ANSWER_BS, TRACE_BS),
    (b"run|q|d|--trace", BS, AB, Status::Ok, ANSWER_BS, TRACE_BS),
    (b"run|--ahead|3|q|d", BS, AB, Status::Ok, ANSWER_BS, b""),
    (b"run|--ahead=1000|q|d", BS, AB, Status::Ok, ANSWER_BS, b""),
    (
        b"run|--trace|q|d",
        KS,
        b"<r><p><k/></p></r>",
        Status::Ok,
        b"<y></y>",
        TRACE_KS,
    ),
    (
        b"run|--trace|q|d",
        ONES,
        b"<r><p><k>1</k><k>2</k><k>3</k></p></r>",
        Status::Ok,
        b"<y></y>",
        TRACE_ONES,
    ),
    (
        b"run|q|d",
        JS,
        b"<r><p><k/><j>1</j><j>2</j></p></r>",
        Status::Ok,
        b"<j>1</j><j>2</j>",
        b"",
    ),
    (b"run|q", BS, AB, Status::Usage, b"", USAGE),
    (b"check|q|d", BS, AB, Status::Usage, b"", USAGE),
    (b"run|--ahead|0|q|d", BS, AB, Status::Usage, b"", USAGE),
    (
        b"run|--trace|--ahead|3|q|d",
        BS,
        AB,
        Status::Usage,
        b"",
        USAGE,
    ),
    (b"help", BS, AB, Status::Usage, b"", USAGE),
    (
        b"run|--trace|q|e",
        BS,
        AB,
        Status::ReadFault,
        b"",
        b"gcx: read fault\n",
    ),
    (
        b"run|--trace|q|d",
        b"/a ; /b",
        AB,
        Status::QueryRefused(QueryFault::Lex(3)),
        b"",
        b"gcx: query Lex 3\n",
    ),
];

const WHOLES: &[Row] = &[
    (
        b"whole|q|d",
        BS,
        AB,
        Status::Ok,
        b"<r><b>1</b><b>2</b></r>",
        b"",
    ),
    (
        b"whole|q|d",
        BS,
        b"<a><b></a>",
        Status::DocumentRefused(DocFault::Syntax(8)),
        b"",
        b"gcx: document Syntax 8\n",
    ),
    (b"explain|q", BS, b"", Status::Ok, EXPLAINED_BS, b""),
    (b"explain|q", PAIRS, b"", Status::Ok, EXPLAINED_PAIRS, b""),
    (
        b"explain|q",
        b"/a ; /b",
        b"",
        Status::QueryRefused(QueryFault::Lex(3)),
        b"",
        b"gcx: query Lex 3\n",
    ),
    (
        b"explain|e",
        BS,
        b"",
        Status::ReadFault,
        b"",
        b"gcx: read fault\n",
    ),
];

const NUMBERS: &[Row] = &[
    (
        b"peak|q|d",
        BS,
        AB,
        Status::Ok,
        b"peak 4 nodes 7 given 8 taken 8\n",
        b"",
    ),
    (
        b"peak|q|d",
        PAIRS,
        XY,
        Status::Ok,
        b"peak 11 nodes 11 given 12 taken 12\n",
        b"",
    ),
    (
        b"peak|q|d",
        KS,
        b"<r><p><k/></p></r>",
        Status::Ok,
        b"peak 4 nodes 4 given 4 taken 4\n",
        b"",
    ),
    (
        b"peak|q|d",
        ONES,
        b"<r><p><k>1</k><k>2</k><k>3</k></p></r>",
        Status::Ok,
        b"peak 5 nodes 9 given 9 taken 9\n",
        b"",
    ),
    (
        b"peak|q|d",
        JS,
        b"<r><p><k/><j>1</j><j>2</j></p></r>",
        Status::Ok,
        b"peak 6 nodes 8 given 10 taken 10\n",
        b"",
    ),
    (
        b"peak|q|d",
        BS,
        b"<a><b></a>",
        Status::DocumentRefused(DocFault::Syntax(8)),
        b"",
        b"gcx: document Syntax 8\n",
    ),
    (
        b"gen|5|2",
        BS,
        AB,
        Status::Ok,
        b"<items><item><price>5</price><note>0000000</note></item><item><price>42</price><note>0000001</note></item></items>",
        b"",
    ),
    (
        b"selfrun|5|1000",
        BS,
        AB,
        Status::Ok,
        b"answer 10007 peak 7 nodes 5002 given 6002 taken 6002\n",
        b"",
    ),
];

#[test]
fn each_command_is_obeyed(rt: HostRuntime) -> Result<(), Fail> {
    for rows in &[RUNS, WHOLES, NUMBERS] {
        are_met(&rt, rt.alloc(), rows)?;
    }
    Ok(())
}

const LINE: &[u8] = b"gcx: write fault\n";

/// The trace is whole, or its write of this number failed: `out` and `err` have a front of what they take without faults,
/// and behind the trace stands the line.
fn is_traced_so_far(rt: &impl Abort, ran: &Ran, whole: &Ran, call: u64) {
    if ran.status == Status::Ok {
        assert_eq!(rt; ran.err.as_slice(), whole.err.as_slice(), "{call}");
    } else {
        assert_eq!(rt; ran.status, Status::WriteFault, "{call}");
        assert!(rt; whole.out.starts_with(&ran.out), "{call}");
        assert!(rt; ran.err.ends_with(LINE), "{call}");
        let trace = &ran.err[..ran.err.len().saturating_sub(LINE.len())];
        assert!(rt; whole.err.starts_with(trace), "{call}");
    }
}

/// A run with a trace, of whose calls this one of `err` fails.
fn traced(
    rt: &impl Abort,
    alloc: Global,
    files: (&[u8], &[u8]),
    most: usize,
    call: Option<u64>,
) -> Result<Ran, Fail> {
    let words: &[&[u8]] = &[b"run", b"--trace", b"q", b"d"];
    let failing = FailingCalls {
        err: call,
        ..NOTHING
    };
    run(rt, alloc, words, files, most, failing)
}

/// Each write of a trace fails once, until a run has fewer.
fn ends_at_each_write(
    rt: &impl Abort,
    alloc: Global,
    files: (&[u8], &[u8]),
    most: usize,
) -> Result<(), Fail> {
    let whole = traced(rt, alloc, files, most, None)?;
    assert_eq!(rt; whole.status, Status::Ok);
    for call in 1..1_000u64 {
        let ran = traced(rt, alloc, files, most, Some(call))?;
        is_traced_so_far(rt, &ran, &whole, call);
        if ran.status == Status::Ok {
            return Ok(());
        }
    }
    Err(Fail::new("a trace without an end"))
}

#[test]
fn a_trace_that_cannot_be_written_ends_the_run(rt: HostRuntime) -> Result<(), Fail> {
    for &files in &[(BS, AB), (PAIRS, XY), (CHEAP, BIB)] {
        ends_at_each_write(&rt, rt.alloc(), files, 7)?;
        ends_at_each_write(&rt, rt.alloc(), files, 65_536)?;
    }
    Ok(())
}

/// A run of these words, of whose calls this one of `out` fails.
fn told(
    rt: &impl Abort,
    alloc: Global,
    words: &[&[u8]],
    most: usize,
    call: Option<u64>,
) -> Result<Ran, Fail> {
    let failing = FailingCalls {
        out: call,
        ..NOTHING
    };
    run(rt, alloc, words, (BS, AB), most, failing)
}

/// Whether the text is whole, or a write of it failed: `out` has a front of what it takes without faults.
fn is_told_so_far(ran: &Ran, whole: &Ran) -> bool {
    match ran.status {
        Status::Ok => ran.out.as_slice() == whole.out.as_slice(),
        Status::WriteFault => whole.out.starts_with(&ran.out) && ran.err.as_slice() == LINE,
        _ => false,
    }
}

/// Whether the text is whole although its write of this number is to fail, as it has fewer.
fn is_whole_at(
    rt: &impl Abort,
    alloc: Global,
    words: &[&[u8]],
    most: usize,
    whole: &Ran,
    call: u64,
) -> Result<bool, Fail> {
    let ran = told(rt, alloc, words, most, Some(call))?;
    let end = ran.end();
    assert!(rt; is_told_so_far(&ran, whole), "{words:?} {call} {end:?}");
    Ok(ran.status == Status::Ok)
}

/// Each write of a command's text fails once, until it has fewer.
fn stops_at_each_write(
    rt: &impl Abort,
    alloc: Global,
    words: &[&[u8]],
    most: usize,
) -> Result<(), Fail> {
    let whole = told(rt, alloc, words, most, None)?;
    assert_eq!(rt; whole.status, Status::Ok);
    for call in 1..1_000u64 {
        if is_whole_at(rt, alloc, words, most, &whole, call)? {
            return Ok(());
        }
    }
    Err(Fail::new("a text without an end"))
}

#[test]
fn a_text_that_cannot_be_written_ends_the_command(rt: HostRuntime) -> Result<(), Fail> {
    let alloc = rt.alloc();
    let lists: &[&[&[u8]]] = &[
        &[b"run", b"--ahead", b"3", b"q", b"d"],
        &[b"whole", b"q", b"d"],
        &[b"explain", b"q"],
        &[b"peak", b"q", b"d"],
        &[b"gen", b"5", b"2"],
        &[b"selfrun", b"5", b"10"],
    ];
    for list in lists {
        stops_at_each_write(&rt, alloc, list, 7)?;
        stops_at_each_write(&rt, alloc, list, 65_536)?;
    }
    Ok(())
}

#[test]
fn a_run_over_100000_items_prints_its_numbers(rt: HostRuntime) -> Result<(), Fail> {
    let words: &[&[u8]] = &[b"selfrun", b"5", b"100000"];
    let ran = run(&rt, rt.alloc(), words, (b"", b""), 65_536, NOTHING)?;
    let line = b"answer 1000007 peak 7 nodes 500002 given 600002 taken 600002\n".as_slice();
    assert_eq!(rt; (ran.status, ran.out.as_slice()), (Status::Ok, line));
    Ok(())
}

/// Appends the line that these bytes hold, and nothing where they hold none.
fn put_again(alloc: Global, text: &mut Vec<u8>, bytes: &[u8]) -> Result<(), Fail> {
    if let Some(line) = read_line(alloc, bytes)? {
        put_line(text, &line)?;
    }
    Ok(())
}

#[test]
fn each_line_of_a_trace_is_read(rt: HostRuntime) -> Result<(), Fail> {
    let mut text = Vec::new(rt.alloc());
    for bytes in TRACE_BS.split(|byte| *byte == b'\n') {
        put_again(rt.alloc(), &mut text, bytes)?;
    }
    assert_eq!(rt; text.as_slice(), TRACE_BS);
    Ok(())
}

#[test]
fn half_a_line_of_a_trace_is_none(rt: HostRuntime) -> Result<(), Fail> {
    let line = read_line(rt.alloc(), b"+ 2")?;
    assert!(rt; line.is_none());
    Ok(())
}
