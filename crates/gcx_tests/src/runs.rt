//! Runs of the top call over files in memory.
mod calls;
mod checks;
mod commands;
mod failing;
mod joins;
mod lent;
mod limits;
mod many;
mod objects;

use crate::large::{joined, repeated};
use checks::is_accepted;
use gcx_cmd::Status;
use gcx_model::{DocFault, QueryFault, What};
use objects::{End, NOTHING, run, run_surely};
use std::alloc::Global;
use std::process::Abort;
use std::test::Fail;

/// A run of these words ends so, over objects whose calls move a byte, some or all.
fn ends_in_pieces(
    rt: &impl Abort,
    alloc: Global,
    words: &[&[u8]],
    files: (&[u8], &[u8]),
    end: End<'_>,
) -> Result<(), Fail> {
    for &most in &[1, 7, 65_536] {
        let ran = run(rt, alloc, words, files, most, NOTHING)?;
        assert_eq!(rt; ran.end(), end, "{words:?} {files:?} {most}");
    }
    Ok(())
}

/// The query over the document ends so, over objects whose calls move a byte, some or all, and over objects that never
/// fail, in each store.
fn ends_with(
    rt: &impl Abort,
    alloc: Global,
    files: (&[u8], &[u8]),
    end: End<'_>,
) -> Result<(), Fail> {
    ends_in_pieces(rt, alloc, &[b"run", b"q", b"d"], files, end)?;
    let ran = run_surely(rt, alloc, files)?;
    assert_eq!(rt; ran.end(), end, "{files:?}");
    Ok(())
}

/// The query has this answer over the document, `err` takes nothing, and the trace of the run is accepted.
fn is_answered(
    rt: &impl Abort,
    alloc: Global,
    query: &[u8],
    document: &[u8],
    answer: &[u8],
) -> Result<(), Fail> {
    let end = End {
        status: Status::Ok,
        out: answer,
        err: b"",
    };
    ends_with(rt, alloc, (query, document), end)?;
    is_accepted(rt, alloc, query, document)
}

/// The query over the document ends with this status and this line, and nothing is written.
fn is_refused(
    rt: &impl Abort,
    alloc: Global,
    files: (&[u8], &[u8]),
    status: Status,
    line: &[u8],
) -> Result<(), Fail> {
    let end = End {
        status,
        out: b"",
        err: line,
    };
    ends_with(rt, alloc, files, end)
}

/// A query, a document and the answer.
type Answered = (&'static [u8], &'static [u8], &'static [u8]);

const PATHS: &[Answered] = &[
    (b"/a/b", b"<a><b>1</b><b>2</b></a>", b"<b>1</b><b>2</b>"),
    (b"/a", b"<a> <b></b> </a>", b"<a><b></b></a>"),
    (b"/x", b"<a></a>", b""),
    (b"/a", b"<a>1 > 0</a>", b"<a>1 &gt; 0</a>"),
    (b"//a", b"<a><a/></a>", b"<a><a></a></a><a></a>"),
    (
        b"/a/b/c",
        b"<a><b><c>1</c></b><c>2</c><b><d><c>3</c></d><c>4</c></b></a>",
        b"<c>1</c><c>4</c>",
    ),
    (
        b"/a",
        b"\xEF\xBB\xBF<?xml version=\"1.0\"?><!-- c --><a>x<!--c-->y&lt;&#65;</a>",
        b"<a>xy&lt;A</a>",
    ),
    (b"/a", b"<a> <b/> </a>", b"<a><b></b></a>"),
    (b"()", b"<a/>", b""),
    (b"//text()", b"<a>1<b>2</b>3</a>", b"123"),
    (b"/a/node()", b"<a>1<b>2</b>3</a>", b"1<b>2</b>3"),
    (
        b"/a",
        b"<a><![CDATA[<x>]]>&amp;</a>",
        b"<a>&lt;x&gt;&amp;</a>",
    ),
    (b"/a", b"<a b=\"1\"/>", b"<a><b>1</b></a>"),
    (
        b"/a",
        b"<a b=\" \" c='x&lt;\"'>t</a>",
        b"<a><b></b><c>x&lt;\"</c>t</a>",
    ),
];

const QUERIES: &[Answered] = &[
    (
        b"<r>{for $x in /a/b return $x}</r>",
        b"<a><b>1</b><c/><b>2</b></a>",
        b"<r><b>1</b><b>2</b></r>",
    ),
    (
        b"for $x in //a return for $y in $x//b return <h/>",
        b"<a><a><b/></a></a>",
        b"<h></h><h></h>",
    ),
    (
        b"for $x in /r/p return if (exists($x/k)) then <y/> else <n/>",
        b"<r><p></p><p><k/></p></r>",
        b"<n></n><y></y>",
    ),
    (
        b"for $x in /r/p return if ($x = 7) then <y/> else <n/>",
        b"<r><p>007</p><p>7x</p><p> 7 </p></r>",
        b"<y></y><n></n><y></y>",
    ),
    (
        b"for $x in /r/p return if ($x = \"7\") then <y/> else <n/>",
        b"<r><p>007</p><p>7x</p><p> 7 </p></r>",
        b"<n></n><n></n><n></n>",
    ),
    (
        b"for $a in /r/x return for $b in /r/y return if ($a/k = $b/k) then <m/> else ()",
        b"<r><x><k>1</k></x><y><k>1</k></y><y><k>2</k></y></r>",
        b"<m></m>",
    ),
    (
        b"if (exists(/a//b/c)) then <y/> else <n/>",
        b"<a><x><b><c/></b></x></a>",
        b"<y></y>",
    ),
    (
        b"for $x in /r/p return if ($x > 9) then <y/> else <n/>",
        b"<r><p>1000000000000000000000000000000000000000000</p><p>-0</p><p/></r>",
        b"<y></y><n></n><n></n>",
    ),
    (
        b"for $x in /r/p return if ($x >= 2.50) then <y/> else <n/>",
        b"<r><p>2.5</p><p>2.49999999999999999999</p><p>+3.</p><p>.5</p><p>2,6</p></r>",
        b"<y></y><n></n><y></y><n></n><n></n>",
    ),
    (
        b"for $x in /r/p return if ($x = 7) then <y/> else <n/>",
        b"<r><p>7.0</p><p>7.</p><p>.</p></r>",
        b"<y></y><y></y><n></n>",
    ),
    (
        b"for $b in /bib/book where $b/year = 1994 return $b/title",
        b"<bib><book year=\"1994\"><title>T</title></book></bib>",
        b"<title>T</title>",
    ),
    (
        b"<out>{\n  for $b in /bib/book\n  where $b/price < 50 and not(exists($b/editor))\n  return <cheap>{$b/title}</cheap>\n}</out>\n",
        b"<?xml version=\"1.0\" encoding=\"UTF-8\"?>\n<!DOCTYPE bib SYSTEM \"bib.dtd\">\n<!-- two books -->\n<bib>\n  <book>\n    <title>Data on the Web</title>\n    <price>39</price>\n  </book>\n  <book>\n    <title>TCP/IP &amp; more</title>\n    <price>65</price>\n  </book>\n</bib>\n",
        b"<out><cheap><title>Data on the Web</title></cheap></out>",
    ),
];

/// Each query has its answer.
fn are_answered(rt: &impl Abort, alloc: Global, rows: &[Answered]) -> Result<(), Fail> {
    for &(query, document, answer) in rows {
        is_answered(rt, alloc, query, document, answer)?;
    }
    Ok(())
}

#[test]
fn each_query_has_its_answer(rt: HostRuntime) -> Result<(), Fail> {
    are_answered(&rt, rt.alloc(), PATHS)?;
    are_answered(&rt, rt.alloc(), QUERIES)
}

/// A document that is refused: the query, the bytes, the fault and its line, and what was written before.
type Refusal = (
    &'static [u8],
    &'static [u8],
    DocFault,
    &'static [u8],
    &'static [u8],
);

const EXISTS: &[u8] = b"for $x in /r/p return if (exists($x/k)) then <y/> else <n/>";

const EITHER: &[u8] =
    b"for $x in /r/p return if (exists($x/k) or exists($x/j)) then <y/> else <n/>";

const SETTLED: &[Refusal] = &[
    (
        EXISTS,
        b"<r><p><k/>",
        DocFault::Truncated(10),
        b"gcx: document Truncated 10\n",
        b"<y></y>",
    ),
    (
        EITHER,
        b"<r><p><j/>",
        DocFault::Truncated(10),
        b"gcx: document Truncated 10\n",
        b"",
    ),
    (
        b"<r>{/a/b}</r>",
        b"<a><b></a>",
        DocFault::Syntax(8),
        b"gcx: document Syntax 8\n",
        b"<r><b>",
    ),
    (
        b"<r>{/a}</r>",
        b"",
        DocFault::Truncated(0),
        b"gcx: document Truncated 0\n",
        b"<r>",
    ),
    (
        b"/a",
        b"<a></a>x",
        DocFault::Syntax(7),
        b"gcx: document Syntax 7\n",
        b"<a></a>",
    ),
    (
        b"/a",
        b"<a>\xFF",
        DocFault::Utf8(3),
        b"gcx: document Utf8 3\n",
        b"<a>",
    ),
    (
        b"/a",
        b"<a>&#0;</a>",
        DocFault::Syntax(6),
        b"gcx: document Syntax 6\n",
        b"<a>",
    ),
    (
        b"/a",
        b"<a>&nbsp;</a>",
        DocFault::Syntax(4),
        b"gcx: document Syntax 4\n",
        b"<a>",
    ),
];

#[test]
fn what_is_settled_before_a_fault_is_written(rt: HostRuntime) -> Result<(), Fail> {
    for &(query, document, fault, line, written) in SETTLED {
        let end = End {
            status: Status::DocumentRefused(fault),
            out: written,
            err: line,
        };
        ends_with(&rt, rt.alloc(), (query, document), end)?;
    }
    Ok(())
}

#[test]
fn before_the_first_tag_is_whole_nothing_is_written(rt: HostRuntime) -> Result<(), Fail> {
    let rows: &[(&[u8], DocFault, &[u8])] = &[
        (
            b"<!DOCTYPE a [",
            DocFault::Syntax(12),
            b"gcx: document Syntax 12\n",
        ),
        (
            b"<a b=\"1\" b=\"2\">",
            DocFault::Syntax(10),
            b"gcx: document Syntax 10\n",
        ),
        (
            b"<a b=\"1\"c=\"2\"/>",
            DocFault::Syntax(8),
            b"gcx: document Syntax 8\n",
        ),
        (
            b"<a b=1/>",
            DocFault::Syntax(5),
            b"gcx: document Syntax 5\n",
        ),
        (b"<a b>", DocFault::Syntax(4), b"gcx: document Syntax 4\n"),
        (b"", DocFault::Truncated(0), b"gcx: document Truncated 0\n"),
    ];
    for &(document, fault, line) in rows {
        let status = Status::DocumentRefused(fault);
        is_refused(&rt, rt.alloc(), (b"/a", document), status, line)?;
    }
    Ok(())
}

/// A query, the fault that it has, and its line.
const REFUSED: &[(&[u8], QueryFault, &[u8])] = &[
    (
        b"for $x in /a//b/c return $x",
        QueryFault::DescendantNotLast(12),
        b"gcx: query DescendantNotLast 12\n",
    ),
    (
        b"for $x in /a return $y",
        QueryFault::UnknownVar(20),
        b"gcx: query UnknownVar 20\n",
    ),
    (
        b"<r></s>",
        QueryFault::TagMismatch(5),
        b"gcx: query TagMismatch 5\n",
    ),
    (b"/a ; /b", QueryFault::Lex(3), b"gcx: query Lex 3\n"),
    (
        b"for $x in /a",
        QueryFault::Syntax(12),
        b"gcx: query Syntax 12\n",
    ),
    (b"", QueryFault::Syntax(0), b"gcx: query Syntax 0\n"),
    (
        b"for $x in /a return if ($x = 9223372036854775808) then $x else ()",
        QueryFault::IntegerWide(29),
        b"gcx: query IntegerWide 29\n",
    ),
    (
        b"if (/a = 0.1234567890123456789) then () else ()",
        QueryFault::IntegerWide(9),
        b"gcx: query IntegerWide 9\n",
    ),
    (b"/a)", QueryFault::Syntax(2), b"gcx: query Syntax 2\n"),
    (
        b"if (/a) then () else ()",
        QueryFault::Syntax(6),
        b"gcx: query Syntax 6\n",
    ),
    (b"<a>x</a>", QueryFault::Syntax(3), b"gcx: query Syntax 3\n"),
    (
        b"for $x in /a for $y in /b return $y",
        QueryFault::Syntax(13),
        b"gcx: query Syntax 13\n",
    ),
    (b"/\xFF", QueryFault::Utf8(1), b"gcx: query Utf8 1\n"),
];

#[test]
fn a_query_that_is_refused_is_told(rt: HostRuntime) -> Result<(), Fail> {
    for &(query, fault, line) in REFUSED {
        // no document is read under a query that is refused
        let status = Status::QueryRefused(fault);
        is_refused(&rt, rt.alloc(), (query, b"<a></b>"), status, line)?;
    }
    Ok(())
}

/// So many elements, each in the one before.
fn tower(alloc: Global, count: usize) -> Result<Vec<u8>, Fail> {
    let mut bytes = repeated(alloc, b"<a>", count)?;
    bytes.extend_from_slice(&repeated(alloc, b"</a>", count)?)?;
    Ok(bytes)
}

#[test]
fn a_document_of_1000_levels_is_answered(rt: HostRuntime) -> Result<(), Fail> {
    let tower = tower(rt.alloc(), 1_000)?;
    is_answered(&rt, rt.alloc(), b"/a", &tower, &tower)
}

#[test]
fn a_document_of_more_levels_is_told(rt: HostRuntime) -> Result<(), Fail> {
    let alloc = rt.alloc();
    let tower = tower(alloc, 1_001)?;
    let written = repeated(alloc, b"<a>", 1_000)?;
    let end = End {
        status: Status::DocumentRefused(DocFault::Depth(3_000)),
        out: &written,
        err: b"gcx: document Depth 3000\n",
    };
    ends_with(&rt, alloc, (b"/a", &tower), end)
}

#[test]
fn a_name_that_is_too_long_is_told(rt: HostRuntime) -> Result<(), Fail> {
    let alloc = rt.alloc();
    let name = repeated(alloc, b"n", 1_025)?;
    let document = joined(alloc, &[b"<", &name])?;
    let status = Status::DocumentRefused(DocFault::NameLong(1_025));
    let line = b"gcx: document NameLong 1025\n";
    is_refused(&rt, alloc, (b"/a", &document), status, line)
}

#[test]
fn a_query_that_is_nested_too_deep_is_told(rt: HostRuntime) -> Result<(), Fail> {
    let alloc = rt.alloc();
    let open = repeated(alloc, b"(", 201)?;
    let close = repeated(alloc, b")", 201)?;
    let query = joined(alloc, &[&open, &close])?;
    let status = Status::QueryRefused(QueryFault::TooLarge(What::Nesting, 200));
    let line = b"gcx: query TooLarge Nesting 200\n";
    is_refused(&rt, alloc, (&query, b"<a/>"), status, line)
}

#[test]
fn a_query_that_is_too_long_is_told(rt: HostRuntime) -> Result<(), Fail> {
    let alloc = rt.alloc();
    let query = vec![in alloc; b' '; 1_048_577]?;
    let words: &[&[u8]] = &[b"run", b"q", b"d"];
    let ran = run(&rt, alloc, words, (&query, b"<a/>"), 65_536, NOTHING)?;
    let end = End {
        status: Status::QueryRefused(QueryFault::TooLarge(What::Text, 1_048_576)),
        out: b"",
        err: b"gcx: query TooLarge Text 1048576\n",
    };
    assert_eq!(rt; ran.end(), end);
    Ok(())
}

/// The words of a call, a query and a document, and how the call ends.
type Called = (
    &'static [&'static [u8]],
    (&'static [u8], &'static [u8]),
    End<'static>,
);

const MISUSED: End<'static> = End {
    status: Status::Usage,
    out: b"",
    err: b"gcx: the words are not a command line\n",
};

const UNREAD: End<'static> = End {
    status: Status::ReadFault,
    out: b"",
    err: b"gcx: read fault\n",
};

/// Words that are no command line, and a file that is missing.
const CALLED: &[Called] = &[
    (&[], (b"/a", b"<a/>"), MISUSED),
    (&[b"run"], (b"/a", b"<a/>"), MISUSED),
    (&[b"run", b"q"], (b"/a", b"<a/>"), MISUSED),
    (&[b"run", b"q", b"d", b"d"], (b"/a", b"<a/>"), MISUSED),
    (&[b"walk", b"q", b"d"], (b"/a", b"<a/>"), MISUSED),
    (&[b"RUN", b"q", b"d"], (b"/a", b"<a/>"), MISUSED),
    (&[b"run", b"q", b"e"], (b"<r>{/a}</r>", b""), UNREAD),
    (&[b"run", b"e", b"d"], (b"<r>{/a}</r>", b""), UNREAD),
];

#[test]
fn wrong_words_and_missing_files_are_told(rt: HostRuntime) -> Result<(), Fail> {
    for &(words, files, end) in CALLED {
        ends_in_pieces(&rt, rt.alloc(), words, files, end)?;
    }
    Ok(())
}

const CODES: &[(Status, u8)] = &[
    (Status::Ok, 0),
    (Status::Usage, 2),
    (Status::QueryRefused(QueryFault::Syntax(0)), 3),
    (Status::DocumentRefused(DocFault::Syntax(0)), 4),
    (Status::ReadFault, 5),
    (Status::WriteFault, 6),
    (Status::Memory, 7),
    (Status::TraceRefused(7), 8),
];

#[test]
fn each_status_has_its_code(rt: HostRuntime) {
    for &(status, code) in CODES {
        assert_eq!(rt; status.code(), code);
    }
}
