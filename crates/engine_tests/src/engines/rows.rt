//! The worked rows that are runs.
use super::{
    Answered, How, PIECES, Ran, ends, far, is_answered_in_pieces, is_left, plainly, run, run_raw,
};
use crate::large::spelled;
use buf_tree::Row;
use engine::Ended;
use gcx_model::DocFault;
use node_store::NodeStore;
use std::alloc::Global;
use std::process::Abort;
use std::test::Fail;

const ANSWERS: [Answered; 20] = [
    Answered(
        b"<r>{for $x in /a/b return $x}</r>",
        b"<a><b>1</b><c/><b>2</b></a>",
        b"<r><b>1</b><b>2</b></r>",
    ),
    Answered(
        b"for $x in //a return for $y in $x//b return <h/>",
        b"<a><a><b/></a></a>",
        b"<h></h><h></h>",
    ),
    Answered(
        b"for $x in /r/p return if (exists($x/k)) then <y/> else <n/>",
        b"<r><p></p><p><k/></p></r>",
        b"<n></n><y></y>",
    ),
    Answered(
        b"for $x in /r/p return if ($x = 7) then <y/> else <n/>",
        b"<r><p>007</p><p>7x</p><p> 7 </p></r>",
        b"<y></y><n></n><y></y>",
    ),
    Answered(
        b"for $x in /r/p return if ($x = \"7\") then <y/> else <n/>",
        b"<r><p>007</p><p>7x</p><p> 7 </p></r>",
        b"<n></n><n></n><n></n>",
    ),
    Answered(
        b"/a",
        b"\xEF\xBB\xBF<?xml version=\"1.0\"?><!-- c --><a>x<!--c-->y&lt;&#65;</a>",
        b"<a>xy&lt;A</a>",
    ),
    Answered(b"/a", b"<a> <b/> </a>", b"<a><b></b></a>"),
    Answered(
        b"for $a in /r/x return for $b in /r/y return if ($a/k = $b/k) then <m/> else ()",
        b"<r><x><k>1</k></x><y><k>1</k></y><y><k>2</k></y></r>",
        b"<m></m>",
    ),
    Answered(
        b"if (exists(/a//b/c)) then <y/> else <n/>",
        b"<a><d><b/><b><c/></b></d></a>",
        b"<y></y>",
    ),
    Answered(
        b"for $a in //x return for $b in $a//x return for $c in $b//x return for $d in $c//x return for $e in $d//x return for $f in $e//x return ()",
        b"<x/>",
        b"",
    ),
    Answered(b"()", b"<a/>", b""),
    Answered(b"//text()", b"<a>1<b>2</b>3</a>", b"123"),
    Answered(b"/a/node()", b"<a>1<b>2</b>3</a>", b"1<b>2</b>3"),
    Answered(
        b"/a",
        b"<a><![CDATA[<x>]]>&amp;</a>",
        b"<a>&lt;x&gt;&amp;</a>",
    ),
    Answered(b"/a", b"<a b=\"1\"/>", b"<a><b>1</b></a>"),
    Answered(
        b"for $x in /r/p return if ($x > 9) then <y/> else <n/>",
        b"<r><p>1000000000000000000000000000000000000000000</p><p>-0</p><p/></r>",
        b"<y></y><n></n><n></n>",
    ),
    Answered(
        b"<out>{\n  for $b in /bib/book\n  where $b/price < 50 and not(exists($b/editor))\n  return <cheap>{$b/title}</cheap>\n}</out>\n",
        b"<?xml version=\"1.0\" encoding=\"UTF-8\"?>\n<!DOCTYPE bib SYSTEM \"bib.dtd\">\n<!-- two books -->\n<bib>\n  <book>\n    <title>Data on the Web</title>\n    <price>39</price>\n  </book>\n  <book>\n    <title>TCP/IP &amp; more</title>\n    <price>65</price>\n  </book>\n</bib>\n",
        b"<out><cheap><title>Data on the Web</title></cheap></out>",
    ),
    Answered(
        b"for $x in /r/p return if (9 < $x and \"b\" != $x/k) then $x/k else ()",
        b"<r><p>10<k>a</k></p><p>11</p><p><k>b</k>5</p></r>",
        b"",
    ),
    Answered(
        b"<r>{if (/r/p//k > 10) then /r/a else ()}</r>",
        b"<r><a>1</a><p><k>9<k>1</k></k></p><a>2</a></r>",
        b"<r><a>1</a><a>2</a></r>",
    ),
    Answered(
        b"for $x in /r/p return for $y in /r/q return <h>{$x/k, $y/k}</h>",
        b"<r><p><k>1</k></p><q><k>2</k></q><q><k>3</k></q><p/></r>",
        b"<h><k>1</k><k>2</k></h><h><k>1</k><k>3</k></h><h><k>2</k></h><h><k>3</k></h>",
    ),
];

#[test]
fn runs_answer_as_the_rows_say(rt: HostRuntime) -> Result<(), Fail> {
    for row in &ANSWERS {
        is_answered_in_pieces(&rt, rt.alloc(), row)?;
    }
    Ok(())
}

/// A query, a document that is refused, the fault, and what is written before.
struct Stopped(&'static [u8], &'static [u8], DocFault, &'static [u8]);

const STOPS: [Stopped; 9] = [
    Stopped(
        b"for $x in /r/p return if (exists($x/k)) then <y/> else <n/>",
        b"<r><p><k/>",
        DocFault::Truncated(10),
        b"<y></y>",
    ),
    Stopped(
        b"<r>{/a/b}</r>",
        b"<a><b></a>",
        DocFault::Syntax(8),
        b"<r><b>",
    ),
    Stopped(b"<r>{/a}</r>", b"", DocFault::Truncated(0), b"<r>"),
    Stopped(b"/a", b"<a></a>x", DocFault::Syntax(7), b"<a></a>"),
    Stopped(
        b"for $x in /r/p return if (exists($x/k) or exists($x/j)) then <y/> else <n/>",
        b"<r><p><j/>",
        DocFault::Truncated(10),
        b"",
    ),
    Stopped(b"/a", b"<a>\xFF", DocFault::Utf8(3), b"<a>"),
    Stopped(b"/a", b"<a>&#0;</a>", DocFault::Syntax(6), b"<a>"),
    Stopped(b"/a", b"<a>&nbsp;</a>", DocFault::Syntax(4), b"<a>"),
    Stopped(b"/a", b"<!DOCTYPE a [", DocFault::Syntax(12), b""),
];

fn stops_in_pieces(rt: &impl Abort, alloc: Global, row: &Stopped) -> Result<(), Fail> {
    let Stopped(query, document, fault, written) = row;
    let ended = Ended::Refused(*fault);
    for most in PIECES {
        ends(rt, alloc, query, document, plainly(most), ended, written)?;
    }
    Ok(())
}

#[test]
fn what_is_settled_before_a_fault_is_written(rt: HostRuntime) -> Result<(), Fail> {
    for row in &STOPS {
        stops_in_pieces(&rt, rt.alloc(), row)?;
    }
    Ok(())
}

#[test]
fn a_document_of_a_thousand_levels_is_copied(rt: HostRuntime) -> Result<(), Fail> {
    let alloc = rt.alloc();
    let whole = spelled(alloc, &[("<a>", 0, 1000), ("</a>", 0, 1000)])?;
    let how = plainly(65_536);
    ends(&rt, alloc, b"/a", &whole, how, Ended::Ok, &whole)?;
    Ok(())
}

#[test]
fn a_deeper_document_is_copied_to_the_limit(rt: HostRuntime) -> Result<(), Fail> {
    let alloc = rt.alloc();
    let deeper = spelled(alloc, &[("<a>", 0, 1001)])?;
    let ended = Ended::Refused(DocFault::Depth(3000));
    let starts = spelled(alloc, &[("<a>", 0, 1000)])?;
    ends(&rt, alloc, b"/a", &deeper, plainly(65_536), ended, &starts)?;
    Ok(())
}

#[test]
fn many_chains_to_a_node_are_walked_once(rt: HostRuntime) -> Result<(), Fail> {
    let alloc = rt.alloc();
    let document = spelled(alloc, &[("<x>", 0, 1000), ("</x>", 0, 1000)])?;
    let query = b"if (//x//x//x//x//x//x = \"1\") then <y/> else <n/>";
    let (ran, _) = run_raw(&rt, alloc, query, &document, plainly(65_536))?;
    is_left(&rt, &ran, query, Ended::Ok, b"<n></n>");
    // with and without an index
    ends(
        &rt,
        alloc,
        query,
        &document,
        far(65_536),
        Ended::Ok,
        b"<n></n>",
    )?;
    Ok(())
}

const COPIES: &[u8] = b"<r>{for $x in /a/b return $x}</r>";

const TWO: &[u8] = b"<a><b>1</b><c/><b>2</b></a>";

#[test]
fn a_write_that_fails_ends_the_run(rt: HostRuntime) -> Result<(), Fail> {
    for (writes, written) in [(&[1], b"".as_slice()), (&[2], b"<r>".as_slice())] {
        let how = How {
            writes,
            ..plainly(65_536)
        };
        let ended = Ended::WriteFault;
        ends(&rt, rt.alloc(), COPIES, TWO, how, ended, written)?;
    }
    Ok(())
}

/// The first read gives the whole front of a document, and the second one fails.
fn front() -> How<'static> {
    How {
        reads: &[2],
        ..plainly(65_536)
    }
}

#[test]
fn a_read_that_fails_ends_the_run(rt: HostRuntime) -> Result<(), Fail> {
    let query = b"for $x in //a return for $y in $x//b return <h/>";
    let document = b"<a><a><b/>";
    let ended = Ended::ReadFault;
    ends(&rt, rt.alloc(), query, document, front(), ended, b"<h></h>")?;
    Ok(())
}

#[test]
fn a_read_that_fails_leaves_what_is_held(rt: HostRuntime) -> Result<(), Fail> {
    let alloc = rt.alloc();
    let (ran, nodes) = run_raw(&rt, alloc, COPIES, b"<a><b>1</b><c/>", front())?;
    is_left(&rt, &ran, COPIES, Ended::ReadFault, b"<r><b>1</b>");
    let most = NodeStore::<Row>::most(&nodes);
    assert_eq!(rt; (ran.report.held, most), (2, 4));
    Ok(())
}

/// A query, a document, the most nodes that are held, all nodes, and the roles that are given.
struct Counted(&'static [u8], &'static [u8], u64, u64, u128);

const COUNTS: [Counted; 4] = [
    Counted(COPIES, TWO, 4, 7, 8),
    Counted(
        b"for $a in /r/x return for $b in /r/y return if ($a/k = $b/k) then <m/> else ()",
        b"<r><x><k>1</k></x><y><k>1</k></y><y><k>2</k></y></r>",
        11,
        11,
        12,
    ),
    Counted(
        b"for $x in /r/p return if (exists($x/k)) then <y/> else <n/>",
        b"<r><p><k/></p></r>",
        4,
        4,
        4,
    ),
    Counted(
        b"for $x in /r/p return if ($x/k = \"1\") then <y/> else <n/>",
        b"<r><p><k>1</k><k>2</k><k>3</k></p></r>",
        5,
        9,
        9,
    ),
];

/// The run with these numbers.
fn run_counted(rt: &impl Abort, alloc: Global, row: &Counted) -> Result<Ran, Fail> {
    let Counted(query, document, peak, nodes, given) = row;
    let ran = run(rt, alloc, query, document, plainly(5))?;
    let report = ran.report;
    assert_eq!(rt; (report.peak, report.nodes), (*peak, *nodes), "{query:?}");
    assert_eq!(rt; (report.given, report.taken), (*given, *given), "{query:?}");
    Ok(ran)
}

/// The same run up to three tokens ahead.
fn run_ahead(rt: &impl Abort, alloc: Global, row: &Counted) -> Result<Ran, Fail> {
    let Counted(query, document, ..) = row;
    let how = How {
        ahead: 3,
        ..plainly(5)
    };
    run(rt, alloc, query, document, how)
}

fn is_counted(rt: &impl Abort, alloc: Global, row: &Counted) -> Result<(), Fail> {
    let ran = run_counted(rt, alloc, row)?;
    let ahead = run_ahead(rt, alloc, row)?;
    assert_eq!(rt; ahead.out, ran.out);
    let (peak, most) = (ran.report.peak, ahead.report.peak);
    assert!(rt; peak <= most && most <= peak.saturating_add(3));
    Ok(())
}

#[test]
fn the_numbers_are_those_of_the_rows(rt: HostRuntime) -> Result<(), Fail> {
    for row in &COUNTS {
        is_counted(&rt, rt.alloc(), row)?;
    }
    Ok(())
}

/// A query, a document and its trace.
struct Traced(&'static [u8], &'static [u8], &'static [u8]);

const TRACES: [Traced; 3] = [
    Traced(
        COPIES,
        TWO,
        b"+ 0 / 0\nw 3\n+ 1 a 1\n+ 2 b 2 3\nw 3\n+ 3 # 3\nw 1\n- 2\nw 4\no 2 3\nx 3\no 2 2\nx 2\n+ 4 c\n- 4\nx 4\n+ 5 b 2 3\nw 3\n+ 6 # 3\nw 1\n- 5\nw 4\no 5 3\nx 6\no 5 2\nx 5\n- 1\no 1 1\nx 1\n- 0\nw 4\no 0 0\nx 0\n",
    ),
    Traced(
        b"for $x in /r/p return if (exists($x/k)) then <y/> else <n/>",
        b"<r><p><k/></p></r>",
        b"+ 0 / 0\n+ 1 r 1\n+ 2 p 2\n+ 3 k 3\nw 3\nw 4\no 2 3\no 2 2\n- 3\nx 3\n- 2\nx 2\n- 1\no 1 1\nx 1\n- 0\no 0 0\nx 0\n",
    ),
    Traced(
        b"for $x in /r/p return if ($x/k = \"1\") then <y/> else <n/>",
        b"<r><p><k>1</k><k>2</k><k>3</k></p></r>",
        b"+ 0 / 0\n+ 1 r 1\n+ 2 p 2\n+ 3 k 3\n+ 4 # 3\n- 3\nw 3\nw 4\no 2 3\nx 4\nx 3\no 2 2\n+ 5 k 3\n+ 6 # 3\nx 6\n- 5\nx 5\n+ 7 k 3\n+ 8 # 3\nx 8\n- 7\nx 7\n- 2\nx 2\n- 1\no 1 1\nx 1\n- 0\no 0 0\nx 0\n",
    ),
];

fn is_traced(rt: &impl Abort, alloc: Global, row: &Traced) -> Result<(), Fail> {
    let Traced(query, document, trace) = row;
    let how = How {
        ahead: 0,
        ..plainly(9)
    };
    let ran = run(rt, alloc, query, document, how)?;
    assert_eq!(rt; ran.trace.as_slice(), *trace);
    Ok(())
}

#[test]
fn traces_are_the_vectors(rt: HostRuntime) -> Result<(), Fail> {
    for row in &TRACES {
        is_traced(&rt, rt.alloc(), row)?;
    }
    Ok(())
}
