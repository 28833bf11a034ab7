//! Documents, and what the reader says of them in any pieces.
ghost use Rattle.std.specs.Prelude.{◌≡◌, ◌≤◌};
ghost use Rattle.doc_reader.specs.Standing.{IsOpen};

use doc_reader::{Reader, Token};
use gcx_base::Limits;
use gcx_model::DocFault;
use std::alloc::{AllocError, Global};
use std::process::Abort;
use std::test::Fail;

/// A document, its tokens up to the first fault, and that fault.
#[derive(Clone, Copy)]
struct Row<'a> {
    document: &'a [u8],
    tokens: &'a [u8],
    fault: Option<DocFault>,
}

/// The bytes, between these marks.
fn put_marked(out: &mut Vec<u8>, front: u8, bytes: &[u8], end: u8) -> Result<(), AllocError> {
    out.push(front)?;
    out.extend_from_slice(bytes)?;
    out.push(end)?;
    Ok(())
}

/// Puts a token: `<name>`, `</>`, `[text]`, and `$` for the end of the document.
fn put_token(out: &mut Vec<u8>, token: &Token) -> Result<(), AllocError> {
    match token {
        Token::Start(name) => put_marked(out, b'<', name.as_bytes(), b'>'),
        Token::End => out.extend_from_slice(b"</>"),
        Token::Text(text) => put_marked(out, b'[', text.as_bytes(), b']'),
        Token::EndOfDocument => out.extend_from_slice(b"$"),
    }
}

/// Takes all tokens that wait.
fn put_waiting(reader: &mut Reader, out: &mut Vec<u8>) -> Result<(), AllocError>
    ensures { reader.new.finished ≡ reader.old.finished }
{
    while let Some(token) = reader.next() {
        put_token(out, &token)?;
    }
    Ok(())
}

/// Ends the document, takes the tokens that wait, and gives the fault. Only `Memory` is an error.
fn put_end(reader: &mut Reader, out: &mut Vec<u8>) -> Result<Option<DocFault>, Fail> {
    let fault = reader.finish().err();
    if fault == Some(DocFault::Memory) {
        Err(DocFault::Memory)?;
    }
    put_waiting(reader, out)?;
    Ok(fault)
}

/// Feeds these pieces, and takes the tokens that wait behind each.
fn put_pieces(reader: &mut Reader, pieces: &[&[u8]], out: &mut Vec<u8>) -> Result<(), AllocError>
    requires { IsOpen reader.old }
{
    for piece in pieces {
        let _ = reader.feed(piece);
        put_waiting(reader, out)?;
    }
    Ok(())
}

/// Reads a document in these pieces, puts its tokens, and gives the fault at its end.
fn put_document(
    reader: &mut Reader,
    pieces: &[&[u8]],
    out: &mut Vec<u8>,
) -> Result<Option<DocFault>, Fail>
    requires { IsOpen reader.old }
{
    put_pieces(reader, pieces, out)?;
    put_end(reader, out)
}

/// The same with a reader of its own.
fn put_told(
    alloc: Global,
    limits: Limits,
    pieces: &[&[u8]],
    out: &mut Vec<u8>,
) -> Result<Option<DocFault>, Fail>
    requires depth { limits.depth ≤ 1000 }
    requires bytes { limits.bytes ≤ 1099511627776 }
{
    put_document(&mut Reader::new(alloc, limits), pieces, out)
}

/// The tokens of a document in these pieces, and the fault at its end.
fn told(
    alloc: Global,
    limits: Limits,
    pieces: &[&[u8]],
) -> Result<(Vec<u8>, Option<DocFault>), Fail>
    requires depth { limits.depth ≤ 1000 }
    requires bytes { limits.bytes ≤ 1099511627776 }
{
    let mut out = Vec::new(alloc);
    let fault = put_told(alloc, limits, pieces, &mut out)?;
    Ok((out, fault))
}

/// The reader says of the document in these pieces what the row does.
fn is_told(
    rt: &impl Abort,
    alloc: Global,
    limits: Limits,
    pieces: &[&[u8]],
    row: Row<'_>,
) -> Result<(), Fail>
    requires depth { limits.depth ≤ 1000 }
    requires bytes { limits.bytes ≤ 1099511627776 }
{
    let (tokens, fault) = told(alloc, limits, pieces)?;
    assert_eq!(rt;
        (tokens.as_slice(), fault),
        (row.tokens, row.fault),
        "{pieces:?}"
    );
    Ok(())
}

/// The bytes, each one in a piece of its own.
fn single<'a>(alloc: Global, bytes: &'a [u8]) -> Result<Vec<&'a [u8]>, AllocError> {
    let mut pieces = Vec::new(alloc);
    for byte in bytes.chunks(1) {
        pieces.push(byte)?;
    }
    Ok(pieces)
}

/// The reader says it of the document in one piece, and byte by byte.
fn is_told_whole(rt: &impl Abort, alloc: Global, limits: Limits, row: Row<'_>) -> Result<(), Fail>
    requires depth { limits.depth ≤ 1000 }
    requires bytes { limits.bytes ≤ 1099511627776 }
{
    is_told(rt, alloc, limits, &[row.document], row)?;
    is_told(rt, alloc, limits, &single(alloc, row.document)?, row)
}

/// The reader says it of the document in one piece, byte by byte, and cut in two at every byte.
fn is_told_in_pieces(
    rt: &impl Abort,
    alloc: Global,
    limits: Limits,
    row: Row<'_>,
) -> Result<(), Fail>
    requires depth { limits.depth ≤ 1000 }
    requires bytes { limits.bytes ≤ 1099511627776 }
{
    is_told_whole(rt, alloc, limits, row)?;
    for cut in 0..=row.document.len() {
        let (front, rest) = row.document.split_at(cut);
        is_told(rt, alloc, limits, &[front, rest], row)?;
    }
    Ok(())
}

/// These documents are accepted, and have these tokens.
fn are_accepted(
    rt: &impl Abort,
    alloc: Global,
    limits: Limits,
    rows: &[(&[u8], &[u8])],
) -> Result<(), Fail>
    requires depth { limits.depth ≤ 1000 }
    requires bytes { limits.bytes ≤ 1099511627776 }
{
    for &(document, tokens) in rows {
        let row = Row {
            document,
            tokens,
            fault: None,
        };
        is_told_in_pieces(rt, alloc, limits, row)?;
    }
    Ok(())
}

/// These documents are refused with these faults, behind these tokens.
fn are_refused(
    rt: &impl Abort,
    alloc: Global,
    limits: Limits,
    rows: &[(&[u8], &[u8], DocFault)],
) -> Result<(), Fail>
    requires depth { limits.depth ≤ 1000 }
    requires bytes { limits.bytes ≤ 1099511627776 }
{
    for &(document, tokens, fault) in rows {
        let row = Row {
            document,
            tokens,
            fault: Some(fault),
        };
        is_told_in_pieces(rt, alloc, limits, row)?;
    }
    Ok(())
}

/// Elements are read in any pieces.
const ELEMENTS: &[(&[u8], &[u8])] = &[
    (b"<a/>", b"<a></>$"),
    (b"<a></a>", b"<a></>$"),
    (b"<a ></a\t>", b"<a></>$"),
    (b"<a\t\r\n/>", b"<a></>$"),
    (b" \t\r\n<a/> \n", b"<a></>$"),
    (b"<a><b/><c>1</c></a>", b"<a><b></><c>[1]</></>$"),
    (b"<a1-.b:_/>", b"<a1-.b:_></>$"),
    (b"<:/>", b"<:></>$"),
    (
        b"<\xC3\xA9 x\xC2\xB7=\"1\"></\xC3\xA9>",
        b"<\xC3\xA9><x\xC2\xB7>[1]</></>$",
    ),
    (b"<\xF0\x90\x80\x80/>", b"<\xF0\x90\x80\x80></>$"),
    (b"<\xEF\xBB\xBFa/>", b"<\xEF\xBB\xBFa></>$"),
];

/// Other elements are refused.
const OTHER_ELEMENTS: &[(&[u8], &[u8], DocFault)] = &[
    (b"<a></ab>", b"<a>", DocFault::Syntax(6)),
    (b"<ab></a>", b"<ab>", DocFault::Syntax(7)),
    (b"<a></b>", b"<a>", DocFault::Syntax(5)),
    (b"<ab></ac>", b"<ab>", DocFault::Syntax(7)),
    (b"<a></ a>", b"<a>", DocFault::Syntax(5)),
    (b"<a></a b>", b"<a>", DocFault::Syntax(7)),
    (b"<a></>", b"<a>", DocFault::Syntax(5)),
    (b"<a></a/>", b"<a>", DocFault::Syntax(6)),
    (b"<a / >", b"", DocFault::Syntax(4)),
    (b"< a>", b"", DocFault::Syntax(1)),
    (b"<1a>", b"", DocFault::Syntax(1)),
    (b"</a>", b"", DocFault::Syntax(1)),
    (b"<>", b"", DocFault::Syntax(1)),
    (b"<a<b/>", b"", DocFault::Syntax(2)),
    (b"x<a/>", b"", DocFault::Syntax(0)),
    (b"<a/>x", b"<a></>", DocFault::Syntax(4)),
    (b"<a/>\xC2\xA0", b"<a></>", DocFault::Syntax(4)),
    (b"&lt;<a/>", b"", DocFault::Syntax(0)),
    (b"<a/><b/>", b"<a></>", DocFault::Syntax(5)),
    (b"<a/></a>", b"<a></>", DocFault::Syntax(5)),
    (b"<a></a><![CDATA[]]>", b"<a></>", DocFault::Syntax(9)),
    (b"<\xC3\x97/>", b"", DocFault::Syntax(1)),
    (b"<a\xC3\x97/>", b"", DocFault::Syntax(2)),
    (b"<\xC2\xB7/>", b"", DocFault::Syntax(1)),
    (b"<\xF3\xB0\x80\x80/>", b"", DocFault::Syntax(1)),
    (b"<\xC3\xA9></\xC3\xA8>", b"<\xC3\xA9>", DocFault::Syntax(6)),
];

/// Attributes are read in any pieces.
const ATTRIBUTES: &[(&[u8], &[u8])] = &[
    (b"<a b=\"1\"/>", b"<a><b>[1]</></>$"),
    (
        b"<a b=\" \" c='x&lt;\"'>t</a>",
        b"<a><b></><c>[x<\"]</>[t]</>$",
    ),
    (b"<a b=\"\"/>", b"<a><b></></>$"),
    (
        b"<a  b = '1'\n\tc\r=\"2\" >x</a>",
        b"<a><b>[1]</><c>[2]</>[x]</>$",
    ),
    (b"<a b=\"1\" bc=\"2\"/>", b"<a><b>[1]</><bc>[2]</></>$"),
    (b"<a bc=\"1\" b=\"2\"/>", b"<a><bc>[1]</><b>[2]</></>$"),
    (
        b"<a><b c=\"1\"/><b c=\"1\"/></a>",
        b"<a><b><c>[1]</></><b><c>[1]</></></>$",
    ),
    (b"<a a=\"1\"/>", b"<a><a>[1]</></>$"),
    (b"<a b='\"' c=\"'\"/>", b"<a><b>[\"]</><c>[']</></>$"),
    (b"<a b=\">]]>\"/>", b"<a><b>[>]]>]</></>$"),
    (b"<a b=\"&#32;&#x9;\"/>", b"<a><b></></>$"),
    (b"<a b=\"x&#38;y&gt;\"/>", b"<a><b>[x&y>]</></>$"),
    (b"<a b=' x\ny '/>", b"<a><b>[ x\ny ]</></>$"),
    (
        b"<a xmlns:x=\"u\" x:b=\"1\"/>",
        b"<a><xmlns:x>[u]</><x:b>[1]</></>$",
    ),
];

/// Other attributes are refused.
const OTHER_ATTRIBUTES: &[(&[u8], &[u8], DocFault)] = &[
    (b"<a b=\"1\" b=\"2\">", b"", DocFault::Syntax(10)),
    (b"<a b=\"1\" b =\"2\">", b"", DocFault::Syntax(10)),
    (b"<a b=\"1\" c=\"2\" b=\"3\"/>", b"", DocFault::Syntax(16)),
    (b"<a bc=\"1\" b=\"2\" bc='3'/>", b"", DocFault::Syntax(18)),
    (b"<a b=\"1\"c=\"2\"/>", b"", DocFault::Syntax(8)),
    (b"<a b=1/>", b"", DocFault::Syntax(5)),
    (b"<a b>", b"", DocFault::Syntax(4)),
    (b"<a b/>", b"", DocFault::Syntax(4)),
    (b"<a b c=\"1\"/>", b"", DocFault::Syntax(5)),
    (b"<a b =/>", b"", DocFault::Syntax(6)),
    (b"<a =\"1\"/>", b"", DocFault::Syntax(3)),
    (b"<a b==\"1\"/>", b"", DocFault::Syntax(5)),
    (b"<a b=\"<\"/>", b"", DocFault::Syntax(6)),
    (b"<a b=\"&\"/>", b"", DocFault::Syntax(7)),
    (b"<a b=\"&lt\"/>", b"", DocFault::Syntax(9)),
    (b"<a b=\"&#0;\"/>", b"", DocFault::Syntax(9)),
    (b"<a b=\"\x0B\"/>", b"", DocFault::Syntax(6)),
    (b"<a 1=\"1\"/>", b"", DocFault::Syntax(3)),
    (b"<a/ b=\"1\">", b"", DocFault::Syntax(3)),
    (b"<a><b></b c=\"1\"></a>", b"<a><b>", DocFault::Syntax(10)),
];

/// Runs are read in any pieces.
const RUNS: &[(&[u8], &[u8])] = &[
    (b"<a>&lt;&gt;&amp;&apos;&quot;</a>", b"<a>[<>&'\"]</>$"),
    (b"<a>&#65;&#x41;&#0065;&#x000041;</a>", b"<a>[AAAA]</>$"),
    (b"<a>&#xe9;&#xE9;</a>", b"<a>[\xC3\xA9\xC3\xA9]</>$"),
    (b"<a>&#x10FFFF;</a>", b"<a>[\xF4\x8F\xBF\xBF]</>$"),
    (b"<a>&#1114111;</a>", b"<a>[\xF4\x8F\xBF\xBF]</>$"),
    (b"<a>&#xFFFFE;</a>", b"<a>[\xF3\xBF\xBF\xBE]</>$"),
    (b"<a>&#160;</a>", b"<a>[\xC2\xA0]</>$"),
    (b"<a>]]></a>", b"<a>[]]>]</>$"),
    (b"<a>1 > 0 'x' \"y\"</a>", b"<a>[1 > 0 'x' \"y\"]</>$"),
    (b"<a> \t\r\n</a>", b"<a></>$"),
    (b"<a>&#32;&#9;&#13;&#10;</a>", b"<a></>$"),
    (b"<a> <![CDATA[ \n]]>&#x20;<!--c--><?p?></a>", b"<a></>$"),
    (b"<a> x </a>", b"<a>[ x ]</>$"),
    (b"<a>&#32;x</a>", b"<a>[ x]</>$"),
    (b"<a>x\r\ny</a>", b"<a>[x\r\ny]</>$"),
    (
        b"<a>x<!--c-->y<?p q?>z<![CDATA[<w>]]></a>",
        b"<a>[xyz<w>]</>$",
    ),
    (b"<a>1<b/>2</a>", b"<a>[1]<b></>[2]</>$"),
    (b"<a>1<b>2</b> </a>", b"<a>[1]<b>[2]</></>$"),
    (b"<a>\x7F\xEF\xBF\xBD</a>", b"<a>[\x7F\xEF\xBF\xBD]</>$"),
];

/// Other runs are refused.
const OTHER_RUNS: &[(&[u8], &[u8], DocFault)] = &[
    (b"<a>&#x110000;</a>", b"<a>", DocFault::Syntax(11)),
    (b"<a>&#1114112;</a>", b"<a>", DocFault::Syntax(11)),
    (b"<a>&#99999999;</a>", b"<a>", DocFault::Syntax(11)),
    (b"<a>&#x00110000;</a>", b"<a>", DocFault::Syntax(13)),
    (b"<a>&#0;</a>", b"<a>", DocFault::Syntax(6)),
    (b"<a>&#;</a>", b"<a>", DocFault::Syntax(5)),
    (b"<a>&#x;</a>", b"<a>", DocFault::Syntax(6)),
    (b"<a>&#X41;</a>", b"<a>", DocFault::Syntax(5)),
    (b"<a>&#xG;</a>", b"<a>", DocFault::Syntax(6)),
    (b"<a>&#6A;</a>", b"<a>", DocFault::Syntax(6)),
    (b"<a>&#-6;</a>", b"<a>", DocFault::Syntax(5)),
    (b"<a>&#xD800;</a>", b"<a>", DocFault::Syntax(10)),
    (b"<a>&#xFFFE;</a>", b"<a>", DocFault::Syntax(10)),
    (b"<a>&#31;</a>", b"<a>", DocFault::Syntax(7)),
    (b"<a>&nbsp;</a>", b"<a>", DocFault::Syntax(4)),
    (b"<a>&lt </a>", b"<a>", DocFault::Syntax(6)),
    (b"<a>&ltt;</a>", b"<a>", DocFault::Syntax(6)),
    (b"<a>&a;</a>", b"<a>", DocFault::Syntax(5)),
    (b"<a>&ap;</a>", b"<a>", DocFault::Syntax(6)),
    (b"<a>&;</a>", b"<a>", DocFault::Syntax(4)),
    (b"<a>& </a>", b"<a>", DocFault::Syntax(4)),
    (b"<a>&LT;</a>", b"<a>", DocFault::Syntax(4)),
    (b"<a>x\x01</a>", b"<a>", DocFault::Syntax(4)),
    (b"<a>\xEF\xBF\xBE</a>", b"<a>", DocFault::Syntax(3)),
    (b"<a>x<</a>", b"<a>", DocFault::Syntax(5)),
];

/// Markup is read in any pieces.
const MARKUP: &[(&[u8], &[u8])] = &[
    (b"<a><![CDATA[]]></a>", b"<a></>$"),
    (b"<a><![CDATA[x]]]></a>", b"<a>[x]]</>$"),
    (b"<a><![CDATA[]]]]></a>", b"<a>[]]]</>$"),
    (
        b"<a><![CDATA[&lt;<b>]] >]>]]></a>",
        b"<a>[&lt;<b>]] >]>]</>$",
    ),
    (b"<a><![CDATA[x]]>y]]></a>", b"<a>[xy]]>]</>$"),
    (b"<!----><a/>", b"<a></>$"),
    (b"<!-- - --><a/><!--> < &x;-->", b"<a></>$"),
    (b"<!--->--><a/>", b"<a></>$"),
    (b"<a><!-- <b> --></a>", b"<a></>$"),
    (b"<?p?><a/><?q r?>", b"<a></>$"),
    (b"<?p x?y>??><a/>", b"<a></>$"),
    (b"<?p ?><a/>", b"<a></>$"),
    (
        b"<?xml version=\"1.0\" encoding=\"latin1\"?><a><?xml?></a>",
        b"<a></>$",
    ),
    (b" <?xml?><?xml <&?><a/>", b"<a></>$"),
];

/// Other markup is refused.
const OTHER_MARKUP: &[(&[u8], &[u8], DocFault)] = &[
    (b"<a><![cdata[x]]></a>", b"<a>", DocFault::Syntax(6)),
    (b"<a><![CDATA [x]]></a>", b"<a>", DocFault::Syntax(11)),
    (b"<![CDATA[x]]><a/>", b"", DocFault::Syntax(2)),
    (b"<a><![CDATA[]\x01", b"<a>", DocFault::Syntax(13)),
    (b"<a><![CDATA[]]\x01", b"<a>", DocFault::Syntax(14)),
    (b"<!--a--b--><a/>", b"", DocFault::Syntax(7)),
    (b"<!--a---><a/>", b"", DocFault::Syntax(7)),
    (b"<!-----><a/>", b"", DocFault::Syntax(6)),
    (b"<!-a--><a/>", b"", DocFault::Syntax(3)),
    (b"<! --a--><a/>", b"", DocFault::Syntax(2)),
    (b"<!--\x01--><a/>", b"", DocFault::Syntax(4)),
    (b"<?p?x?><a/>", b"", DocFault::Syntax(4)),
    (b"<? p?><a/>", b"", DocFault::Syntax(2)),
    (b"<?1?><a/>", b"", DocFault::Syntax(2)),
    (b"<?p/?><a/>", b"", DocFault::Syntax(3)),
    (b"<??><a/>", b"", DocFault::Syntax(2)),
    (b"<?p \x00?><a/>", b"", DocFault::Syntax(4)),
];

/// Fronts are read in any pieces.
const FRONTS: &[(&[u8], &[u8])] = &[
    (b"<!DOCTYPE a><a/>", b"<a></>$"),
    (b"<!DOCTYPE bib SYSTEM \"bib.dtd\"><bib/>", b"<bib></>$"),
    (b"<!DOCTYPE a PUBLIC \"x>y'\" '\"[<>' ><a/>", b"<a></>$"),
    (b"<!DOCTYPE\n\r:a]&%;x><a/>", b"<a></>$"),
    (b"<!--c--><?p?> <!DOCTYPE a>\n<!--d--><?q?><b/>", b"<b></>$"),
    (b"\xEF\xBB\xBF<a/>", b"<a></>$"),
    (b"\xEF\xBB\xBF <!DOCTYPE a><a/>", b"<a></>$"),
    (b"<a>\xEF\xBB\xBF</a>", b"<a>[\xEF\xBB\xBF]</>$"),
];

/// Other fronts are refused.
const OTHER_FRONTS: &[(&[u8], &[u8], DocFault)] = &[
    (b"<!DOCTYPE a [", b"", DocFault::Syntax(12)),
    (b"<!DOCTYPE a <", b"", DocFault::Syntax(12)),
    (b"<!DOCTYPE>", b"", DocFault::Syntax(9)),
    (b"<!DOCTYPE >", b"", DocFault::Syntax(10)),
    (b"<!DOCTYPEa>", b"", DocFault::Syntax(9)),
    (b"<!DOCTYPE 1>", b"", DocFault::Syntax(10)),
    (b"<!DOCTYPE \"a\">", b"", DocFault::Syntax(10)),
    (b"<!doctype a>", b"", DocFault::Syntax(2)),
    (b"<!DOCTYPE a \x01>", b"", DocFault::Syntax(12)),
    (b"<!DOCTYPE a><!DOCTYPE a>", b"", DocFault::Syntax(14)),
    (b"<a/><!DOCTYPE a>", b"<a></>", DocFault::Syntax(6)),
    (b"<a><!DOCTYPE a></a>", b"<a>", DocFault::Syntax(5)),
    (b"\xEF\xBB\xBF\xEF\xBB\xBF<a/>", b"", DocFault::Syntax(3)),
    (b" \xEF\xBB\xBF<a/>", b"", DocFault::Syntax(1)),
    (b"<a/>\xEF\xBB\xBF", b"<a></>", DocFault::Syntax(4)),
    (b"\x00<a/>", b"", DocFault::Syntax(0)),
    (b"\xEF\xBB", b"", DocFault::Utf8(0)),
    (b"<a>\xFF", b"<a>", DocFault::Utf8(3)),
    (b"<a>x\x80</a>", b"<a>", DocFault::Utf8(4)),
    (b"<a>\xC0\x80</a>", b"<a>", DocFault::Utf8(3)),
    (b"<a>\xE0\x80\x80</a>", b"<a>", DocFault::Utf8(3)),
    (b"<a>\xED\xA0\x80</a>", b"<a>", DocFault::Utf8(3)),
    (b"<a>\xF4\x90\x80\x80</a>", b"<a>", DocFault::Utf8(3)),
    (b"<a>\xE2\x82</a>", b"<a>", DocFault::Utf8(3)),
    (b"<a>x\xE2\x82", b"<a>", DocFault::Utf8(4)),
    (b"<\xC3", b"", DocFault::Utf8(1)),
    (b"<a/>\xF0\x90\x80", b"<a></>", DocFault::Utf8(4)),
    (b"<a></b>\xFF", b"<a>", DocFault::Syntax(5)),
    (b"<!--\xC3\x28-->", b"", DocFault::Utf8(4)),
];

/// The text ends too soon at its own length, with these tokens before.
fn are_cut(rt: &impl Abort, alloc: Global, rows: &[(&[u8], &[u8])]) -> Result<(), Fail> {
    for &(document, tokens) in rows {
        let row = Row {
            document,
            tokens,
            fault: Some(DocFault::Truncated(document.len() as u64)),
        };
        is_told_in_pieces(rt, alloc, Limits::full(), row)?;
    }
    Ok(())
}

/// An end inside an element is too soon.
const AN_END_INSIDE_AN_ELEMENT: &[(&[u8], &[u8])] = &[
    (b"<", b""),
    (b"<a", b""),
    (b"<a ", b""),
    (b"<a/", b""),
    (b"<a b", b""),
    (b"<a b ", b""),
    (b"<a b=", b""),
    (b"<a b=\"", b""),
    (b"<a b=\"1&#x", b""),
    (b"<a b=\"1\"", b""),
    (b"<a b=\"1\" b", b""),
    (b"<a>", b"<a>"),
    (b"<a>x", b"<a>"),
    (b"<a><b/>", b"<a><b></>"),
    (b"<a>x<b>", b"<a>[x]<b>"),
    (b"<a b='1'>", b"<a><b>[1]</>"),
    (b"<a>&", b"<a>"),
    (b"<a>&#", b"<a>"),
    (b"<a>&#x4", b"<a>"),
    (b"<a>&#xD800", b"<a>"),
    (b"<a>&am", b"<a>"),
    (b"<a><!", b"<a>"),
    (b"<a><![CDA", b"<a>"),
    (b"<a><![CDATA[x]]", b"<a>"),
    (b"<a></", b"<a>"),
    (b"<a></a", b"<a>"),
    (b"<a></a ", b"<a>"),
];

/// An end outside the element is too soon.
const AN_END_OUTSIDE_THE_ELEMENT: &[(&[u8], &[u8])] = &[
    (b"", b""),
    (b" \n", b""),
    (b"\xEF\xBB\xBF", b""),
    (b"<!--c-->", b""),
    (b"<?p?>", b""),
    (b"<!DOCTYPE a>", b""),
    (b"<!", b""),
    (b"<!-", b""),
    (b"<!--a", b""),
    (b"<!---><a/>", b""),
    (b"<!--a-", b""),
    (b"<!--a--", b""),
    (b"<?", b""),
    (b"<?p", b""),
    (b"<?p?", b""),
    (b"<?p x?", b""),
    (b"<!DOC", b""),
    (b"<!DOCTYPE", b""),
    (b"<!DOCTYPE ", b""),
    (b"<!DOCTYPE a", b""),
    (b"<!DOCTYPE a \"x>", b""),
    (b"<a/><!--", b"<a></>"),
    (b"<a/> <?p", b"<a></>"),
    (b"<a/><", b"<a></>"),
];

/// Documents that are accepted, and their tokens.
const ACCEPTED: &[&[(&[u8], &[u8])]] = &[ELEMENTS, ATTRIBUTES, RUNS, MARKUP, FRONTS, forms::FORMS];

#[test]
fn documents_are_read_in_any_pieces(rt: HostRuntime) -> Result<(), Fail> {
    for rows in ACCEPTED {
        are_accepted(&rt, rt.alloc(), Limits::full(), rows)?;
    }
    Ok(())
}

#[test]
fn other_elements_are_refused(rt: HostRuntime) -> Result<(), Fail> {
    are_refused(&rt, rt.alloc(), Limits::full(), OTHER_ELEMENTS)
}

#[test]
fn other_attributes_are_refused(rt: HostRuntime) -> Result<(), Fail> {
    are_refused(&rt, rt.alloc(), Limits::full(), OTHER_ATTRIBUTES)
}

#[test]
fn other_runs_are_refused(rt: HostRuntime) -> Result<(), Fail> {
    are_refused(&rt, rt.alloc(), Limits::full(), OTHER_RUNS)
}

#[test]
fn other_markup_is_refused(rt: HostRuntime) -> Result<(), Fail> {
    are_refused(&rt, rt.alloc(), Limits::full(), OTHER_MARKUP)
}

#[test]
fn other_fronts_are_refused(rt: HostRuntime) -> Result<(), Fail> {
    are_refused(&rt, rt.alloc(), Limits::full(), OTHER_FRONTS)
}

#[test]
fn each_fault_has_its_place(rt: HostRuntime) -> Result<(), Fail> {
    are_refused(&rt, rt.alloc(), Limits::full(), forms::FAULTS)
}

/// Documents that end too soon, and their tokens.
const CUT: &[&[(&[u8], &[u8])]] = &[AN_END_INSIDE_AN_ELEMENT, AN_END_OUTSIDE_THE_ELEMENT];

#[test]
fn an_end_inside_a_document_is_too_soon(rt: HostRuntime) -> Result<(), Fail> {
    for rows in CUT {
        are_cut(&rt, rt.alloc(), rows)?;
    }
    Ok(())
}

mod forms;
mod lent;
mod limits;
mod parts;
