//! Documents that reach the limits.
ghost use Rattle.std.specs.Prelude.{◌≡◌};

use super::{Row, are_accepted, are_refused, is_told_in_pieces, is_told_whole};
use gcx_base::Limits;
use gcx_model::DocFault;
use std::alloc::Global;
use std::test::Fail;

/// Limits that small documents pass.
pub(super) fn small(bytes: u64) -> Limits
    ensures bytes { result.bytes ≡ bytes }
    ensures depth { result.depth ≡ 2 }
{
    Limits {
        bytes,
        depth: 2,
        name: 3,
        text: 4,
    }
}

#[test]
fn limits_are_kept_in_any_pieces(rt: HostRuntime) -> Result<(), Fail> {
    let accepted: &[(&[u8], &[u8])] = &[
        (b"<abc></abc>", b"<abc></>$"),
        (b"<a bcd='1'/>", b"<a><bcd>[1]</></>$"),
        (b"<a b='1'><c/></a>", b"<a><b>[1]</><c></></>$"),
        (b"<a><b/><b/></a>", b"<a><b></><b></></>$"),
        (b"<a b='1234'>1234</a>", b"<a><b>[1234]</>[1234]</>$"),
        (b"<a>    </a>", b"<a></>$"),
        (b"      <a/>      ", b"<a></>$"),
        (b"<a>12<!--c-->34<b/>5</a>", b"<a>[1234]<b></>[5]</>$"),
        (b"<a><![CDATA[123]]]></a>", b"<a>[123]]</>$"),
        (b"<a><![CDATA[1234]]></a>", b"<a>[1234]</>$"),
        (b"<a>12\xC3\xA9</a>", b"<a>[12\xC3\xA9]</>$"),
        (b"<?abcd efghi?><!DOCTYPE abcd><a/>", b"<a></>$"),
    ];
    are_accepted(&rt, rt.alloc(), small(40), accepted)
}

#[test]
fn what_passes_a_limit_is_refused_in_any_pieces(rt: HostRuntime) -> Result<(), Fail> {
    let refused: &[(&[u8], &[u8], DocFault)] = &[
        (b"<abcd/>", b"", DocFault::NameLong(4)),
        (b"<a bcde='1'/>", b"", DocFault::NameLong(6)),
        (b"<a\xC3\xA9b/>", b"", DocFault::NameLong(4)),
        (b"<aa\xC3\xA9/>", b"", DocFault::NameLong(3)),
        (b"<abc></abcd>", b"<abc>", DocFault::Syntax(10)),
        (b"<a><b><c/></b></a>", b"<a><b>", DocFault::Depth(6)),
        (b"<a><b c='1'/></a>", b"<a>", DocFault::Depth(6)),
        (b"<a><b></b><c><d>", b"<a><b></><c>", DocFault::Depth(13)),
        (b"<a><b><", b"<a><b>", DocFault::Truncated(7)),
        (b"<a><b><1", b"<a><b>", DocFault::Syntax(7)),
        (b"<a b='12345'/>", b"", DocFault::TextLong(10)),
        (b"<a b='     '/>", b"", DocFault::TextLong(10)),
        (b"<a b='&#49;234&lt;'/>", b"", DocFault::TextLong(17)),
        (b"<a>12345</a>", b"<a>", DocFault::TextLong(7)),
        (b"<a>     </a>", b"<a>", DocFault::TextLong(7)),
        (b"<a>123\xC3\xA9</a>", b"<a>", DocFault::TextLong(6)),
        (b"<a>12<!--c-->345", b"<a>", DocFault::TextLong(15)),
        (b"<a>1234&gt;", b"<a>", DocFault::TextLong(10)),
        (b"<a>1234&gx", b"<a>", DocFault::Syntax(9)),
        (b"<a><![CDATA[1234]5", b"<a>", DocFault::TextLong(17)),
        (b"<a><![CDATA[1234]]5", b"<a>", DocFault::TextLong(18)),
        (b"<a><![CDATA[1234]]]", b"<a>", DocFault::TextLong(18)),
        (b"<a><![CDATA[123]]]5", b"<a>", DocFault::TextLong(18)),
        (b"<a><![CDATA[1234]\x01", b"<a>", DocFault::Syntax(17)),
        (b"<a><![CDATA[1234]]", b"<a>", DocFault::Truncated(18)),
        (
            b"<a><![CDATA[12]]>34</a><!--abcdefghijklmn",
            b"<a>[1234]</>",
            DocFault::TooLong(40),
        ),
    ];
    are_refused(&rt, rt.alloc(), small(40), refused)
}

#[test]
fn the_first_fault_in_the_order_of_reading_is_told(rt: HostRuntime) -> Result<(), Fail> {
    let rows: &[(u64, &[u8], &[u8], Option<DocFault>)] = &[
        (8, b"<abcd>", b"", Some(DocFault::NameLong(4))),
        (8, b"<a>12345", b"<a>", Some(DocFault::TextLong(7))),
        (8, b"<a><b><c>", b"<a><b>", Some(DocFault::Depth(6))),
        (8, b"<a></a>  ", b"<a></>", Some(DocFault::TooLong(8))),
        (8, b"<a></a> x", b"<a></>", Some(DocFault::TooLong(8))),
        (8, b"<a></a> ", b"<a></>$", None),
        (8, b"<a></ab>", b"<a>", Some(DocFault::Syntax(6))),
        (7, b"<a><b><c>", b"<a><b>", Some(DocFault::TooLong(7))),
        (4, b"<abcd>", b"", Some(DocFault::TooLong(4))),
        (5, b"<abcd>", b"", Some(DocFault::NameLong(4))),
        (7, b"<a>12345", b"<a>", Some(DocFault::TooLong(7))),
        (5, b"<a/>\xC3\xA9", b"<a></>", Some(DocFault::TooLong(5))),
        (6, b"<a/>\xC3\xA9", b"<a></>", Some(DocFault::Syntax(4))),
        (5, b"<a/>\xC3\x28", b"<a></>", Some(DocFault::TooLong(5))),
        (6, b"<a/>\xC3\x28", b"<a></>", Some(DocFault::Utf8(4))),
        (4, b"<a/>\xFF", b"<a></>", Some(DocFault::TooLong(4))),
        (5, b"<a/>\xFF", b"<a></>", Some(DocFault::Utf8(4))),
        (5, b"<a/>\xC3", b"<a></>", Some(DocFault::Utf8(4))),
        (0, b"<a/>", b"", Some(DocFault::TooLong(0))),
        (0, b"", b"", Some(DocFault::Truncated(0))),
    ];
    for &(bytes, document, tokens, fault) in rows {
        assert!(rt; bytes < 9);
        let row = Row {
            document,
            tokens,
            fault,
        };
        is_told_in_pieces(&rt, rt.alloc(), small(bytes), row)?;
    }
    Ok(())
}

#[test]
fn limits_may_be_nothing(rt: HostRuntime) -> Result<(), Fail> {
    let none = Limits {
        bytes: 40,
        depth: 0,
        name: 0,
        text: 0,
    };
    are_refused(&rt, rt.alloc(), none, &[(b"<a/>", b"", DocFault::Depth(0))])
}

#[test]
fn one_element_may_be_all(rt: HostRuntime) -> Result<(), Fail> {
    let flat = Limits {
        bytes: 40,
        depth: 1,
        name: 1,
        text: 0,
    };
    are_accepted(&rt, rt.alloc(), flat, &[(b"<a></a>", b"<a></>$")])?;
    let deeper: &[(&[u8], &[u8], DocFault)] = &[
        (b"<a bc='1'/>", b"", DocFault::Depth(3)),
        (b"<a>x", b"<a>", DocFault::TextLong(3)),
    ];
    are_refused(&rt, rt.alloc(), flat, deeper)
}

/// So many copies of a letter behind the front, and the rest.
fn long(alloc: Global, front: &[u8], count: usize, rest: &[u8]) -> Result<Vec<u8>, Fail> {
    let mut text = front.to_vec(alloc)?;
    text.extend_from_slice(&vec![in alloc; b'n'; count]?)?;
    text.extend_from_slice(rest)?;
    Ok(text)
}

#[test]
fn names_have_1024_bytes_at_most(rt: HostRuntime) -> Result<(), Fail> {
    let alloc = rt.alloc();
    let rows: &[(&[u8], &[u8], &[u8], &[u8])] = &[
        (b"<", b"/>", b"<", b"></>$"),
        (b"<a ", b"=''/>", b"<a><", b"></></>$"),
    ];
    for &(front, rest, before, behind) in rows {
        let document = long(alloc, front, 1024, rest)?;
        let tokens = long(alloc, before, 1024, behind)?;
        let row = Row {
            document: &document,
            tokens: &tokens,
            fault: None,
        };
        is_told_whole(&rt, alloc, Limits::full(), row)?;
    }
    Ok(())
}

#[test]
fn longer_names_are_refused(rt: HostRuntime) -> Result<(), Fail> {
    let rows: &[(&[u8], u64)] = &[(b"<", 1025), (b"<a ", 1027)];
    for &(front, place) in rows {
        let document = long(rt.alloc(), front, 1025, b"='1'/>")?;
        let row = Row {
            document: &document,
            tokens: b"",
            fault: Some(DocFault::NameLong(place)),
        };
        is_told_whole(&rt, rt.alloc(), Limits::full(), row)?;
    }
    Ok(())
}
