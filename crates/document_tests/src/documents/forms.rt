//! Documents of each form of the grammar, and what is wrong with others.
use super::limits::small;
use super::{are_accepted, are_refused};
use gcx_model::DocFault;
use std::test::Fail;

/// Each form has its tokens: XML 1.0, sections 2.1 to 2.8, 3.1, 4.1 and 4.6.
pub(super) const FORMS: &[(&[u8], &[u8])] = &[
    (
        b"<a b=\"1\" c = 'x&amp;y' ></a >",
        b"<a><b>[1]</><c>[x&y]</></>$",
    ),
    (b"<a>t<b/>u</a>", b"<a>[t]<b></>[u]</>$"),
    (b"<a> <b>\n</b>&#32;&#x9;</a>", b"<a><b></></>$"),
    (b"<a> <b/> </a>", b"<a><b></></>$"),
    (b"<a>x<!-- - -->y<?p q??>z</a>", b"<a>[xyz]</>$"),
    (b"<a><![CDATA[<x]]]></a>", b"<a>[<x]]</>$"),
    (b"<a><![CDATA[<x>]]>&amp;</a>", b"<a>[<x>&]</>$"),
    (
        b"<a>&lt;&gt;&amp;&apos;&quot;&#65;&#x1F600;</a>",
        b"<a>[<>&'\"A\xF0\x9F\x98\x80]</>$",
    ),
    (
        b"\xEF\xBB\xBF<?xml version='1.0'?><!DOCTYPE a SYSTEM \">\"> <a/>\n",
        b"<a></>$",
    ),
    (
        b"\xEF\xBB\xBF<?xml version=\"1.0\"?><!-- c --><a>x<!--c-->y&lt;&#65;</a>",
        b"<a>[xy<A]</>$",
    ),
    (
        b"<\xC3\xA9 \xC3\xBC='\xC3\x9F'>\xC3\xB1</\xC3\xA9>",
        b"<\xC3\xA9><\xC3\xBC>[\xC3\x9F]</>[\xC3\xB1]</>$",
    ),
    (
        b"<\xC3\xA9>\xE2\x82\xAC</\xC3\xA9 >\n",
        b"<\xC3\xA9>[\xE2\x82\xAC]</>$",
    ),
    (b"<a b='1' bb='2'/>", b"<a><b>[1]</><bb>[2]</></>$"),
];

/// Each fault has its place.
pub(super) const FAULTS: &[(&[u8], &[u8], DocFault)] = &[
    (b"<a>x</a", b"<a>", DocFault::Truncated(7)),
    (b"<r><p><j/>", b"<r><p><j></>", DocFault::Truncated(10)),
    (b"<a b='1' b='2'/>", b"", DocFault::Syntax(10)),
    (b"<ab></abc>", b"<ab>", DocFault::Syntax(8)),
    (b"<a><!-- -- --></a>", b"<a>", DocFault::Syntax(10)),
    (b"<a>&lx;</a>", b"<a>", DocFault::Syntax(5)),
    (b"<a></a>x", b"<a></>", DocFault::Syntax(7)),
    (b"<a>\x01</a>", b"<a>", DocFault::Syntax(3)),
    (b"<a>x\xFF</a>", b"<a>", DocFault::Utf8(4)),
    (b"<a/>\xE2\x82", b"<a></>", DocFault::Utf8(4)),
];

#[test]
fn limits_count_bytes(rt: HostRuntime) -> Result<(), Fail> {
    let accepted: &[(&[u8], &[u8])] = &[
        (
            b"<a><b>\xC3\xA9\xC3\xA9</b></a>",
            b"<a><b>[\xC3\xA9\xC3\xA9]</></>$",
        ),
        (b"<abc/>", b"<abc></>$"),
        (b"<\xC3\xA9a/>", b"<\xC3\xA9a></>$"),
    ];
    are_accepted(&rt, rt.alloc(), small(40), accepted)
}

#[test]
fn bytes_past_a_limit_are_refused(rt: HostRuntime) -> Result<(), Fail> {
    let refused: &[(&[u8], &[u8], DocFault)] = &[
        (b"<a>12345\x01</a>", b"<a>", DocFault::TextLong(7)),
        (b"<\xC3\xA9\xC3\xA9/>", b"", DocFault::NameLong(3)),
    ];
    are_refused(&rt, rt.alloc(), small(40), refused)?;
    let long: &[(&[u8], &[u8], DocFault)] = &[
        (b"<a>1234  ", b"<a>", DocFault::TextLong(7)),
        (b"<a></a>\xE2\x82\xAC", b"<a></>", DocFault::TooLong(8)),
    ];
    are_refused(&rt, rt.alloc(), small(8), long)
}
