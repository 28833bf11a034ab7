//! Characters that come in pieces, and references.
ghost use Rattle.std.specs.Prelude.{◌≤◌, length};

use doc_chars::{CharFault, Chars, RefStep, Reference, Split};
use std::alloc::Global;
use std::process::Abort;
use std::test::Fail;

/// Bytes, their characters up to the first fault, and that fault.
#[derive(Clone, Copy)]
struct Row<'a> {
    bytes: &'a [u8],
    text: &'a str,
    fault: Option<CharFault>,
}

fn push_given(text: &mut String, split: &Split, piece: &[u8]) -> Result<(), Fail> {
    if let Some(c) = split.first {
        text.push(c)?;
    }
    let whole = piece.get(split.used..split.whole).ok_or("out of order")?;
    text.push_str(std::str::from_utf8(whole)?)?;
    Ok(())
}

/// The characters and the fault of the bytes, cut at one place.
fn read_cut(alloc: Global, bytes: &[u8], at: usize) -> Result<(String, Option<CharFault>), Fail>
    requires { at ≤ length bytes.now }
{
    let mut chars = Chars::new();
    let mut text = String::new(alloc);
    let split = chars.split(&bytes[..at]);
    push_given(&mut text, &split, &bytes[..at])?;
    if split.fault.is_some() {
        return Ok((text, split.fault));
    }
    let split = chars.split(&bytes[at..]);
    push_given(&mut text, &split, &bytes[at..])?;
    if split.fault.is_some() {
        return Ok((text, split.fault));
    }
    Ok((text, chars.finish().err()))
}

/// The same of the bytes one by one.
fn read_bytes(alloc: Global, bytes: &[u8]) -> Result<(String, Option<CharFault>), Fail> {
    let mut chars = Chars::new();
    let mut text = String::new(alloc);
    for byte in bytes {
        let piece = [*byte];
        let split = chars.split(&piece);
        push_given(&mut text, &split, &piece)?;
        if split.fault.is_some() {
            return Ok((text, split.fault));
        }
    }
    Ok((text, chars.finish().err()))
}

/// What was read is what the row says.
fn is_found(found: &(String, Option<CharFault>), row: Row<'_>) -> bool {
    found.0.as_str() == row.text && found.1 == row.fault
}

/// The bytes are read so, cut at this place.
fn is_read_cut(rt: &impl Abort, alloc: Global, row: Row<'_>, at: usize) -> Result<(), Fail>
    requires { at ≤ length row.bytes.now }
{
    let found = read_cut(alloc, row.bytes, at)?;
    let bytes = row.bytes;
    assert!(rt; is_found(&found, row), "{bytes:?} cut at {at}");
    Ok(())
}

/// The bytes are read so, one by one.
fn is_read_singly(rt: &impl Abort, alloc: Global, row: Row<'_>) -> Result<(), Fail> {
    let found = read_bytes(alloc, row.bytes)?;
    let bytes = row.bytes;
    assert!(rt; is_found(&found, row), "{bytes:?} byte by byte");
    Ok(())
}

/// The bytes are read so whole, cut at every place, and one by one.
fn is_read(rt: &impl Abort, alloc: Global, row: Row<'_>) -> Result<(), Fail> {
    for at in 0..=row.bytes.len() {
        is_read_cut(rt, alloc, row, at)?;
    }
    is_read_singly(rt, alloc, row)
}

#[test]
fn characters_are_the_same_in_any_pieces(rt: HostRuntime) -> Result<(), Fail> {
    // Unicode, tables 3-7 and 3-8; XML 1.0, section 2.2
    let rows: &[(&[u8], &str, Option<CharFault>)] = &[
        (b"", "", None),
        (b"\t\n\r \x7F", "\t\n\r \u{7F}", None),
        (b"a\xC3\xA9\xE2\x82\xAC\xF0\x9F\x98\x80z", "aé€😀z", None),
        (b"\xEF\xBB\xBF<", "\u{FEFF}<", None),
        (
            b"\xED\x9F\xBF\xEE\x80\x80\xEF\xBF\xBD",
            "\u{D7FF}\u{E000}\u{FFFD}",
            None,
        ),
        (b"\xF4\x8F\xBF\xBF", "\u{10FFFF}", None),
        (b"\x00", "", Some(CharFault::Char(0))),
        (b"\xC3\xA9\x01b", "é", Some(CharFault::Char(2))),
        (b"x\xEF\xBF\xBE", "x", Some(CharFault::Char(1))),
        (
            b"\xF0\x9F\x98\x80\xEF\xBF\xBF",
            "😀",
            Some(CharFault::Char(4)),
        ),
        (b"\x01\xFF", "", Some(CharFault::Char(0))),
        (b"\xFF\x01", "", Some(CharFault::Utf8(0))),
        (b"a\x80", "a", Some(CharFault::Utf8(1))),
        (b"\xC0\xAF", "", Some(CharFault::Utf8(0))),
        (b"a\xE0\x80\xBF", "a", Some(CharFault::Utf8(1))),
        (b"a\xED\xA0\x80", "a", Some(CharFault::Utf8(1))),
        (b"\xF4\x90\x80\x80", "", Some(CharFault::Utf8(0))),
        (b"\xF0\x9F\x98a", "", Some(CharFault::Utf8(0))),
        (b"\xE2\x82\xAC\xE2\x28\xA1", "€", Some(CharFault::Utf8(3))),
        (b"\xE1\x80\xE2\xF0", "", Some(CharFault::Utf8(0))),
        (b"ab\xE2\x82", "ab", Some(CharFault::Utf8(2))),
        (b"\xC3\xA9\xF0\x9F\x98", "é", Some(CharFault::Utf8(2))),
    ];
    for &(bytes, text, fault) in rows {
        let row = Row { bytes, text, fault };
        is_read(&rt, rt.alloc(), row)?;
    }
    Ok(())
}

/// The answer at the last character. None where an earlier one ended the reference.
fn last_step(text: &str) -> Option<RefStep> {
    let mut reference = Reference::new();
    let mut last = RefStep::More;
    for c in text.chars() {
        if last != RefStep::More {
            return None;
        }
        last = reference.step(c);
    }
    Some(last)
}

#[test]
fn references_end_where_the_grammar_says(rt: HostRuntime) {
    // XML 1.0, sections 4.1 and 4.6
    let rows: &[(&str, char)] = &[
        ("lt;", '<'),
        ("gt;", '>'),
        ("amp;", '&'),
        ("apos;", '\''),
        ("quot;", '"'),
        ("#65;", 'A'),
        ("#x41;", 'A'),
        ("#9;", '\t'),
        ("#x1F600;", '😀'),
        ("#x1f600;", '😀'),
        ("#00000000000000000000065;", 'A'),
        ("#x00000000000000000000041;", 'A'),
        ("#1114111;", '\u{10FFFF}'),
        ("#x10FFFF;", '\u{10FFFF}'),
        ("#xD7FF;", '\u{D7FF}'),
        ("#xFFFD;", '\u{FFFD}'),
    ];
    for &(text, c) in rows {
        assert!(rt; last_step(text) == Some(RefStep::Done(c)), "{text}");
    }
}

#[test]
fn references_go_on_where_the_grammar_says(rt: HostRuntime) {
    let rows: &[&str] = &[
        "l", "am", "ap", "quot", "#", "#x", "#0", "#xD800", "#1114111", "#x10FFFF",
    ];
    for text in rows {
        assert!(rt; last_step(text) == Some(RefStep::More), "{text}");
    }
}

#[test]
fn other_references_are_bad(rt: HostRuntime) {
    let rows: &[&str] = &[
        ";",
        " ",
        "L",
        "x",
        "#;",
        "#x;",
        "#X",
        "#xx",
        "#a",
        "#-",
        "#0;",
        "#x0;",
        "#8;",
        "#65x",
        "#1114112",
        "#x110000",
        "#xD800;",
        "#57343;",
        "#xFFFE;",
        "#65 ",
        "#xG",
        "l;",
        "ltt",
        "aq",
        "am;",
        "ap;",
        "apo;",
        "aposs",
        "amp ",
        "quoty",
        "#\u{FF11}",
    ];
    for text in rows {
        assert!(rt; last_step(text) == Some(RefStep::Bad), "{text}");
    }
}
