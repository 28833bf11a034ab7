//! Names, texts, steps, kinds and classes of characters.
use gcx_base::{
    Axis, Kind, Limits, Name, Step, Steps, Test, Text, is_name_char, is_name_start, is_space,
    is_xml_char, same_bytes,
};
use std::alloc::Global;
use std::process::Abort;
use std::test::Fail;

fn assert_bytes(rt: &impl Abort, bytes: &[u8], want: &[u8]) {
    assert_eq!(rt; bytes, want);
}

/// Compares the bytes of the name, as it is, copied, as a `str` and made of its own bytes.
fn assert_named(rt: &impl Abort, alloc: Global, name: &Name, bytes: &[u8]) -> Result<(), Fail> {
    assert_bytes(rt, name.as_bytes(), bytes);
    assert_bytes(rt, name.as_str().as_bytes(), bytes);
    let copied = name.copy(alloc)?;
    assert_bytes(rt, copied.as_bytes(), bytes);
    let again = Name::of_name(alloc, name.as_bytes())?;
    assert_bytes(rt, again.as_bytes(), bytes);
    Ok(())
}

/// Compares whether the bytes are a name, and what a name of them holds.
fn assert_name(rt: &impl Abort, alloc: Global, bytes: &[u8], named: bool) -> Result<(), Fail> {
    let name = Name::from_bytes(alloc, bytes)?;
    assert_eq!(rt; name.is_some(), named, "{bytes:?}");
    match name {
        Some(name) => assert_named(rt, alloc, &name, bytes),
        None => Ok(()),
    }
}

#[test]
fn names_are_of_xml(rt: HostRuntime) -> Result<(), Fail> {
    let table: &[(&[u8], bool)] = &[
        (b"a", true),
        (b"sixteen_letters_", true),
        (b"seventeen_letters", true),
        (b"_", true),
        (b"Z9-._", true),
        (b"", false),
        (b"9a", false),
        (b"-a", false),
        (b"a b", false),
        (b"a:b", true),
        (b":", true),
        (b"\xC3\xA9\xCC\x81", true),
        (b"\xC3\x97", false),
        (b"a\xC3", false),
    ];
    for &(bytes, named) in table {
        assert_name(&rt, rt.alloc(), bytes, named)?;
    }
    Ok(())
}

#[test]
fn a_name_may_be_long(rt: HostRuntime) -> Result<(), Fail> {
    let alloc = rt.alloc();
    let long = vec![in alloc; b'a'; 1025]?;
    assert_name(&rt, alloc, &long, true)
}

/// Compares the bytes of the text taken from a string, which is empty then.
fn assert_taken(rt: &impl Abort, alloc: Global, text: &str, bytes: &[u8]) -> Result<(), Fail> {
    let mut string = String::from_str(alloc, text)?;
    let taken = Text::take_from(alloc, &mut string);
    assert_bytes(rt, taken.as_bytes(), bytes);
    assert_bytes(rt, string.as_str().as_bytes(), b"");
    Ok(())
}

/// Compares the bytes of the text, copied, made of its own bytes, as a `str` and taken from a string.
fn assert_spelled(rt: &impl Abort, alloc: Global, text: &Text, bytes: &[u8]) -> Result<(), Fail> {
    assert_bytes(rt, text.as_str().as_bytes(), bytes);
    let copied = text.copy(alloc)?;
    assert_bytes(rt, copied.as_bytes(), bytes);
    let again = Text::of_text(alloc, text.as_bytes())?;
    assert_bytes(rt, again.as_bytes(), bytes);
    assert_taken(rt, alloc, text.as_str(), bytes)
}

/// Compares whether the bytes are a text, and what a text of them holds.
fn assert_text(rt: &impl Abort, alloc: Global, bytes: &[u8], utf8: bool) -> Result<(), Fail> {
    let text = Text::from_bytes(alloc, bytes)?;
    assert_eq!(rt; text.is_some(), utf8, "{bytes:?}");
    match text {
        Some(text) => assert_spelled(rt, alloc, &text, bytes),
        None => Ok(()),
    }
}

#[test]
fn texts_are_utf8(rt: HostRuntime) -> Result<(), Fail> {
    let table: &[(&[u8], bool)] = &[
        (b"", true),
        (b"1 > 0", true),
        (b"16 bytes of text", true),
        (b"17 bytes of words", true),
        (b"\xC3\xA9", true),
        (b"\xF0\x9F\x98\x80", true),
        (b"\xFF", false),
        (b"\xC3", false),
        (b"\xC0\x80", false),
        (b"\xED\xA0\x80", false),
    ];
    for &(bytes, utf8) in table {
        assert_text(&rt, rt.alloc(), bytes, utf8)?;
    }
    Ok(())
}

fn name(alloc: Global, bytes: &[u8]) -> Result<Name, Fail> {
    match Name::from_bytes(alloc, bytes)? {
        Some(name) => Ok(name),
        None => Err(Fail::new("not a name")),
    }
}

/// A step of each test.
fn four_steps(alloc: Global) -> Result<Steps, Fail> {
    let mut steps = Steps::new(alloc);
    let named = Test::Named(name(alloc, b"a")?);
    for test in [named, Test::AnyElement, Test::AnyText, Test::AnyNode] {
        steps.push(Step {
            axis: Axis::Child,
            test,
        })?;
    }
    Ok(steps)
}

fn printed(alloc: Global, steps: &Steps) -> Result<String, Fail> {
    Ok(format!(in alloc; "{:?}", steps.items())?)
}

fn assert_printed_alike(
    rt: &impl Abort,
    alloc: Global,
    steps: &Steps,
    others: &Steps,
) -> Result<(), Fail> {
    let printed_steps = printed(alloc, steps)?;
    let printed_others = printed(alloc, others)?;
    assert_eq!(rt; printed_steps, printed_others);
    Ok(())
}

#[test]
fn steps_keep_their_order(rt: HostRuntime) -> Result<(), Fail> {
    let steps = four_steps(rt.alloc())?;
    let copied = steps.copy(rt.alloc())?;
    assert_eq!(rt; copied.items().len(), 4);
    assert_printed_alike(&rt, rt.alloc(), &copied, &steps)
}

#[test]
fn kinds_are_copied(rt: HostRuntime) -> Result<(), Fail> {
    let alloc = rt.alloc();
    let element = Kind::Element(name(alloc, b"b")?);
    let copied = element.copy(alloc)?;
    assert!(rt; matches!(copied, Kind::Element(_)));
    let document = Kind::Document.copy(alloc)?;
    assert!(rt; matches!(document, Kind::Document));
    Ok(())
}

#[test]
fn bytes_are_the_same_where_each_is(rt: HostRuntime) {
    let table: &[(&[u8], &[u8], bool)] = &[
        (b"", b"", true),
        (b"abc", b"abc", true),
        (b"abc", b"abd", false),
        (b"abcd", b"abcd", true),
        (b"abcd", b"abce", false),
        (b"abcd", b"abcde", false),
        (b"abcdefghi", b"abcdefghi", true),
        (b"abcdefghi", b"abcdefghj", false),
    ];
    for &(one, other, same) in table {
        assert_eq!(rt; same_bytes(one, other), same, "{one:?} {other:?}");
    }
}

/// Each step is equal to the one at its own place alone.
fn assert_each_its_own(rt: &impl Abort, steps: &Steps, others: &Steps) {
    for (i, step) in steps.items().iter().enumerate() {
        for (j, other) in others.items().iter().enumerate() {
            assert!(rt; (*step == *other) == (i == j), "{i} {j}");
        }
    }
}

#[test]
fn steps_are_compared_with_their_names(rt: HostRuntime) -> Result<(), Fail> {
    let steps = four_steps(rt.alloc())?;
    let others = four_steps(rt.alloc())?;
    assert_each_its_own(&rt, &steps, &others);
    Ok(())
}

#[test]
fn names_are_compared(rt: HostRuntime) -> Result<(), Fail> {
    let named = name(rt.alloc(), b"named")?;
    let other = name(rt.alloc(), b"names")?;
    assert!(rt; named != other);
    Ok(())
}

/// Compares the text with a copy of its own and with another one.
fn assert_compared(rt: &impl Abort, alloc: Global, text: &Text, other: &Text) -> Result<(), Fail> {
    let copied = text.copy(alloc)?;
    assert!(rt; *text == copied);
    assert!(rt; *text != *other);
    Ok(())
}

#[test]
fn texts_are_compared(rt: HostRuntime) -> Result<(), Fail> {
    let text = Text::of_text(rt.alloc(), b"12")?;
    let other = Text::of_text(rt.alloc(), b"13")?;
    assert_compared(&rt, rt.alloc(), &text, &other)
}

/// Compares which of a step of each test a node of this kind passes.
fn assert_passes(rt: &impl Abort, alloc: Global, kind: &Kind, passed: &[bool]) -> Result<(), Fail> {
    let steps = four_steps(alloc)?;
    for (step, passes) in steps.items().iter().zip(passed) {
        assert!(rt;
            step.test.passes(kind) == *passes,
            "{:?} {:?}",
            step.test,
            kind
        );
    }
    Ok(())
}

/// A kind that is to be made.
#[derive(Clone, Copy)]
enum Made {
    Document,
    Element(&'static [u8]),
    Text(&'static str),
}

fn kind_made(alloc: Global, made: Made) -> Result<Kind, Fail> {
    match made {
        Made::Document => Ok(Kind::Document),
        Made::Element(bytes) => Ok(Kind::Element(name(alloc, bytes)?)),
        Made::Text(text) => Ok(Kind::Text(Text::of_text(alloc, text.as_bytes())?)),
    }
}

/// Compares which of a step of each test a node of this kind passes, and whether it is a text.
fn assert_kind(
    rt: &impl Abort,
    alloc: Global,
    made: Made,
    passed: &[bool],
    is_text: bool,
) -> Result<(), Fail> {
    let kind = kind_made(alloc, made)?;
    assert_eq!(rt; kind.is_text(), is_text);
    assert_passes(rt, alloc, &kind, passed)
}

/// Kinds, which of `child::a`, `child::*`, `child::text()` and `child::node()` they pass, and whether they are texts.
const KINDS: &[(Made, &[bool], bool)] = &[
    (Made::Document, &[false, false, false, false], false),
    (Made::Element(b"a"), &[true, true, false, true], false),
    (Made::Element(b"b"), &[false, true, false, true], false),
    (Made::Text("a"), &[false, false, true, true], true),
];

#[test]
fn kinds_pass_their_tests(rt: HostRuntime) -> Result<(), Fail> {
    for &(made, passed, is_text) in KINDS {
        assert_kind(&rt, rt.alloc(), made, passed, is_text)?;
    }
    Ok(())
}

#[test]
fn documents_may_be_a_thousand_deep(rt: HostRuntime) {
    assert_eq!(rt; Limits::full().depth, 1000);
}

fn assert_class(rt: &impl Abort, c: char, found: bool, want: bool) {
    assert_eq!(rt; found, want, "{c:?}");
}

#[test]
fn characters_have_their_classes(rt: HostRuntime) {
    // Char, NameStartChar, NameChar, S
    let table: &[(char, bool, bool, bool, bool)] = &[
        ('\0', false, false, false, false),
        ('\t', true, false, false, true),
        ('\u{B}', false, false, false, false),
        (' ', true, false, false, true),
        ('-', true, false, true, false),
        ('7', true, false, true, false),
        (':', true, true, true, false),
        ('_', true, true, true, false),
        ('{', true, false, false, false),
        ('\u{B7}', true, false, true, false),
        ('\u{D7}', true, false, false, false),
        ('\u{E9}', true, true, true, false),
        ('\u{37E}', true, false, false, false),
        ('\u{203F}', true, false, true, false),
        ('\u{3000}', true, false, false, false),
        ('\u{FFFD}', true, true, true, false),
        ('\u{FFFE}', false, false, false, false),
        ('\u{10000}', true, true, true, false),
        ('\u{F0000}', true, false, false, false),
    ];
    for &(c, char, start, part, space) in table {
        assert_class(&rt, c, is_xml_char(c), char);
        assert_class(&rt, c, is_name_start(c), start);
        assert_class(&rt, c, is_name_char(c), part);
        assert_class(&rt, c, is_space(c), space);
    }
}
