//! The lines of a trace, as texts and from them.
use buf_trace::{Line, LineKind, put_line, read_line};
use gcx_base::{Memory, Name, Role, Serial};
use gcx_model::Given;
use std::alloc::Global;
use std::process::Abort;
use std::test::Fail;

fn text_of(alloc: Global, line: &Line) -> Result<Vec<u8>, Memory> {
    let mut out = Vec::new(alloc);
    put_line(&mut out, line)?;
    Ok(out)
}

/// Whether the line has this text, with a line feed behind it.
fn has_text(alloc: Global, line: &Line, text: &[u8]) -> Result<bool, Memory> {
    let put = text_of(alloc, line)?;
    match put.split_last() {
        Some((end, front)) => Ok(front == text && *end == b'\n'),
        None => Ok(false),
    }
}

/// Whether the text is read as a line with this text.
fn is_read_back(alloc: Global, text: &[u8]) -> Result<bool, Memory> {
    match read_line(alloc, text)? {
        Some(read) => has_text(alloc, &read, text),
        None => Ok(false),
    }
}

/// Three roles, from the least to the greatest.
fn three_roles(alloc: Global) -> Result<Given, Memory> {
    let mut given = Given::new(alloc);
    given.push(Role(0))?;
    given.push(Role(10))?;
    given.push(Role(4_294_967_295))?;
    Ok(given)
}

/// The line has this text, and the text is read as a line with this text.
fn goes_both_ways(rt: &impl Abort, alloc: Global, line: &Line, text: &[u8]) -> Result<(), Fail> {
    let goes = (has_text(alloc, line, text)?, is_read_back(alloc, text)?);
    assert_eq!(rt; goes, (true, true), "{text:?}");
    Ok(())
}

#[test]
fn the_document_goes_both_ways(rt: HostRuntime) -> Result<(), Fail> {
    let line = Line::Opened {
        serial: Serial(0),
        kind: LineKind::Document,
        given: Given::new(rt.alloc()),
    };
    goes_both_ways(&rt, rt.alloc(), &line, b"+ 0 /")
}

fn element(alloc: Global) -> Result<LineKind, Fail> {
    match Name::from_bytes(alloc, b"a:\xC3\xA9")? {
        Some(name) => Ok(LineKind::Element(name)),
        None => Err(Fail::new("not a name")),
    }
}

#[test]
fn an_element_goes_both_ways(rt: HostRuntime) -> Result<(), Fail> {
    let alloc = rt.alloc();
    let given = three_roles(alloc)?;
    let kind = element(alloc)?;
    let line = Line::Opened {
        serial: Serial(18_446_744_073_709_551_615),
        kind,
        given,
    };
    let text = b"+ 18446744073709551615 a:\xC3\xA9 0 10 4294967295";
    goes_both_ways(&rt, alloc, &line, text)
}

#[test]
fn a_text_goes_both_ways(rt: HostRuntime) -> Result<(), Fail> {
    let line = Line::Opened {
        serial: Serial(10),
        kind: LineKind::Text,
        given: Given::new(rt.alloc()),
    };
    goes_both_ways(&rt, rt.alloc(), &line, b"+ 10 #")
}

#[test]
fn ends_of_nodes_go_both_ways(rt: HostRuntime) -> Result<(), Fail> {
    goes_both_ways(&rt, rt.alloc(), &Line::Closed(Serial(7)), b"- 7")?;
    goes_both_ways(&rt, rt.alloc(), &Line::Gone(Serial(0)), b"x 0")
}

#[test]
fn what_is_written_and_signed_off_goes_both_ways(rt: HostRuntime) -> Result<(), Fail> {
    let signed_off = Line::SignedOff {
        serial: Serial(3),
        role: Role(4_294_967_295),
    };
    goes_both_ways(&rt, rt.alloc(), &signed_off, b"o 3 4294967295")?;
    goes_both_ways(&rt, rt.alloc(), &Line::Wrote(100), b"w 100")
}

/// Whether a copy has the roles of what it is a copy of.
fn is_copied(alloc: Global, given: &Given) -> Result<bool, Memory> {
    Ok(given.copy(alloc)?.items() == given.items())
}

#[test]
fn roles_are_copied(rt: HostRuntime) -> Result<(), Fail> {
    let given = three_roles(rt.alloc())?;
    assert!(rt; is_copied(rt.alloc(), &given)?);
    Ok(())
}

#[test]
fn other_texts_are_no_lines(rt: HostRuntime) -> Result<(), Fail> {
    let rows: &[&[u8]] = &[
        b"",
        b"+",
        b"+ ",
        b"- ",
        b"-7",
        b"- 07",
        b"- +7",
        b"-  7",
        b" - 7",
        b"- 7 ",
        b"- 7\n",
        b"- 7 8",
        b"y 7",
        b"- 18446744073709551616",
        b"+ 7",
        b"+ 7 ",
        b"+ 7 9a",
        b"+ 7 a ",
        b"+ 7 a 1 1",
        b"+ 7 a 2 1",
        b"+ 7 a 01",
        b"+ 7 # 4294967296",
        b"o 7",
        b"o 7 4294967296",
    ];
    for text in rows {
        let line = read_line(rt.alloc(), text)?;
        assert!(rt; line.is_none(), "{text:?}");
    }
    Ok(())
}
