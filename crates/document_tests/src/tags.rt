//! Tags and texts of an answer.
use doc_write::{put_end, put_start, put_text};
use gcx_base::{Memory, Name, Text};
use std::alloc::Global;
use std::test::Fail;

fn name(alloc: Global, bytes: &[u8]) -> Result<Name, Fail> {
    match Name::from_bytes(alloc, bytes)? {
        Some(name) => Ok(name),
        None => Err(Fail::new("not a name")),
    }
}

fn text(alloc: Global, bytes: &[u8]) -> Result<Text, Fail> {
    match Text::from_bytes(alloc, bytes)? {
        Some(text) => Ok(text),
        None => Err(Fail::new("not a text")),
    }
}

/// An element of this name round the text.
fn put_element(out: &mut Vec<u8>, name: &Name, text: &Text) -> Result<(), Memory> {
    put_start(out, name)?;
    put_text(out, text)?;
    put_end(out, name)
}

fn element(alloc: Global, name: &Name, text: &Text) -> Result<Vec<u8>, Memory> {
    let mut out = Vec::new(alloc);
    put_element(&mut out, name, text)?;
    Ok(out)
}

#[test]
fn an_element_is_written(rt: HostRuntime) -> Result<(), Fail> {
    let name = name(rt.alloc(), b"a")?;
    let text = text(rt.alloc(), b"1 < 2 && \"3\" > '2'")?;
    let written = element(rt.alloc(), &name, &text)?;
    assert_eq!(rt;
        written.as_slice(),
        b"<a>1 &lt; 2 &amp;&amp; \"3\" &gt; '2'</a>".as_slice()
    );
    Ok(())
}
