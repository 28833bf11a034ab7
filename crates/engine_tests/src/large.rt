//! Large documents, spelled by parts.
use std::alloc::Global;
use std::fmt::Write;
use std::test::Fail;

/// A text, and the numbers from the first one up to the end for which it is put, each with its number for `#`.
pub(crate) type Part = (&'static str, u32, u32);

/// Puts the text with the number for each `#`.
fn put_numbered(out: &mut String, text: &str, number: u32) -> Result<(), Fail> {
    for letter in text.as_bytes() {
        if *letter == b'#' {
            write!(out, "{number}")?;
        } else {
            out.push(char::from(*letter))?;
        }
    }
    Ok(())
}

fn put_part(out: &mut String, text: &str, first: u32, end: u32) -> Result<(), Fail> {
    for number in first..end {
        put_numbered(out, text, number)?;
    }
    Ok(())
}

/// What the parts spell.
pub(crate) fn spelled(alloc: Global, parts: &[Part]) -> Result<Vec<u8>, Fail> {
    let mut out = String::new(alloc);
    for part in parts {
        put_part(&mut out, part.0, part.1, part.2)?;
    }
    Ok(out.into_bytes())
}
