//! Names at the front of a text.
ghost use Rattle.std.specs.Prelude.{◌≡◌, ◌≤◌, length, take, true};
ghost use Rattle.std.specs.List.{list_all};
ghost use Rattle.gcx_base.specs.Characters.{is_start_char};
ghost use Rattle.doc_parts.specs.Spans.{is_short_part, IsPartFront, IsNameFront};

use crate::front::first_char;
use crate::lanes::{BLOCK, letters_run};
use gcx_base::{is_name_char, is_name_start};

/// Whether an ASCII byte is a NameChar.
#[inline(always)]
fn is_short_name_char(b: u8) -> bool
    ensures { result ≡ is_short_part b }
{
    // Most are small letters.
    matches!(b, b'a'..=b'z') || matches!(b, b'A'..=b'Z' | b'0'..=b'9' | b'-' | b'.' | b'_' | b':')
}

/// How many small letters and digits stand at the front, as far as one block tells.
#[inline(always)]
fn letters_front(bytes: &[u8]) -> usize
    ensures within { result ≤ length bytes.now }
    ensures parts { list_all is_short_part (take result bytes.now) ≡ true }
{
    if bytes.len() < BLOCK {
        return 0;
    }
    letters_run(bytes)
}

/// How many ASCII bytes at the front are NameChars. Most are small letters and digits.
#[inline(always)]
fn short_front(bytes: &[u8]) -> usize
    ensures within { result ≤ length bytes.now }
    ensures parts { list_all is_short_part (take result bytes.now) ≡ true }
{
    for i in letters_front(bytes)..bytes.len() {
        // Most names end there.
        if bytes[i] == b'>' || !is_short_name_char(bytes[i]) {
            return i;
        }
    }
    bytes.len()
}

/// How many bytes the NameChars at the front take.
#[inline(never)]
fn wide_front(text: &str) -> usize
    ensures { IsPartFront result text.now }
{
    for (at, c) in text.char_indices() {
        if !is_name_char(c) {
            return at;
        }
    }
    text.len()
}

/// How many bytes NameChars at the front take: all of them, or those before a character that takes more than one.
#[inline(always)]
pub(crate) fn part_front(text: &str) -> usize
    ensures { IsPartFront result text.now }
{
    let bytes = text.as_bytes();
    let n = short_front(bytes);
    if n < bytes.len() && !bytes[n].is_ascii() {
        wide_front(text)
    } else {
        n
    }
}

/// Whether a name may begin with the character.
#[inline(always)]
fn is_first(c: char) -> bool
    ensures { result ≡ is_start_char c }
{
    // Most are small letters.
    matches!(c, 'a'..='z') || is_name_start(c)
}

/// How many bytes a name at the front takes; none where no name begins there.
#[inline(always)]
pub(crate) fn name_front(text: &str) -> usize
    ensures { IsNameFront result text.now }
{
    match first_char(text) {
        Some((c, _)) if is_first(c) => part_front(text),
        _ => 0,
    }
}
