//! Characters that are read as a whole.
ghost use Rattle.std.specs.Prelude.{◌≡◌, ◌≤◌, Some, IfSome, MatchOption, ⊤};
ghost use Rattle.std.specs.Str.{IsCharBoundary};
ghost use Rattle.memchr.specs.Find.{IsFirstByte, is_byte2, is_byte3};
ghost use Rattle.doc_chars.specs.Stream.{AreChars};
ghost use Rattle.doc_machine.specs.Machine.{scan_state};
ghost use Rattle.doc_machine.specs.Steps.{Becomes};
ghost use Rattle.doc_parts.specs.Spans.{is_name_span, IsStop, IsSpanFront, IsSameFront, Allows, spread};

use crate::lanes::{BLOCK, first_in_block};
use crate::name::part_front;
use doc_machine::{Brackets, Mode, Quote, Scan};
use gcx_base::{Limits, Memory};
use memchr::{memchr, memchr2, memchr3};

/// Where characters are read as a whole.
#[derive(Clone, Copy, Debug)]
pub(crate) enum Span {
    Text,
    /// Between quotes of this kind.
    Value(Quote),
    TagName,
    AttributeName,
    Comment,
    Instruction,
    CDSect,
}

/// A place between two characters, the last one behind at most so many bytes.
fn boundary_within(text: &str, most: usize) -> usize
    ensures few { result ≤ most }
    ensures boundary { IsCharBoundary text.now result }
{
    if text.len() <= most {
        return text.len();
    }
    let mut end = most;
    while !text.is_char_boundary(end) {
        end -= 1;
    }
    end
}

/// The first place of the first block that has one of these bytes: most texts end there.
#[inline(always)]
fn first_near(a: u8, b: u8, c: u8, bytes: &[u8]) -> Option<usize>
    ensures { IfSome result (λ k. IsFirstByte (is_byte3 a b c) bytes.now (Some k)) }
{
    if bytes.len() < BLOCK {
        return None;
    }
    first_in_block(a, b, c, bytes)
}

/// The first place that has one of these two bytes.
#[inline(always)]
fn first_of_two(a: u8, b: u8, bytes: &[u8]) -> Option<usize>
    ensures { IsFirstByte (is_byte2 a b) bytes.now result }
{
    match first_near(a, b, b, bytes) {
        Some(near) => Some(near),
        None => memchr2(a, b, bytes),
    }
}

/// The first place that has one of these three bytes.
#[inline(always)]
fn first_of_three(a: u8, b: u8, c: u8, bytes: &[u8]) -> Option<usize>
    ensures { IsFirstByte (is_byte3 a b c) bytes.now result }
{
    match first_near(a, b, c, bytes) {
        Some(near) => Some(near),
        None => memchr3(a, b, c, bytes),
    }
}

impl Span {
    #[inline(always)]
    fn is_name(self) -> bool
        ensures { result ≡ is_name_span self }
    {
        matches!(self, Span::TagName | Span::AttributeName)
    }

    /// Where the first byte stands at which the span may end, or the end. Names end elsewhere.
    #[inline(always)]
    fn stop(self, bytes: &[u8]) -> usize
        ensures { IsStop result self bytes.now }
    {
        let found = match self {
            Span::Text => first_of_two(b'<', b'&', bytes),
            Span::Value(Quote::Double) => first_of_three(b'<', b'&', b'"', bytes),
            Span::Value(Quote::Single) => first_of_three(b'<', b'&', b'\'', bytes),
            Span::TagName | Span::AttributeName => None,
            Span::Comment => memchr(b'-', bytes),
            Span::Instruction => memchr(b'?', bytes),
            Span::CDSect => memchr(b']', bytes),
        };
        match found {
            Some(k) => k,
            None => bytes.len(),
        }
    }

    /// How many bytes the characters of the span take at the front, at most so many.
    #[inline(always)]
    pub(crate) fn front(self, text: &str, most: usize) -> usize
        requires { AreChars text.now }
        ensures { IsSpanFront result most self text.now }
    {
        let (front, _) = text.split_at(boundary_within(text, most));
        if self.is_name() {
            part_front(front)
        } else {
            self.stop(front.as_bytes())
        }
    }
}

/// Where the machine stands in a span, and how many bytes it has room for.
pub(crate) fn span_at(m: &Scan, limits: &Limits) -> Option<(Span, usize)>
    ensures { MatchOption result ⊤ (λ p. Allows limits.now p.1 p.0 (scan_state m.now)) }
{
    let most = limits.text as usize;
    let run = m.tokens.run_len();
    if run > most {
        return None;
    }
    let name = limits.name as usize;
    match m.mode {
        Mode::Between if m.names.has_open() => Some((Span::Text, most - run)),
        Mode::InValue(quote) => Some((Span::Value(quote), most - run)),
        Mode::CDSect(Brackets::None) => Some((Span::CDSect, most - run)),
        Mode::StartName => Some((Span::TagName, name.saturating_sub(m.name.len()))),
        Mode::AttributeName => Some((Span::AttributeName, name.saturating_sub(m.attr.len()))),
        Mode::Comment => Some((Span::Comment, usize::MAX)),
        Mode::Instruction => Some((Span::Instruction, usize::MAX)),
        _ => None,
    }
}

/// Keeps what is wanted of characters of the span.
pub(crate) fn keep(m: &mut Scan, span: Span, front: &str) -> Result<(), Memory>
    ensures { Becomes result (scan_state m.old) (spread span (scan_state m.old) front.now) (scan_state m.new) }
{
    match span {
        Span::Text | Span::Value(_) | Span::CDSect => m.tokens.push_str(front)?,
        Span::TagName => m.name.extend_from_slice(front.as_bytes())?,
        Span::AttributeName => m.attr.extend_from_slice(front.as_bytes())?,
        Span::Comment | Span::Instruction => {}
    }
    Ok(())
}

/// How many ASCII bytes are the same at the front of both.
pub(crate) fn same_front(left: &[u8], bytes: &[u8]) -> usize
    ensures { IsSameFront result left.now bytes.now }
{
    let end = left.len().min(bytes.len());
    for i in 0..end {
        if left[i] != bytes[i] || !bytes[i].is_ascii() {
            return i;
        }
    }
    end
}
