//! A piece of a stream, behind the bytes of a character that the piece before it cut.
ghost use Rattle.std.specs.Prelude.{◌≡◌, ◌<◌, ◌≤◌, ◌++◌, ◌+◌, ◌-◌, length, take, drop, min};
ghost use Rattle.doc_chars.specs.Scan.{BeginsWith, Scanned};
ghost use Rattle.doc_chars.specs.Stream.{IsCharFront};
ghost use Rattle.doc_chars.specs.Cut.{IsCut};

use crate::scan::{Cause, First, first_char, scan_bytes};
use gcx_base::is_xml_char;

/// The most bytes of a character.
pub(crate) const LONGEST: usize = 4;

/// The characters of a piece.
#[derive(Clone, Copy, Debug)]
pub(crate) struct Cut {
    /// The carried character, once it is whole.
    pub first: Option<char>,
    /// How many bytes of the piece complete it.
    pub used: usize,
    /// The bytes of the piece from `used` to here are Chars.
    pub whole: usize,
    /// Why the next character can't be given; None where it may yet come.
    pub cause: Option<Cause>,
}

/// The carried bytes and those that follow, as far as a character may reach.
fn joined(carried: &[u8], piece: &[u8]) -> ([u8; LONGEST], usize)
    requires { length carried.now < LONGEST }
    ensures count { result.1 ≡ min LONGEST (length carried.now + length piece.now) }
    ensures bytes { take result.1 result.0 ≡ take LONGEST (carried.now ++ piece.now) }
{
    let mut bytes = [0; LONGEST];
    let count = carried.len();
    bytes[..count].copy_from_slice(carried);
    let more = piece.len().min(LONGEST - count);
    bytes[count..count + more].copy_from_slice(&piece[..more]);
    (bytes, count + more)
}

/// What the carried bytes and the piece begin with.
fn first_of(carried: &[u8], piece: &[u8]) -> First
    requires some { 0 < length carried.now }
    requires short { length carried.now < LONGEST }
    ensures { BeginsWith result (carried.now ++ piece.now) }
{
    let (bytes, count) = joined(carried, piece);
    first_char(&bytes[..count])
}

/// The Chars of the piece from `used` on.
fn behind(piece: &[u8], first: Option<char>, used: usize) -> Cut
    requires { used ≤ length piece.now }
    ensures first { result.first ≡ first }
    ensures used { result.used ≡ used }
    ensures in_order { used ≤ result.whole }
    ensures scanned { Scanned (drop used piece.now) (result.whole - used) result.cause }
{
    let rest = scan_bytes(&piece[used..]);
    Cut {
        first,
        used,
        whole: used + rest.whole,
        cause: rest.cause,
    }
}

/// No character, for this cause.
fn nothing(cause: Option<Cause>) -> Cut
    ensures { result ≡ record { first = None; used = 0; whole = 0; cause = cause } }
{
    Cut {
        first: None,
        used: 0,
        whole: 0,
        cause,
    }
}

/// The characters of the carried bytes and the piece.
pub(crate) fn cut_piece(carried: &[u8], piece: &[u8]) -> Cut
    requires { IsCharFront carried.now }
    ensures { IsCut carried.now piece.now result }
{
    if carried.is_empty() {
        return behind(piece, None, 0);
    }
    match first_of(carried, piece) {
        First::Whole(c) if is_xml_char(c) => behind(piece, Some(c), c.len_utf8() - carried.len()),
        First::Whole(_) => nothing(Some(Cause::NotChar)),
        First::Bad => nothing(Some(Cause::NotUtf8)),
        First::Front => nothing(None),
    }
}
