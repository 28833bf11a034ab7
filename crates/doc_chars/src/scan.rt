//! The characters at the front of bytes.
ghost use Rattle.std.specs.Prelude.{◌≡◌, ◌<◌, ◌≤◌, ◌+◌, ◌++◌, ℕ, List, MatchOption, length};
ghost use Rattle.std.specs.List.{list_all};
ghost use Rattle.std.specs.Char.{IsScalar, encode_utf8};
ghost use Rattle.doc_chars.specs.Blocks.{is_plain_byte, is_other_at, HasNoOther, IsFirstOther};
ghost use Rattle.doc_chars.specs.Scan.{AreChars, BeginsWith, IsOther, Scanned};

use simdutf8::compat;

/// Why a character can't be given.
#[derive(Clone, Copy, Debug, PartialEq, Eq)]
pub(crate) enum Cause {
    NotUtf8,
    NotChar,
}

/// The Chars at the front of bytes.
#[derive(Clone, Copy, Debug)]
pub(crate) struct Scan {
    /// Their bytes.
    pub whole: usize,
    /// What stands behind them; None where that may be the front of a character.
    pub cause: Option<Cause>,
}

/// How many bytes are looked at in one go.
const BLOCK: usize = 64;

/// What bytes begin with.
#[derive(Clone, Copy, Debug)]
pub(crate) enum First {
    Whole(char),
    /// No character, and none with more bytes.
    Bad,
    /// A proper front of a character, and nothing else.
    Front,
}

/// Whether it is none of the bytes with which a character begins that isn't a Char.
#[inline(always)]
fn is_plain(b: u8) -> bool
    ensures { result ≡ is_plain_byte b }
{
    (b >= 0x20 || b == b'\t' || b == b'\n' || b == b'\r') && b != 0xEF
}

/// Whether all bytes are such, in one pass that doesn't stop early.
fn are_plain(bytes: &[u8]) -> bool
    ensures { result ≡ list_all is_plain_byte bytes.now }
{
    let mut all = true;
    for b in bytes {
        all &= is_plain(*b);
    }
    all
}

/// Whether a character that isn't a Char begins at this place of a text: a control, or `EF BF BE` or `EF BF BF`.
fn begins_other(bytes: &[u8], at: usize) -> bool
    requires { at < length bytes.now }
    ensures { result ≡ is_other_at bytes.now at }
{
    let b = bytes[at];
    if b == 0xEF {
        bytes.len() - at >= 3 && bytes[at + 1] == 0xBF && bytes[at + 2] >= 0xBE
    } else {
        !is_plain(b)
    }
}

/// The first of these places at which a character begins that isn't a Char.
fn other_between(bytes: &[u8], from: usize, to: usize) -> Option<usize>
    requires in_order { from ≤ to }
    requires within { to ≤ length bytes.now }
    ensures { MatchOption result (HasNoOther from to bytes.now) (λ at. IsFirstOther from to at bytes.now) }
{
    for at in from..to {
        if begins_other(bytes, at) {
            return Some(at);
        }
    }
    None
}

/// The same in the block of bytes from this place on.
fn other_in_block(bytes: &[u8], at: usize) -> Option<usize>
    requires { at + BLOCK ≤ length bytes.now }
    ensures { MatchOption result (HasNoOther at (at + BLOCK) bytes.now)
        (λ found. IsFirstOther at (at + BLOCK) found bytes.now) }
{
    if are_plain(&bytes[at..at + BLOCK]) {
        return None;
    }
    other_between(bytes, at, at + BLOCK)
}

/// The place of the first character that isn't a Char.
fn first_other(text: &str) -> Option<usize>
    ensures { MatchOption result (AreChars text.now) (λ at. IsOther text.now at) }
{
    let bytes = text.as_bytes();
    let mut at = 0;
    while bytes.len() - at >= BLOCK {
        match other_in_block(bytes, at) {
            Some(found) => return Some(found),
            None => at += BLOCK,
        }
    }
    other_between(bytes, at, bytes.len())
}

/// The Chars at the front of the bytes, and why they end.
pub(crate) fn scan_bytes(bytes: &[u8]) -> Scan
    ensures { Scanned bytes.now result.whole result.cause }
{
    match compat::from_utf8(bytes) {
        Ok(text) => match first_other(text) {
            None => Scan {
                whole: bytes.len(),
                cause: None,
            },
            Some(at) => Scan {
                whole: at,
                cause: Some(Cause::NotChar),
            },
        },
        Err(error) => {
            let valid = error.valid_up_to();
            let (front, _) = bytes.split_at(valid);
            let text = unsafe { std::str::from_utf8_unchecked(front) };
            match first_other(text) {
                Some(at) => Scan {
                    whole: at,
                    cause: Some(Cause::NotChar),
                },
                None => {
                    let cause = if error.error_len().is_some() {
                        Some(Cause::NotUtf8)
                    } else {
                        None
                    };
                    Scan {
                        whole: valid,
                        cause,
                    }
                }
            }
        }
    }
}

/// What the bytes begin with.
pub(crate) fn first_char(bytes: &[u8]) -> First
    requires { 0 < length bytes.now }
    ensures { BeginsWith result bytes.now }
{
    match compat::from_utf8(bytes) {
        Ok(text) => First::Whole(char_of(text)),
        Err(error) => {
            let valid = error.valid_up_to();
            if valid > 0 {
                let (front, _) = bytes.split_at(valid);
                let text = unsafe { std::str::from_utf8_unchecked(front) };
                First::Whole(char_of(text))
            } else if error.error_len().is_some() {
                First::Bad
            } else {
                First::Front
            }
        }
    }
}

fn char_of(text: &str) -> char
    requires { 0 < length text.now }
    ensures { (rest : List ℕ) × (text.now ≡ encode_utf8 result ++ rest) × IsScalar result }
{
    match text.chars().next() {
        Some(c) => c,
        None => unreachable!(),
    }
}
