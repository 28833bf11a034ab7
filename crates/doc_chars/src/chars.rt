//! The characters of a stream that comes in pieces.
ghost use Rattle.std.specs.Prelude.{◌≡◌, ◌<◌, ◌≤◌, ◌+◌, ◌-◌, ◌^◌, ◌++◌, [], ℕ, List, length, take, drop, slice_range, IsUtf8, MatchOption, MatchResult, IfNone, IfSome, OnSome, true};
ghost use Rattle.std.specs.Char.{encode_utf8};

use crate::cut::{LONGEST, cut_piece};
use crate::scan::Cause;
use std::marker::Model;
use thiserror::Error;

/// The first place where a stream isn't characters of XML. The number is the offset of the first byte there.
#[derive(Clone, Copy, Debug, PartialEq, Eq, Error)]
pub enum CharFault {
    /// A sequence of bytes that isn't UTF-8.
    #[error("not UTF-8 at byte {0}")]
    Utf8(u64),
    /// A character that isn't a Char (XML 1.0, section 2.2).
    #[error("not a character of XML at byte {0}")]
    Char(u64),
}

/// The characters of a piece.
#[derive(Clone, Copy, Debug, PartialEq, Eq)]
pub struct Split {
    /// The character that earlier pieces began, where this piece completes it.
    pub first: Option<char>,
    /// How many bytes of the piece complete it.
    pub used: usize,
    /// The bytes of the piece from `used` to here are whole characters.
    pub whole: usize,
    /// The fault behind these characters. None where the bytes behind them may yet become a character: they are carried.
    pub fault: Option<CharFault>,
}

/// The bytes of a character that a piece cut, and the count of bytes so far.
#[derive(Drop, Debug)]
pub struct Chars {
    bytes: [u8; LONGEST],
    count: usize,
    seen: u64,
}

impl Model for Chars {
    ghost use Rattle.doc_chars.specs.Stream.{Carry};

    ghost Value = { Carry };

    ghost use Rattle.doc_chars.specs.Carried.{carry_of, IsKept};

    ghost view = { carry_of };

    ghost invariant = { IsKept };
}

impl Cause {
    ghost use Rattle.doc_chars.specs.Carried.{fault_of};

    fn at(self, place: u64) -> CharFault
        ensures { result ≡ fault_of self place }
    {
        match self {
            Cause::NotUtf8 => CharFault::Utf8(place),
            Cause::NotChar => CharFault::Char(place),
        }
    }
}

/// How many of the carried bytes aren't given yet.
fn still(first: Option<char>, count: usize) -> usize
    ensures { MatchOption first (result ≡ count) (λ _. result ≡ 0) }
{
    match first {
        Some(_) => 0,
        None => count,
    }
}

/// Puts the bytes behind the first `kept`, and says how many there are then.
fn keep(bytes: &mut [u8; LONGEST], kept: usize, rest: &[u8]) -> usize
    requires { kept + length rest.now ≤ LONGEST }
    ensures count { result ≡ kept + length rest.now }
    ensures bytes { take result bytes.new ≡ take kept bytes.old ++ rest.now }
{
    let count = kept + rest.len();
    bytes[kept..count].copy_from_slice(rest);
    count
}

impl Chars {
    ghost use Rattle.gcx_base.specs.Characters.{is_char};
    ghost use Rattle.doc_chars.specs.Stream.{AreChars, StandsFor, GoesOn, EndsAs, given, still_carried};

    /// Nothing read.
    pub fn new() -> Chars
        ensures empty { result ≡ record { bytes = []; seen = 0 } }
        ensures stream { StandsFor result [] [] }
    {
        Chars {
            bytes: [0; LONGEST],
            count: 0,
            seen: 0,
        }
    }

    /// The characters of the next piece of the stream. After a fault the value is as before the call.
    pub fn split(&mut self, piece: &[u8]) -> Split
        requires { self.old.seen + length piece.now < 2 ^ 64 }
        ensures within { (result.used ≤ result.whole) × (result.whole ≤ length piece.now) }
        ensures text { IsUtf8 (slice_range piece.now result.used result.whole) }

        // What is given are Chars.
        ensures chars { AreChars (slice_range piece.now result.used result.whole) }
        ensures char { IfSome result.first (λ c. is_char c ≡ true) }

        // The carried character is given where its bytes are whole.
        ensures first { MatchOption result.first (result.used ≡ 0) (λ c. (0 < length self.old.bytes)
            × (encode_utf8 c ≡ self.old.bytes ++ take result.used piece.now)) }

        // What is given belongs to the stream, up to its first fault.
        ensures stream { (b cs : List ℕ) → StandsFor self.old b cs
            → GoesOn result.fault self.new (b ++ piece.now) (cs ++ given result piece.now) }
        ensures carried { IfNone result.fault
            (self.new.bytes ≡ still_carried result.first self.old.bytes ++ drop result.whole piece.now) }
        ensures seen { IfNone result.fault (self.new.seen ≡ self.old.seen + length piece.now) }
        ensures kept { OnSome result.fault (self.new ≡ self.old) }
    {
        let cut = cut_piece(&self.bytes[..self.count], piece);
        let kept = still(cut.first, self.count);
        let fault = match cut.cause {
            Some(cause) => Some(cause.at(self.seen - kept as u64 + cut.whole as u64)),
            None => {
                self.count = keep(&mut self.bytes, kept, &piece[cut.whole..]);
                self.seen += piece.len() as u64;
                None
            }
        };
        Split {
            first: cut.first,
            used: cut.used,
            whole: cut.whole,
            fault,
        }
    }

    /// Whether the stream may end here: not inside a character. The fault is at the first byte of that one.
    pub fn finish(&self) -> Result<(), CharFault>
        ensures carried { MatchResult result (λ _. self.now.bytes ≡ []) (λ fault. (0 < length self.now.bytes)
            × (fault ≡ CharFault.Utf8 (self.now.seen - length self.now.bytes))) }
        ensures stream { (b cs : List ℕ) → StandsFor self.now b cs → EndsAs result b cs }
    {
        if self.count > 0 {
            return Err(CharFault::Utf8(self.seen - self.count as u64));
        }
        Ok(())
    }
}
