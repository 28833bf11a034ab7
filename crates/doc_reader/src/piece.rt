//! The characters of a piece, read by the machine.
ghost use Rattle.std.specs.Prelude.{◌≡◌, ◌+◌, ◌<◌, ◌≤◌, ◌^◌, ◌∷◌, [], length, slice_range, true, IfOk, IfSome};
ghost use Rattle.gcx_base.specs.Characters.{is_char};
ghost use Rattle.doc_chars.specs.Stream.{given, optional, AreChars};
ghost use Rattle.doc_reader.specs.Judged.{Judged};
ghost use Rattle.doc_reader.specs.Piece.{ReadTo};

use crate::machine::Machine;
use doc_chars::Split;
use doc_machine::Stop;
use gcx_base::Limits;
use std::str;

impl Machine {
    /// Reads one character.
    fn read_char(&mut self, limits: Limits, place: u64, c: char) -> Result<(), Stop>
        requires room { place + 4 < 2 ^ 64 }
        requires char { is_char c ≡ true }
        ensures { Judged result limits place self.old (c ∷ []) self.new }
    {
        let mut bytes = [0; 4];
        self.read_text(limits, place, c.encode_utf8(&mut bytes))
    }

    /// Reads the character that earlier pieces began, and says where it ends.
    fn read_first(&mut self, limits: Limits, place: u64, first: Option<char>) -> Result<u64, Stop>
        requires room { place + 4 < 2 ^ 64 }
        requires char { IfSome first (λ c. is_char c ≡ true) }
        ensures read { ReadTo result limits place self.old (optional first) self.new }
        ensures near { IfOk result (λ at. at ≤ place + 4) }
    {
        match first {
            Some(c) => {
                self.read_char(limits, place, c)?;
                Ok(place + c.len_utf8() as u64)
            }
            None => Ok(place),
        }
    }

    /// Reads the characters of a piece, and says where they end.
    pub(crate) fn read_split(
        &mut self,
        limits: Limits,
        place: u64,
        split: Split,
        piece: &[u8],
    ) -> Result<u64, Stop>
        requires room { place + (4 + length piece.now) < 2 ^ 64 }
        requires in_order { split.used ≤ split.whole }
        requires within { split.whole ≤ length piece.now }
        requires chars { AreChars (slice_range piece.now split.used split.whole) }
        requires char { IfSome split.first (λ c. is_char c ≡ true) }
        ensures { ReadTo result limits place self.old (given split piece.now) self.new }
    {
        let behind = self.read_first(limits, place, split.first)?;
        let text = unsafe { str::from_utf8_unchecked(&piece[split.used..split.whole]) };
        self.read_text(limits, behind, text)?;
        Ok(behind + text.len() as u64)
    }
}
