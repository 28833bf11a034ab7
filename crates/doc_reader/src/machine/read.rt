//! Characters, one after another, or as a whole.
ghost use Rattle.std.specs.Prelude.{◌≡◌, ◌+◌, ◌<◌, ◌^◌, length, IfOk};
ghost use Rattle.std.specs.Str.{chars};
ghost use Rattle.doc_chars.specs.Stream.{AreChars};
ghost use Rattle.doc_machine.specs.Machine.{scan_state};
ghost use Rattle.doc_machine.specs.Sound.{IsSound};
ghost use Rattle.doc_reader.specs.Judged.{Judged};

use doc_machine::{Scan, Stop, judge};
use doc_parts::{first_char, read_front};
use gcx_base::Limits;

/// Reads characters, the first of which stands at byte `place` of the document.
pub(crate) fn read(m: &mut Scan, limits: Limits, place: u64, text: &str) -> Result<(), Stop>
    requires room { place + length text.now < 2 ^ 64 }
    requires chars { AreChars text.now }
    requires sound { IsSound (scan_state m.old) }
    ensures judged { Judged result limits place (scan_state m.old) (chars text.now) (scan_state m.new) }
    ensures sound { IfOk result (λ _. IsSound (scan_state m.new)) }
{
    let mut at = place;
    let mut rest = text;
    loop {
        let n = read_front(m, &limits, rest)?;
        let (_, behind) = rest.split_at(n);
        at += n as u64;
        match first_char(behind) {
            Some((c, after)) => {
                judge(m, limits, at, c)?;
                at += (behind.len() - after.len()) as u64;
                rest = after;
            }
            None => return Ok(()),
        }
    }
}
