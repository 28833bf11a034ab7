//! End tags.
ghost use Rattle.std.specs.Prelude.{◌≡◌, ◌<◌, [], length, drop};
ghost use Rattle.std.specs.Char.{encode_utf8};
ghost use Rattle.doc_laws.specs.Machine.{State, innermost, behind, to_end_name, on_end, on_ended};
ghost use Rattle.doc_machine.specs.Machine.{scan_state};
ghost use Rattle.doc_machine.specs.Steps.{Stepped, Closes, turned};

use crate::bytes::front_char;
use crate::mode::Mode;
use crate::scan::Scan;
use crate::text::turn;
use gcx_base::{Memory, is_space};

/// Closes the innermost element.
#[inline(always)]
pub fn close_element(m: &mut Scan) -> Result<(), Memory>
    requires { (scan_state m.old).pending ≡ [] }
    ensures { Closes result (scan_state m.old) (scan_state m.new) }
{
    m.tokens.add_end()?;
    m.tokens.end_tag();
    m.names.pop();
    m.mode = Mode::Between;
    Ok(())
}

/// Behind the name of an end tag.
#[inline(always)]
pub(crate) fn ended(m: &mut Scan, c: char) -> Result<bool, Memory>
    requires { (scan_state m.old).pending ≡ [] }
    ensures { Stepped result (scan_state m.old) (on_ended (scan_state m.old) c (scan_state m.old).names)
        (scan_state m.new) }
{
    if !m.names.has_open() {
        Ok(false)
    } else if is_space(c) {
        m.mode = Mode::EndSpace;
        Ok(true)
    } else if c == '>' {
        close_element(m)?;
        Ok(true)
    } else {
        Ok(false)
    }
}

/// The mode behind a character more of the innermost element's name.
fn name_goes_on(name: &[u8], i: usize, c: char) -> Option<Mode>
    requires { i < length name.now }
    ensures { (s : State) → innermost s.names ≡ name.now
        → turned s result ≡ to_end_name s (behind (encode_utf8 c) (drop i name.now)) }
{
    let n = front_char(&name[i..], c)?;
    Some(Mode::EndName(i + n))
}

/// Behind so many bytes of the innermost element's name.
pub(crate) fn end_name(m: &mut Scan, i: usize, c: char) -> Result<bool, Memory>
    requires { (scan_state m.old).pending ≡ [] }
    ensures { Stepped result (scan_state m.old)
        (on_end (scan_state m.old) (drop i (innermost (scan_state m.old).names)) c) (scan_state m.new) }
{
    let name = m.names.innermost();
    if i < name.len() {
        let mode = name_goes_on(name, i, c);
        Ok(turn(m, mode))
    } else {
        ended(m, c)
    }
}
