//! Characters as bytes.
ghost use Rattle.std.specs.Prelude.{◌≡◌, ◌++◌, OnOk};
ghost use Rattle.std.specs.Char.{encode_utf8};
ghost use Rattle.doc_machine.specs.Steps.{IsBehind};

use gcx_base::Memory;

/// Adds a character at the end.
#[inline(always)]
pub(crate) fn push_char(bytes: &mut Vec<u8>, c: char) -> Result<(), Memory>
    ensures { OnOk result (bytes.new.items ≡ bytes.old.items ++ encode_utf8 c) }
{
    let mut room = [0; 4];
    bytes.extend_from_slice(c.encode_utf8(&mut room).as_bytes())?;
    Ok(())
}

/// How many bytes the character takes at the front of these, if they begin with it.
pub(crate) fn front_char(left: &[u8], c: char) -> Option<usize>
    ensures { IsBehind result (encode_utf8 c) left.now }
{
    let mut room = [0; 4];
    let bytes = c.encode_utf8(&mut room).as_bytes();
    if left.starts_with(bytes) {
        Some(bytes.len())
    } else {
        None
    }
}
