//! Bytes that are added by whole blocks.
ghost use Rattle.std.specs.Prelude.{◌≡◌, ◌≤◌, ◌++◌, true, length, take, OnErr, OnOk};

use gcx_base::Memory;

/// How many bytes a block has.
const BLOCK: usize = 16;

/// Whether so many bytes lie in the first block, and that is there.
#[inline(always)]
fn has_block(bytes: &[u8], n: usize) -> bool
    ensures { result ≡ true → (n ≤ 16) × (16 ≤ length bytes.now) }
{
    n <= BLOCK && bytes.len() >= BLOCK
}

/// Adds the first `n` of these bytes. A few are added with the whole block, so that no more than a block is copied in line, and
/// what is too much of it is cut off again.
#[inline(always)]
pub(crate) fn push_front(list: &mut Vec<u8>, bytes: &[u8], n: usize) -> Result<(), Memory>
    requires { n ≤ length bytes.now }
    ensures ok { OnOk result (list.new.items ≡ list.old.items ++ take n bytes.now) }
    ensures err { OnErr result (list.new.items ≡ list.old.items) }
{
    if !has_block(bytes, n) {
        list.extend_from_slice(&bytes[..n])?;
        return Ok(());
    }
    let len = list.len();
    list.extend_from_slice(&bytes[..BLOCK])?;
    list.truncate(len + n);
    Ok(())
}
