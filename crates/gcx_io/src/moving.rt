ghost use Rattle.std.specs.Prelude.{◌≡◌, ◌++◌, length, take, drop, min};

/// Moves bytes to the front of the buffer, at most so many.
pub(crate) fn move_front(rest: &[u8], buf: &mut [u8], most: usize) -> usize
    ensures count { result ≡ min (min (length rest.now) (length buf.old)) most }
    ensures moved { buf.new ≡ take result rest.now ++ drop result buf.old }
{
    let count = rest.len().min(buf.len()).min(most);
    buf[..count].copy_from_slice(&rest[..count]);
    count
}
