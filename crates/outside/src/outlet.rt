ghost use Rattle.std.specs.Prelude.{◌≡◌, ◌≤◌, ◌++◌, [], length, drop};
ghost use Rattle.outside.specs.Ports.{PutsBy, WroteSome};

use crate::dropped::DroppedBytes;
use gcx_io::{Failed, Sink};

/// The bytes from a place on.
fn tail(bytes: &[u8], at: usize) -> &[u8]
    requires { at ≤ length bytes.now }
    ensures { result.now ≡ drop at bytes.now }
{
    &bytes[at..]
}

/// Writes the bytes, and answers how many were taken: all, or else a write failed that was offered the others. No call
/// comes after it.
pub fn write_some<O: Sink>(sink: &mut O, bytes: &[u8]) -> usize
    ensures { WroteSome (O.seen sink.old) (O.seen sink.new) bytes.now result }
{
    let mut at = 0;
    'writing: while at < bytes.len() {
        match sink.write(tail(bytes, at)) {
            Ok(n) => at += n,
            Err(Failed) => return at,
        }
    }
    at
}

/// A sink, with what was dropped there.
#[derive(Drop)]
pub struct Outlet<O: Sink> {
    pub sink: O,
    pub dropped: DroppedBytes,
}

impl<O: Sink> Outlet<O> {
    /// Nothing was dropped.
    pub fn new(sink: O) -> Outlet<O>
        ensures sink { result.sink ≡ sink }
        ensures none { result.dropped.bytes ≡ [] }
    {
        Outlet {
            sink,
            dropped: DroppedBytes::new(),
        }
    }

    /// Writes what waits. True where a write failed: then the rest was dropped.
    pub fn put(&mut self, waiting: &mut Vec<u8>) -> bool
        ensures puts { PutsBy result (O.seen self.old.sink) (O.seen self.new.sink) self.new.dropped.bytes waiting.old.items }
        ensures empty { waiting.new.items ≡ [] }
    {
        let taken = write_some(&mut self.sink, waiting);
        if taken == waiting.len() {
            waiting.clear();
            return false;
        }
        self.dropped = DroppedBytes::new();
        self.dropped.note(tail(waiting, taken));
        waiting.clear();
        true
    }

    /// Drops what waits.
    pub fn drop_all(&mut self, waiting: &mut Vec<u8>)
        ensures sink { self.new.sink ≡ self.old.sink }
        ensures dropped { self.new.dropped.bytes ≡ self.old.dropped.bytes ++ waiting.old.items }
        ensures empty { waiting.new.items ≡ [] }
    {
        self.dropped.note(waiting);
        waiting.clear();
    }

    /// From here on nothing was dropped.
    pub fn forget_dropped(&mut self)
        ensures sink { self.new.sink ≡ self.old.sink }
        ensures none { self.new.dropped.bytes ≡ [] }
    {
        self.dropped = DroppedBytes::new();
    }
}
