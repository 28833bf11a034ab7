ghost use Rattle.std.specs.Prelude.{◌≡◌, ◌++◌, [], length, take, drop, min};
ghost use Rattle.gcx_io.specs.Held.{read_opening, noted_opening};
ghost use Rattle.gcx_io.specs.Views.{Took, Denied, Failed};

use crate::moving::move_front;
use call_history::History;
use gcx_base::Text;
use std::marker::Model;

/// A handle: its name, and what the name held when the handle was given, with the number of bytes that were read of
/// it, and its calls.
#[derive(Drop)]
pub(crate) struct Opening {
    name: Text,
    bytes: Vec<u8>,
    at: usize,
    history: History,
}

impl Model for Opening {
    ghost use Rattle.std.specs.Prelude.{◌≤◌, drop, length};
    ghost use Rattle.gcx_io.specs.Held.{OpenHandle};

    ghost Value = { OpenHandle };

    ghost view = { λ o. record { name = o.name; rest = drop o.at o.bytes.items; calls = o.history.calls } };

    ghost invariant = { λ o. o.at ≤ length o.bytes.items };
}

impl Opening {
    /// All of the bytes are left.
    pub fn new(name: Text, bytes: Vec<u8>) -> Opening
        ensures { result ≡ record { name = name; rest = bytes.items; calls = [] } }
    {
        Opening {
            name,
            bytes,
            at: 0,
            history: History::new(),
        }
    }

    /// The name that the handle was given for.
    pub fn name(&self) -> &Text
        ensures { result.now ≡ self.now.name }
    {
        &self.name
    }

    /// Moves the first bytes that are left, at most so many.
    pub fn read(&mut self, buf: &mut [u8], most: usize) -> usize
        ensures count { result ≡ min (min (length self.old.rest) (length buf.old)) most }
        ensures moved { buf.new ≡ take result self.old.rest ++ drop result buf.old }
        ensures rest { self.new ≡ read_opening (length buf.new) result self.old }
    {
        let count = move_front(&self.bytes[self.at..], buf, most);
        self.at += count;
        self.history.gave(buf, count);
        count
    }

    /// A read that failed.
    pub fn fail(&mut self, buf: &[u8])
        ensures { self.new ≡ noted_opening Failed self.old }
    {
        self.history.failed(buf);
    }

    /// A write of the piece that failed.
    pub fn deny(&mut self, piece: &[u8])
        ensures { self.new ≡ noted_opening (Denied piece.now) self.old }
    {
        self.history.denied(piece);
    }

    /// A write took these bytes.
    pub fn took(&mut self, piece: &[u8])
        ensures { self.new ≡ noted_opening (Took piece.now) self.old }
    {
        self.history.took(piece);
    }
}
