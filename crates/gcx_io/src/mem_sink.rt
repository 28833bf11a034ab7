ghost use Rattle.std.specs.Prelude.{◌≡◌, ◌≤◌, ◌<◌, ◌↔◌, Some, IsSome, IsTrue, IfOk, []};
ghost use Rattle.gcx_io.specs.Tallies.{no_calls};

use crate::calls::Calls;
use crate::taken::Taken;
use crate::{Failed, Sink};
use call_history::History;
use gcx_base::Memory;
use std::alloc::Global;
use std::marker::Model;

/// A sink that takes small pieces, with calls that fail.
#[derive(Drop)]
pub struct MemSink {
    taken: Taken,
    most: usize,
    calls: Calls,
    history: History,
}

impl Model for MemSink {
    ghost use Rattle.std.specs.Prelude.{◌<◌};
    ghost use Rattle.gcx_io.specs.MemSink.{SinkState};

    ghost Value = { SinkState };

    ghost view = { λ s. record
        { taken = s.taken.taken; room = s.taken.room; most = s.most; calls = s.calls; history = s.history.calls } };

    ghost invariant = { λ s. 0 < s.most };
}

impl MemSink {
    /// No bytes were taken yet, and there is room for so many. One call takes at most `most` of them, and the
    /// calls whose numbers, from 1, are in `fails` fail.
    pub fn new(alloc: Global, room: usize, most: usize, fails: Vec<u64>) -> Result<MemSink, Memory>
        requires { 0 < most }
        ensures empty { IfOk result (λ sink. sink.taken ≡ Some []) }
        ensures room { IfOk result (λ sink. room ≤ sink.room) }
        ensures most { IfOk result (λ sink. sink.most ≡ most) }
        ensures calls { IfOk result (λ sink. sink.calls ≡ no_calls fails.items) }
        ensures history { IfOk result (λ sink. sink.history ≡ []) }
    {
        Ok(MemSink {
            taken: Taken::new(alloc, room)?,
            most,
            calls: Calls::new(fails),
            history: History::new(),
        })
    }

    /// Whether all the bytes that were taken are kept: false from the first piece on for which no memory was found.
    pub fn is_whole(&self) -> bool
        ensures { IsTrue result ↔ IsSome self.now.taken }
    {
        self.taken.is_whole()
    }

    /// The bytes taken so far.
    pub fn bytes(&self) -> &[u8]
        requires { IsSome self.now.taken }
        ensures { self.now.taken ≡ Some result.now }
    {
        self.taken.bytes()
    }
}

impl Sink for MemSink {
    ghost use Rattle.std.specs.Prelude.{◌≡◌, ◌↔◌, ◌≤◌, ◌<◌, ◌+◌, IsErr, IsSome, IfOk, OnErr, length, min, refl};
    ghost use Rattle.gcx_io.specs.Bytes.{Moves};
    ghost use Rattle.gcx_io.specs.Tallies.{IsToFail, CountsCall};
    ghost use Rattle.gcx_io.specs.MemSink.{sink_taken, sink_faults, sink_seen};
    ghost use Rattle.gcx_io.specs.Calls.{WritesOnce};

    ghost taken = { sink_taken };

    ghost faults = { sink_faults };

    ghost calls = { λ s. s.history };

    ghost seen = { sink_seen };

    ghost sees = { λ _. refl };

    fn write(&mut self, piece: &[u8]) -> Result<usize, Failed>
        requires { 0 < length piece.now }
        ensures bound { Moves result piece.now }
        ensures count { IfOk result (λ n. n ≡ min (length piece.now) self.old.most) }
        ensures whole { IfOk result (λ n. n ≤ self.old.room → IsSome self.old.taken → IsSome self.new.taken) }
        ensures room { IfOk result (λ n. self.old.room ≤ self.new.room + n) }
        ensures same_room { OnErr result (self.new.room ≡ self.old.room) }
        ensures failed { IsErr result ↔ IsToFail self.old.calls }
        ensures calls { CountsCall self.old.calls self.new.calls result }
        ensures most { self.new.most ≡ self.old.most }
        ensures writes { WritesOnce (sink_seen self.old) (sink_seen self.new) result piece.now }
    {
        if self.calls.is_failing() {
            self.history.denied(piece);
            return Err(Failed);
        }
        let count = piece.len().min(self.most);
        self.taken.keep(&piece[..count]);
        self.history.took(&piece[..count]);
        Ok(count)
    }
}
