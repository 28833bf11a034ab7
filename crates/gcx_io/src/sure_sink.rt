ghost use Rattle.std.specs.Prelude.{◌≡◌, ◌≤◌, ◌↔◌, Some, IsSome, IsTrue, IfOk, []};

use crate::taken::Taken;
use crate::{Failed, Sink};
use call_history::History;
use gcx_base::Memory;
use std::alloc::Global;
use std::marker::Model;

/// A sink that never fails, and takes each piece whole.
#[derive(Drop)]
pub struct SureSink {
    taken: Taken,
    history: History,
}

impl Model for SureSink {
    ghost use Rattle.gcx_io.specs.SureSink.{SureSinkState};

    ghost Value = { SureSinkState };

    ghost view = { λ s. record { taken = s.taken.taken; room = s.taken.room; history = s.history.calls } };
}

impl SureSink {
    /// No bytes were taken yet, and there is room for so many.
    pub fn new(alloc: Global, room: usize) -> Result<SureSink, Memory>
        ensures empty { IfOk result (λ sink. sink.taken ≡ Some []) }
        ensures room { IfOk result (λ sink. room ≤ sink.room) }
        ensures history { IfOk result (λ sink. sink.history ≡ []) }
    {
        Ok(SureSink {
            taken: Taken::new(alloc, room)?,
            history: History::new(),
        })
    }

    /// Whether all the bytes that were taken are kept: false from the first piece on for which no memory was found.
    pub fn is_whole(&self) -> bool
        ensures { IsTrue result ↔ IsSome self.now.taken }
    {
        self.taken.is_whole()
    }

    /// The bytes taken so far.
    pub fn bytes(&self) -> &[u8]
        requires { IsSome self.now.taken }
        ensures { self.now.taken ≡ Some result.now }
    {
        self.taken.bytes()
    }
}

impl Sink for SureSink {
    ghost use Rattle.std.specs.Prelude.{◌≡◌, ◌≤◌, ◌<◌, ◌+◌, Ok, IsSome, length, refl};
    ghost use Rattle.gcx_io.specs.Bytes.{Moves};
    ghost use Rattle.gcx_io.specs.Calls.{WritesOnce};
    ghost use Rattle.gcx_io.specs.SureSink.{told_taken, sure_sink_seen};

    ghost taken = { told_taken };

    ghost faults = { λ _. 0 };

    ghost calls = { λ s. s.history };

    ghost seen = { sure_sink_seen };

    ghost sees = { λ _. refl };

    fn write(&mut self, piece: &[u8]) -> Result<usize, Failed>
        requires { 0 < length piece.now }
        ensures bound { Moves result piece.now }
        ensures ok { result ≡ Ok (length piece.now) }
        ensures whole { length piece.now ≤ self.old.room → IsSome self.old.taken → IsSome self.new.taken }
        ensures room { self.old.room ≤ self.new.room + length piece.now }
        ensures writes { WritesOnce (sure_sink_seen self.old) (sure_sink_seen self.new) result piece.now }
    {
        self.taken.keep(piece);
        self.history.took(piece);
        Ok(piece.len())
    }
}
