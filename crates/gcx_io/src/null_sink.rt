ghost use Rattle.std.specs.Prelude.{◌≡◌, []};

use crate::{Failed, Sink};
use call_history::History;
use std::marker::Model;

/// A sink that takes every piece whole and keeps nothing. It never fails, and is seen as what its calls did.
#[derive(Drop)]
pub struct NullSink {
    history: History,
}

impl Model for NullSink {
    ghost use Rattle.std.specs.Prelude.{List};
    ghost use Rattle.gcx_io.specs.Views.{Call};

    ghost Value = { List Call };

    ghost view = { λ s. s.history.calls };
}

impl NullSink {
    /// No call came yet.
    pub fn new() -> NullSink
        ensures { result ≡ [] }
    {
        NullSink {
            history: History::new(),
        }
    }
}

impl Sink for NullSink {
    ghost use Rattle.std.specs.Prelude.{◌≡◌, ◌<◌, None, Ok, length, refl};
    ghost use Rattle.gcx_io.specs.Bytes.{Moves};
    ghost use Rattle.gcx_io.specs.Calls.{WritesOnce};
    ghost use Rattle.gcx_io.specs.StdSink.{null_seen};

    ghost taken = { λ _. None };

    ghost faults = { λ _. 0 };

    ghost calls = { λ s. s };

    ghost seen = { null_seen };

    ghost sees = { λ _. refl };

    fn write(&mut self, piece: &[u8]) -> Result<usize, Failed>
        requires { 0 < length piece.now }
        ensures bound { Moves result piece.now }
        ensures ok { result ≡ Ok (length piece.now) }
        ensures writes { WritesOnce (null_seen self.old) (null_seen self.new) result piece.now }
    {
        self.history.took(piece);
        Ok(piece.len())
    }
}
