ghost use Rattle.std.specs.Prelude.{◌≡◌, []};

use crate::std_sink::StdSink;
use crate::{Failed, Sink};
use std::io::Stderr;
use std::marker::Model;

/// Standard error. It tells nothing of what it took but by its calls.
#[derive(Drop)]
pub struct StdErr {
    sink: StdSink<Stderr>,
}

impl Model for StdErr {
    ghost use Rattle.gcx_io.specs.StdSink.{StreamState};

    ghost Value = { StreamState };

    ghost view = { λ s. s.sink };
}

impl StdErr {
    /// No call came yet.
    pub fn new(rt: HostRuntime) -> StdErr
        ensures { result ≡ record { calls = []; faults = 0 } }
    {
        StdErr {
            sink: StdSink::new(rt.stderr()),
        }
    }
}

impl Sink for StdErr {
    ghost use Rattle.std.specs.Prelude.{◌≡◌, ◌<◌, None, length, refl};
    ghost use Rattle.gcx_io.specs.Bytes.{Moves};
    ghost use Rattle.gcx_io.specs.Calls.{WritesOnce};
    ghost use Rattle.gcx_io.specs.StdSink.{stream_seen};
    ghost use Rattle.gcx_io.specs.Tallies.{CountsFault};

    ghost taken = { λ _. None };

    ghost faults = { λ s. s.faults };

    ghost calls = { λ s. s.calls };

    ghost seen = { stream_seen };

    ghost sees = { λ _. refl };

    fn write(&mut self, piece: &[u8]) -> Result<usize, Failed>
        requires { 0 < length piece.now }
        ensures bound { Moves result piece.now }
        ensures faults { CountsFault self.old.faults self.new.faults result }
        ensures writes { WritesOnce (stream_seen self.old) (stream_seen self.new) result piece.now }
    {
        self.sink.write(piece)
    }
}
