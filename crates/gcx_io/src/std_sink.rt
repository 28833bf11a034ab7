ghost use Rattle.std.specs.Prelude.{◌≡◌, ◌<◌, [], length};
ghost use Rattle.gcx_io.specs.Bytes.{Moves};
ghost use Rattle.gcx_io.specs.Calls.{WritesOnce};
ghost use Rattle.gcx_io.specs.StdSink.{stream_seen};
ghost use Rattle.gcx_io.specs.Tallies.{CountsFault};

use crate::Failed;
use crate::noting::Noting;
use std::io::Write;
use std::marker::Model;

/// A stream that is written to, with its calls, and how many of them failed.
#[derive(Drop)]
pub(crate) struct StdSink<W> {
    stream: Noting<W>,
    faults: u64,
}

impl<W> Model for StdSink<W> {
    ghost use Rattle.gcx_io.specs.StdSink.{StreamState};

    ghost Value = { StreamState };

    ghost view = { λ s. record { calls = s.stream.history.calls; faults = s.faults } };
}

impl<W: Write> StdSink<W> {
    /// No call came yet.
    pub fn new(stream: W) -> StdSink<W>
        ensures { result ≡ record { calls = []; faults = 0 } }
    {
        StdSink {
            stream: Noting::new(stream),
            faults: 0,
        }
    }

    /// Takes the first n bytes of the piece, at least one, and answers n.
    pub fn write(&mut self, piece: &[u8]) -> Result<usize, Failed>
        requires { 0 < length piece.now }
        ensures bound { Moves result piece.now }
        ensures faults { CountsFault self.old.faults self.new.faults result }
        ensures writes { WritesOnce (stream_seen self.old) (stream_seen self.new) result piece.now }
    {
        match self.stream.write(piece) {
            Ok(count) => Ok(count),
            Err(Failed) => {
                self.faults = self.faults.saturating_add(1);
                Err(Failed)
            }
        }
    }
}
