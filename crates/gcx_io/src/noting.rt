ghost use Rattle.std.specs.Prelude.{◌≡◌, ◌<◌, ◌∷◌, ◌++◌, [], length};
ghost use Rattle.std.specs.Io.{ReadsAtMost};
ghost use Rattle.std.specs.Io.KnownBytes.{ReadConsumes, WriteAppends};
ghost use Rattle.gcx_io.specs.Bytes.{Moves};
ghost use Rattle.gcx_io.specs.Calls.{read_call, write_call};
ghost use Rattle.gcx_io.specs.Views.{Denied as denied, Failed as failed};

use crate::Failed;
use call_history::History;
use std::io::{Read, Write};

/// A stream of std, with the calls that it answered.
#[derive(Drop)]
pub(crate) struct Noting<T> {
    pub inner: T,
    pub history: History,
}

impl<T> Noting<T> {
    /// No call came yet.
    pub fn new(inner: T) -> Noting<T>
        ensures inner { result.inner ≡ inner }
        ensures history { result.history.calls ≡ [] }
    {
        Noting {
            inner,
            history: History::new(),
        }
    }

    /// A read, which the stream doesn't serve.
    pub fn fail(&mut self, buf: &[u8])
        ensures inner { self.new.inner ≡ self.old.inner }
        ensures history { self.new.history.calls ≡ self.old.history.calls ++ failed ∷ [] }
    {
        self.history.failed(buf);
    }

    /// A write of the piece, which the stream doesn't serve.
    pub fn deny(&mut self, piece: &[u8])
        ensures inner { self.new.inner ≡ self.old.inner }
        ensures history { self.new.history.calls ≡ self.old.history.calls ++ denied piece.now ∷ [] }
    {
        self.history.denied(piece);
    }
}

impl<R: Read> Noting<R> {
    /// Puts the next n bytes at the front of the buffer, and answers n. 0 is the end.
    pub fn read(&mut self, buf: &mut [u8]) -> Result<usize, Failed>
        ensures bound { ReadsAtMost result buf.new }
        ensures bytes { ReadConsumes (R.remaining self.old.inner) (R.remaining self.new.inner) result buf.new }
        ensures notes { self.new.history.calls ≡ self.old.history.calls ++ read_call result buf.new ∷ [] }
    {
        match self.inner.read(buf) {
            Ok(count) => {
                self.history.gave(buf, count);
                Ok(count)
            }
            Err(_) => {
                self.history.failed(buf);
                Err(Failed)
            }
        }
    }
}

impl<W: Write> Noting<W> {
    /// Takes the first n bytes of the piece, at least one, and answers n. A writer that takes none has failed.
    pub fn write(&mut self, piece: &[u8]) -> Result<usize, Failed>
        requires { 0 < length piece.now }
        ensures bound { Moves result piece.now }
        ensures bytes { WriteAppends (W.contents self.old.inner) (W.contents self.new.inner) result piece.now }
        ensures notes { self.new.history.calls ≡ self.old.history.calls ++ write_call result piece.now ∷ [] }
    {
        match self.inner.write(piece) {
            Ok(count) if 0 < count => {
                self.history.took(&piece[..count]);
                Ok(count)
            }
            _ => {
                self.history.denied(piece);
                Err(Failed)
            }
        }
    }
}
