ghost use Rattle.std.specs.Prelude.{◌≡◌, ◌<◌, ◌∷◌, ◌++◌, [], length};
ghost use Rattle.std.specs.Io.{ReadsAtMost};
ghost use Rattle.gcx_io.specs.Bytes.{Moves};
ghost use Rattle.gcx_io.specs.Calls.{read_call, write_call};
ghost use Rattle.gcx_io.specs.FileShelf.{stream_calls};

use crate::Failed;
use crate::stream::Stream;
use call_history::HandleName;
use gcx_base::Text;
use std::io::{Read, Write};
use std::marker::Model;

/// A handle of the file system: a stream, and the name that it was opened by.
#[derive(Drop)]
pub(crate) struct FileHandle<T> {
    name: HandleName,
    stream: Stream<T>,
}

impl<T> Model for FileHandle<T> {
    ghost use Rattle.gcx_io.specs.Views.{HandleCalls};
    ghost use Rattle.gcx_io.specs.FileShelf.{stream_calls};

    ghost Value = { HandleCalls };

    ghost view = { λ h. record { name = h.name.bytes; calls = stream_calls h.stream } };
}

impl<T: Read + Write> FileHandle<T> {
    /// The stream was opened by this name.
    pub fn new(name: &Text, stream: Stream<T>) -> FileHandle<T>
        ensures { result ≡ record { name = name.now; calls = stream_calls stream } }
    {
        FileHandle {
            name: HandleName::of(name.as_bytes()),
            stream,
        }
    }

    /// Puts the next n bytes of the stream at the front of the buffer, and answers n. 0 is the end.
    pub fn read(&mut self, buf: &mut [u8]) -> Result<usize, Failed>
        ensures bound { ReadsAtMost result buf.new }
        ensures notes { self.new ≡ record self.old { calls = self.old.calls ++ read_call result buf.new ∷ [] } }
    {
        self.stream.read(buf)
    }

    /// Takes the first n bytes of the piece, at least one, and answers n.
    pub fn write(&mut self, piece: &[u8]) -> Result<usize, Failed>
        requires { 0 < length piece.now }
        ensures bound { Moves result piece.now }
        ensures notes { self.new ≡ record self.old { calls = self.old.calls ++ write_call result piece.now ∷ [] } }
    {
        self.stream.write(piece)
    }
}
