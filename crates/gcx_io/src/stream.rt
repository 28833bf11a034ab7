ghost use Rattle.std.specs.Prelude.{◌≡◌, ◌<◌, ◌∷◌, ◌++◌, [], length};
ghost use Rattle.std.specs.Io.{ReadsAtMost};
ghost use Rattle.gcx_io.specs.Bytes.{Moves};
ghost use Rattle.gcx_io.specs.Calls.{read_call, write_call};
ghost use Rattle.gcx_io.specs.FileShelf.{stream_calls};

use crate::Failed;
use crate::noting::Noting;
use either::Either;
use std::io::{Read, Stdin, Write};

/// What a handle of the file system reads from or writes to. A call of the other kind fails.
#[derive(Drop)]
pub(crate) enum Stream<T> {
    Reading(Noting<Either<T, Stdin>>),
    Writing(Noting<T>),
}

impl<T: Read + Write> Stream<T> {
    /// A file that was opened for reading.
    pub fn file(file: T) -> Stream<T>
        ensures { stream_calls result ≡ [] }
    {
        Stream::Reading(Noting::new(Either::Left(file)))
    }

    /// Standard input, for reading.
    pub fn standard(input: Stdin) -> Stream<T>
        ensures { stream_calls result ≡ [] }
    {
        Stream::Reading(Noting::new(Either::Right(input)))
    }

    /// A file that was made, for writing.
    pub fn made(file: T) -> Stream<T>
        ensures { stream_calls result ≡ [] }
    {
        Stream::Writing(Noting::new(file))
    }

    /// Puts the next n bytes at the front of the buffer, and answers n. 0 is the end. A file that was made fails.
    pub fn read(&mut self, buf: &mut [u8]) -> Result<usize, Failed>
        ensures bound { ReadsAtMost result buf.new }
        ensures notes { stream_calls self.new ≡ stream_calls self.old ++ read_call result buf.new ∷ [] }
    {
        match self {
            Stream::Reading(stream) => stream.read(buf),
            Stream::Writing(stream) => {
                stream.fail(buf);
                Err(Failed)
            }
        }
    }

    /// Takes the first n bytes of the piece, at least one, and answers n. What is read from fails.
    pub fn write(&mut self, piece: &[u8]) -> Result<usize, Failed>
        requires { 0 < length piece.now }
        ensures bound { Moves result piece.now }
        ensures notes { stream_calls self.new ≡ stream_calls self.old ++ write_call result piece.now ∷ [] }
    {
        match self {
            Stream::Writing(stream) => stream.write(piece),
            Stream::Reading(stream) => {
                stream.deny(piece);
                Err(Failed)
            }
        }
    }
}
