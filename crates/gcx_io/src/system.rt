ghost use Rattle.std.specs.Prelude.{List, Option};
ghost use Rattle.gcx_io.specs.System.{Opening, ToRead, ToWrite, AddsOpening};

use std::fs::File;
use std::io::{Read, Result, Write};

/// What opens files by their names.
pub trait System: Drop {
    /// A file that was opened or made.
    type File: Read + Write + Drop;

    /// What it was asked to open so far, where it tells.
    ghost asked: { Self → Option (List Opening) };

    /// Opens the file of this name for reading. An error: the system refused.
    fn open(&mut self, name: &str) -> Result<Self::File>
        ensures { AddsOpening (ToRead name.now) (asked self.old) (asked self.new) };

    /// Makes the file of this name for writing. It holds no bytes, whatever it held. An error: the system refused.
    fn make(&mut self, name: &str) -> Result<Self::File>
        ensures { AddsOpening (ToWrite name.now) (asked self.old) (asked self.new) };
}

/// The files of the operating system. It doesn't tell: that the one call opens the file of this name, and the other
/// makes it, is for a reader to see.
impl System for HostRuntime {
    ghost use Rattle.std.specs.Prelude.{None};

    type File = File;

    ghost asked = { λ _. None };

    fn open(&mut self, name: &str) -> Result<File> {
        File::open(self, name)
    }

    fn make(&mut self, name: &str) -> Result<File> {
        File::create(self, name)
    }
}
