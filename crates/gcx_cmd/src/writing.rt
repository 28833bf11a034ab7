//! The writing of a text that is there.
ghost use Rattle.std.specs.Prelude.{◌≤◌};
ghost use Rattle.gcx_cmd.specs.Writes.{WritesText};

use crate::Status;
use gcx_io::{Failed, Sink, write_all};

/// Writes a text, and answers the status to end with.
pub(crate) fn write_text<O: Sink>(out: &mut O, text: &[u8]) -> Status
    ensures writes { WritesText result (O.seen out.old) (O.seen out.new) text.now }
    ensures later { (O.seen out.old).faults ≤ (O.seen out.new).faults }
{
    match write_all(out, text) {
        Ok(()) => Status::Ok,
        Err(Failed) => Status::WriteFault,
    }
}
