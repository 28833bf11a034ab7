//! `gen`: a document that is made from two numbers.
ghost use Rattle.gcx_words.specs.declared.command.Command.TheVariants.{Gen};
ghost use Rattle.gcx_cmd.specs.Does.{DoesOutput};

use crate::Status;
use gcx_gen::{WriteEnd, write_document};
use gcx_io::Sink;
use std::alloc::Global;

/// Runs `gen SEED N`: writes the document that is made from the numbers.
pub(crate) fn write_made<O: Sink>(alloc: Global, seed: u32, count: u32, out: &mut O) -> Status
    ensures does { DoesOutput (Gen seed count) result (O.seen out.old) (O.seen out.new) }
{
    match write_document(alloc, out, seed, count) {
        Ok(()) => Status::Ok,
        Err(WriteEnd::Failed) => Status::WriteFault,
        Err(WriteEnd::Memory) => Status::Memory,
    }
}
