//! A document in pieces.
ghost use Rattle.std.specs.Prelude.{◌≡◌, ◌≤◌, ◌<◌, ◌-◌, [], IsErrOf, OnOk};
ghost use Rattle.gcx_io.specs.Writing.{Owes, Takes};
ghost use Rattle.run_words.specs.Writing.{TakesFront};
ghost use Rattle.gcx_gen.specs.Generated.{document, items};

use crate::document::put_items;
use gcx_base::Memory;
use gcx_io::{Failed, Sink, write_all};
use std::alloc::Global;

/// The most items of one piece.
const ITEMS: u32 = 1_000;

/// Why a document isn't written whole.
#[derive(Clone, Copy, Debug, PartialEq, Eq, thiserror::Error)]
pub enum WriteEnd {
    #[error("input or output failed")]
    Failed,
    #[error("out of memory")]
    Memory,
}

impl From<Failed> for WriteEnd {
    ghost use Rattle.std.specs.Prelude.{◌≡◌};
    ghost use Rattle.gcx_gen.specs.declared.pieces.WriteEnd.TheVariants.{Failed as failed};

    ghost from_gives = { λ _ e. e ≡ failed };

    fn from(_: Failed) -> WriteEnd {
        WriteEnd::Failed
    }
}

impl From<Memory> for WriteEnd {
    ghost use Rattle.std.specs.Prelude.{◌≡◌};
    ghost use Rattle.gcx_gen.specs.declared.pieces.WriteEnd.TheVariants.{Memory as out_of_memory};

    ghost from_gives = { λ _ e. e ≡ out_of_memory };

    fn from(_: Memory) -> WriteEnd {
        WriteEnd::Memory
    }
}

/// The end of the next piece of items.
fn piece_end(from: u32, count: u32) -> u32
    requires { from < count }
    ensures more { from < result }
    ensures within { result ≤ count }
{
    from + (count - from).min(ITEMS)
}

/// Writes the items from one number up to another.
fn write_items<O: Sink>(
    alloc: Global,
    out: &mut O,
    seed: u32,
    from: u32,
    to: u32,
) -> Result<(), WriteEnd>
    requires { from ≤ to }
    ensures takes { OnOk result (Takes (O.seen out.old) (O.seen out.new) (items seed from (to - from))) }
    ensures owes { IsErrOf result WriteEnd.Failed →
        Owes (O.seen out.old) (O.seen out.new) [] (items seed from (to - from)) }
    ensures untouched { IsErrOf result WriteEnd.Memory → O.seen out.new ≡ O.seen out.old }
    ensures later { O.faults out.old ≤ O.faults out.new }
{
    let mut piece = Vec::new(alloc);
    put_items(&mut piece, seed, from, to)?;
    write_all(out, &piece)?;
    Ok(())
}

/// Writes the document of this seed and so many items, a thousand items at a time. After an error a front of it was taken, and
/// no call comes behind one that failed.
pub fn write_document<O: Sink>(
    alloc: Global,
    out: &mut O,
    seed: u32,
    count: u32,
) -> Result<(), WriteEnd>
    ensures takes { OnOk result (Takes (O.seen out.old) (O.seen out.new) (document seed count)) }
    ensures owes { IsErrOf result WriteEnd.Failed → Owes (O.seen out.old) (O.seen out.new) [] (document seed count) }
    ensures front { IsErrOf result WriteEnd.Memory →
        TakesFront (O.seen out.old) (O.seen out.new) [] (document seed count) }
    ensures later { O.faults out.old ≤ O.faults out.new }
{
    write_all(out, b"<items>")?;
    let mut from = 0;
    'pieces: while from < count {
        let to = piece_end(from, count);
        write_items(alloc, out, seed, from, to)?;
        from = to;
    }
    write_all(out, b"</items>")?;
    Ok(())
}
