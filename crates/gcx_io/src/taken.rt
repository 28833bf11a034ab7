ghost use Rattle.std.specs.Prelude.{◌≡◌, ◌≤◌, ◌+◌, Some, IsSome, IsTrue, ◌↔◌, IfOk, [], length};
ghost use Rattle.gcx_io.specs.Bytes.{Grows};

use gcx_base::Memory;
use std::alloc::Global;
use std::marker::Model;

/// Bytes that were taken, as far as there was memory for them.
#[derive(Drop)]
pub(crate) struct Taken {
    bytes: Vec<u8>,
    whole: bool,
}

impl Model for Taken {
    ghost use Rattle.std.specs.Prelude.{vec_len, vec_capacity, ◌-◌};
    ghost use Rattle.gcx_io.specs.Taken.{Kept, told_where};

    ghost Value = { Kept };

    ghost view = { λ t. record
        { taken = told_where t.whole t.bytes.items; room = vec_capacity t.bytes - vec_len t.bytes } };
}

impl Taken {
    /// No bytes, and room for so many.
    pub fn new(alloc: Global, room: usize) -> Result<Taken, Memory>
        ensures empty { IfOk result (λ taken. taken.taken ≡ Some []) }
        ensures room { IfOk result (λ taken. room ≤ taken.room) }
    {
        Ok(Taken {
            bytes: Vec::with_capacity(alloc, room)?,
            whole: true,
        })
    }

    /// Keeps the piece, or from then on tells nothing.
    pub fn keep(&mut self, piece: &[u8])
        ensures grows { Grows self.old.taken self.new.taken piece.now }
        ensures whole { length piece.now ≤ self.old.room → IsSome self.old.taken → IsSome self.new.taken }
        ensures room { self.old.room ≤ self.new.room + length piece.now }
    {
        if self.whole && self.bytes.extend_from_slice(piece).is_err() {
            self.whole = false;
        }
    }

    /// Whether all the bytes that were taken are kept.
    pub fn is_whole(&self) -> bool
        ensures { IsTrue result ↔ IsSome self.now.taken }
    {
        self.whole
    }

    /// The bytes taken so far.
    pub fn bytes(&self) -> &[u8]
        requires { IsSome self.now.taken }
        ensures { self.now.taken ≡ Some result.now }
    {
        &self.bytes
    }
}
