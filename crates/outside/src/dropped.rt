ghost use Rattle.std.specs.Prelude.{◌≡◌, ℕ, List, [], ◌++◌};
ghost use Rattle.std.specs.Borrow.{ftrue};

use std::marker::{Model, PhantomData};

/// The bytes that were dropped since a write failed. Only clauses read it: it takes no space, and its calls run nothing.
#[derive(Drop)]
pub struct DroppedBytes {
    marker: PhantomData<u8>,
    pub ghost bytes: { List ℕ },
}

impl Model for DroppedBytes {
    ghost also_owns = { λ _. ftrue };
}

impl DroppedBytes {
    /// None yet.
    pub fn new() -> DroppedBytes
        ensures { result.bytes ≡ [] }
    {
        DroppedBytes {
            marker: PhantomData,
        }
    }

    /// These were dropped too.
    pub fn note(&mut self, _bytes: &[u8])
        ensures { self.new.bytes ≡ self.old.bytes ++ _bytes.now }
    {}
}
