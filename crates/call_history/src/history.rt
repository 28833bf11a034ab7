ghost use Rattle.std.specs.Prelude.{◌≡◌, List, [], ◌∷◌, ◌++◌, length, take};
ghost use Rattle.std.specs.Borrow.{ftrue};
ghost use Rattle.call_history.specs.Calls.{Call, Gave, Took, Denied, Failed};

use std::marker::{Model, PhantomData};

/// The calls that were answered so far.
#[derive(Drop)]
pub struct History {
    marker: PhantomData<u8>,
    pub ghost calls: { List Call },
}

impl Model for History {
    ghost also_owns = { λ _. ftrue };
}

impl History {
    /// No call yet.
    pub fn new() -> History
        ensures { result.calls ≡ [] }
    {
        History {
            marker: PhantomData,
        }
    }

    /// A read into this buffer put so many bytes at its front, none at the end.
    pub fn gave(&mut self, _buf: &[u8], _count: usize)
        ensures { self.new.calls ≡ self.old.calls ++ Gave (length _buf.now) (take _count _buf.now) ∷ [] }
    {}

    /// A write took these bytes.
    pub fn took(&mut self, _bytes: &[u8])
        ensures { self.new.calls ≡ self.old.calls ++ Took _bytes.now ∷ [] }
    {}

    /// A write that was offered these bytes failed.
    pub fn denied(&mut self, _piece: &[u8])
        ensures { self.new.calls ≡ self.old.calls ++ Denied _piece.now ∷ [] }
    {}

    /// A read failed, whatever its buffer holds.
    pub fn failed(&mut self, _buf: &[u8])
        ensures { self.new.calls ≡ self.old.calls ++ Failed ∷ [] }
    {}
}
