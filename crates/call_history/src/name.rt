ghost use Rattle.std.specs.Prelude.{◌≡◌, ℕ, List, [], ◌++◌};
ghost use Rattle.std.specs.Borrow.{ftrue};

use std::marker::{Model, PhantomData};

/// The name that a handle was opened by.
#[derive(Drop)]
pub struct HandleName {
    marker: PhantomData<u8>,
    pub ghost bytes: { List ℕ },
}

impl Model for HandleName {
    ghost also_owns = { λ _. ftrue };
}

impl HandleName {
    /// It was opened by the name of these bytes.
    pub fn of(bytes: &[u8]) -> HandleName
        ensures { result.bytes ≡ bytes.now }
    {
        let mut name = HandleName::new();
        name.note(bytes);
        name
    }

    /// No bytes yet.
    fn new() -> HandleName
        ensures { result.bytes ≡ [] }
    {
        HandleName {
            marker: PhantomData,
        }
    }

    /// These bytes too.
    fn note(&mut self, _bytes: &[u8])
        ensures { self.new.bytes ≡ self.old.bytes ++ _bytes.now }
    {}
}
