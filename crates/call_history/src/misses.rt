ghost use Rattle.std.specs.Prelude.{◌≡◌, List, [], ◌∷◌, ◌++◌};
ghost use Rattle.std.specs.Borrow.{ftrue};
ghost use Rattle.call_history.specs.Calls.{Miss, missed};

use std::marker::{Model, PhantomData};

/// The names at which `attach` or `create` failed.
#[derive(Drop)]
pub struct Misses {
    marker: PhantomData<u8>,
    pub ghost list: { List Miss },
}

impl Model for Misses {
    ghost also_owns = { λ _. ftrue };
}

impl Misses {
    /// None yet.
    pub fn new() -> Misses
        ensures { result.list ≡ [] }
    {
        Misses {
            marker: PhantomData,
        }
    }

    /// This name was missed, behind so many handles.
    pub fn note(&mut self, _name: &[u8], _behind: usize)
        ensures { self.new.list ≡ self.old.list ++ missed _name.now _behind ∷ [] }
    {}
}
