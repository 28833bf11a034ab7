//! A comparison of all values of two sides.
ghost use Rattle.std.specs.Prelude.{IsUtf8, ◌≡◌, ◌↔◌, List, ℕ, [], ◌∷◌, OnOk, true};
ghost use Rattle.gcx_base.specs.declared.rel.Rel.{Rel};
ghost use Rattle.value_pairs.specs.Pairs.{SomePair};
ghost use Rattle.value_pairs.specs.Taken.{TookBoth, TookBy};

use crate::ends::Ends;
use crate::hand::Hand;
use crate::shared::Shared;
use gcx_base::{Memory, Rel};
use std::alloc::Global;

/// The values of two sides, and whether the relation holds of some pair of them. Each value is looked at once.
#[derive(Drop, Debug)]
pub enum Compared {
    /// Of `=`: the distinct values.
    Equal(Shared),
    /// Of any other: the least and the greatest of each side.
    Other(Ends),
}

impl Compared {
    /// No value was taken.
    pub fn new(alloc: Global, rel: Rel) -> Compared
        ensures { TookBoth result rel [] [] }
    {
        match rel {
            Rel::Eq => Compared::Equal(Shared::new(alloc)),
            _ => Compared::Other(Ends::new(rel)),
        }
    }

    /// One value of this side more. After an error nothing is known of it.
    pub fn take(&mut self, alloc: Global, hand: Hand, value: &[u8]) -> Result<(), Memory>
        requires { IsUtf8 value.now }
        ensures { OnOk result ((rel : Rel) (vs ws : List (List ℕ))
            → TookBy hand self.old rel vs ws → TookBy hand self.new rel (value.now ∷ vs) ws) }
    {
        match self {
            Compared::Equal(shared) => shared.take(alloc, hand, value),
            Compared::Other(ends) => ends.take(alloc, hand, value),
        }
    }

    /// This side has no value any more. The other one stays as it is.
    pub fn clear(&mut self, hand: Hand)
        ensures { (rel : Rel) (vs ws : List (List ℕ)) → TookBy hand self.old rel vs ws → TookBy hand self.new rel [] ws }
    {
        match self {
            Compared::Equal(shared) => shared.clear(hand),
            Compared::Other(ends) => ends.clear(hand),
        }
    }

    /// Whether this side has no value.
    pub fn is_empty(&self, hand: Hand) -> bool
        ensures { (rel : Rel) (vs ws : List (List ℕ)) → TookBy hand self.now rel vs ws → (result ≡ true) ↔ (vs ≡ []) }
    {
        match self {
            Compared::Equal(shared) => shared.is_empty(hand),
            Compared::Other(ends) => ends.is_empty(hand),
        }
    }

    /// Whether the relation holds of some value of the left side and some value of the right side.
    pub fn found(&self) -> bool
        ensures { (rel : Rel) (ls rs : List (List ℕ)) → TookBoth self.now rel ls rs → (result ≡ true) ↔ SomePair rel ls rs }
    {
        match self {
            Compared::Equal(shared) => shared.found(),
            Compared::Other(ends) => ends.found(),
        }
    }
}
