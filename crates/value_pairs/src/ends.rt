//! A comparison other than `=` of all values of two sides, by their ends.
ghost use Rattle.std.specs.Prelude.{IsUtf8, ◌≡◌, ◌↔◌, List, ℕ, [], ◌∷◌, OnOk, true};
ghost use Rattle.gcx_base.specs.declared.rel.Rel.{Rel};
ghost use Rattle.gcx_base.specs.declared.rel.Rel.TheVariants.{Eq};
ghost use Rattle.value_pairs.specs.Pairs.{SomePair};
ghost use Rattle.value_pairs.specs.Extremes.{holds_between, ends_tell};
ghost use Rattle.value_pairs.specs.Taking.{EndsOf, EndsOfHand};

use crate::extent::Extent;
use crate::hand::Hand;
use gcx_base::{Memory, Rel, Text};
use std::alloc::Global;
use xq_values::{compare_text, holds};

/// The values of two sides, and whether the relation holds of some pair of them. Of each side the least and the greatest
/// value are kept. Not for `=`, which needs all distinct values.
#[derive(Drop, Debug)]
pub struct Ends {
    rel: Rel,
    left: Extent,
    right: Extent,
}

/// Whether the relation holds of the two, where both are there.
fn between(rel: Rel, left: &Option<Text>, right: &Option<Text>) -> bool
    ensures { result ≡ holds_between rel left.now right.now }
{
    match left {
        None => false,
        Some(left) => match right {
            None => false,
            Some(right) => holds(rel, compare_text(left.as_bytes(), right.as_bytes())),
        },
    }
}

impl Ends {
    /// No value was taken.
    pub(crate) fn new(rel: Rel) -> Ends
        ensures { EndsOf result rel [] [] }
    {
        Ends {
            rel,
            left: Extent::new(),
            right: Extent::new(),
        }
    }

    /// One value of this side more. After an error nothing is known of it.
    pub(crate) fn take(&mut self, alloc: Global, hand: Hand, value: &[u8]) -> Result<(), Memory>
        requires { IsUtf8 value.now }
        ensures { OnOk result ((rel : Rel) (vs ws : List (List ℕ))
            → EndsOfHand hand self.old rel vs ws → EndsOfHand hand self.new rel (value.now ∷ vs) ws) }
    {
        match hand {
            Hand::Left => self.left.take(alloc, value),
            Hand::Right => self.right.take(alloc, value),
        }
    }

    /// This side has no value any more.
    pub(crate) fn clear(&mut self, hand: Hand)
        ensures { (rel : Rel) (vs ws : List (List ℕ))
            → EndsOfHand hand self.old rel vs ws → EndsOfHand hand self.new rel [] ws }
    {
        match hand {
            Hand::Left => self.left.clear(),
            Hand::Right => self.right.clear(),
        }
    }

    /// Whether this side has no value.
    pub(crate) fn is_empty(&self, hand: Hand) -> bool
        ensures { (rel : Rel) (vs ws : List (List ℕ))
            → EndsOfHand hand self.now rel vs ws → (result ≡ true) ↔ (vs ≡ []) }
    {
        match hand {
            Hand::Left => self.left.is_empty(),
            Hand::Right => self.right.is_empty(),
        }
    }

    /// What the ends tell.
    fn told(&self) -> bool
        ensures { result ≡ ends_tell self.now.rel self.now.left self.now.right }
    {
        match self.rel {
            Rel::Eq => false,
            Rel::Ne => {
                between(Rel::Lt, &self.left.least, &self.right.greatest)
                    || between(Rel::Gt, &self.left.greatest, &self.right.least)
            }
            Rel::Lt => between(Rel::Lt, &self.left.least, &self.right.greatest),
            Rel::Le => between(Rel::Le, &self.left.least, &self.right.greatest),
            Rel::Gt => between(Rel::Gt, &self.left.greatest, &self.right.least),
            Rel::Ge => between(Rel::Ge, &self.left.greatest, &self.right.least),
        }
    }

    /// Whether the relation holds of some value of the left side and some value of the right side.
    pub(crate) fn found(&self) -> bool
        ensures { (rel : Rel) (ls rs : List (List ℕ)) → EndsOf self.now rel ls rs → (rel ≡ Eq → ⊥)
            → (result ≡ true) ↔ SomePair rel ls rs }
    {
        self.told()
    }
}
