//! An equality of all values of two sides.
ghost use Rattle.std.specs.Prelude.{◌≡◌, ◌↔◌, ◌⊎◌, ◌||◌, List, ℕ, [], ◌∷◌, OnOk, true};
ghost use Rattle.gcx_base.specs.declared.rel.Rel.TheVariants.{Eq};
ghost use Rattle.gcx_model.specs.Members.{In};
ghost use Rattle.value_pairs.specs.Pairs.{SomePair};
ghost use Rattle.value_pairs.specs.Sets.{values_in, AddsValue};
ghost use Rattle.value_pairs.specs.Sharing.{SharedOf, SharedOfHand};

use crate::hand::Hand;
use gcx_base::Memory;
use std::alloc::Global;
use std::collections::BTreeSet;

/// The distinct values of two sides, and whether one was taken of both. Each new value is looked up in those of the other
/// side.
#[derive(Drop, Debug)]
pub struct Shared {
    left: BTreeSet<Vec<u8>>,
    right: BTreeSet<Vec<u8>>,
    found: bool,
}

/// Adds the value, where it isn't there.
fn put_value(alloc: Global, values: &mut BTreeSet<Vec<u8>>, bytes: &[u8]) -> Result<(), Memory>
    ensures { OnOk result (AddsValue bytes.now values.old values.new) }
{
    if values.contains(bytes) {
        return Ok(());
    }
    let key = bytes.to_vec(alloc)?;
    values.insert(key)?;
    Ok(())
}

/// Whether the value is one of these.
fn has_value(values: &BTreeSet<Vec<u8>>, bytes: &[u8]) -> bool
    ensures { result ≡ true ↔ In bytes.now (values_in values.now) }
{
    values.contains(bytes)
}

/// Whether it was found before or now.
fn either(before: bool, now: bool) -> bool
    ensures { result ≡ (before || now) }
{
    before || now
}

/// Adds the value to one side's, and looks it up in those of the other side.
fn take_value(
    alloc: Global,
    values: &mut BTreeSet<Vec<u8>>,
    others: &BTreeSet<Vec<u8>>,
    found: &mut bool,
    bytes: &[u8],
) -> Result<(), Memory>
    ensures adds { OnOk result (AddsValue bytes.now values.old values.new) }
    ensures found { OnOk result ((found.new ≡ true) ↔ ((found.old ≡ true) ⊎ In bytes.now (values_in others.now))) }
{
    let met = has_value(others, bytes);
    put_value(alloc, values, bytes)?;
    *found = either(*found, met);
    Ok(())
}

impl Shared {
    /// No value was taken.
    pub(crate) fn new(alloc: Global) -> Shared
        ensures { SharedOf result [] [] }
    {
        Shared {
            left: BTreeSet::new(alloc),
            right: BTreeSet::new(alloc),
            found: false,
        }
    }

    /// One value of this side more. After an error nothing is known of it.
    pub(crate) fn take(&mut self, alloc: Global, hand: Hand, value: &[u8]) -> Result<(), Memory>
        ensures { OnOk result ((vs ws : List (List ℕ))
            → SharedOfHand hand self.old vs ws → SharedOfHand hand self.new (value.now ∷ vs) ws) }
    {
        match hand {
            Hand::Left => take_value(alloc, &mut self.left, &self.right, &mut self.found, value),
            Hand::Right => take_value(alloc, &mut self.right, &self.left, &mut self.found, value),
        }
    }

    /// This side has no value any more, so none is shared.
    pub(crate) fn clear(&mut self, hand: Hand)
        ensures { (vs ws : List (List ℕ)) → SharedOfHand hand self.old vs ws → SharedOfHand hand self.new [] ws }
    {
        self.found = false;
        match hand {
            Hand::Left => self.left.clear(),
            Hand::Right => self.right.clear(),
        }
    }

    /// Whether this side has no value.
    pub(crate) fn is_empty(&self, hand: Hand) -> bool
        ensures { (vs ws : List (List ℕ)) → SharedOfHand hand self.now vs ws → (result ≡ true) ↔ (vs ≡ []) }
    {
        match hand {
            Hand::Left => self.left.is_empty(),
            Hand::Right => self.right.is_empty(),
        }
    }

    /// Whether some value was taken of both sides.
    pub(crate) fn found(&self) -> bool
        ensures { (ls rs : List (List ℕ)) → SharedOf self.now ls rs → (result ≡ true) ↔ SomePair Eq ls rs }
    {
        self.found
    }
}
