//! The least and the greatest of texts.
ghost use Rattle.std.specs.Prelude.{IsUtf8, ◌≡◌, ◌↔◌, List, ℕ, [], ◌∷◌, OnOk, OnErr, true};
ghost use Rattle.value_pairs.specs.Extremes.{lower, higher, lesser, greater, Spans};

use gcx_base::{Memory, Text};
use std::alloc::Global;
use xq_values::compare_text;

/// The least and the greatest of the texts that were taken, by bytes.
#[derive(Drop, Debug)]
pub struct Extent {
    pub(crate) least: Option<Text>,
    pub(crate) greatest: Option<Text>,
}

/// Whether the text stands before the one that is kept, or none is.
fn is_lower(value: &[u8], kept: &Option<Text>) -> bool
    ensures { result ≡ lower value.now kept.now }
{
    match kept {
        None => true,
        Some(kept) => compare_text(value, kept.as_bytes()).is_lt(),
    }
}

/// Whether the text stands behind the one that is kept, or none is.
fn is_higher(value: &[u8], kept: &Option<Text>) -> bool
    ensures { result ≡ higher value.now kept.now }
{
    match kept {
        None => true,
        Some(kept) => compare_text(value, kept.as_bytes()).is_gt(),
    }
}

/// Keeps the lesser one.
fn take_lesser(kept: &mut Option<Text>, alloc: Global, value: &[u8]) -> Result<(), Memory>
    requires { IsUtf8 value.now }
    ensures ok { OnOk result (kept.new ≡ lesser value.now kept.old) }
    ensures err { OnErr result (kept.new ≡ kept.old) }
{
    if is_lower(value, kept) {
        *kept = Some(Text::of_text(alloc, value)?);
    }
    Ok(())
}

/// Keeps the greater one.
fn take_greater(kept: &mut Option<Text>, alloc: Global, value: &[u8]) -> Result<(), Memory>
    requires { IsUtf8 value.now }
    ensures ok { OnOk result (kept.new ≡ greater value.now kept.old) }
    ensures err { OnErr result (kept.new ≡ kept.old) }
{
    if is_higher(value, kept) {
        *kept = Some(Text::of_text(alloc, value)?);
    }
    Ok(())
}

impl Extent {
    /// No text was taken.
    pub(crate) fn new() -> Extent
        ensures { Spans result [] }
    {
        Extent {
            least: None,
            greatest: None,
        }
    }

    /// One text more was taken. After an error nothing is known of it.
    pub(crate) fn take(&mut self, alloc: Global, value: &[u8]) -> Result<(), Memory>
        requires { IsUtf8 value.now }
        ensures { OnOk result ((vs : List (List ℕ)) → Spans self.old vs → Spans self.new (value.now ∷ vs)) }
    {
        take_lesser(&mut self.least, alloc, value)?;
        take_greater(&mut self.greatest, alloc, value)?;
        Ok(())
    }

    /// It has no text any more.
    pub(crate) fn clear(&mut self)
        ensures { Spans self.new [] }
    {
        self.least = None;
        self.greatest = None;
    }

    /// Whether no text was taken.
    pub(crate) fn is_empty(&self) -> bool
        ensures { (vs : List (List ℕ)) → Spans self.now vs → (result ≡ true) ↔ (vs ≡ []) }
    {
        self.least.is_none()
    }
}
