//! One word as a set of numbers below 64.
ghost use Rattle.std.specs.Prelude.{◌≡◌, ◌<◌, ℕ, true, false, ◌↔◌, IsTrue};
ghost use Rattle.role_set.specs.Words.{has_bit, AddsBit, DropsBit, WordsMeet};

/// How many numbers a word holds.
pub(crate) const WORD_BITS: u32 = 64;

/// Whether the word has the number.
#[inline(always)]
pub(crate) fn has_bit(word: u64, number: u32) -> bool
    requires { number < 64 }
    ensures { result ≡ has_bit word number }
{
    (word >> number) & 1 == 1
}

/// The word with the number.
#[inline(always)]
pub(crate) fn with_bit(word: u64, number: u32) -> u64
    requires { number < 64 }
    ensures { AddsBit word number result }
{
    word | (1 << number)
}

/// The word without the number.
#[inline(always)]
pub(crate) fn without_bit(word: u64, number: u32) -> u64
    requires { number < 64 }
    ensures { DropsBit word number result }
{
    word & !(1 << number)
}

/// Whether the words have a number in common.
#[inline(always)]
pub(crate) fn meet(word: u64, other: u64) -> bool
    ensures { (result ≡ true) ↔ WordsMeet word other }
{
    let common = word & other;
    common != 0
}
