//! Lists of roles' numbers.
ghost use Rattle.std.specs.Prelude.{◌≡◌, ◌==◌, ◌≤◌, ◌++◌, ◌∷◌, [], ◌↔◌, OnOk, OnErr, IsOk, IsTrue, true, filter, not};
ghost use Rattle.std.specs.List.{list_any};
ghost use Rattle.smallvec.specs.SmallVec.{HasRoomFor};
ghost use Rattle.role_set.specs.Words.{NumbersMeet};

use gcx_base::Memory;
use smallvec::SmallVec;
use std::alloc::Global;

/// Roles' numbers. Up to four lie in the value itself.
pub(crate) type Numbers = SmallVec<u32, 4>;

/// The list of this number.
pub(crate) fn one(alloc: Global, number: u32) -> Numbers
    ensures { result.items ≡ number ∷ [] }
{
    let mut numbers = Numbers::new(alloc);
    numbers.push_reserved(number);
    numbers
}

#[inline(always)]
pub(crate) fn has_none(numbers: &Numbers) -> bool
    ensures { IsTrue result ↔ numbers.now.items ≡ [] }
{
    numbers.is_empty()
}

#[inline(always)]
pub(crate) fn has_number(numbers: &Numbers, number: u32) -> bool
    ensures { result ≡ list_any (λ k. k == number) numbers.now.items }
{
    numbers.as_slice().contains(&number)
}

/// Whether the roles have one of these numbers.
pub(crate) fn has_one_of(roles: &Numbers, numbers: &[u32]) -> bool
    ensures { (result ≡ true) ↔ NumbersMeet numbers.now roles.now.items }
{
    for number in numbers {
        if has_number(roles, *number) {
            return true;
        }
    }
    false
}

/// Adds the number. Want of memory leaves all as it was.
pub(crate) fn add_number(numbers: &mut Numbers, number: u32) -> Result<(), Memory>
    ensures ok { OnOk result (numbers.new.items ≡ numbers.old.items ++ number ∷ []) }
    ensures err { OnErr result (numbers.new.items ≡ numbers.old.items) }
    ensures room { HasRoomFor numbers.old 1 → IsOk result }
    ensures capacity { numbers.old.capacity ≤ numbers.new.capacity }
{
    numbers.push(number)?;
    Ok(())
}

/// Takes the number out.
pub(crate) fn remove_number(numbers: &mut Numbers, number: u32)
    ensures items { numbers.new.items ≡ filter (λ k. not (k == number)) numbers.old.items }
    ensures capacity { numbers.new.capacity ≡ numbers.old.capacity }
{
    numbers.retain(|other| *other != number);
}
