//! The held roles and the signed ones from 64 on, in room that a node takes only while it has one.
ghost use Rattle.std.specs.Prelude.{◌≡◌, ◌==◌, ◌++◌, [], ◌∷◌, ◌↔◌, OnOk, OnErr, IfOk, IsOk, IsTrue, true, filter, not, length};
ghost use Rattle.std.specs.List.{list_any};
ghost use Rattle.role_set.specs.Words.{NumbersMeet};
ghost use Rattle.role_set.specs.Pairs.{held_numbers, signed_numbers};

use crate::numbers::{Numbers, add_number, has_none, has_number, has_one_of, one, remove_number};
use gcx_base::Memory;
use std::alloc::Global;
use std::boxed::Box;

/// Held roles' numbers and signed ones'.
#[derive(Drop)]
pub(crate) struct HighRoles {
    held: Numbers,
    signed: Numbers,
}

impl HighRoles {
    #[inline(never)]
    fn holds_none(&self) -> bool
        ensures { IsTrue result ↔ self.now.held.items ≡ [] }
    {
        has_none(&self.held)
    }

    #[inline(never)]
    fn meets(&self, roles: &Numbers) -> bool
        ensures { (result ≡ true) ↔ NumbersMeet self.now.held.items roles.now.items }
    {
        has_one_of(roles, self.held.as_slice())
    }
}

/// Gives the room back.
#[cold]
pub(crate) fn drop_high(high: Box<HighRoles>) {
    drop(high);
}

/// These numbers as held ones, and none signed. Where there is none it takes no memory, and is told in line.
#[inline(always)]
pub(crate) fn held_high(alloc: Global, roles: &Numbers) -> Result<Option<Box<HighRoles>>, Memory>
    ensures held { IfOk result (λ high. held_numbers high ≡ roles.now.items) }
    ensures signed { IfOk result (λ high. signed_numbers high ≡ []) }
    ensures none { roles.now.items ≡ [] → IsOk result }
{
    if has_none(roles) {
        return Ok(None);
    }
    let held = copy_of(alloc, roles)?;
    Ok(Some(held))
}

/// The same where there is one, out of line.
#[inline(never)]
fn copy_of(alloc: Global, roles: &Numbers) -> Result<Box<HighRoles>, Memory>
    ensures held { IfOk result (λ high. high.value.held.items ≡ roles.now.items) }
    ensures signed { IfOk result (λ high. high.value.signed.items ≡ []) }
{
    let held = Numbers::from_slice(alloc, roles.as_slice())?;
    let signed = Numbers::new(alloc);
    Ok(Box::new(alloc, HighRoles { held, signed })?)
}

pub(crate) fn has_high(high: &Option<Box<HighRoles>>, number: u32) -> bool
    ensures { result ≡ list_any (λ k. k == number) (held_numbers high.now) }
{
    match high {
        None => false,
        Some(lists) => has_number(&lists.held, number),
    }
}

pub(crate) fn is_signed_high(high: &Option<Box<HighRoles>>, number: u32) -> bool
    ensures { result ≡ list_any (λ k. k == number) (signed_numbers high.now) }
{
    match high {
        None => false,
        Some(lists) => has_number(&lists.signed, number),
    }
}

/// Whether none is held. Where there is none at all that is told in line.
#[inline(always)]
pub(crate) fn holds_none(high: &Option<Box<HighRoles>>) -> bool
    ensures { IsTrue result ↔ held_numbers high.now ≡ [] }
{
    match high {
        None => true,
        Some(lists) => lists.holds_none(),
    }
}

/// Whether one of these numbers is held. Where there is none at all that is told in line.
#[inline(always)]
pub(crate) fn meets_high(high: &Option<Box<HighRoles>>, roles: &Numbers) -> bool
    ensures { (result ≡ true) ↔ NumbersMeet (held_numbers high.now) roles.now.items }
{
    match high {
        None => false,
        Some(lists) => lists.meets(roles),
    }
}

/// How many are held.
pub(crate) fn count_high(high: &Option<Box<HighRoles>>) -> u64
    ensures { result ≡ length (held_numbers high.now) }
{
    match high {
        None => 0,
        Some(lists) => lists.held.len() as u64,
    }
}

/// Makes the number a held one. Want of memory leaves all as it was.
pub(crate) fn give_high(
    high: &mut Option<Box<HighRoles>>,
    alloc: Global,
    number: u32,
) -> Result<(), Memory>
    ensures ok { OnOk result (held_numbers high.new ≡ held_numbers high.old ++ number ∷ []) }
    ensures err { OnErr result (held_numbers high.new ≡ held_numbers high.old) }
    ensures signed { signed_numbers high.new ≡ signed_numbers high.old }
{
    match high {
        None => {
            let held = one(alloc, number);
            let signed = Numbers::new(alloc);
            *high = Some(Box::new(alloc, HighRoles { held, signed })?);
        }
        Some(lists) => add_number(&mut lists.held, number)?,
    }
    Ok(())
}

/// Makes the number a signed one. Want of memory leaves all as it was.
pub(crate) fn sign_high(
    high: &mut Option<Box<HighRoles>>,
    alloc: Global,
    number: u32,
) -> Result<(), Memory>
    ensures ok { OnOk result (signed_numbers high.new ≡ signed_numbers high.old ++ number ∷ []) }
    ensures err { OnErr result (signed_numbers high.new ≡ signed_numbers high.old) }
    ensures held { held_numbers high.new ≡ held_numbers high.old }
{
    match high {
        None => {
            let held = Numbers::new(alloc);
            let signed = one(alloc, number);
            *high = Some(Box::new(alloc, HighRoles { held, signed })?);
        }
        Some(lists) => add_number(&mut lists.signed, number)?,
    }
    Ok(())
}

/// Takes the number out of the held ones. Where no number is left the room is given back.
pub(crate) fn take_high(high: &mut Option<Box<HighRoles>>, number: u32)
    ensures held { held_numbers high.new ≡ filter (λ k. not (k == number)) (held_numbers high.old) }
    ensures signed { signed_numbers high.new ≡ signed_numbers high.old }
{
    match high {
        None => {}
        Some(lists) => {
            remove_number(&mut lists.held, number);
            if has_none(&lists.held) && has_none(&lists.signed) {
                *high = None;
            }
        }
    }
}
