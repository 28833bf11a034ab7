//! Room for a value that may be missing.
ghost use Rattle.std.specs.Prelude.{◌≡◌, Some, None, IsSome};
ghost use Rattle.std.specs.Borrow.{sem};
ghost use Rattle.raw_nodes.specs.SlotLends.{lends_held};

use std::marker::{Move, Owns};
use std::mem::ManuallyDrop;

/// Room for a value, as Rust's `MaybeUninit<T>`, seen as the value or none. Nothing beside it tells whether a value is there,
/// and where none is, its bytes are those of another one.
pub struct Slot<T> {
    value: T,
}

impl<T> Owns for Slot<T> {
    ghost use Rattle.std.specs.Prelude.{Option};
    ghost use Rattle.std.specs.Coded.{coded_option};
    ghost use Rattle.raw_nodes.specs.Slots.{held_lent};

    ghost Value = { Option T };

    ghost coded = { coded_option T.code };

    ghost shr_at = { λ d p κ. held_lent T.row d p κ };
}

impl<T> Move for Slot<T> {
    ghost use Rattle.raw_nodes.specs.Slots.{where_some};

    ghost own_val = { λ d vs. where_some (λ x. Fields.own_val (record { value = x }) vs) d };
}

impl<T> Slot<T> {
    /// An empty one, with the bytes of this value.
    pub(crate) fn like(value: &mut T) -> Slot<T>
        ensures result { result ≡ None }
        ensures value { value.new ≡ value.old }
    {
        let value = unsafe { (value as *mut T).read() };
        Slot { value }
    }

    /// One more empty one with the same bytes.
    pub(crate) fn again(&mut self) -> Slot<T>
        requires { self.old ≡ None }
        ensures result { result ≡ None }
        ensures empty { self.new ≡ None }
    {
        unsafe { (self as *mut Slot<T>).read() }
    }

    #[inline(always)]
    pub(crate) fn put(&mut self, value: T)
        requires { self.old ≡ None }
        ensures { self.new ≡ Some value }
    {
        unsafe { (self as *mut Slot<T>).write(Slot { value }) }
    }

    #[inline(always)]
    pub(crate) fn take(&mut self) -> T
        requires { IsSome self.old }
        ensures value { self.old ≡ Some result }
        ensures empty { self.new ≡ None }
    {
        let Slot { value } = unsafe { (self as *mut Slot<T>).read() };
        value
    }

    #[inline(always)]
    pub(crate) fn get(&self) -> &T
        requires { IsSome self.now }
        ensures { self.now ≡ Some result.now }
    {
        unsafe { &*(self as *const Slot<T> as *const T) }
    }

    #[inline(always)]
    pub(crate) fn get_mut(&mut self) -> &mut T
        requires { IsSome self.old }
        ensures* writes_back { sem 𝓛 (lends_held T.row self.entry result) }
        ensures value { self.old ≡ Some result.now }
    {
        unsafe { &mut *(self as *mut Slot<T> as *mut T) }
    }

    /// Ends an empty one.
    pub(crate) fn destroy_empty(self)
        requires { self ≡ None }
    {
        let _bytes = unsafe { ManuallyDrop::new_unchecked(self) };
    }
}
