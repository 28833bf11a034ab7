//! A place in a store, to walk from.
ghost use Rattle.std.specs.Prelude.{◌≡◌, Option, Some, None, IfSome, IsSome, option_map};
ghost use Rattle.std.specs.FinMap as map;
ghost use Rattle.node_store.specs.Rows.{parent_of, next_of, prev_of, head_of, last_of, children_in};

use crate::{NodeStore, Place};
use std::alloc::AllocError;
use std::marker::PhantomData;

/// A place in use of a store. Its calls answer what the store's calls of the same names answer there, with the same
/// work, and take no memory.
pub struct At<'a, N: NodeStore<T>, T> {
    pub store: &'a N,
    pub place: Place,
    of: PhantomData<T>,
    pub ghost in_use: { IsSome (map.get (N.rows store.now) place.0) },
}

impl<'a, N: NodeStore<T>, T> Copy for At<'a, N, T> {}

impl<'a, N: NodeStore<T>, T> Clone for At<'a, N, T> {
    fn clone(&self) -> Result<Self, AllocError> {
        Ok(*self)
    }
}

impl<'a, N: NodeStore<T>, T> At<'a, N, T> {
    #[inline(always)]
    pub fn new(store: &'a N, place: Place) -> At<'a, N, T>
        requires { IsSome (map.get (N.rows store.now) place.0) }
        ensures store { result.store.now ≡ store.entry.now }
        ensures place { result.place ≡ place }
    {
        At {
            store,
            place,
            of: PhantomData,
        }
    }

    /// The parent, or None at the root.
    #[inline(always)]
    pub fn parent(&self) -> Option<At<'a, N, T>>
        ensures store { IfSome result (λ a. a.store.now ≡ self.now.store.now) }
        ensures place { option_map (λ a. a.place.0) result ≡ parent_of (N.rows self.now.store.now) self.now.place.0 }
    {
        match self.store.parent(self.place) {
            Some(place) => Some(At::new(self.store, place)),
            None => None,
        }
    }

    /// The first child, or None where there is no child.
    pub fn first(&self) -> Option<At<'a, N, T>>
        ensures store { IfSome result (λ a. a.store.now ≡ self.now.store.now) }
        ensures place { option_map (λ a. a.place.0) result
            ≡ head_of (children_in (map.get (N.rows self.now.store.now) self.now.place.0)) }
    {
        match self.store.first(self.place) {
            Some(place) => Some(At::new(self.store, place)),
            None => None,
        }
    }

    /// The last child, or None where there is no child.
    pub fn last(&self) -> Option<At<'a, N, T>>
        ensures store { IfSome result (λ a. a.store.now ≡ self.now.store.now) }
        ensures place { option_map (λ a. a.place.0) result
            ≡ last_of (children_in (map.get (N.rows self.now.store.now) self.now.place.0)) }
    {
        match self.store.last(self.place) {
            Some(place) => Some(At::new(self.store, place)),
            None => None,
        }
    }

    /// The next child of the same parent, or None at the last.
    pub fn next(&self) -> Option<At<'a, N, T>>
        ensures store { IfSome result (λ a. a.store.now ≡ self.now.store.now) }
        ensures place { option_map (λ a. a.place.0) result ≡ next_of (N.rows self.now.store.now) self.now.place.0 }
    {
        match self.store.next(self.place) {
            Some(place) => Some(At::new(self.store, place)),
            None => None,
        }
    }

    /// The child before of the same parent, or None at the first.
    pub fn prev(&self) -> Option<At<'a, N, T>>
        ensures store { IfSome result (λ a. a.store.now ≡ self.now.store.now) }
        ensures place { option_map (λ a. a.place.0) result ≡ prev_of (N.rows self.now.store.now) self.now.place.0 }
    {
        match self.store.prev(self.place) {
            Some(place) => Some(At::new(self.store, place)),
            None => None,
        }
    }

    /// The payload of the row there, lent as long as the store is.
    #[inline(always)]
    pub fn payload(&self) -> &'a T
        ensures { option_map (λ e. e.payload) (map.get (N.rows self.now.store.now) self.now.place.0) ≡ Some result.now }
    {
        self.store.payload(self.place)
    }
}
