//! The owner of all cells, and the links that lead to them.
ghost use Rattle.std.specs.Prelude.{◌≡◌, ◌-◌, ◌*◌, ◌^◌, ◌<◌, List, Some, IsSome, [], ◌++◌, map, length, take, drop, ⊤};
ghost use Rattle.std.specs.Borrow.{sem};
ghost use Rattle.std.specs.Mem.{type_size};
ghost use base.Fml.{ftrue};
ghost use denote.RawPtr.{Ptr};
ghost use Rattle.raw_nodes.specs.Places.{somes};
ghost use Rattle.raw_nodes.specs.Spots.{Spot, spots_own, spots_lent, run_owns, found, spots, places, cell_ptr, IsApart, IsIn, IsLast, IsFull};

use crate::cells::{Base, Cells};
use std::alloc::AllocError;
use std::marker::{Model, PhantomData};

/// Where a cell lies. It owns nothing.
pub struct Link {
    pub(crate) ptr: *mut u8,
}

impl Clone for Link {
    ghost is_clone = { λ x y. y ≡ x };

    ghost is_infallible = { λ _. ⊤ };

    fn clone(&self) -> Result<Link, AllocError> {
        Ok(*self)
    }
}

impl Copy for Link {}

impl Link {
    /// The link to the cell at `index` of the block at `base`.
    pub(crate) fn within<N>(base: Base<N>, index: usize) -> Link
        requires { IsIn base.ptr × (index * type_size N.row < 2 ^ 63) × (type_size N.row < 2 ^ 63) }
        ensures { result.ptr ≡ cell_ptr (type_size N.row) base.ptr index }
    {
        let at = unsafe { base.ptr.add(index) };
        Link { ptr: at as *mut u8 }
    }
}

/// Where the cells of a block lie. It takes no space.
pub struct Run<N> {
    mark: PhantomData<*const N>,
    ghost at: { Ptr },
    ghost places: { List Ptr },
}

impl<N> Model for Run<N> {
    ghost also_owns = { λ r. run_owns N.row r.at r.places };

    ghost also_shares = { λ _ _ _. ftrue };
}

/// The owner of the cells. It takes no space.
pub struct Arena<N> {
    mark: PhantomData<*const N>,
    ghost cells: { List (Spot N) },
}

impl<N> Model for Arena<N> {
    ghost also_owns = { λ a. spots_own N.row a.cells };

    ghost also_shares = { λ a _ κ. spots_lent N.row a.cells κ };
}

impl<N> Arena<N> {
    ghost use Rattle.raw_nodes.specs.Lends.{lends_cell};

    pub(crate) fn new() -> Arena<N>
        ensures { result.cells ≡ [] }
    {
        Arena { mark: PhantomData }
    }

    /// Takes over a block whose cells all hold a value.
    pub(crate) fn adopt(&mut self, cells: Cells<N>) -> Run<N>
        requires { IsFull cells.slots × (0 < type_size N.row) }
        ensures cells { self.new.cells ≡ self.old.cells ++ spots (type_size N.row) cells.at (somes cells.slots) }
        ensures run { IsApart self.new.cells × (result.at ≡ cells.at)
            × (result.places ≡ places (spots (type_size N.row) cells.at (somes cells.slots))) }
    {
        let Cells { mark: _ } = cells;
        Run { mark: PhantomData }
    }

    /// Gives the last block back.
    pub(crate) fn release(&mut self, run: Run<N>) -> Cells<N>
        requires { IsLast run.places self.old.cells × (0 < length run.places) }
        ensures cells { self.new.cells ≡ take (length self.old.cells - length run.places) self.old.cells }
        ensures result { (result.at ≡ run.at) × (result.slots
            ≡ map (λ s. Some s.held) (drop (length self.old.cells - length run.places) self.old.cells)) }
    {
        let Run { mark: _ } = run;
        Cells { mark: PhantomData }
    }

    /// Ends the owner of no cells.
    pub(crate) fn destroy_empty(self)
        requires { self.cells ≡ [] }
    {
        let Arena { mark: _ } = self;
    }

    /// What the cell at the link holds.
    #[inline(always)]
    pub(crate) fn follow(&self, link: Link) -> &N
        requires { IsSome (found self.now.cells link.ptr) }
        ensures { found self.now.cells link.ptr ≡ Some result.now }
    {
        unsafe { &*(link.ptr as *const N) }
    }

    #[inline(always)]
    pub(crate) fn follow_mut(&mut self, link: Link) -> &mut N
        requires { IsSome (found self.old.cells link.ptr) }
        ensures* writes_back { sem 𝓛 (lends_cell N.row self.entry link.ptr result) }
        ensures value { found self.old.cells link.ptr ≡ Some result.now }
    {
        unsafe { &mut *(link.ptr as *mut N) }
    }
}
