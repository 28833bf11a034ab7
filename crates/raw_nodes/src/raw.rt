//! A store over raw blocks.
ghost use Rattle.std.specs.Prelude.{◌≡◌, ◌+◌, ◌<◌, ◌≤◌, ℕ, Option, Some, None, IfOk, IfErr, OnOk, OnErr, IsOk, IfSome, IsSome, max, option_map, is_some, if◌then◌else◌, []};
ghost use Rattle.std.specs.Borrow.{Lends, sem};
ghost use Rattle.std.specs.FinMap as map;
ghost use Rattle.node_store.specs.Rows.{StoreRow, Rows, IsTree, planted, appended, unlinked, parent_of, next_of, prev_of, head_of, last_of, children_in, changed_at, with_payload};
ghost use Rattle.raw_nodes.specs.Raw.{Spares};

use crate::rows::RawRows;
use node_store::{NodeStore, Place, Refused};
use std::alloc::Global;
use std::marker::Model;

/// A store whose rows stand in blocks of 256 cells.
///
/// A table has the link to each cell, so a place costs one look there, and a cell keeps its own number, so a link costs
/// one look at the cell behind it. No call goes over rows or siblings. A call that makes a block writes its 256 cells,
/// and may move the table into twice the room: over many calls each row costs the same. At its end a store looks at each
/// cell once, drops the payload where there is one, and frees each block.
pub struct RawNodes<T> {
    rows: RawRows<T>,
}

impl<T> Model for RawNodes<T> {
    ghost use Rattle.raw_nodes.specs.Raw.{Raw, raw_code, raw_of, IsRaw};

    ghost Value = { Raw T };

    ghost coded = { raw_code T.code };

    ghost view = { λ s. raw_of s.rows };

    ghost invariant = { λ s. IsRaw s.rows };
}

impl<T> RawNodes<T> {
    /// An empty store. No memory is taken before the first row.
    pub fn new(alloc: Global) -> RawNodes<T>
        ensures rows { result.rows ≡ map.empty }
        ensures most { result.most ≡ 0 }
        ensures root { result.root ≡ None }
        ensures cells { result.cells ≡ 0 }
    {
        RawNodes {
            rows: RawRows::new(alloc),
        }
    }

    /// How many cells all blocks together have: at least one for each row, and at most 255 more than the greatest number of
    /// rows so far. One number is read.
    pub fn cells(&self) -> usize
        ensures value { result ≡ self.now.cells }
        ensures held { map.len self.now.rows ≤ result }
        ensures spare { result ≤ self.now.most + 255 }
    {
        self.rows.heap.links.len()
    }
}

impl<T> NodeStore<T> for RawNodes<T> {
    ghost rows = { λ s. s.rows };

    ghost most_held = { λ s. s.most };

    ghost root_of = { λ s. s.root };

    ghost loans = { λ _. [] };

    ghost with_paid = { λ s p x. record s { rows = changed_at (with_payload x) p s.rows } };

    ghost use Rattle.std.proofs.Common.{refl};

    ghost written = { λ s p x used. refl };

    ghost written_most = { λ s p x used. refl };

    ghost written_root = { λ s p x used. refl };

    ghost written_loans = { λ s p x used. refl };

    /// The same as the trait's. A dead cell is used before a block is made: where `cells` is above the number of rows,
    /// no memory is taken.
    fn plant(&mut self, payload: T) -> Result<Place, Refused<T>>
        requires { self.old.rows ≡ map.empty }
        ensures ok { IfOk result (λ p. self.new.rows ≡ planted self.old.rows p.0 payload) }
        ensures most { OnOk result (self.new.most ≡ max self.old.most 1) }
        ensures root { IfOk result (λ p. self.new.root ≡ Some p.0) }
        ensures err { IfErr result (λ e. (e.payload ≡ payload)
            × (self.new.rows ≡ self.old.rows) × (self.new.most ≡ self.old.most)) }
        ensures root_kept { OnErr result (self.new.root ≡ self.old.root) }
        ensures cells { OnOk result (Spares self.old self.new.cells) }
        ensures cells_kept { OnErr result (self.new.cells ≡ self.old.cells) }
        ensures spare { map.len self.old.rows < self.old.cells → IsOk result }
    {
        self.rows.plant(payload)
    }

    /// The same as the trait's. A dead cell is used before a block is made: where `cells` is above the number of rows,
    /// no memory is taken.
    #[inline(always)]
    fn append(&mut self, parent: Place, payload: T) -> Result<Place, Refused<T>>
        requires { IsSome (map.get self.old.rows parent.0) }
        ensures free { IfOk result (λ p. map.get self.old.rows p.0 ≡ None) }
        ensures ok { IfOk result (λ p. self.new.rows ≡ appended self.old.rows parent.0 p.0 payload) }
        ensures most { OnOk result (self.new.most ≡ max self.old.most (map.len self.new.rows)) }
        ensures root { self.new.root ≡ self.old.root }
        ensures err { IfErr result (λ e. (e.payload ≡ payload)
            × (self.new.rows ≡ self.old.rows) × (self.new.most ≡ self.old.most)) }
        ensures cells { OnOk result (Spares self.old self.new.cells) }
        ensures cells_kept { OnErr result (self.new.cells ≡ self.old.cells) }
        ensures spare { map.len self.old.rows < self.old.cells → IsOk result }
    {
        self.rows.append(parent, payload)
    }

    /// The same as the trait's. The cell is dead then, and the next one that is used. No block is freed.
    #[inline(always)]
    fn unlink_leaf(&mut self, place: Place) -> T
        requires { (e : StoreRow T) × (map.get self.old.rows place.0 ≡ Some e) × (e.children ≡ []) }
        ensures payload { (e : StoreRow T) → map.get self.old.rows place.0 ≡ Some e → result ≡ e.payload }
        ensures rows { self.new.rows ≡ unlinked self.old.rows place.0 }
        ensures most { self.new.most ≡ self.old.most }
        ensures root { self.new.root ≡ (if is_some (parent_of self.old.rows place.0) then self.old.root else None) }
        ensures cells { self.new.cells ≡ self.old.cells }
    {
        self.rows.unlink_leaf(place)
    }

    /// The same as the trait's: the payload is dropped in its cell. The cell is dead then, and the next one that is used.
    /// No block is freed.
    #[inline(always)]
    fn drop_leaf(&mut self, place: Place)
    where
        T: Drop,
        requires { (e : StoreRow T) × (map.get self.old.rows place.0 ≡ Some e) × (e.children ≡ []) }
        ensures rows { self.new.rows ≡ unlinked self.old.rows place.0 }
        ensures most { self.new.most ≡ self.old.most }
        ensures root { self.new.root ≡ (if is_some (parent_of self.old.rows place.0) then self.old.root else None) }
        ensures cells { self.new.cells ≡ self.old.cells }
    {
        self.rows.drop_leaf(place);
    }

    #[inline(always)]
    fn parent(&self, place: Place) -> Option<Place> {
        self.rows.place_at(self.rows.node(place).parent)
    }

    #[inline(always)]
    fn first(&self, place: Place) -> Option<Place> {
        self.rows.place_at(self.rows.node(place).first)
    }

    #[inline(always)]
    fn last(&self, place: Place) -> Option<Place> {
        self.rows.place_at(self.rows.node(place).last)
    }

    #[inline(always)]
    fn next(&self, place: Place) -> Option<Place> {
        self.rows.place_at(self.rows.node(place).next)
    }

    #[inline(always)]
    fn prev(&self, place: Place) -> Option<Place> {
        self.rows.place_at(self.rows.node(place).prev)
    }

    #[inline(always)]
    fn payload(&self, place: Place) -> &T {
        self.rows.node(place).payload()
    }

    #[inline(always)]
    fn payload_mut(&mut self, place: Place) -> &mut T {
        let link = self.rows.link(place);
        self.rows.heap.arena.follow_mut(link).payload_mut()
    }

    #[inline(always)]
    fn root(&self) -> Option<Place> {
        self.rows.place_at(self.rows.root)
    }

    #[inline(always)]
    fn most(&self) -> usize {
        self.rows.most
    }
}

impl<T: Drop> Drop for RawNodes<T> {
    fn drop(self) {
        let RawNodes { rows } = self;
        rows.destroy();
    }
}
