//! A store over `slab`.
ghost use Rattle.std.specs.Prelude.{◌≡◌, ◌+◌, ℕ, Option, Some, None, IfOk, IfErr, OnOk, OnErr, IsSome, option_map, []};
ghost use Rattle.std.specs.FinMap as map;
ghost use Rattle.slab.specs.Slab.{get as slab_get, slab_len, ContainsKey};
ghost use Rattle.node_store.specs.Rows.{changed_at, with_payload};
ghost use Rattle.node_store.specs.Links.{altered, put, fresh_cell, right_set, left_set, joined, with_first, with_last, with_prev, with_next};
ghost use Rattle.node_store.specs.Slots.{index_of, linked_of, links};

use crate::{NodeStore, Place, Refused};
use slab::Slab;
use std::alloc::{AllocFailed, Global};
use std::marker::Model;

/// A row, with links to its parent, its first and last child and both siblings.
#[derive(Debug, Drop)]
struct Cell<T> {
    parent: Option<Place>,
    first: Option<Place>,
    last: Option<Place>,
    prev: Option<Place>,
    next: Option<Place>,
    payload: T,
}

/// A store whose rows stand in a slab. Where no cell is dead, `plant` and `append` may move all cells into more room,
/// which doubles: over many calls each row costs the same. All other calls cost what the trait says.
#[derive(Debug, Drop)]
pub struct SlabNodes<T> {
    cells: Slab<Cell<T>>,
    root: Option<Place>,
    most: usize,
}

impl<T> Model for SlabNodes<T> {
    ghost use Rattle.node_store.specs.Rows.{Seen, seen_code};

    ghost Value = { Seen T };

    ghost coded = { seen_code T.code };

    ghost use Rattle.node_store.specs.Links.{rows_of, IsSound};
    ghost use Rattle.node_store.specs.Slots.{index_of, cells_of};

    ghost view = { λ s. record {
      rows = rows_of (cells_of s.cells);
      root = index_of s.root;
      most = s.most;
    } };

    ghost invariant = { λ s. IsSound (cells_of s.cells) (index_of s.root) s.most };
}

impl<T> SlabNodes<T> {
    /// An empty store. No memory is taken before the first row.
    pub fn new(alloc: Global) -> SlabNodes<T>
        ensures rows { result.rows ≡ map.empty }
        ensures most { result.most ≡ 0 }
        ensures root { result.root ≡ None }
    {
        SlabNodes {
            cells: Slab::new(alloc),
            root: None,
            most: 0,
        }
    }
}

impl<T> NodeStore<T> for SlabNodes<T> {
    ghost rows = { λ s. s.rows };

    ghost most_held = { λ s. s.most };

    ghost root_of = { λ s. s.root };

    ghost loans = { λ _. [] };

    ghost with_paid = { λ s p x. record s { rows = changed_at (with_payload x) p s.rows } };

    ghost use Rattle.std.proofs.Common.{refl};

    ghost written = { λ s p x used. refl };

    ghost written_most = { λ s p x used. refl };

    ghost written_root = { λ s p x used. refl };

    ghost written_loans = { λ s p x used. refl };

    fn plant(&mut self, payload: T) -> Result<Place, Refused<T>> {
        let place = add(&mut self.cells, None, None, payload)?;
        self.root = Some(place);
        self.most = self.most.max(self.cells.len());
        Ok(place)
    }

    fn append(&mut self, parent: Place, payload: T) -> Result<Place, Refused<T>> {
        let last = cell_at(&self.cells, parent).last;
        let place = add(&mut self.cells, Some(parent), last, payload)?;
        set_last(&mut self.cells, parent, Some(place));
        join(&mut self.cells, Some(parent), last, Some(place));
        self.most = self.most.max(self.cells.len());
        Ok(place)
    }

    fn unlink_leaf(&mut self, place: Place) -> T {
        let Cell {
            parent,
            first: _,
            last: _,
            prev,
            next,
            payload,
        } = self.cells.remove(place.0);
        join(&mut self.cells, parent, prev, next);
        if parent.is_none() {
            self.root = None;
        }
        payload
    }

    fn drop_leaf(&mut self, place: Place)
    where
        T: Drop,
    {
        drop(self.unlink_leaf(place));
    }

    fn parent(&self, place: Place) -> Option<Place> {
        cell_at(&self.cells, place).parent
    }

    fn first(&self, place: Place) -> Option<Place> {
        cell_at(&self.cells, place).first
    }

    fn last(&self, place: Place) -> Option<Place> {
        cell_at(&self.cells, place).last
    }

    fn next(&self, place: Place) -> Option<Place> {
        cell_at(&self.cells, place).next
    }

    fn prev(&self, place: Place) -> Option<Place> {
        cell_at(&self.cells, place).prev
    }

    fn payload(&self, place: Place) -> &T {
        &cell_at(&self.cells, place).payload
    }

    fn payload_mut(&mut self, place: Place) -> &mut T {
        match self.cells.get_mut(place.0) {
            Some(cell) => &mut cell.payload,
            None => unreachable!(),
        }
    }

    fn root(&self) -> Option<Place> {
        self.root
    }

    fn most(&self) -> usize {
        self.most
    }
}

fn refused<T>(failed: AllocFailed<Cell<T>>) -> Refused<T>
    ensures { result.payload ≡ failed.value.payload }
{
    let AllocFailed { value } = failed;
    let Cell {
        parent: _,
        first: _,
        last: _,
        prev: _,
        next: _,
        payload,
    } = value;
    Refused { payload }
}

/// A new cell without children, at a place that was dead.
fn add<T>(
    cells: &mut Slab<Cell<T>>,
    parent: Option<Place>,
    prev: Option<Place>,
    payload: T,
) -> Result<Place, Refused<T>>
    ensures free { IfOk result (λ p. links cells.old p.0 ≡ None) }
    ensures ok { IfOk result (λ p. links cells.new
        ≡ put p.0 (Some (fresh_cell (index_of parent) (index_of prev) payload)) (links cells.old)) }
    ensures len { OnOk result (slab_len cells.new ≡ slab_len cells.old + 1) }
    ensures err { OnErr result (cells.new.slots ≡ cells.old.slots) }
    ensures payload { IfErr result (λ e. e.payload ≡ payload) }
{
    let cell = Cell {
        parent,
        first: None,
        last: None,
        prev,
        next: None,
        payload,
    };
    match cells.insert(cell) {
        Ok(key) => Ok(Place(key)),
        Err(failed) => Err(refused(failed)),
    }
}

fn cell_at<T>(cells: &Slab<Cell<T>>, place: Place) -> &Cell<T>
    requires { ContainsKey cells.now place.0 }
    ensures { slab_get cells.now place.0 ≡ Some result.now }
{
    match cells.get(place.0) {
        Some(cell) => cell,
        None => unreachable!(),
    }
}

fn set_first<T>(cells: &mut Slab<Cell<T>>, place: Place, first: Option<Place>)
    ensures links { links cells.new ≡ altered (with_first (index_of first)) place.0 (links cells.old) }
    ensures len { slab_len cells.new ≡ slab_len cells.old }
{
    if let Some(cell) = cells.get_mut(place.0) {
        cell.first = first;
    }
}

fn set_last<T>(cells: &mut Slab<Cell<T>>, place: Place, last: Option<Place>)
    ensures links { links cells.new ≡ altered (with_last (index_of last)) place.0 (links cells.old) }
    ensures len { slab_len cells.new ≡ slab_len cells.old }
{
    if let Some(cell) = cells.get_mut(place.0) {
        cell.last = last;
    }
}

fn set_prev<T>(cells: &mut Slab<Cell<T>>, place: Place, prev: Option<Place>)
    ensures links { links cells.new ≡ altered (with_prev (index_of prev)) place.0 (links cells.old) }
    ensures len { slab_len cells.new ≡ slab_len cells.old }
{
    if let Some(cell) = cells.get_mut(place.0) {
        cell.prev = prev;
    }
}

fn set_next<T>(cells: &mut Slab<Cell<T>>, place: Place, next: Option<Place>)
    ensures links { links cells.new ≡ altered (with_next (index_of next)) place.0 (links cells.old) }
    ensures len { slab_len cells.new ≡ slab_len cells.old }
{
    if let Some(cell) = cells.get_mut(place.0) {
        cell.next = next;
    }
}

/// What stands at the right of `left` below the parent becomes `right`.
fn set_right<T>(
    cells: &mut Slab<Cell<T>>,
    parent: Option<Place>,
    left: Option<Place>,
    right: Option<Place>,
)
    ensures links { links cells.new ≡ right_set (index_of parent) (index_of left) (index_of right) (links cells.old) }
    ensures len { slab_len cells.new ≡ slab_len cells.old }
{
    match (left, parent) {
        (Some(left), _) => set_next(cells, left, right),
        (None, Some(parent)) => set_first(cells, parent, right),
        (None, None) => {}
    }
}

/// What stands at the left of `right` below the parent becomes `left`.
fn set_left<T>(
    cells: &mut Slab<Cell<T>>,
    parent: Option<Place>,
    left: Option<Place>,
    right: Option<Place>,
)
    ensures links { links cells.new ≡ left_set (index_of parent) (index_of left) (index_of right) (links cells.old) }
    ensures len { slab_len cells.new ≡ slab_len cells.old }
{
    match (right, parent) {
        (Some(right), _) => set_prev(cells, right, left),
        (None, Some(parent)) => set_last(cells, parent, left),
        (None, None) => {}
    }
}

/// Makes `left` and `right` neighbours below the parent, where None is the list's end.
fn join<T>(
    cells: &mut Slab<Cell<T>>,
    parent: Option<Place>,
    left: Option<Place>,
    right: Option<Place>,
)
    ensures links { links cells.new ≡ joined (index_of parent) (index_of left) (index_of right) (links cells.old) }
    ensures len { slab_len cells.new ≡ slab_len cells.old }
{
    set_right(cells, parent, left, right);
    set_left(cells, parent, left, right);
}
