//! The fields of a raw store, and the steps that keep its rows.
ghost use Rattle.std.specs.Prelude.{◌≡◌, ◌<◌, ◌≤◌, ℕ, Some, None, [], IfOk, IfErr, OnErr, IsOk, IsSome, IfSome, option_map, length, is_some, if◌then◌else◌};
ghost use Rattle.std.specs.FinMap as fin;
ghost use Rattle.node_store.specs.Rows.{StoreRow};
ghost use Rattle.node_store.specs.Links.{linked_at};
ghost use Rattle.raw_nodes.specs.Spots.{found, IsInSomeBlock};
ghost use Rattle.raw_nodes.specs.Nodes.{place_of, index_in, Keeps};
ghost use Rattle.raw_nodes.specs.declared.node.Node.{Node};
ghost use Rattle.raw_nodes.specs.Raw.{raw_of, IsRaw};
ghost use Rattle.raw_nodes.specs.Edits.{join_put};
ghost use Rattle.raw_nodes.specs.Steps.{Ready, Appends, Plants, Unlinks, Closes};

use crate::arena::Link;
use crate::edit::{join, set_dead, set_empty, set_last, set_row};
use crate::heap::Heap;
use crate::maybe_link::MaybeLink;
use crate::node::Node;
use node_store::{Place, Refused};
use std::alloc::{AllocError, Global};

/// Rows in raw cells.
pub struct RawRows<T> {
    pub(crate) heap: Heap<T>,
    // The first dead cell, which links to the next.
    pub(crate) free: MaybeLink,
    pub(crate) root: MaybeLink,
    pub(crate) len: usize,
    pub(crate) most: usize,
}

impl<T> RawRows<T> {
    pub(crate) fn new(alloc: Global) -> RawRows<T>
        ensures raw { IsRaw result }
        ensures empty { (raw_of result).rows ≡ fin.empty }
        ensures root { (raw_of result).root ≡ None }
        ensures most { (raw_of result).most ≡ 0 }
        ensures cells { (raw_of result).cells ≡ 0 }
    {
        let nothing = MaybeLink::none();
        RawRows {
            heap: Heap::new(alloc),
            free: nothing,
            root: nothing,
            len: 0,
            most: 0,
        }
    }

    /// Drops the payloads, and frees the blocks.
    pub(crate) fn destroy(self)
    where
        T: Drop,
        requires { IsRaw self }
    {
        let RawRows {
            heap,
            free: _,
            root: _,
            len: _,
            most: _,
        } = self;
        heap.destroy();
    }

    /// The link to a cell.
    #[inline(always)]
    pub(crate) fn link(&self, place: Place) -> Link
        requires raw { IsRaw self.now }
        requires used { IsSome (fin.get (raw_of self.now).rows place.0) }
        ensures place { place_of self.now.heap.arena.cells result.ptr ≡ place.0 }
        ensures found { IsSome (found self.now.heap.arena.cells result.ptr) }
    {
        self.heap.links[place.0]
    }

    /// The number of a cell.
    #[inline(always)]
    pub(crate) fn place(&self, link: Link) -> Place
        requires raw { IsRaw self.now }
        requires found { IsSome (found self.now.heap.arena.cells link.ptr) }
        ensures { result.0 ≡ place_of self.now.heap.arena.cells link.ptr }
    {
        Place(self.heap.arena.follow(link).number)
    }

    /// A dead cell: the first of the free list, or else that of a new block. Of the value only its bytes are read.
    #[inline(always)]
    fn dead_cell(&mut self, like: &mut T) -> Result<Link, AllocError>
        requires { IsRaw self.old }
        ensures ok { IfOk result (λ link. Ready self.old self.new link) }
        ensures err { OnErr result (IsRaw self.new × (raw_of self.new ≡ raw_of self.old)) }
        ensures spare { fin.len (raw_of self.old).rows < (raw_of self.old).cells → IsOk result }
        ensures like { like.new ≡ like.old }
    {
        match self.free.get() {
            Some(cell) => Ok(cell),
            None => self.heap.grow_like(like),
        }
    }

    /// The same beside a row, of whose payload only the bytes are read.
    #[inline(always)]
    fn dead_cell_beside(&mut self, row: Link) -> Result<Link, AllocError>
        requires raw { IsRaw self.old }
        requires row { (n : Node T) × (found self.old.heap.arena.cells row.ptr ≡ Some n) × IsSome n.payload }
        ensures ok { IfOk result (λ link. Ready self.old self.new link) }
        ensures err { OnErr result (IsRaw self.new × (raw_of self.new ≡ raw_of self.old)) }
        ensures spare { fin.len (raw_of self.old).rows < (raw_of self.old).cells → IsOk result }
    {
        match self.free.get() {
            Some(link) => Ok(link),
            None => self.heap.grow_beside(row),
        }
    }

    /// Makes the root of an empty store.
    pub(crate) fn plant(&mut self, mut payload: T) -> Result<Place, Refused<T>>
        requires raw { IsRaw self.old }
        requires empty { (raw_of self.old).rows ≡ fin.empty }
        ensures raw { IsRaw self.new }
        ensures ok { IfOk result (λ p. Plants (raw_of self.old) (raw_of self.new) p.0 payload) }
        ensures err { IfErr result (λ e. (e.payload ≡ payload) × (raw_of self.new ≡ raw_of self.old)) }
        ensures spare { fin.len (raw_of self.old).rows < (raw_of self.old).cells → IsOk result }
    {
        match self.dead_cell(&mut payload) {
            Ok(link) => {
                let dead = self.heap.arena.follow(link);
                let number = dead.number;
                self.free = dead.next;
                let nothing = MaybeLink::none();
                set_row(&mut self.heap.arena, link, nothing, nothing, payload);
                self.root = MaybeLink::to(link);
                self.len = 1;
                self.most = self.most.max(1);
                Ok(Place(number))
            }
            Err(AllocError) => Err(Refused { payload }),
        }
    }

    /// Makes a last child of the row at `parent`.
    #[inline(always)]
    pub(crate) fn append(&mut self, parent: Place, payload: T) -> Result<Place, Refused<T>>
        requires raw { IsRaw self.old }
        requires used { IsSome (fin.get (raw_of self.old).rows parent.0) }
        ensures raw { IsRaw self.new }
        ensures ok { IfOk result (λ p. Appends (raw_of self.old) (raw_of self.new) parent.0 p.0 payload) }
        ensures err { IfErr result (λ e. (e.payload ≡ payload) × (raw_of self.new ≡ raw_of self.old)) }
        ensures spare { fin.len (raw_of self.old).rows < (raw_of self.old).cells → IsOk result }
    {
        let up = self.link(parent);
        match self.dead_cell_beside(up) {
            Ok(link) => {
                let dead = self.heap.arena.follow(link);
                let number = dead.number;
                self.free = dead.next;
                let last = self.heap.arena.follow(up).last;
                let (above, added) = (MaybeLink::to(up), MaybeLink::to(link));
                set_row(&mut self.heap.arena, link, above, last, payload);
                set_last(&mut self.heap.arena, up, added);
                join(&mut self.heap.arena, above, last, added);
                self.len += 1;
                self.most = self.most.max(self.len);
                Ok(Place(number))
            }
            Err(AllocError) => Err(Refused { payload }),
        }
    }

    /// Takes a row without children out.
    #[inline(always)]
    pub(crate) fn unlink_leaf(&mut self, place: Place) -> T
        requires raw { IsRaw self.old }
        requires leaf { (e : StoreRow T) × (fin.get (raw_of self.old).rows place.0 ≡ Some e) × (e.children ≡ []) }
        ensures raw { IsRaw self.new }
        ensures payload { (e : StoreRow T) → fin.get (raw_of self.old).rows place.0 ≡ Some e → result ≡ e.payload }
        ensures left { Unlinks (raw_of self.old) (raw_of self.new) place.0 }
    {
        let link = self.link(place);
        let leaf = self.heap.arena.follow(link);
        let (parent, prev, next) = (leaf.parent, leaf.prev, leaf.next);
        let payload = set_dead(&mut self.heap.arena, link, self.free);
        self.close_gap(link, parent, prev, next);
        payload
    }

    /// Takes a row without children out, and drops its payload, which is read out of its room for that.
    #[inline(always)]
    pub(crate) fn drop_leaf(&mut self, place: Place)
    where
        T: Drop,
        requires raw { IsRaw self.old }
        requires leaf { (e : StoreRow T) × (fin.get (raw_of self.old).rows place.0 ≡ Some e) × (e.children ≡ []) }
        ensures raw { IsRaw self.new }
        ensures left { Unlinks (raw_of self.old) (raw_of self.new) place.0 }
    {
        let link = self.link(place);
        let leaf = self.heap.arena.follow(link);
        let (parent, prev, next) = (leaf.parent, leaf.prev, leaf.next);
        set_empty(&mut self.heap.arena, link, self.free);
        self.close_gap(link, parent, prev, next);
    }

    // Makes the neighbours of a cell that is dead now neighbours of each other, and the cell the first of the free list.
    #[inline(always)]
    fn close_gap(&mut self, link: Link, parent: MaybeLink, prev: MaybeLink, next: MaybeLink)
        requires parent { IfSome parent (λ l. IsSome (found self.old.heap.arena.cells l.ptr)) }
        requires left { IfSome prev (λ l. IsSome (found self.old.heap.arena.cells l.ptr)) }
        requires right { IfSome next (λ l. IsSome (found self.old.heap.arena.cells l.ptr)) }
        requires placed { IsInSomeBlock link.ptr }
        requires some { 1 ≤ self.old.len }
        ensures cells { self.new.heap.arena.cells ≡ join_put parent prev next self.old.heap.arena.cells }
        ensures fields { Closes self.old self.new link parent }
    {
        self.free = MaybeLink::to(link);
        join(&mut self.heap.arena, parent, prev, next);
        self.root = root_left(parent, self.root);
        self.len -= 1;
    }
}

impl<T> RawRows<T> {
    /// The node of a row.
    #[inline(always)]
    pub(crate) fn node(&self, place: Place) -> &Node<T>
        requires raw { IsRaw self.now }
        requires used { IsSome (fin.get (raw_of self.now).rows place.0) }
        ensures { (e : StoreRow T) → fin.get (raw_of self.now).rows place.0 ≡ Some e
            → Keeps self.now.heap.arena.cells result.now (linked_at (raw_of self.now).rows place.0 e) }
    {
        self.heap.arena.follow(self.link(place))
    }

    /// The number of the cell that a link leads to, where it leads to a row.
    #[inline(always)]
    pub(crate) fn place_at(&self, link: MaybeLink) -> Option<Place>
        requires raw { IsRaw self.now }
        requires used { IfSome link (λ l. IsSome (fin.get (raw_of self.now).rows (place_of self.now.heap.arena.cells l.ptr))) }
        ensures { option_map (λ p. p.0) result ≡ index_in self.now.heap.arena.cells link }
    {
        match link.get() {
            Some(link) => Some(self.place(link)),
            None => None,
        }
    }
}

// The root that stays where a row is taken out of the one below this parent.
#[inline(always)]
fn root_left(parent: MaybeLink, root: MaybeLink) -> MaybeLink
    ensures { result ≡ (if is_some parent then root else None) }
{
    match parent.get() {
        Some(_) => root,
        None => MaybeLink::none(),
    }
}
