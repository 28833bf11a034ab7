//! Blocks of cells, and the links to the cells by place.
ghost use Rattle.std.specs.Prelude.{◌≡◌, List, take, ◌-◌, ◌+◌, ◌<◌, ◌≤◌, ◌++◌, [], Some, None, IfOk, IfErr, OnOk, OnErr, IsSome, map, length, replicate, drop, slice_get, vec_len};
ghost use Rattle.std.specs.Mem.{type_size};
ghost use Rattle.std.specs.List.{AllByRecursion};
ghost use Rattle.raw_nodes.specs.Spots.{found, IsLast, IsInSomeBlock, run_places, places};
ghost use Rattle.raw_nodes.specs.Nodes.{dead_nodes, IsToldByLinks};
ghost use Rattle.raw_nodes.specs.declared.node.Node.{Node};
ghost use Rattle.raw_nodes.specs.Heaps.{IsBlock, IsHeap, addresses, Grows};

use crate::arena::{Arena, Link, Run};
use crate::cells::{Base, Cells, Deed, allocate, deallocate, located};
use crate::maybe_link::MaybeLink;
use crate::node::Node;
use crate::slot::Slot;
use std::alloc::{AllocError, Global};
use std::mem::size_of;
use std_alloc::room::may_hold;

/// How many cells a block has.
pub const BLOCK_CELLS: usize = 256;

/// A block, where its cells lie, and the right to free it.
pub struct Block<T> {
    pub(crate) base: Base<Node<T>>,
    pub(crate) run: Run<Node<T>>,
    pub(crate) deed: Deed<Node<T>, Global>,
}

/// All blocks with their cells, and each cell's link under its number.
pub struct Heap<T> {
    pub(crate) arena: Arena<Node<T>>,
    pub(crate) blocks: Vec<Block<T>>,
    pub(crate) links: Vec<Link>,
    pub(crate) alloc: Global,
}

// A block of empty cells, to each of which a link is added.
fn new_block<N>(
    alloc: Global,
    links: &mut Vec<Link>,
    count: usize,
) -> Result<(Base<N>, Cells<N>, Deed<N, Global>), AllocError>
    ensures links { IfOk result (λ r. addresses links.new.items
        ≡ addresses links.old.items ++ run_places (type_size N.row) r.0.ptr count) }
    ensures block { IfOk result (λ r. (r.1.at ≡ r.0.ptr) × (r.1.slots ≡ replicate count None)
        × (r.2.at ≡ r.0.ptr) × (r.2.len ≡ count) × (r.2.alloc ≡ alloc)) }
    ensures placed { IfOk result (λ r. AllByRecursion IsInSomeBlock (run_places (type_size N.row) r.0.ptr count)) }
    ensures size { OnOk result (0 < type_size N.row) }
    ensures len { OnOk result (vec_len links.new ≡ vec_len links.old + count) }
    ensures err { OnErr result (links.new.items ≡ links.old.items) }
{
    if !may_hold::<N>(count) {
        return Err(AllocError);
    }
    if count * size_of::<N>() == 0 {
        return Err(AllocError);
    }
    links.reserve(count)?;
    let (base, cells, deed) = allocate(&alloc, count)?;
    let deed = located(deed);
    for index in 0..count {
        links.push_reserved(Link::within(base, index));
    }
    Ok((base, cells, deed))
}

fn link_at(links: &[Link], index: usize) -> Option<Link>
    ensures { result ≡ slice_get links.now index }
{
    links.get(index).copied()
}

// Fills the cells with dead nodes, each linked to the next, over the bytes of an empty slot.
fn fill<T>(
    cells: &mut Cells<Node<T>>,
    base: Base<Node<T>>,
    first: usize,
    links: &[Link],
    blank: &mut Slot<T>,
)
    requires at { cells.old.at ≡ base.ptr }
    requires empty { cells.old.slots ≡ replicate (length links.now) None }
    requires placed { AllByRecursion IsInSomeBlock (addresses links.now) }
    requires blank { blank.old ≡ None }
    requires fits { first + length links.now < 18446744073709551616 }
    ensures at { cells.new.at ≡ cells.old.at }
    ensures filled { cells.new.slots ≡ map Some (dead_nodes first links.now) }
    ensures blank { blank.new ≡ None }
{
    for index in 0..links.len() {
        let (this, later) = (link_at(links, index), link_at(links, index + 1));
        let (own, next) = (MaybeLink::of(this), MaybeLink::of(later));
        cells.write(base, index, Node::dead(first + index, own, next, blank));
    }
}

// An empty slot with the bytes of a row's payload.
fn bytes_of<T>(arena: &mut Arena<Node<T>>, row: Link) -> Slot<T>
    requires { (n : Node T) × (found arena.old.cells row.ptr ≡ Some n) × IsSome n.payload }
    ensures empty { result ≡ None }
    ensures arena { arena.new ≡ arena.old }
{
    let node = arena.follow_mut(row);
    Slot::like(node.payload_mut())
}

// The links from the number on.
fn links_from(links: &Vec<Link>, from: usize) -> &[Link]
    requires { from ≤ vec_len links.now }
    ensures { result.now ≡ drop from links.now.items }
{
    let (_, later) = links.as_slice().split_at(from);
    later
}

impl<T> Heap<T> {
    pub(crate) fn new(alloc: Global) -> Heap<T>
        ensures cells { result.arena.cells ≡ [] }
        ensures heap { IsHeap result }
    {
        Heap {
            arena: Arena::new(),
            blocks: Vec::new(alloc),
            links: Vec::new(alloc),
            alloc,
        }
    }

    // Makes a block of dead cells over the bytes of an empty slot, each linked to the next, and answers the link to the first.
    fn grow(&mut self, blank: &mut Slot<T>) -> Result<Link, AllocError>
        requires heap { IsHeap self.old }
        requires blank { blank.old ≡ None }
        ensures heap { IsHeap self.new }
        ensures ok { IfOk result (λ first. Grows self.old self.new first) }
        ensures err { OnErr result (self.new.arena.cells ≡ self.old.arena.cells) }
        ensures blank { blank.new ≡ None }
    {
        self.blocks.reserve(1)?;
        let count = self.links.len();
        let (base, mut cells, deed) = new_block(self.alloc, &mut self.links, BLOCK_CELLS)?;
        fill(
            &mut cells,
            base,
            count,
            links_from(&self.links, count),
            blank,
        );
        let run = self.arena.adopt(cells);
        self.blocks.push_reserved(Block { base, run, deed });
        Ok(self.links[count])
    }

    /// Makes a block of dead cells, each linked to the next, and answers the link to the first. Of the value only its bytes
    /// are read.
    #[cold]
    pub(crate) fn grow_like(&mut self, like: &mut T) -> Result<Link, AllocError>
        requires { IsHeap self.old }
        ensures heap { IsHeap self.new }
        ensures ok { IfOk result (λ first. Grows self.old self.new first) }
        ensures err { OnErr result (self.new.arena.cells ≡ self.old.arena.cells) }
        ensures like { like.new ≡ like.old }
    {
        let mut bytes = Slot::like(like);
        let made = self.grow(&mut bytes);
        bytes.destroy_empty();
        made
    }

    /// The same with the bytes of a row's payload.
    #[cold]
    pub(crate) fn grow_beside(&mut self, row: Link) -> Result<Link, AllocError>
        requires heap { IsHeap self.old }
        requires row { (n : Node T) × (found self.old.arena.cells row.ptr ≡ Some n) × IsSome n.payload }
        ensures heap { IsHeap self.new }
        ensures ok { IfOk result (λ first. Grows self.old self.new first) }
        ensures err { OnErr result (self.new.arena.cells ≡ self.old.arena.cells) }
    {
        let mut bytes = bytes_of(&mut self.arena, row);
        let made = self.grow(&mut bytes);
        bytes.destroy_empty();
        made
    }

    /// Drops what the cells hold, and frees the blocks.
    pub(crate) fn destroy(self)
    where
        T: Drop,
        requires heap { IsHeap self }
        requires told { AllByRecursion (λ s. IsToldByLinks s.held) self.arena.cells }
    {
        let Heap {
            mut arena,
            mut blocks,
            links: _,
            alloc,
        } = self;
        while let Some(block) = blocks.pop() {
            free_block(&mut arena, alloc, block);
        }
        blocks.destroy_empty();
        arena.destroy_empty();
    }
}

// Drops what the last block's cells hold, and frees it.
fn free_block<T: Drop>(arena: &mut Arena<Node<T>>, alloc: Global, block: Block<T>)
    requires last { IsLast block.run.places arena.old.cells }
    requires block { IsBlock block }
    requires told { AllByRecursion (λ s. IsToldByLinks s.held) arena.old.cells }
    ensures { arena.new.cells ≡ take (length arena.old.cells - 256) arena.old.cells }
{
    let Block { base, run, deed } = block;
    let mut cells = arena.release(run);
    empty(&mut cells, base, BLOCK_CELLS);
    deallocate(&alloc, base, BLOCK_CELLS, cells, deed);
}

// Drops what the cells hold.
fn empty<T: Drop>(cells: &mut Cells<Node<T>>, base: Base<Node<T>>, count: usize)
    requires at { cells.old.at ≡ base.ptr }
    requires filled { (xs : List (Node T)) × (cells.old.slots ≡ map Some xs) × (length xs ≡ count)
        × AllByRecursion IsToldByLinks xs }
    ensures at { cells.new.at ≡ cells.old.at }
    ensures empty { cells.new.slots ≡ replicate count None }
{
    for index in 0..count {
        cells.read(base, index).destroy();
    }
}
