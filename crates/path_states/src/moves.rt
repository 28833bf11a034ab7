//! The remembered moves between states.
ghost use Rattle.std.specs.Prelude.{◌≡◌, ◌<◌, ◌⊎◌, ◌-◌, ◌*◌, ◌^◌, length, min, Some, true, IfOk, IfSome};
ghost use Rattle.gcx_model.specs.Members.{In};
ghost use Rattle.path_states.specs.Moves.{AddsAtMost, GrowsIf, HasNone, Remembers};
ghost use Rattle.path_states.specs.Room.{slot_bytes};
ghost use Rattle.path_states.specs.declared.moves.Move.{Move};

use gcx_base::Memory;
use std::alloc::Global;

/// How many slots a new table has: a power of two.
const FIRST_SLOTS: usize = 64;

/// In how many slots from its place on a move may stand.
const NEAR: usize = 4;

/// What a slot takes of memory.
const SLOT_BYTES: usize = 16;

/// A move from one remembered state to another, by the number of a name.
#[derive(Clone, Copy, Debug)]
pub(crate) struct Move {
    pub from: u32,
    pub number: u32,
    pub to: u32,
}

/// Moves by their states and numbers. One that isn't found costs time alone, so no contract says where they stand.
#[derive(Drop, Debug)]
pub(crate) struct Moves {
    pub slots: Vec<Option<Move>>,
    /// How many numbers of names there are: while states are few each move has a slot of its own.
    pub stride: usize,
}

/// So many empty slots.
fn empty_slots(alloc: Global, count: usize) -> Result<Vec<Option<Move>>, Memory>
    ensures none { IfOk result (λ slots. HasNone slots.items) }
    ensures count { IfOk result (λ slots. length slots.items ≡ count) }
{
    let mut slots = Vec::new(alloc);
    for _ in 0..count {
        slots.push(None)?;
    }
    Ok(slots)
}

/// Where the move leads, if it is that from this state by this number.
#[inline(always)]
fn end_of(known: Move, from: usize, number: usize) -> Option<usize>
    ensures { IfSome result (λ to. (known.from ≡ from) × ((known.number ≡ number) × (known.to ≡ to))) }
{
    if known.from as usize == from && known.number as usize == number {
        Some(known.to as usize)
    } else {
        None
    }
}

impl Moves {
    /// A table without moves, for so many numbers of names.
    pub(crate) fn new(alloc: Global, stride: usize) -> Result<Moves, Memory>
        ensures none { IfOk result (λ moves. HasNone moves.slots.items) }
        ensures count { IfOk result (λ moves. length moves.slots.items ≡ 64) }
    {
        let slots = empty_slots(alloc, FIRST_SLOTS)?;
        Ok(Moves { slots, stride })
    }

    /// How many slots there are.
    pub(crate) fn len(&self) -> usize
        ensures { result ≡ length self.now.slots.items }
    {
        self.slots.len()
    }

    /// What the table takes of memory.
    pub(crate) fn bytes(&self) -> usize
        ensures { result ≡ min (slot_bytes (length self.now.slots.items)) (2 ^ 64 - 1) }
    {
        self.slots.len().saturating_mul(SLOT_BYTES)
    }

    /// The first slot in which the move may stand.
    #[inline(always)]
    fn place(&self, from: usize, number: usize) -> usize {
        let place = from.wrapping_mul(self.stride).wrapping_add(number);
        place & self.slots.len().wrapping_sub(1)
    }

    /// Where the move leads from this state by this number, if it stands in the slot.
    #[inline(always)]
    fn end_at(&self, at: usize, from: usize, number: usize) -> Option<usize>
        ensures { IfSome result (Remembers self.now from number) }
    {
        match self.slots.get(at) {
            Some(slot) => match slot {
                Some(known) => end_of(*known, from, number),
                None => None,
            },
            None => None,
        }
    }

    /// Where the move from this state by this number leads, if it is remembered.
    #[inline(always)]
    pub(crate) fn find(&self, from: usize, number: usize) -> Option<usize>
        ensures { IfSome result (Remembers self.now from number) }
    {
        let place = self.place(from, number);
        for at in place..place.saturating_add(NEAR) {
            if let Some(to) = self.end_at(at, from, number) {
                return Some(to);
            }
        }
        None
    }

    /// Whether the slot is there and empty.
    fn is_empty(&self, at: usize) -> bool
        ensures { result ≡ true → at < length self.now.slots.items }
    {
        match self.slots.get(at) {
            Some(None) => true,
            Some(Some(_)) | None => false,
        }
    }

    /// An empty slot in which the move may stand.
    fn empty_for(&self, one: Move) -> Option<usize>
        ensures { IfSome result (λ at. at < length self.now.slots.items) }
    {
        let place = self.place(one.from as usize, one.number as usize);
        for at in place..place.saturating_add(NEAR) {
            if self.is_empty(at) {
                return Some(at);
            }
        }
        None
    }

    /// Puts the move into an empty slot, if there is one for it, and answers whether there was.
    fn place_it(&mut self, one: Move) -> bool
        ensures adds { AddsAtMost self.old.slots.items self.new.slots.items one }
        ensures count { length self.new.slots.items ≡ length self.old.slots.items }
    {
        match self.empty_for(one) {
            Some(at) => {
                self.slots[at] = Some(one);
                true
            }
            None => false,
        }
    }

    /// Puts the slot's move, if it has one, into an empty slot, if there is one for it.
    fn place_slot(&mut self, slot: &Option<Move>)
        ensures count { length self.new.slots.items ≡ length self.old.slots.items }
        ensures adds { (m : Move) → In (Some m) self.new.slots.items →
            In (Some m) self.old.slots.items ⊎ (slot.now ≡ Some m) }
    {
        if let Some(one) = slot {
            self.place_it(*one);
        }
    }

    /// A table of twice as many slots, with those of the moves that find one there.
    fn grown(&self, alloc: Global) -> Result<Moves, Memory>
        ensures count { IfOk result (λ moves. length moves.slots.items ≡ 2 * length self.now.slots.items) }
        ensures moves { IfOk result (λ moves.
            (m : Move) → In (Some m) moves.slots.items → In (Some m) self.now.slots.items) }
    {
        let slots = empty_slots(alloc, self.slots.len() * 2)?;
        let mut moves = Moves {
            slots,
            stride: self.stride,
        };
        for slot in &self.slots {
            moves.place_slot(slot);
        }
        Ok(moves)
    }

    /// Remembers the move in a table of twice as many slots, unless there is no memory for it.
    fn grow_for(&mut self, alloc: Global, one: Move)
        ensures adds { AddsAtMost self.old.slots.items self.new.slots.items one }
        ensures count { GrowsIf true (length self.old.slots.items) (length self.new.slots.items) }
    {
        if let Ok(grown) = self.grown(alloc) {
            *self = grown;
            self.place_it(one);
        }
    }

    /// Remembers the move, if a slot is empty for it. Where none is and the table may grow, a greater one is made, unless
    /// there is no memory for it.
    pub(crate) fn put(&mut self, alloc: Global, one: Move, may_grow: bool)
        ensures adds { AddsAtMost self.old.slots.items self.new.slots.items one }
        ensures count { GrowsIf may_grow (length self.old.slots.items) (length self.new.slots.items) }
    {
        if self.place_it(one) {
            return;
        }
        if may_grow {
            self.grow_for(alloc, one);
        }
    }
}
