//! The states that were met, and the moves between them, as far as they are remembered.
ghost use Rattle.std.specs.Prelude.{◌≡◌, ◌<◌, ◌≤◌, ◌-◌, ◌^◌, ◌∷◌, ◌++◌, ℕ, List, [], length, min, take, true, IfOk, IfSome, OnErr, OnOk};
ghost use Rattle.gcx_base.specs.declared.kind.Kind.{Kind};
ghost use Rattle.path_states.specs.Lists.{Climbs};
ghost use Rattle.path_states.specs.Moves.{AddsMove, AreKnown, AreRight, AreSame, Forgets, HasParts, LeadsOn, MayAdd};
ghost use Rattle.path_states.specs.Branches.{IsStepIndex};
ghost use Rattle.path_states.specs.Names.{IsNameNumber};
ghost use Rattle.path_states.specs.Room.{HasRoomLeft, HasRoomForState, slot_bytes, state_bytes};
ghost use Rattle.path_states.specs.State.{IsMade, MovesBelow};
ghost use Rattle.path_states.specs.declared.paths.PathState.{PathState};

use crate::active::find_active;
use crate::branches::StepIndex;
use crate::homes::{Homes, NEAR, place_of};
use crate::moves::{Move, Moves};
use crate::paths::PathState;
use crate::state::{State, make_state};
use gcx_base::Memory;
use std::alloc::Global;

/// What a state takes of memory beside its lists.
const STATE_BYTES: usize = 256;

/// What is remembered at most: so many states, and so many bytes of states and moves together, but for the document node's
/// state. The rest is made anew.
#[derive(Clone, Copy, Debug)]
pub struct Bound {
    pub states: usize,
    pub bytes: usize,
}

impl Bound {
    /// The usual bound.
    pub fn usual() -> Bound
        ensures { result.bytes ≡ 262144 }
    {
        Bound {
            states: usize::MAX,
            bytes: 262_144,
        }
    }
}

/// States, and moves between them. The first ones are kept; behind them stand those of open nodes for which there was no
/// room.
#[derive(Drop)]
pub(crate) struct Remembered {
    pub states: Vec<State>,
    /// How many are kept.
    pub kept: usize,
    pub moves: Moves,
    /// Where the kept ones are found by their parts.
    pub homes: Homes,
    /// What the kept states take, but for the first.
    pub bytes: usize,
    pub bound: Bound,
}

/// About what the state takes of memory.
fn bytes_of(state: &State) -> usize
    ensures { min (state_bytes state.now) (2 ^ 64 - 1) ≤ result }
{
    let numbers = state
        .active()
        .len()
        .saturating_add(state.pending().len())
        .saturating_add(state.whole().len())
        .saturating_add(state.whole_here().len())
        .saturating_add(state.given().len().saturating_mul(2))
        .saturating_add(state.contexts().len());
    numbers.saturating_mul(4).saturating_add(STATE_BYTES)
}

/// The move as it is remembered, where its numbers are small enough.
fn move_of(from: usize, number: usize, to: usize) -> Option<Move>
    ensures { IfSome result (λ one. (one.from ≡ from) × ((one.number ≡ number) × (one.to ≡ to))) }
{
    let Ok(from) = u32::try_from(from) else {
        return None;
    };
    let Ok(number) = u32::try_from(number) else {
        return None;
    };
    let Ok(to) = u32::try_from(to) else {
        return None;
    };
    Some(Move { from, number, to })
}

/// Whether the number is that of a kept state with the same parts.
fn is_same(states: &[State], kept: usize, at: usize, state: &State) -> bool
    ensures kept { result ≡ true → at < kept }
    ensures same { result ≡ true → HasParts states.now at state.now }
{
    match states.get(at) {
        Some(known) => at < kept && known.has_parts_of(state),
        None => false,
    }
}

/// The kept state with the same parts, if it is found.
fn find_same(states: &[State], kept: usize, homes: &Homes, state: &State) -> Option<usize>
    ensures kept { IfSome result (λ at. at < kept) }
    ensures same { IfSome result (λ at. HasParts states.now at state.now) }
{
    let first = place_of(state);
    for place in first..first.saturating_add(NEAR) {
        let at = homes.at(place);
        if is_same(states, kept, at, state) {
            return Some(at);
        }
    }
    None
}

/// The state of a node whose name has the number, below one of the other state.
fn child_of(
    alloc: Global,
    tree: &[PathState],
    steps: &StepIndex,
    above: &State,
    number: usize,
) -> Result<State, Memory>
    ensures made { IfOk result (λ s. Climbs above.now.whole → IsMade tree.now s) }
    ensures leads { IfOk result (λ s. IsStepIndex tree.now steps.now →
        (kind : Kind) → IsNameNumber steps.now.names.items kind number → MovesBelow tree.now above.now kind s) }
{
    let active = find_active(alloc, tree, steps, number, above.active(), above.pending())?;
    let state = make_state(alloc, tree, active, above.pending(), above.whole())?;
    Ok(state)
}

impl Remembered {
    /// The first state alone, with no moves, for so many numbers of names.
    pub(crate) fn new(
        alloc: Global,
        bound: Bound,
        stride: usize,
        first: State,
    ) -> Result<Remembered, Memory>
        ensures first { IfOk result (λ known. known.states.items ≡ first ∷ []) }
        ensures bound { IfOk result (λ known. known.bound ≡ bound) }
        ensures right { IfOk result (λ known. (tree : List PathState) (names : List (List ℕ)) →
            IsMade tree first → AreRight tree names known) }
    {
        let mut states = Vec::new(alloc);
        states.push(first)?;
        let moves = Moves::new(alloc, stride)?;
        let homes = Homes::new(alloc)?;
        Ok(Remembered {
            states,
            kept: 1,
            moves,
            homes,
            bytes: 0,
            bound,
        })
    }

    /// The kept states.
    pub(crate) fn kept_states(&self) -> &[State]
        requires { self.now.kept ≤ length self.now.states.items }
        ensures { result.now ≡ take self.now.kept self.now.states.items }
    {
        self.states.as_slice().split_at(self.kept).0
    }

    /// Whether there is room for so many bytes more.
    fn has_room(&self, bytes: usize) -> bool
        ensures { result ≡ true → HasRoomForState self.now bytes }
    {
        let taken = self.bytes.saturating_add(self.moves.bytes());
        bytes < self.bound.bytes.saturating_sub(taken)
    }

    /// Whether there is room for twice as many slots.
    fn may_grow(&self) -> bool
        ensures { result ≡ true → HasRoomForState self.now (slot_bytes (length self.now.moves.slots.items)) }
    {
        self.has_room(self.moves.bytes())
    }

    /// Whether one more state may be kept, which takes so many bytes.
    fn may_keep(&self, bytes: usize) -> bool
        ensures states { result ≡ true → self.now.kept < self.now.bound.states }
        ensures room { result ≡ true → HasRoomForState self.now bytes }
    {
        self.kept < self.bound.states && self.has_room(bytes)
    }

    /// Remembers the move, if there is room for it.
    fn remember(&mut self, alloc: Global, from: usize, number: usize, to: usize)
        ensures states { self.new.states ≡ self.old.states }
        ensures kept { self.new.kept ≡ self.old.kept }
        ensures bound { self.new.bound ≡ self.old.bound }
        ensures room { HasRoomLeft self.old → HasRoomLeft self.new }
        ensures moves { AddsMove self.old.moves self.new.moves from number to }
    {
        if let Some(one) = move_of(from, number, to) {
            let may_grow = self.may_grow();
            self.moves.put(alloc, one, may_grow);
        }
    }

    /// Adds the state at the end, and answers its number.
    fn add_last(&mut self, state: State) -> Result<usize, Memory>
        ensures kept { self.new.kept ≡ self.old.kept }
        ensures moves { self.new.moves ≡ self.old.moves }
        ensures bytes { self.new.bytes ≡ self.old.bytes }
        ensures bound { self.new.bound ≡ self.old.bound }
        ensures ok { OnOk result (self.new.states.items ≡ self.old.states.items ++ state ∷ []) }
        ensures number { IfOk result (λ to. to ≡ length self.old.states.items) }
        ensures err { OnErr result (self.new.states.items ≡ self.old.states.items) }
    {
        let to = self.states.len();
        self.states.push(state)?;
        Ok(to)
    }

    /// Adds a state that isn't kept yet, and keeps it if there is room.
    fn add_new(
        &mut self,
        alloc: Global,
        from: usize,
        number: usize,
        state: State,
    ) -> Result<usize, Memory>
        requires all { length self.old.states.items ≤ self.old.kept }
        ensures ok { IfOk result (λ to. (tree : List PathState) (names : List (List ℕ)) →
            MayAdd tree names self.old from number state → LeadsOn tree names self.old self.new from number to) }
        ensures err { OnErr result (AreSame self.old self.new) }
    {
        let bytes = bytes_of(&state);
        let place = place_of(&state);
        let is_room = self.may_keep(bytes);
        let to = self.add_last(state)?;
        if !is_room {
            return Ok(to);
        }
        self.kept = self.states.len();
        self.bytes = self.bytes.saturating_add(bytes);
        self.homes.put(place, to);
        self.remember(alloc, from, number, to);
        Ok(to)
    }

    /// The number of a state of these parts, to which the number of a name leads from the other state.
    fn add(
        &mut self,
        alloc: Global,
        from: usize,
        number: usize,
        state: State,
    ) -> Result<usize, Memory>
        ensures ok { IfOk result (λ to. (tree : List PathState) (names : List (List ℕ)) →
            MayAdd tree names self.old from number state → LeadsOn tree names self.old self.new from number to) }
        ensures err { OnErr result (AreSame self.old self.new) }
    {
        // Behind a state that isn't kept none can be kept.
        if self.kept < self.states.len() {
            let to = self.add_last(state)?;
            return Ok(to);
        }
        match find_same(&self.states, self.kept, &self.homes, &state) {
            Some(to) => {
                self.remember(alloc, from, number, to);
                Ok(to)
            }
            None => {
                let to = self.add_new(alloc, from, number, state)?;
                Ok(to)
            }
        }
    }

    /// Makes the state of a node whose name has the number, below one of the state `from`, and answers its number: that of
    /// a kept one with the same parts, where it is found.
    #[inline(never)]
    fn make_child(
        &mut self,
        alloc: Global,
        tree: &[PathState],
        steps: &StepIndex,
        from: usize,
        number: usize,
    ) -> Result<usize, Memory>
        requires known { from < length self.old.states.items }
        ensures ok { IfOk result (λ to. AreKnown tree.now steps.now self.old →
            LeadsOn tree.now steps.now.names.items self.old self.new from number to) }
        ensures err { OnErr result (AreSame self.old self.new) }
    {
        let state = child_of(alloc, tree, steps, &self.states[from], number)?;
        let to = self.add(alloc, from, number, state)?;
        Ok(to)
    }

    /// The number of the state of a node whose name has the number, below one of the state `from`.
    #[inline(always)]
    pub(crate) fn child(
        &mut self,
        alloc: Global,
        tree: &[PathState],
        steps: &StepIndex,
        from: usize,
        number: usize,
    ) -> Result<usize, Memory>
        requires known { from < length self.old.states.items }
        ensures ok { IfOk result (λ to. AreKnown tree.now steps.now self.old →
            LeadsOn tree.now steps.now.names.items self.old self.new from number to) }
        ensures err { OnErr result (AreSame self.old self.new) }
    {
        match self.moves.find(from, number) {
            Some(to) => Ok(to),
            None => {
                let to = self.make_child(alloc, tree, steps, from, number)?;
                Ok(to)
            }
        }
    }

    /// Forgets the state of this number and those behind it, unless it is kept. Takes no memory.
    #[inline(always)]
    pub(crate) fn forget(&mut self, number: usize)
        ensures kept { self.new.kept ≡ self.old.kept }
        ensures moves { self.new.moves ≡ self.old.moves }
        ensures bytes { self.new.bytes ≡ self.old.bytes }
        ensures bound { self.new.bound ≡ self.old.bound }
        ensures states { Forgets self.old self.new number }
    {
        if number >= self.kept {
            self.states.truncate(number);
        }
    }
}
