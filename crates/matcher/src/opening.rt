//! A new node is entered: its state, and its frame where paths lead to it or to nodes below it.
ghost use Rattle.std.specs.Prelude.{◌≡◌, true, IfOk, OnOk, OnErr};
ghost use Rattle.matcher.specs.Entering.{AddsFrame, AddsGiven, AddsSome, Advances, FindsHere, HaveStayed, IsVain, EntersIfLed};
ghost use Rattle.matcher.specs.View.{GoTogether};

use crate::found::{FoundList, found_of};
use crate::frames::Found;
use crate::open_frames::OpenFrames;
use crate::roles::given_with;
use gcx_base::Memory;
use gcx_model::Given;
use path_states::{PathStates, State};
use smallvec::SmallVec;
use std::alloc::Global;

/// Whether no path leads to the node with this state, nor to any below it: a text has none below it.
#[inline(always)]
fn is_vain(state: &State, text: bool) -> bool
    ensures { result ≡ true → IsVain state.now text }
{
    state.active().is_empty() && (text || state.pending().is_empty())
}

/// The contexts whose first match the node with the innermost state is, which has no frame yet.
#[inline(always)]
fn first_matches(
    alloc: Global,
    states: &PathStates,
    frames: &OpenFrames,
) -> Result<FoundList, Memory>
    ensures { IfOk result (λ found. FindsHere states.now frames.now found.items) }
{
    let state = states.here();
    if !state.has_firsts() {
        return Ok(SmallVec::new(alloc));
    }
    found_of(alloc, states, frames, state.active(), frames.len())
}

/// Adds the frame of the node with the innermost state, whose first matches these are. After `Memory` there are the same
/// frames.
#[inline(always)]
fn put_frame(states: &PathStates, frames: &mut OpenFrames, firsts: &[Found]) -> Result<(), Memory>
    ensures added { OnOk result
        (FindsHere states.now frames.old firsts.now → AddsFrame states.now frames.old frames.new firsts.now) }
    ensures err { OnErr result (frames.new ≡ frames.old) }
{
    frames.add(states.here().contexts(), firsts)?;
    frames.note_found(firsts);
    Ok(())
}

/// Adds the frame of the node with the innermost state, whose first matches are looked for. After `Memory` there are the
/// same frames.
#[inline(never)]
fn add_found(alloc: Global, states: &PathStates, frames: &mut OpenFrames) -> Result<(), Memory>
    ensures added { OnOk result (AddsSome states.now frames.old frames.new) }
    ensures err { OnErr result (frames.new ≡ frames.old) }
{
    let found = first_matches(alloc, states, frames)?;
    let firsts = found.as_slice();
    put_frame(states, frames, firsts)?;
    Ok(())
}

/// Adds the frame of the node with the innermost state. Its first matches are looked for where the state may give any.
#[inline(always)]
fn add_frame(alloc: Global, states: &PathStates, frames: &mut OpenFrames) -> Result<(), Memory>
    ensures added { OnOk result (AddsSome states.now frames.old frames.new) }
    ensures err { OnErr result (frames.new ≡ frames.old) }
{
    let state = states.here();
    if !state.has_firsts() {
        return put_frame(states, frames, &[]);
    }
    add_found(alloc, states, frames)
}

/// Adds the frame of the node with the innermost state, and answers the roles of the node.
fn add_given(alloc: Global, states: &PathStates, frames: &mut OpenFrames) -> Result<Given, Memory>
    ensures added { IfOk result (AddsGiven states.now frames.old frames.new) }
    ensures err { OnErr result (frames.new ≡ frames.old) }
{
    let found = first_matches(alloc, states, frames)?;
    let firsts = found.as_slice();
    let state = states.here();
    let given = given_with(alloc, state.given(), firsts)?;
    put_frame(states, frames, firsts)?;
    Ok(given)
}

/// Goes to a new node whose name has the number, and answers its roles: None, where no path leads to it, nor to any below
/// it. Then, and after `Memory`, nothing is changed.
pub(crate) fn advance(
    alloc: Global,
    states: &mut PathStates,
    frames: &mut OpenFrames,
    number: usize,
    text: bool,
) -> Result<Option<Given>, Memory>
    ensures done { IfOk result (Advances states.old states.new frames.old frames.new number text) }
    ensures err { OnErr result (GoTogether states.old frames.old → HaveStayed states.old states.new frames.old frames.new) }
{
    states.enter(alloc, number)?;
    if is_vain(states.here(), text) {
        states.leave();
        return Ok(None);
    }
    match add_given(alloc, states, frames) {
        Ok(given) => Ok(Some(given)),
        Err(Memory) => {
            states.leave();
            Err(Memory)
        }
    }
}

/// Goes to a new node as `advance` does, without its roles: false, where no path leads to it, nor to any below it.
#[inline(always)]
pub(crate) fn step(
    alloc: Global,
    states: &mut PathStates,
    frames: &mut OpenFrames,
    number: usize,
    text: bool,
) -> Result<bool, Memory>
    ensures done { IfOk result (EntersIfLed states.old states.new frames.old frames.new number text) }
    ensures err { OnErr result (GoTogether states.old frames.old → HaveStayed states.old states.new frames.old frames.new) }
{
    states.enter(alloc, number)?;
    if is_vain(states.here(), text) {
        states.leave();
        return Ok(false);
    }
    match add_frame(alloc, states, frames) {
        Ok(()) => Ok(true),
        Err(Memory) => {
            states.leave();
            Err(Memory)
        }
    }
}
