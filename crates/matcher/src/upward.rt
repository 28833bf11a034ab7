//! From which open nodes some steps lead to one of these levels, going up.
ghost use Rattle.std.specs.Prelude.{◌≡◌, ◌<◌, ◌≤◌, ℕ, max, true, false, [], ◌∷◌, IfOk, OnOk};
ghost use Rattle.gcx_model.specs.Members.{In};
ghost use Rattle.path_states.specs.Lists.{Gains, Holds};
ghost use Rattle.matcher.specs.Frames.{Hit, HitAbove, HitAt, HitOver, HitParent, StepsUp, UpFrom};
ghost use Rattle.matcher.specs.View.{frames_of};

use crate::open_frames::OpenFrames;
use crate::roles::Levels;
use gcx_base::{Axis, Memory};
use path_states::{PathState, PathStates};
use smallvec::SmallVec;
use std::alloc::Global;

/// The level alone.
pub(crate) fn one(alloc: Global, level: usize) -> Levels
    ensures { result.items ≡ level ∷ [] }
{
    SmallVec::from_slice(alloc, &[level]).unwrap()
}

/// Whether the path of the path state leads to the node of this level.
fn is_hit(states: &PathStates, frames: &OpenFrames, state: u32, level: usize) -> bool
    ensures yes { result ≡ true → Hit (frames_of states.now frames.now) state level }
    ensures no { result ≡ false → Hit (frames_of states.now frames.now) state level → ⊥ }
{
    if level >= frames.len() {
        return false;
    }
    match states.at(level) {
        Some(at) => at.active().contains(&state),
        None => false,
    }
}

/// Adds the level above, where the path state's path leads to its node.
fn put_parent(
    found: &mut Levels,
    states: &PathStates,
    frames: &OpenFrames,
    state: u32,
    level: usize,
) -> Result<(), Memory>
    ensures { OnOk result (Gains found.old.items found.new.items (HitAbove (frames_of states.now frames.now) state level)) }
{
    if level == 0 {
        return Ok(());
    }
    put_level(found, states, frames, state, level - 1)?;
    Ok(())
}

/// The levels of the parents that the path state's path leads to.
fn parents(
    alloc: Global,
    states: &PathStates,
    frames: &OpenFrames,
    state: u32,
    levels: &[usize],
) -> Result<Levels, Memory>
    ensures { IfOk result (λ found. Holds found.items (HitParent (frames_of states.now frames.now) state levels.now)) }
{
    let mut found = SmallVec::new(alloc);
    for level in levels {
        put_parent(&mut found, states, frames, state, *level)?;
    }
    Ok(found)
}

fn larger(one: usize, other: usize) -> usize
    ensures { result ≡ max one other }
{
    if one < other { other } else { one }
}

/// The greatest of the levels, and 0 where there is none.
fn greatest(levels: &[usize]) -> usize
    ensures least { (l : ℕ) → In l levels.now → l ≤ result }
    ensures one { (l : ℕ) → l < result → In result levels.now }
{
    let mut greatest = 0;
    for level in levels {
        greatest = larger(greatest, *level);
    }
    greatest
}

/// Adds the level where the path state's path leads to its node.
pub(crate) fn put_level(
    found: &mut Levels,
    states: &PathStates,
    frames: &OpenFrames,
    state: u32,
    level: usize,
) -> Result<(), Memory>
    ensures { OnOk result (Gains found.old.items found.new.items (HitAt (frames_of states.now frames.now) state level)) }
{
    if is_hit(states, frames, state, level) {
        found.push(level)?;
    }
    Ok(())
}

/// The levels above this one that the path state's path leads to.
pub(crate) fn ancestors(
    alloc: Global,
    states: &PathStates,
    frames: &OpenFrames,
    state: u32,
    level: usize,
) -> Result<Levels, Memory>
    ensures { IfOk result (λ found. Holds found.items (HitOver (frames_of states.now frames.now) state level)) }
{
    let mut found = SmallVec::new(alloc);
    for other in 0..level {
        put_level(&mut found, states, frames, state, other)?;
    }
    Ok(found)
}

/// The levels from which the path state's step leads to one of these, as far as the path of the path state above leads
/// there.
fn step_up(
    alloc: Global,
    states: &PathStates,
    frames: &OpenFrames,
    state: &PathState,
    levels: &[usize],
) -> Result<Levels, Memory>
    ensures { IfOk result (λ found. Holds found.items (StepsUp (frames_of states.now frames.now) state.now levels.now)) }
{
    match state.step.axis {
        Axis::Child => {
            let found = parents(alloc, states, frames, state.parent, levels)?;
            Ok(found)
        }
        Axis::Descendant => {
            let found = ancestors(alloc, states, frames, state.parent, greatest(levels))?;
            Ok(found)
        }
    }
}

/// The levels from which the last `steps` steps of the path state's path lead to one of these levels.
pub(crate) fn origins(
    alloc: Global,
    states: &PathStates,
    frames: &OpenFrames,
    end: u32,
    steps: usize,
    targets: Levels,
) -> Result<Levels, Memory>
    ensures { IfOk result (λ levels. UpFrom states.now frames.now steps end targets.items levels.items) }
{
    let tree = &states.tree().states;
    let mut number = end;
    let mut levels = targets;
    for done in 0..steps {
        match tree.get(number as usize) {
            Some(state) => {
                levels = step_up(alloc, states, frames, state, levels.as_slice())?;
                number = state.parent;
            }
            None => return Ok(SmallVec::new(alloc)),
        }
    }
    Ok(levels)
}
