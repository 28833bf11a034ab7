//! First matches: which contexts have none yet, and which find one in a new node.
ghost use Rattle.std.specs.Prelude.{◌≡◌, [], true, false, IfOk, OnOk};
ghost use Rattle.path_states.specs.Lists.{From, Gains, Holds};
ghost use Rattle.matcher.specs.Entering.{FindsAll, FindsAt, FindsRole, FindsRoles};
ghost use Rattle.matcher.specs.Frames.{FoundAt, Hit, IsLevelOf, Unfound};
ghost use Rattle.matcher.specs.View.{frames_of};

use crate::frames::{Found, has_unmatched};
use crate::open_frames::OpenFrames;
use crate::roles::Levels;
use crate::upward::{ancestors, one, origins};
use gcx_base::Memory;
use path_states::PathStates;
use smallvec::SmallVec;
use std::alloc::Global;

/// Contexts that find their first match. A short list lies in the value itself.
pub(crate) type FoundList = SmallVec<Found, 4>;

/// Whether the node of the level is a context of the role without a match.
fn is_unfound(frames: &OpenFrames, role: u32, level: usize) -> bool
    ensures yes { result ≡ true → Unfound frames.now role level }
    ensures no { result ≡ false → Unfound frames.now role level → ⊥ }
{
    match frames.contexts_at(level) {
        Some(contexts) => has_unmatched(contexts, role),
        None => false,
    }
}

/// Adds the role with the level, where the level's node is a context without a match.
fn put_one(
    found: &mut FoundList,
    frames: &OpenFrames,
    role: u32,
    level: usize,
) -> Result<(), Memory>
    ensures { OnOk result (Gains found.old.items found.new.items (FoundAt frames.now role level)) }
{
    if is_unfound(frames, role, level) {
        found.push(Found { role, level })?;
    }
    Ok(())
}

/// Adds the role with each of the levels whose node is a context without a match.
fn put_found(
    found: &mut FoundList,
    frames: &OpenFrames,
    role: u32,
    levels: &[usize],
) -> Result<(), Memory>
    ensures { OnOk result (Gains found.old.items found.new.items (From levels.now (FoundAt frames.now role))) }
{
    for level in levels {
        put_one(found, frames, role, *level)?;
    }
    Ok(())
}

/// Adds the contexts of the role whose first match a new node of the level is, to which the role's path leads.
#[inline(never)]
fn find_role(
    alloc: Global,
    found: &mut FoundList,
    states: &PathStates,
    frames: &OpenFrames,
    role: u32,
    level: usize,
) -> Result<(), Memory>
    ensures { OnOk result (FindsRole states.now frames.now role level found.old.items found.new.items) }
{
    if !frames.may_match(role) {
        return Ok(());
    }
    if let Some(way) = states.tree().ways.get(role as usize) {
        let targets = one(alloc, level);
        let levels = origins(alloc, states, frames, way.end, way.steps, targets)?;
        put_found(found, frames, role, levels.as_slice())?;
    }
    Ok(())
}

/// Adds the contexts of each of these roles whose first match a new node of the level is, to which the roles' paths lead.
fn find_roles(
    alloc: Global,
    found: &mut FoundList,
    states: &PathStates,
    frames: &OpenFrames,
    roles: &[u32],
    level: usize,
) -> Result<(), Memory>
    ensures { OnOk result (FindsRoles states.now frames.now roles.now level found.old.items found.new.items) }
{
    for role in roles {
        find_role(alloc, found, states, frames, *role, level)?;
    }
    Ok(())
}

/// Adds those of the roles that end at this path state, whose path leads to the new node.
fn find_state(
    alloc: Global,
    found: &mut FoundList,
    states: &PathStates,
    frames: &OpenFrames,
    number: u32,
    level: usize,
) -> Result<(), Memory>
    ensures { OnOk result (FindsAt states.now frames.now number level found.old.items found.new.items) }
{
    match states.tree().states.get(number as usize) {
        Some(state) => {
            find_roles(alloc, found, states, frames, &state.first, level)?;
            Ok(())
        }
        None => Ok(()),
    }
}

/// The contexts whose first match a new node of the level is, where these path states' paths lead to it.
pub(crate) fn found_of(
    alloc: Global,
    states: &PathStates,
    frames: &OpenFrames,
    active: &[u32],
    level: usize,
) -> Result<FoundList, Memory>
    ensures { IfOk result (λ found. FindsAll states.now frames.now active.now level [] found.items) }
{
    let mut found = SmallVec::new(alloc);
    for number in active {
        find_state(alloc, &mut found, states, frames, *number, level)?;
    }
    Ok(found)
}

/// Adds the level of the context, where it is of the role.
fn put_context(levels: &mut Levels, found: Found, role: u32) -> Result<(), Memory>
    ensures { OnOk result (Gains levels.old.items levels.new.items (IsLevelOf role found)) }
{
    if found.role == role {
        levels.push(found.level)?;
    }
    Ok(())
}

/// The levels of the contexts of the role whose first match the node is.
pub(crate) fn contexts_found(alloc: Global, found: &[Found], role: u32) -> Result<Levels, Memory>
    ensures { IfOk result (λ levels. Holds levels.items (From found.now (IsLevelOf role))) }
{
    let mut levels = SmallVec::new(alloc);
    for one in found {
        put_context(&mut levels, *one, role)?;
    }
    Ok(levels)
}

/// The levels that the path state's path leads to.
pub(crate) fn levels_hit(
    alloc: Global,
    states: &PathStates,
    frames: &OpenFrames,
    state: u32,
) -> Result<Levels, Memory>
    ensures { IfOk result (λ levels. Holds levels.items (Hit (frames_of states.now frames.now) state)) }
{
    let levels = ancestors(alloc, states, frames, state, frames.len())?;
    Ok(levels)
}
