//! Walks up from a node, which tell from where a statement reaches it.
//!
//! For the steps of a path there is a flag each, and one more: at the node at hand, flag i says that the steps from i on
//! lead from it to the node at which the walk began. The flags of a parent follow from those of its child on the way.
ghost use Rattle.std.specs.Prelude.{◌≡◌, ◌+◌, ◌≤◌, ◌&&◌, ◌||◌, not, ◌∷◌, ◌++◌, [], false, length, vec_capacity, IsSome};
ghost use Rattle.std.specs.FinMap as map;
ghost use Rattle.std.specs.FinSet as finset;
ghost use Rattle.std.proofs.Math.ListN.{replicate, set, get_or};
ghost use Rattle.gcx_model.specs.Paths.{any};
ghost use Rattle.gcx_model.specs.ItemView.{off_tree, role_kind};
ghost use Rattle.buf_tree.specs.Shape.{cells, Shaped};
ghost use Rattle.buf_tree.specs.Walk.{Nested};
ghost use Rattle.buf_tree.specs.Ways.{is_waiting, is_whole, tail_steps, flag_up, goes_on, GoesUp, GoesUpBut, LeadsBy, FirstBy, EndsHere, KeptBy};

use crate::row::Row;
use crate::search::{after, is_same};
use crate::trail::Trail;
use gcx_base::{Axis, Kind, Step};
use gcx_model::{Off, RoleKind};
use node_store::{NodeStore, Place};

/// The flags where a walk begins: no step is left to take, or for `end` false none leads there yet.
pub(crate) fn begin(flags: &mut Vec<bool>, steps: usize, end: bool)
    requires room { steps + 1 ≤ vec_capacity flags.old }
    ensures flags { flags.new.items ≡ replicate steps false ++ end ∷ [] }
    ensures room { vec_capacity flags.old ≤ vec_capacity flags.new }
{
    flags.clear();
    for _step in 0..steps {
        flags.push_reserved(false);
    }
    flags.push_reserved(end);
}

/// The flag of a step at the parent of a node of this kind, from this step's flag at the node and the next step's.
#[inline(always)]
fn flag_up(step: &Step, kind: &Kind, here: bool, next: bool) -> bool
    ensures { result ≡ flag_up step.now kind.now here next }
{
    (next && step.test.passes(kind)) || (here && goes_on(step.axis))
}

/// Whether a step may also lead on from a node that it could lead to.
#[inline(always)]
fn goes_on(axis: Axis) -> bool
    ensures { result ≡ goes_on axis }
{
    match axis {
        Axis::Child => false,
        Axis::Descendant => true,
    }
}

/// From a node of this kind to its parent. `end` is the last flag there.
pub(crate) fn go_up(flags: &mut [bool], steps: &[Step], kind: &Kind, end: bool)
    requires count { length flags.old ≡ length steps.now + 1 }
    ensures count { length flags.new ≡ length flags.old }
    ensures flags { GoesUp steps.now kind.now end flags.old flags.new }
    ensures but { GoesUpBut steps.now kind.now flags.old flags.new }
{
    let mut i = 0;
    'steps: while i < steps.len() {
        flags[i] = flag_up(&steps[i], kind, flags[i], flags[i + 1]);
        i += 1;
    }
    flags[steps.len()] = end;
}

/// Whether some flag is left.
pub(crate) fn has_flag(flags: &[bool]) -> bool
    ensures { result ≡ any (λ flag. flag) flags.now }
{
    for flag in flags {
        if *flag {
            return true;
        }
    }
    false
}

/// Whether the steps lead from the row at `from` to the row at `place`.
pub(crate) fn leads<N: NodeStore<Row>>(
    nodes: &N,
    from: Place,
    steps: &[Step],
    place: Place,
    flags: &mut Vec<bool>,
) -> bool
    requires shape { Shaped (N.rows nodes.now) }
    requires there { IsSome (map.get (N.rows nodes.now) place.0) }
    requires room { length steps.now + 1 ≤ vec_capacity flags.old }
    ensures leads { LeadsBy (cells (N.rows nodes.now)) from.0 steps.now place.0 result }
    ensures room { vec_capacity flags.old ≤ vec_capacity flags.new }
{
    begin(flags, steps.len(), true);
    let mut at = Some(place);
    'up: while let Some(here) = at {
        if is_same(here, from) {
            return flags[0];
        }
        go_up(flags, steps, nodes.payload(here).kind(), false);
        at = nodes.parent(here);
    }
    false
}

/// Whether no row from `from` on and before `place` is one to which the steps lead from `from`.
fn is_first<N: NodeStore<Row>>(
    nodes: &N,
    from: Place,
    steps: &[Step],
    place: Place,
    flags: &mut Vec<bool>,
) -> bool
    requires shape { Shaped (N.rows nodes.now) }
    requires nested { Nested (cells (N.rows nodes.now)) }
    requires from { IsSome (map.get (N.rows nodes.now) from.0) }
    requires room { length steps.now + 1 ≤ vec_capacity flags.old }
    ensures first { FirstBy (cells (N.rows nodes.now)) from.0 steps.now place.0 result }
    ensures room { vec_capacity flags.old ≤ vec_capacity flags.new }
{
    let mut at = Some(from);
    'rows: while let Some(here) = at {
        if is_same(here, place) {
            return true;
        }
        if leads(nodes, from, steps, here, flags) {
            return false;
        }
        at = after(nodes, from, here);
    }
    false
}

/// Whether the row is that of a base at which the statement isn't signed.
#[inline(always)]
pub(crate) fn is_waiting(row: &Row, off: &Off) -> bool
    ensures { result ≡ is_waiting row.now off.now }
{
    waits(row, off, row.has(off.own))
}

/// The same, where it is said whether the base's own role is live at the row.
#[inline(always)]
pub(crate) fn waits(row: &Row, off: &Off, is_live: bool) -> bool
    ensures { result ≡ ((is_live || finset.contains row.now.signed off.now.own.0)
        && not (finset.contains row.now.signed off.now.role.0)) }
{
    (is_live || row.is_signed(off.own)) && !row.is_signed(off.role)
}

/// The steps of the statement's tail. Where it is of the kind `Own` they don't count.
#[inline(always)]
fn tail_of(off: &Off) -> &[Step]
    ensures { result.now ≡ tail_steps (off_tree off.now).kind off.now.tail }
{
    match off.kind {
        RoleKind::Own => &[],
        RoleKind::First | RoleKind::Whole => off.tail.items(),
    }
}

/// Whether the statement also reaches what stands below its matches.
#[inline(always)]
fn is_whole(kind: RoleKind) -> bool
    ensures { result ≡ is_whole (role_kind kind) }
{
    match kind {
        RoleKind::Own => false,
        RoleKind::First => false,
        RoleKind::Whole => true,
    }
}

/// Whether the tail, by the statement's kind, leads from the row at `from` to the row at `place`, where the flags say
/// whether its steps do.
fn ends_here<N: NodeStore<Row>>(
    nodes: &N,
    off: &Off,
    from: Place,
    place: Place,
    trail: &mut Trail,
) -> bool
    requires shape { Shaped (N.rows nodes.now) }
    requires nested { Nested (cells (N.rows nodes.now)) }
    requires from { IsSome (map.get (N.rows nodes.now) from.0) }
    requires count { length trail.old.tails.items ≡ length (tail_steps (off_tree off.now).kind off.now.tail) + 1 }
    requires room { length off.now.tail + 1 ≤ vec_capacity trail.old.again }
    ensures ends { EndsHere (cells (N.rows nodes.now)) off.now from.0 place.0 trail.old.tails.items result }
    ensures room { vec_capacity trail.old.again ≤ vec_capacity trail.new.again }
    ensures tails { trail.new.tails ≡ trail.old.tails }
    ensures rels { trail.new.rels ≡ trail.old.rels }
{
    if !trail.tails[0] {
        return false;
    }
    match off.kind {
        RoleKind::Own => true,
        RoleKind::Whole => true,
        RoleKind::First => is_first(nodes, from, off.tail.items(), place, &mut trail.again),
    }
}

/// Sets the last flag, and answers the first one.
#[inline(always)]
fn set_last(flags: &mut [bool], last: usize, end: bool) -> bool
    requires { length flags.old ≡ last + 1 }
    ensures flags { flags.new ≡ set flags.old last end }
    ensures first { result ≡ get_or flags.new 0 false }
{
    flags[last] = end;
    flags[0]
}

/// Whether the statement reaches the row at `place` from a base at which it isn't signed.
pub(crate) fn is_kept<N: NodeStore<Row>>(
    nodes: &N,
    off: &Off,
    place: Place,
    trail: &mut Trail,
) -> bool
    requires shape { Shaped (N.rows nodes.now) }
    requires nested { Nested (cells (N.rows nodes.now)) }
    requires there { IsSome (map.get (N.rows nodes.now) place.0) }
    requires tails { length off.now.tail + 1 ≤ vec_capacity trail.old.tails }
    requires rels { length off.now.rel + 1 ≤ vec_capacity trail.old.rels }
    requires again { length off.now.tail + 1 ≤ vec_capacity trail.old.again }
    ensures kept { KeptBy (cells (N.rows nodes.now)) off.now place.0 result }
    ensures tails { vec_capacity trail.old.tails ≤ vec_capacity trail.new.tails }
    ensures rels { vec_capacity trail.old.rels ≤ vec_capacity trail.new.rels }
    ensures again { vec_capacity trail.old.again ≤ vec_capacity trail.new.again }
{
    let tail = tail_of(off);
    let rel = off.rel.items();
    begin(&mut trail.tails, tail.len(), true);
    begin(&mut trail.rels, rel.len(), false);
    let mut at = Some(place);
    'up: while let Some(here) = at {
        let end = ends_here(nodes, off, here, place, trail);
        let row = nodes.payload(here);
        if set_last(&mut trail.rels, rel.len(), end) && is_waiting(row, off) {
            return true;
        }
        go_up(&mut trail.tails, tail, row.kind(), is_whole(off.kind));
        go_up(&mut trail.rels, rel, row.kind(), false);
        at = nodes.parent(here);
    }
    false
}
