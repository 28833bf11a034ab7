//! A statement at a base: whether another base may keep its role, and what takes the role from a row.
ghost use Rattle.std.specs.Prelude.{◌≡◌, ◌==◌, ◌+◌, ◌≤◌, ◌<◌, true, cond, length, vec_capacity, vec_len, IsSome};
ghost use Rattle.std.specs.FinMap as map;
ghost use Rattle.std.specs.FinSet as set;
ghost use Rattle.buf_tree.specs.Purge.{Tidy};
ghost use Rattle.buf_tree.specs.Recount.{Dropped};
ghost use Rattle.buf_tree.specs.Rows.{serials};
ghost use Rattle.buf_tree.specs.Sweep.{taken_at, TakesAt, SweptBy, DropsSpare, TidyOutside};
ghost use Rattle.buf_tree.specs.Shape.{cells, Shaped, AtEntry, row_count};
ghost use Rattle.buf_tree.specs.Walk.{Nested};
ghost use Rattle.buf_tree.specs.Trail.{HasTrailRoom};
ghost use Rattle.buf_tree.specs.Ways.{BaseAbove, BaseBelow, TellsOf, TellsOthers};

use crate::edits::{drop_row, is_spare, untake};
use crate::row::Row;
use crate::search::{before_below, last_below};
use crate::trail::Trail;
use crate::upward::{is_kept, is_waiting};
use gcx_base::Serial;
use gcx_model::Off;
use node_store::{NodeStore, Place};

/// Whether a base stands above at which the statement isn't signed.
#[inline(always)]
fn has_base_above<N: NodeStore<Row>>(nodes: &N, off: &Off, place: Place) -> bool
    requires shape { Shaped (N.rows nodes.now) }
    requires nested { Nested (cells (N.rows nodes.now)) }
    requires there { IsSome (map.get (N.rows nodes.now) place.0) }
    ensures { TellsOf (cells (N.rows nodes.now)) place.0 (BaseAbove (cells (N.rows nodes.now)) off.now) result }
{
    let mut at = nodes.parent(place);
    'up: while let Some(here) = at {
        if is_waiting(nodes.payload(here), off) {
            return true;
        }
        at = nodes.parent(here);
    }
    false
}

/// Whether a base stands below at which the statement isn't signed.
#[inline(always)]
fn has_base_below<N: NodeStore<Row>>(nodes: &N, off: &Off, place: Place) -> bool
    requires shape { Shaped (N.rows nodes.now) }
    requires nested { Nested (cells (N.rows nodes.now)) }
    requires there { IsSome (map.get (N.rows nodes.now) place.0) }
    ensures { TellsOf (cells (N.rows nodes.now)) place.0 (BaseBelow (cells (N.rows nodes.now)) off.now) result }
{
    let mut at = last_below(nodes, place);
    'back: while let Some(here) = at {
        if is_waiting(nodes.payload(here), off) {
            return true;
        }
        at = before_below(nodes, place, here);
    }
    false
}

/// Whether another base may keep the role of this one's statement somewhere.
#[inline(always)]
pub(crate) fn has_other_base<N: NodeStore<Row>>(nodes: &N, off: &Off, place: Place) -> bool
    requires shape { Shaped (N.rows nodes.now) }
    requires nested { Nested (cells (N.rows nodes.now)) }
    requires there { IsSome (map.get (N.rows nodes.now) place.0) }
    ensures { TellsOthers (cells (N.rows nodes.now)) place.0 off.now result }
{
    if off.is_own() {
        return false;
    }
    if has_base_above(nodes, off, place) {
        return true;
    }
    has_base_below(nodes, off, place)
}

/// Takes the statement's role from the row, where it has it and no base keeps it. Answers how many roles were taken.
/// Where there is no other base none keeps it.
#[inline(always)]
pub(crate) fn withdraw<N: NodeStore<Row>>(
    nodes: &mut N,
    off: &Off,
    place: Place,
    others: bool,
    trail: &mut Trail,
) -> u64
    requires shape { Shaped (N.rows nodes.old) }
    requires nested { Nested (cells (N.rows nodes.old)) }
    requires there { IsSome (map.get (N.rows nodes.old) place.0) }
    requires room { others ≡ true → HasTrailRoom off.now trail.old }
    ensures few { result ≤ 1 }
    ensures rows { N.rows nodes.new ≡ taken_at off.now.role.0 place.0 (result == 1) (N.rows nodes.old) }
    ensures taken { TakesAt (cells (N.rows nodes.old)) off.now others place.0 result }
    ensures most { N.most_held nodes.new ≡ N.most_held nodes.old }
    ensures root { N.root_of nodes.new ≡ N.root_of nodes.old }
    ensures loans { N.loans nodes.new ≡ N.loans nodes.old }
    ensures tails { vec_capacity trail.old.tails ≤ vec_capacity trail.new.tails }
    ensures rels { vec_capacity trail.old.rels ≤ vec_capacity trail.new.rels }
    ensures again { vec_capacity trail.old.again ≤ vec_capacity trail.new.again }
{
    if !nodes.payload(place).has(off.role) {
        return 0;
    }
    if others && is_kept(&*nodes, off, place, trail) {
        return 0;
    }
    untake(nodes, place, off.role);
    1
}

/// Takes out the row where nothing keeps it.
#[inline(always)]
fn drop_spare<N: NodeStore<Row>>(nodes: &mut N, gone: &mut Vec<Serial>, place: Place)
    requires there { IsSome (map.get (N.rows nodes.old) place.0) }
    requires room { vec_len gone.old < vec_capacity gone.old }
    ensures dropped { DropsSpare (N.rows nodes.old) (N.rows nodes.new) place.0 gone.old gone.new }
    ensures capacity { vec_capacity gone.old ≤ vec_capacity gone.new }
    ensures most { N.most_held nodes.new ≡ N.most_held nodes.old }
    ensures loans { N.loans nodes.new ≡ N.loans nodes.old }
{
    if is_spare(&*nodes, place) {
        drop_row(nodes, gone, place);
    }
}

/// Takes the role from the base's subtree, from its last row back, and takes out the rows below the base that nothing
/// keeps then. Answers how many roles were taken.
#[inline(always)]
pub(crate) fn sweep<N: NodeStore<Row>>(
    nodes: &mut N,
    gone: &mut Vec<Serial>,
    off: &Off,
    place: Place,
    others: bool,
    trail: &mut Trail,
) -> u64
    requires shape { Shaped (N.rows nodes.old) }
    requires nested { Nested (cells (N.rows nodes.old)) }
    requires there { IsSome (map.get (N.rows nodes.old) place.0) }
    requires tidy { Tidy (cells (N.rows nodes.old)) }
    requires departures { vec_len gone.old + length (cells (N.rows nodes.old)) ≤ vec_capacity gone.old }
    requires room { others ≡ true → HasTrailRoom off.now trail.old }
    ensures swept { let old_gone = serials gone.old.items in let new_gone = serials gone.new.items in
        SweptBy (N.rows nodes.old) (N.rows nodes.new) off.now others place.0 old_gone new_gone result }
    ensures count { vec_len gone.new + row_count (N.rows nodes.new) ≡ vec_len gone.old + row_count (N.rows nodes.old) }
    ensures capacity { vec_capacity gone.old ≤ vec_capacity gone.new }
    ensures few { result ≤ length (cells (N.rows nodes.old)) }
    ensures most { N.most_held nodes.new ≡ N.most_held nodes.old }
    ensures loans { N.loans nodes.new ≡ N.loans nodes.old }
{
    let mut taken = 0;
    let mut at = last_below(&*nodes, place);
    'back: while let Some(here) = at {
        taken += withdraw(nodes, off, here, others, trail);
        at = before_below(&*nodes, place, here);
        drop_spare(nodes, gone, here);
    }
    taken + withdraw(nodes, off, place, others, trail)
}

/// Takes out the rows below the base that nothing keeps, from the last one back.
pub(crate) fn drop_below<N: NodeStore<Row>>(nodes: &mut N, gone: &mut Vec<Serial>, place: Place)
    requires shape { Shaped (N.rows nodes.old) }
    requires nested { Nested (cells (N.rows nodes.old)) }
    requires there { IsSome (map.get (N.rows nodes.old) place.0) }
    requires tidy { TidyOutside (cells (N.rows nodes.old)) place.0 }
    requires departures { vec_len gone.old + length (cells (N.rows nodes.old)) ≤ vec_capacity gone.old }
    ensures dropped { let gone0 = serials gone.old.items in let gone1 = serials gone.new.items in
        Dropped (N.rows nodes.old) (N.rows nodes.new) place.0 gone0 gone1 }
    ensures count { vec_len gone.new + length (cells (N.rows nodes.new))
        ≡ vec_len gone.old + length (cells (N.rows nodes.old)) }
    ensures capacity { vec_capacity gone.old ≤ vec_capacity gone.new }
    ensures most { N.most_held nodes.new ≡ N.most_held nodes.old }
    ensures loans { N.loans nodes.new ≡ N.loans nodes.old }
{
    let mut at = last_below(&*nodes, place);
    'back: while let Some(here) = at {
        at = before_below(&*nodes, place, here);
        drop_spare(nodes, gone, here);
    }
}

/// Takes the role of a statement that reaches its base alone, where the base has it. Answers how many roles were taken.
#[inline(always)]
pub(crate) fn take_own<N: NodeStore<Row>>(nodes: &mut N, off: &Off, place: Place) -> u64
    requires there { IsSome (map.get (N.rows nodes.old) place.0) }
    ensures taken { AtEntry (N.rows nodes.old) place.0 (λ e.
        result ≡ cond (set.contains e.payload.roles off.now.role.0) 1 0) }
    ensures rows { let k = off.now.role.0 in AtEntry (N.rows nodes.old) place.0 (λ e.
        N.rows nodes.new ≡ taken_at k place.0 (set.contains e.payload.roles k) (N.rows nodes.old)) }
    ensures most { N.most_held nodes.new ≡ N.most_held nodes.old }
    ensures root { N.root_of nodes.new ≡ N.root_of nodes.old }
    ensures loans { N.loans nodes.new ≡ N.loans nodes.old }
{
    if nodes.payload(place).has(off.role) {
        untake(nodes, place, off.role);
        return 1;
    }
    0
}
