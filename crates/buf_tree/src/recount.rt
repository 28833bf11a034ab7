//! A statement that takes its role from whole subtrees, where roles are spread: which tops it leaves, and how many rows
//! lose the role with the others; and whether a row has a role, with those from above.
ghost use Rattle.std.specs.Prelude.{◌≡◌, ◌+◌, ◌≤◌, ◌<◌, ◌^◌, ℕ, true, Option, Some, None, IsSome, length, option_map, is_some, is_none, ◌&&◌};
ghost use Rattle.std.specs.FinMap as map;
ghost use Rattle.std.specs.FinSet as set;
ghost use Rattle.gcx_model.specs.Members.{In};
ghost use Rattle.buf_tree.specs.Recount.{KeptAbove, CoveredAnew, TellsParent, span_on, RecountedBy};
ghost use Rattle.buf_tree.specs.Shape.{AtPlace, Cell, cells, Shaped};
ghost use Rattle.buf_tree.specs.Spread.{TellsCovered, is_spread_in, seen_rows};
ghost use Rattle.buf_tree.specs.Trail.{HasTrailRoom};
ghost use Rattle.buf_tree.specs.Walk.{Nested, Within};

use crate::edits::cover;
use crate::row::Row;
use crate::search::after;
use crate::spread::{Spread, is_spread};
use crate::sweep::withdraw;
use crate::trail::Trail;
use gcx_base::Role;
use gcx_model::Off;
use node_store::{NodeStore, Place};

/// From where the row at hand had a role before, and from where it has it now: the serial of a row that kept it, and of
/// one that keeps it, which is that row or above it. Of those from the base on it is the outermost.
#[derive(Clone, Copy)]
pub(crate) struct Spans {
    had: Option<u64>,
    has: Option<u64>,
}

impl Spans {
    /// On to the next row in document order, below the node with serial `parent`: whether it kept the role, and keeps it.
    fn go_on(&mut self, serial: u64, parent: u64, kept: bool, keeps: bool)
        ensures had { self.new.had ≡ span_on self.old.had serial parent kept }
        ensures has { self.new.has ≡ span_on self.old.has serial parent keeps }
    {
        self.had = span_on(self.had, serial, parent, kept);
        self.has = span_on(self.has, serial, parent, keeps);
    }

    /// Whether the row had the role and has it no more.
    fn is_lost(&self) -> bool
        ensures { result ≡ (is_some self.now.had && is_none self.now.has) }
    {
        self.had.is_some() && self.has.is_none()
    }
}

/// The row that keeps the role, for the next row in document order: it stays as long as that is below it.
fn span_on(outer: Option<u64>, serial: u64, parent: u64, keeps: bool) -> Option<u64>
    ensures { result ≡ span_on outer serial parent keeps }
{
    match outer {
        Some(top) if top <= parent => Some(top),
        _ if keeps => Some(serial),
        _ => None,
    }
}

/// The serial of a row above that keeps the role, if there is one.
fn kept_above<N: NodeStore<Row>>(nodes: &N, place: Place, role: Role) -> Option<u64>
    requires shape { Shaped (N.rows nodes.now) }
    requires nested { Nested (cells (N.rows nodes.now)) }
    requires there { IsSome (map.get (N.rows nodes.now) place.0) }
    ensures { (c : Cell) → In c (cells (N.rows nodes.now)) → c.place ≡ place.0
        → KeptAbove (cells (N.rows nodes.now)) role.0 c result }
{
    let mut at = nodes.parent(place);
    'up: while let Some(here) = at {
        let row = nodes.payload(here);
        if row.has(role) {
            return Some(row.serial().0);
        }
        at = nodes.parent(here);
    }
    None
}

/// Whether the node has the role: one that is spread is kept at its row, or at one above it.
pub(crate) fn has_role<N: NodeStore<Row>>(
    nodes: &N,
    spread: &Option<Spread>,
    place: Place,
    role: Role,
) -> bool
    requires shape { Shaped (N.rows nodes.now) }
    requires nested { Nested (cells (N.rows nodes.now)) }
    requires there { IsSome (map.get (N.rows nodes.now) place.0) }
    ensures { AtPlace (seen_rows spread.now (cells (N.rows nodes.now))) place.0 (λ c.
        result ≡ set.contains c.row.roles role.0) }
{
    if nodes.payload(place).has(role) {
        return true;
    }
    if !is_spread(spread, role) {
        return false;
    }
    kept_above(nodes, place, role).is_some()
}

/// The row at the place says again whether some row above it keeps a spread role. Answers the serial of its parent.
fn recover<N: NodeStore<Row>>(nodes: &mut N, spread: &Spread, at: Option<Place>) -> u64
    requires shape { Shaped (N.rows nodes.old) }
    requires used { (p : ℕ) → option_map (λ q. q.0) at ≡ Some p → IsSome (map.get (N.rows nodes.old) p) }
    ensures covered { CoveredAnew (Some spread.now) (N.rows nodes.old) (N.rows nodes.new) (option_map (λ p. p.0) at) }
    ensures parent { (p : ℕ) → option_map (λ q. q.0) at ≡ Some p
        → AtPlace (cells (N.rows nodes.old)) p (TellsParent result) }
    ensures most { N.most_held nodes.new ≡ N.most_held nodes.old }
    ensures loans { N.loans nodes.new ≡ N.loans nodes.old }
{
    let Some(place) = at else {
        return 0;
    };
    let Some(parent) = nodes.parent(place) else {
        return 0;
    };
    let above = nodes.payload(parent);
    let serial = above.serial().0;
    let covered = above.covers(spread.roles());
    cover(nodes, place, covered);
    serial
}

/// The serial of the parent of the row at the place, and 0 of the document node.
fn parent_serial<N: NodeStore<Row>>(nodes: &N, place: Place) -> u64
    requires shape { Shaped (N.rows nodes.now) }
    requires there { IsSome (map.get (N.rows nodes.now) place.0) }
    ensures { AtPlace (cells (N.rows nodes.now)) place.0 (TellsParent result) }
{
    match nodes.parent(place) {
        Some(parent) => nodes.payload(parent).serial().0,
        None => 0,
    }
}

/// Takes the role of `top` from the tops of the base's subtree to which no other base leads, and answers how many rows
/// lose the role by that. Each row there says again whether some row above it keeps a spread role.
pub(crate) fn recount<N: NodeStore<Row>>(
    nodes: &mut N,
    spread: &Spread,
    top: &Off,
    place: Place,
    others: bool,
    trail: &mut Trail,
) -> u64
    requires shape { Shaped (N.rows nodes.old) }
    requires nested { Nested (cells (N.rows nodes.old)) }
    requires there { IsSome (map.get (N.rows nodes.old) place.0) }
    requires spread { is_spread_in (Some spread.now) top.now.role.0 ≡ true }
    requires own { top.now.own.0 ≡ top.now.role.0 → ⊥ }
    requires rows { length (cells (N.rows nodes.old)) < 2 ^ 64 }
    requires covers { TellsCovered (Some spread.now) (cells (N.rows nodes.old)) }
    requires room { others ≡ true → HasTrailRoom top.now trail.old }
    ensures recounted { RecountedBy (Some spread.now) (N.rows nodes.old) (N.rows nodes.new) top.now others place.0 result }
    ensures outside { (c d : Cell) → In c (cells (N.rows nodes.new)) → c.place ≡ place.0 → In d (cells (N.rows nodes.new))
        → (Within (cells (N.rows nodes.new)) c d → ⊥) → In d (cells (N.rows nodes.old)) }
    ensures few { result ≤ length (cells (N.rows nodes.old)) }
    ensures most { N.most_held nodes.new ≡ N.most_held nodes.old }
    ensures loans { N.loans nodes.new ≡ N.loans nodes.old }
{
    let above = kept_above(&*nodes, place, top.role);
    let mut spans = Spans {
        had: above,
        has: above,
    };
    let mut lost = 0;
    let mut parent = parent_serial(&*nodes, place);
    let mut at = Some(place);
    'rows: while let Some(here) = at {
        let row = nodes.payload(here);
        let serial = row.serial().0;
        let kept = row.has(top.role);
        let taken = withdraw(nodes, top, here, others, trail);
        spans.go_on(serial, parent, kept, kept && taken == 0);
        if spans.is_lost() {
            lost += 1;
        }
        at = after(&*nodes, place, here);
        parent = recover(nodes, spread, at);
    }
    lost
}
