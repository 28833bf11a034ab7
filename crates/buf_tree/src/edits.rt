//! Single edits of the rows, each with what it makes of them.
ghost use Rattle.std.specs.Prelude.{◌≡◌, ◌↔◌, ◌+◌, ◌≤◌, ◌<◌, ℕ, Option, Some, None, IfOk, OnOk, OnErr, IsSome, IsTrue, max, option_map, true, [], ◌∷◌, ◌++◌, length, vec_len, vec_capacity};
ghost use Rattle.std.specs.FinMap as map;
ghost use Rattle.std.specs.FinSet as set;
ghost use Rattle.gcx_base.specs.declared.ids.Serial.{Serial};
ghost use Rattle.node_store.specs.Rows.{StoreRow, planted, appended, unlinked, parent_of, changed_at, paid_by};
ghost use Rattle.buf_tree.specs.Rows.{IsSpare, covered_by, shut_row, untaken, signed_for, serials};
ghost use Rattle.buf_tree.specs.Shape.{cells, Shaped, AtEntry, HasEntry};
ghost use Rattle.buf_tree.specs.Purge.{TidyBut, Cleared};
ghost use Rattle.buf_tree.specs.View.{Ready, Kept};

use crate::row::Row;
use gcx_base::{Memory, Role, Serial};
use node_store::{NodeStore, Place};

/// Closes the node.
#[inline(always)]
pub(crate) fn shut<N: NodeStore<Row>>(nodes: &mut N, place: Place)
    requires { IsSome (map.get (N.rows nodes.old) place.0) }
    ensures rows { N.rows nodes.new ≡ changed_at (paid_by shut_row) place.0 (N.rows nodes.old) }
    ensures most { N.most_held nodes.new ≡ N.most_held nodes.old }
    ensures root { N.root_of nodes.new ≡ N.root_of nodes.old }
    ensures loans { N.loans nodes.new ≡ N.loans nodes.old }
{
    let row = nodes.payload_mut(place);
    row.shut();
}

/// Takes a role, which the node has, back from it.
#[inline(always)]
pub(crate) fn untake<N: NodeStore<Row>>(nodes: &mut N, place: Place, role: Role)
    requires { HasEntry (N.rows nodes.old) place.0 (λ e. set.contains e.payload.roles role.0 ≡ true) }
    ensures rows { N.rows nodes.new ≡ changed_at (paid_by (untaken role.0)) place.0 (N.rows nodes.old) }
    ensures most { N.most_held nodes.new ≡ N.most_held nodes.old }
    ensures root { N.root_of nodes.new ≡ N.root_of nodes.old }
    ensures loans { N.loans nodes.new ≡ N.loans nodes.old }
{
    let row = nodes.payload_mut(place);
    row.untake(role);
}

/// The row says whether some row above it keeps a spread role.
#[inline(always)]
pub(crate) fn cover<N: NodeStore<Row>>(nodes: &mut N, place: Place, covered: bool)
    requires { IsSome (map.get (N.rows nodes.old) place.0) }
    ensures rows { N.rows nodes.new ≡ changed_at (paid_by (covered_by covered)) place.0 (N.rows nodes.old) }
    ensures most { N.most_held nodes.new ≡ N.most_held nodes.old }
    ensures root { N.root_of nodes.new ≡ N.root_of nodes.old }
    ensures loans { N.loans nodes.new ≡ N.loans nodes.old }
{
    let row = nodes.payload_mut(place);
    row.cover(covered);
}

/// Signs the node for the role's statement.
#[inline(always)]
pub(crate) fn sign<N: NodeStore<Row>>(nodes: &mut N, place: Place, role: Role) -> Result<(), Memory>
    requires { IsSome (map.get (N.rows nodes.old) place.0) }
    ensures ok { OnOk result (N.rows nodes.new ≡ changed_at (paid_by (signed_for role.0)) place.0 (N.rows nodes.old)) }
    ensures err { OnErr result (N.rows nodes.new ≡ N.rows nodes.old) }
    ensures most { N.most_held nodes.new ≡ N.most_held nodes.old }
    ensures root { N.root_of nodes.new ≡ N.root_of nodes.old }
    ensures loans { N.loans nodes.new ≡ N.loans nodes.old }
{
    let row = nodes.payload_mut(place);
    row.sign(role)?;
    Ok(())
}

/// Whether nothing keeps the node: it is closed, has no role and no child.
#[inline(always)]
pub(crate) fn is_spare<N: NodeStore<Row>>(nodes: &N, place: Place) -> bool
    requires { IsSome (map.get (N.rows nodes.now) place.0) }
    ensures { (e : StoreRow Row) → map.get (N.rows nodes.now) place.0 ≡ Some e → IsTrue result ↔ IsSpare e }
{
    let row = nodes.payload(place);
    row.is_closed() && row.has_none() && nodes.first(place).is_none()
}

/// Takes out a row that nothing keeps, and answers where its parent is.
#[inline(always)]
pub(crate) fn drop_row<N: NodeStore<Row>>(
    nodes: &mut N,
    gone: &mut Vec<Serial>,
    place: Place,
) -> Option<Place>
    requires spare { HasEntry (N.rows nodes.old) place.0 IsSpare }
    requires room { vec_len gone.old < vec_capacity gone.old }
    ensures rows { N.rows nodes.new ≡ unlinked (N.rows nodes.old) place.0 }
    ensures gone { AtEntry (N.rows nodes.old) place.0 (λ e.
        serials gone.new.items ≡ serials gone.old.items ++ e.payload.serial ∷ []) }
    ensures len { vec_len gone.new ≡ vec_len gone.old + 1 }
    ensures capacity { vec_capacity gone.old ≤ vec_capacity gone.new }
    ensures up { option_map (λ p. p.0) result ≡ parent_of (N.rows nodes.old) place.0 }
    ensures most { N.most_held nodes.new ≡ N.most_held nodes.old }
    ensures loans { N.loans nodes.new ≡ N.loans nodes.old }
{
    let up = nodes.parent(place);
    let serial = nodes.payload(place).serial();
    nodes.drop_leaf(place);
    gone.push_reserved(serial);
    up
}

/// From the row at the place upwards takes out what nothing keeps.
#[inline(always)]
pub(crate) fn purge<N: NodeStore<Row>>(nodes: &mut N, gone: &mut Vec<Serial>, place: Place)
    requires shape { Shaped (N.rows nodes.old) }
    requires there { IsSome (map.get (N.rows nodes.old) place.0) }
    requires tidy { TidyBut (Some place.0) (cells (N.rows nodes.old)) }
    requires room { vec_len gone.old + length (cells (N.rows nodes.old)) ≤ vec_capacity gone.old }
    ensures cleared { Cleared (N.rows nodes.old) (N.rows nodes.new) (serials gone.old.items) (serials gone.new.items) }
    ensures count { vec_len gone.new + length (cells (N.rows nodes.new))
        ≡ vec_len gone.old + length (cells (N.rows nodes.old)) }
    ensures capacity { vec_capacity gone.old ≤ vec_capacity gone.new }
    ensures most { N.most_held nodes.new ≡ N.most_held nodes.old }
    ensures loans { N.loans nodes.new ≡ N.loans nodes.old }
{
    let mut at = Some(place);
    'up: while let Some(here) = at {
        if !is_spare(nodes, here) {
            break;
        }
        at = drop_row(nodes, gone, here);
    }
}

/// The first row of a store. Want of memory leaves the store as it was.
pub(crate) fn plant_row<N: NodeStore<Row>>(nodes: &mut N, row: Row) -> Result<Place, Memory>
    requires { N.rows nodes.old ≡ map.empty }
    ensures ok { IfOk result (λ p. N.rows nodes.new ≡ planted (N.rows nodes.old) p.0 row) }
    ensures most { OnOk result (N.most_held nodes.new ≡ max (N.most_held nodes.old) 1) }
    ensures err { OnErr result ((N.rows nodes.new ≡ N.rows nodes.old) × (N.most_held nodes.new ≡ N.most_held nodes.old)) }
    ensures loans { N.loans nodes.new ≡ N.loans nodes.old }
{
    match nodes.plant(row) {
        Ok(place) => Ok(place),
        Err(_) => Err(Memory),
    }
}

/// A new row as last child. Want of memory leaves the store as it was.
#[inline(always)]
pub(crate) fn add_row<N: NodeStore<Row>>(
    nodes: &mut N,
    parent: Place,
    row: Row,
) -> Result<Place, Memory>
    requires { IsSome (map.get (N.rows nodes.old) parent.0) }
    ensures free { IfOk result (λ p. map.get (N.rows nodes.old) p.0 ≡ None) }
    ensures ok { IfOk result (λ p. N.rows nodes.new ≡ appended (N.rows nodes.old) parent.0 p.0 row) }
    ensures most { OnOk result (N.most_held nodes.new ≡ max (N.most_held nodes.old) (map.len (N.rows nodes.new))) }
    ensures err { OnErr result ((N.rows nodes.new ≡ N.rows nodes.old) × (N.most_held nodes.new ≡ N.most_held nodes.old)) }
    ensures loans { N.loans nodes.new ≡ N.loans nodes.old }
{
    match nodes.append(parent, row) {
        Ok(place) => Ok(place),
        Err(_) => Err(Memory),
    }
}

/// A purge, and the number of rows behind it.
#[inline(always)]
pub(crate) fn settle<N: NodeStore<Row>>(
    nodes: &mut N,
    gone: &mut Vec<Serial>,
    place: Place,
    held: usize,
) -> usize
    requires { (n : ℕ) × Ready (N.rows nodes.old) place.0 (serials gone.old.items) (vec_capacity gone.old) held n }
    ensures cleared { Cleared (N.rows nodes.old) (N.rows nodes.new) (serials gone.old.items) (serials gone.new.items) }
    ensures kept { (n : ℕ) → Ready (N.rows nodes.old) place.0 (serials gone.old.items) (vec_capacity gone.old) held n
        → Kept (N.rows nodes.new) (serials gone.new.items) (vec_capacity gone.new) result n }
    ensures most { N.most_held nodes.new ≡ N.most_held nodes.old }
    ensures loans { N.loans nodes.new ≡ N.loans nodes.old }
{
    let before = gone.len();
    purge(nodes, gone, place);
    held - (gone.len() - before)
}

/// The same out of line, for callers that seldom need it.
#[inline(never)]
pub(crate) fn leave<N: NodeStore<Row>>(
    nodes: &mut N,
    gone: &mut Vec<Serial>,
    place: Place,
    held: usize,
) -> usize
    requires { (n : ℕ) × Ready (N.rows nodes.old) place.0 (serials gone.old.items) (vec_capacity gone.old) held n }
    ensures cleared { Cleared (N.rows nodes.old) (N.rows nodes.new) (serials gone.old.items) (serials gone.new.items) }
    ensures kept { (n : ℕ) → Ready (N.rows nodes.old) place.0 (serials gone.old.items) (vec_capacity gone.old) held n
        → Kept (N.rows nodes.new) (serials gone.new.items) (vec_capacity gone.new) result n }
    ensures most { N.most_held nodes.new ≡ N.most_held nodes.old }
    ensures loans { N.loans nodes.new ≡ N.loans nodes.old }
{
    settle(nodes, gone, place, held)
}
