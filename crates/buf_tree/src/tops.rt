//! Whether a new node is a top of a statement: a node to which its steps lead from a base that isn't signed.
ghost use Rattle.std.specs.Prelude.{◌≡◌, ◌↔◌, ◌+◌, ◌≤◌, true, Some, IsSome, length, vec_capacity};
ghost use Rattle.std.specs.FinMap as map;
ghost use Rattle.buf_tree.specs.Shape.{cells, Shaped};
ghost use Rattle.gcx_model.specs.declared.item.Off.{Off};
ghost use Rattle.buf_tree.specs.Tops.{ForNew, HasTopRoom, HitFromAbove, IsNewTop, OwnApart, KeepsTops, KeepsSlot, KeepsTop};

use crate::row::Row;
use crate::upward::{begin, go_up, has_flag, is_waiting};
use gcx_base::Kind;
use gcx_model::Off;
use node_store::{NodeStore, Place};
use role_set::NodeRoles;

/// Of the roles that the new child of the row at `parent` has, leaves those that are kept at it, by a table of statements
/// that reach the tops of their roles alone.
pub(crate) fn keep_tops<N: NodeStore<Row>>(
    nodes: &N,
    tops: &[Option<Off>],
    parent: Place,
    kind: &Kind,
    roles: &mut NodeRoles,
    flags: &mut Vec<bool>,
)
    requires shape { Shaped (N.rows nodes.now) }
    requires there { IsSome (map.get (N.rows nodes.now) parent.0) }
    requires room { HasTopRoom tops.now (vec_capacity flags.old) }
    requires own { OwnApart tops.now }
    ensures held { KeepsTops (cells (N.rows nodes.now)) parent.0 kind.now tops.now roles.old.held roles.new.held }
    ensures signed { roles.new.signed ≡ roles.old.signed }
    ensures room { vec_capacity flags.old ≤ vec_capacity flags.new }
{
    let mut i = 0;
    'each: while i < tops.len() {
        keep_slot(nodes, &tops[i], parent, kind, roles, flags);
        i += 1;
    }
}

/// Takes the role of the statement that is there, if one is, as `keep_top` does.
fn keep_slot<N: NodeStore<Row>>(
    nodes: &N,
    slot: &Option<Off>,
    parent: Place,
    kind: &Kind,
    roles: &mut NodeRoles,
    flags: &mut Vec<bool>,
)
    requires shape { Shaped (N.rows nodes.now) }
    requires there { IsSome (map.get (N.rows nodes.now) parent.0) }
    requires room { (top : Off) → slot.now ≡ Some top → length top.rel + 1 ≤ vec_capacity flags.old }
    ensures held { KeepsSlot (cells (N.rows nodes.now)) parent.0 kind.now slot.now roles.old.held roles.new.held }
    ensures signed { roles.new.signed ≡ roles.old.signed }
    ensures room { vec_capacity flags.old ≤ vec_capacity flags.new }
{
    match slot {
        Some(top) => keep_top(nodes, top, parent, kind, roles, flags),
        None => {}
    }
}

/// Takes the role of the statement from those of the new child of the row at `parent`, where it has it and is no top.
fn keep_top<N: NodeStore<Row>>(
    nodes: &N,
    top: &Off,
    parent: Place,
    kind: &Kind,
    roles: &mut NodeRoles,
    flags: &mut Vec<bool>,
)
    requires shape { Shaped (N.rows nodes.now) }
    requires there { IsSome (map.get (N.rows nodes.now) parent.0) }
    requires room { length top.now.rel + 1 ≤ vec_capacity flags.old }
    ensures held { KeepsTop (cells (N.rows nodes.now)) parent.0 kind.now top.now roles.old.held roles.new.held }
    ensures signed { roles.new.signed ≡ roles.old.signed }
    ensures room { vec_capacity flags.old ≤ vec_capacity flags.new }
{
    if !roles.has(top.role) {
        return;
    }
    if is_new_top(nodes, top, parent, kind, &*roles, flags) {
        return;
    }
    roles.take(top.role);
}

/// Whether the new child of the row at `parent`, which has these roles, is a top of the statement.
pub(crate) fn is_new_top<N: NodeStore<Row>>(
    nodes: &N,
    top: &Off,
    parent: Place,
    kind: &Kind,
    roles: &NodeRoles,
    flags: &mut Vec<bool>,
) -> bool
    requires shape { Shaped (N.rows nodes.now) }
    requires there { IsSome (map.get (N.rows nodes.now) parent.0) }
    requires room { length top.now.rel + 1 ≤ vec_capacity flags.old }
    ensures top { let xs = cells (N.rows nodes.now) in ForNew xs parent.0 kind.now (λ p n.
        (result ≡ true) ↔ IsNewTop xs top.now roles.now.held p n) }
    ensures room { vec_capacity flags.old ≤ vec_capacity flags.new }
{
    if top.rel.items().is_empty() {
        return roles.has(top.own);
    }
    is_hit(nodes, top, parent, kind, flags)
}

/// Whether the statement's steps lead to the new child of the row at `parent` from a base at which it isn't signed. For
/// child steps alone the walk is as long as they are.
fn is_hit<N: NodeStore<Row>>(
    nodes: &N,
    top: &Off,
    parent: Place,
    kind: &Kind,
    flags: &mut Vec<bool>,
) -> bool
    requires shape { Shaped (N.rows nodes.now) }
    requires there { IsSome (map.get (N.rows nodes.now) parent.0) }
    requires room { length top.now.rel + 1 ≤ vec_capacity flags.old }
    ensures hit { let xs = cells (N.rows nodes.now) in ForNew xs parent.0 kind.now (λ p n.
        (result ≡ true) ↔ HitFromAbove xs top.now p n) }
    ensures room { vec_capacity flags.old ≤ vec_capacity flags.new }
{
    let steps = top.rel.items();
    begin(flags, steps.len(), true);
    go_up(flags, steps, kind, false);
    let mut at = Some(parent);
    'up: while let Some(here) = at {
        if !has_flag(flags) {
            return false;
        }
        let row = nodes.payload(here);
        if flags[0] && is_waiting(row, top) {
            return true;
        }
        go_up(flags, steps, row.kind(), false);
        at = nodes.parent(here);
    }
    false
}
