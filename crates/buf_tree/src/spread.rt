//! What a buffer keeps of a plan, so as to keep the roles of whole subtrees at the tops alone.
ghost use Rattle.std.specs.Prelude.{◌≡◌, ◌↔◌, ◌+◌, ◌≤◌, ◌&&◌, ◌++◌, ◌∷◌, [], ℕ, true, Option, Some, None, IfOk, OnOk, IsSome, length, map as list_map, option_map, is_some, replicate, set as list_set, slice_index_or, vec_capacity};
ghost use Rattle.std.specs.FinMap as map;
ghost use Rattle.std.specs.FinSet as set;
ghost use Rattle.gcx_base.specs.declared.ids.VarId.{VarId};
ghost use Rattle.gcx_model.specs.declared.item.Off.{Off};
ghost use Rattle.gcx_model.specs.Core.{BodyTree};
ghost use Rattle.gcx_model.specs.Cores.{Good};
ghost use Rattle.gcx_model.specs.ItemView.{body_tree, item_tree, off_tree};
ghost use Rattle.gcx_model.specs.Placed.{Placed, offs_in, item_offs};
ghost use Rattle.gcx_model.specs.PlanView.{plan_tree, var_row_tree};
ghost use Rattle.gcx_model.specs.Variables.{is_child};
ghost use Rattle.spread_laws.specs.Tops.{put_tops, top_off};
ghost use Rattle.buf_tree.specs.Shape.{cells, Shaped};
ghost use Rattle.buf_tree.specs.Spread.{IsSpreadOf, is_spread_in, SpreadView};
ghost use Rattle.buf_tree.specs.Tops.{alone_by, HasRoomFor, KeepsSpread, OwnApart, role_given, trees_of, KeepsTops};

use crate::row::Row;
use crate::tops::keep_tops;
use gcx_base::{Axis, Kind, Memory, Role, Steps, VarId};
use gcx_model::{Body, Item, Off, Plan, RoleKind, VarRow};
use node_store::{NodeStore, Place};
use role_set::{NodeRoles, RoleSet};
use std::alloc::Global;
use std::marker::Model;

/// Of each spread role, which a plan gives to whole subtrees, a statement that reaches its tops alone; and of each
/// variable whether its path has no descendant step.
#[derive(Drop)]
pub(crate) struct Spread {
    tops: Vec<Option<Off>>,
    alone: Vec<bool>,
    /// The spread roles once more.
    roles: RoleSet,
    /// Room for the walk from a new node.
    flags: Vec<bool>,
}

impl Model for Spread {
    ghost use Rattle.std.specs.Prelude.{◌≡◌, ◌+◌, ◌≤◌, ℕ, Some, None, length, slice_index_or, vec_capacity};
    ghost use Rattle.std.specs.FinSet as set;
    ghost use Rattle.gcx_model.specs.declared.item.Off.{Off};
    ghost use Rattle.gcx_model.specs.contracts.item.Off as off;
    ghost use Rattle.buf_tree.specs.Spread.{SpreadView, spread_code, is_spread_in};
    ghost use Rattle.buf_tree.specs.Tops.{HasTopRoom};

    ghost Value = { SpreadView };

    ghost coded = { spread_code off.the_row.coded };

    ghost view = { λ s. record { tops = s.tops.items; alone = s.alone.items } };

    ghost invariant = { λ s.
        ((r : ℕ) → set.contains s.roles r ≡ is_spread_in (Some (record { tops = s.tops.items; alone = s.alone.items })) r)
        × HasTopRoom s.tops.items (vec_capacity s.flags) };
}

impl Spread {
    /// What is kept of this plan.
    pub(crate) fn of(alloc: Global, plan: &Plan) -> Result<Spread, Memory>
        requires { (core : BodyTree) × Good core × Placed core (plan_tree plan.now) }
        ensures { IfOk result (λ s. IsSpreadOf s (plan_tree plan.now)) }
    {
        let mut tops = no_tops(alloc, plan.roles.items().len())?;
        put_body(alloc, &mut tops, &plan.body)?;
        let alone = alone_variables(alloc, plan.vars.items())?;
        let roles = roles_of(alloc, &tops)?;
        let flags = room_for(alloc, &tops)?;
        Ok(Spread {
            tops,
            alone,
            roles,
            flags,
        })
    }

    /// The spread roles.
    #[inline(always)]
    pub(crate) fn roles(&self) -> &RoleSet
        ensures { (r : ℕ) → set.contains result.now r ≡ is_spread_in (Some self.now) r }
    {
        &self.roles
    }

    /// For the role, where it is spread, the statement that reaches its tops alone.
    #[inline(always)]
    pub(crate) fn top(&self, role: Role) -> Option<&Off>
        ensures top { option_map (λ off. off.now) result ≡ slice_index_or self.now.tops role.0 None }
        ensures role { (off : Off) → slice_index_or self.now.tops role.0 None ≡ Some off → off.role.0 ≡ role.0 }
    {
        top_in(&self.tops, role)
    }

    /// Whether the path of the variable has no descendant step.
    #[inline(always)]
    pub(crate) fn is_alone(&self, var: VarId) -> bool
        ensures { result ≡ slice_index_or self.now.alone var.0 true }
    {
        is_alone(&self.alone, var)
    }

    /// Of the roles that the new child of the row at `parent` has, leaves those that are kept at it.
    pub(crate) fn keep_tops<N: NodeStore<Row>>(
        &mut self,
        nodes: &N,
        parent: Place,
        kind: &Kind,
        roles: &mut NodeRoles,
    )
        requires shape { Shaped (N.rows nodes.now) }
        requires there { IsSome (map.get (N.rows nodes.now) parent.0) }
        requires own { OwnApart self.old.tops }
        ensures held { KeepsTops (cells (N.rows nodes.now)) parent.0 kind.now self.old.tops roles.old.held roles.new.held }
        ensures signed { roles.new.signed ≡ roles.old.signed }
        ensures same { self.new ≡ self.old }
    {
        if !roles.meets(&self.roles) {
            return;
        }
        keep_tops(nodes, &self.tops, parent, kind, roles, &mut self.flags);
    }
}

/// A table of the statements of so many roles that has none of them.
fn no_tops(alloc: Global, roles: usize) -> Result<Vec<Option<Off>>, Memory>
    ensures { IfOk result (λ tops. tops.items ≡ replicate roles None) }
{
    let mut tops = Vec::new(alloc);
    for _role in 0..roles {
        tops.push(None)?;
    }
    Ok(tops)
}

/// Notes the statements of the item.
#[cycle(read_statements)]
fn put_item(alloc: Global, tops: &mut Vec<Option<Off>>, item: &Item) -> Result<(), Memory>
    ensures { OnOk result (trees_of tops.new.items ≡ put_tops (item_offs (item_tree item.now)) (trees_of tops.old.items)) }
{
    match item {
        Item::Write(_) | Item::Copy(_) => Ok(()),
        Item::For { body, .. } => put_body(alloc, tops, body),
        Item::If { then, other, .. } => {
            put_body(alloc, tops, then)?;
            put_body(alloc, tops, other)
        }
        Item::Off(off) => put_top(alloc, tops, off),
    }
}

/// Notes the statements of the body.
#[cycle(read_statements)]
fn put_body(alloc: Global, tops: &mut Vec<Option<Off>>, body: &Body) -> Result<(), Memory>
    ensures { OnOk result (trees_of tops.new.items ≡ put_tops (offs_in (body_tree body.now)) (trees_of tops.old.items)) }
{
    for item in body.items() {
        put_item(alloc, tops, item)?;
    }
    Ok(())
}

/// Notes the statement, if its role is spread.
fn put_top(alloc: Global, tops: &mut Vec<Option<Off>>, off: &Off) -> Result<(), Memory>
    ensures { OnOk result (trees_of tops.new.items ≡ put_tops (off_tree off.now ∷ []) (trees_of tops.old.items)) }
{
    match off.kind {
        RoleKind::Own | RoleKind::First => Ok(()),
        RoleKind::Whole => {
            let top = top_of(alloc, off)?;
            set_top(tops, off.role, top);
            Ok(())
        }
    }
}

fn set_top(tops: &mut [Option<Off>], role: Role, top: Off)
    ensures { tops.new ≡ list_set tops.old role.0 (Some top) }
{
    let place = role.0 as usize;
    if place < tops.len() {
        tops[place] = Some(top);
    }
}

/// The statement that reaches, of what this one reaches, the tops alone.
fn top_of(alloc: Global, off: &Off) -> Result<Off, Memory>
    ensures { IfOk result (λ top. off_tree top ≡ top_off (off_tree off.now)) }
{
    let rel = joined(alloc, &off.rel, &off.tail)?;
    Ok(Off {
        base: off.base,
        own: off.own,
        role: off.role,
        rel,
        tail: Steps::new(alloc),
        kind: RoleKind::Own,
    })
}

fn joined(alloc: Global, front: &Steps, back: &Steps) -> Result<Steps, Memory>
    ensures { IfOk result (λ steps. steps ≡ front.now ++ back.now) }
{
    let mut steps = front.copy(alloc)?;
    for step in back.items() {
        steps.push(step.copy(alloc)?)?;
    }
    Ok(steps)
}

fn top_in(tops: &[Option<Off>], role: Role) -> Option<&Off>
    ensures { option_map (λ off. off.now) result ≡ slice_index_or tops.now role.0 None }
{
    match tops.get(role.0 as usize) {
        Some(Some(top)) => Some(top),
        Some(None) | None => None,
    }
}

/// The roles of which the table has a statement.
fn roles_of(alloc: Global, tops: &[Option<Off>]) -> Result<RoleSet, Memory>
    requires { (r : ℕ) (top : Off) → slice_index_or tops.now r None ≡ Some top → top.role.0 ≡ r }
    ensures { IfOk result (λ roles. (r : ℕ) → set.contains roles r ≡ is_some (slice_index_or tops.now r None)) }
{
    let mut roles = RoleSet::new(alloc);
    for slot in tops {
        give_role(&mut roles, slot)?;
    }
    Ok(roles)
}

/// Adds the statement's role.
fn give_role(roles: &mut RoleSet, slot: &Option<Off>) -> Result<(), Memory>
    ensures { OnOk result (roles.new ≡ role_given slot.now roles.old) }
{
    match slot {
        Some(top) => roles.give(top.role),
        None => Ok(()),
    }
}

/// Room for a walk with the steps of any statement of the table.
fn room_for(alloc: Global, tops: &[Option<Off>]) -> Result<Vec<bool>, Memory>
    ensures { IfOk result (λ flags. HasRoomFor tops.now (vec_capacity flags)) }
{
    let mut flags = Vec::new(alloc);
    for slot in tops {
        make_room_for(&mut flags, slot)?;
    }
    Ok(flags)
}

/// Room for a walk with the statement's steps too.
fn make_room_for(flags: &mut Vec<bool>, slot: &Option<Off>) -> Result<(), Memory>
    ensures room { OnOk result ((top : Off) → slot.now ≡ Some top → length top.rel + 1 ≤ vec_capacity flags.new) }
    ensures grown { vec_capacity flags.old ≤ vec_capacity flags.new }
{
    if let Some(top) = slot {
        flags.reserve(top.rel.items().len() + 1)?;
    }
    Ok(())
}

/// For each variable from 0 whether its path has no descendant step.
fn alone_variables(alloc: Global, rows: &[VarRow]) -> Result<Vec<bool>, Memory>
    ensures { IfOk result (λ alone. alone.items ≡ alone_by (list_map var_row_tree rows.now)) }
{
    let mut alone = Vec::new(alloc);
    alone.push(true)?;
    for row in rows {
        let all_child = is_next_alone(&alone, row);
        alone.push(all_child)?;
    }
    Ok(alone)
}

/// Whether the path of the row's variable, behind those of these, has no descendant step.
fn is_next_alone(alone: &[bool], row: &VarRow) -> bool
    ensures { result ≡ (slice_index_or alone.now row.now.parent.0 true && is_child row.now.step.axis) }
{
    is_alone(alone, row.parent) && is_child(row.step.axis)
}

fn is_alone(alone: &[bool], var: VarId) -> bool
    ensures { result ≡ slice_index_or alone.now var.0 true }
{
    match alone.get(var.0 as usize) {
        Some(all_child) => *all_child,
        None => true,
    }
}

fn is_child(axis: Axis) -> bool
    ensures { result ≡ is_child axis }
{
    match axis {
        Axis::Child => true,
        Axis::Descendant => false,
    }
}

/// Whether the row, or one above it, keeps a spread role.
#[inline(always)]
pub(crate) fn covers(spread: &Option<Spread>, row: &Row) -> bool
    ensures { (result ≡ true) ↔ KeepsSpread spread.now row.now }
{
    match spread {
        Some(spread) => row.covers(spread.roles()),
        None => false,
    }
}

/// Whether the role is spread.
#[inline(always)]
pub(crate) fn is_spread(spread: &Option<Spread>, role: Role) -> bool
    ensures { result ≡ is_spread_in spread.now role.0 }
{
    match spread {
        Some(spread) => spread.roles().has(role),
        None => false,
    }
}
