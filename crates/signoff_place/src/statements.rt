//! The statements of a core's roles, by the bodies at whose ends they stand.
ghost use Rattle.std.specs.Prelude.{◌≡◌, ℕ, ◌≤◌, ◌<◌, ◌++◌, ◌∷◌, [], suc, map, length, IfOk, OnOk, slice_index_or, ◌==◌, if◌then◌else◌};
ghost use Rattle.gcx_model.specs.ItemView.{off_tree};
ghost use Rattle.gcx_model.specs.Placed.{at_end, is_empty};
ghost use Rattle.gcx_model.specs.PlanView.{role_row_tree, var_row_tree};
ghost use Rattle.signoff_place.specs.Ends.{ends_of};
ghost use Rattle.signoff_place.specs.Spread.{Within, base_at, ends_at, rel_next, stated, all_stated, tables, with_rels};

use gcx_base::{Memory, Role, Step, Steps, VarId};
use gcx_model::{Off, RoleRow, VarIds, VarRow};
use std::alloc::Global;
use std::marker::Model;

/// Statements, seen as a list.
#[derive(Drop, Debug)]
pub(crate) struct Offs {
    offs: Vec<Off>,
}

impl Model for Offs {
    ghost use Rattle.std.specs.Prelude.{List};
    ghost use Rattle.gcx_model.specs.declared.item.Off.{Off};

    ghost Value = { List Off };

    ghost view = { λ l. l.offs.items };
}

impl Offs {
    pub(crate) fn new(alloc: Global) -> Offs
        ensures { result ≡ [] }
    {
        Offs {
            offs: Vec::new(alloc),
        }
    }

    pub(crate) fn push(&mut self, off: Off) -> Result<(), Memory>
        ensures { OnOk result (self.new ≡ self.old ++ off ∷ []) }
    {
        self.offs.push(off)?;
        Ok(())
    }

    pub(crate) fn items(&self) -> &[Off]
        ensures { result.now ≡ self.now }
    {
        &self.offs
    }
}

/// What statements name of the variables.
#[derive(Drop)]
pub(crate) struct Known {
    /// Of each variable from 0 its own role.
    pub(crate) own: Vec<Role>,
    /// Of each variable from 1 its fsa.
    pub(crate) fsa: VarIds,
    /// Of each variable from 0 the steps from its fsa to it.
    pub(crate) rels: Vec<Steps>,
}

/// The steps to a variable behind those to its parent.
fn steps_behind(alloc: Global, parent: &[Step], step: &Step) -> Result<Steps, Memory>
    ensures { IfOk result (λ steps. steps ≡ parent.now ++ step.now ∷ []) }
{
    let mut steps = Steps::new(alloc);
    for earlier in parent {
        steps.push(earlier.copy(alloc)?)?;
    }
    steps.push(step.copy(alloc)?)?;
    Ok(steps)
}

/// The steps from its fsa to a variable: none where it is straight.
fn next_rel(alloc: Global, rels: &[Steps], row: &VarRow, straight: bool) -> Result<Steps, Memory>
    ensures { IfOk result (λ steps. steps
        ≡ rel_next straight (slice_index_or rels.now row.now.parent.0 []) row.now.step) }
{
    if straight {
        return Ok(Steps::new(alloc));
    }
    match rels.get(row.parent.0 as usize) {
        Some(parent) => steps_behind(alloc, parent.items(), &row.step),
        None => steps_behind(alloc, &[], &row.step),
    }
}

/// The steps from its fsa to each variable from 0.
pub(crate) fn rels(alloc: Global, vars: &[VarRow], straight: &[bool]) -> Result<Vec<Steps>, Memory>
    requires { length straight.now ≡ length vars.now }
    ensures { IfOk result (λ rels. rels.items ≡ with_rels ([] ∷ []) (map var_row_tree vars.now) straight.now) }
{
    let mut rels = Vec::new(alloc);
    rels.push(Steps::new(alloc))?;
    for (i, row) in vars.iter().enumerate() {
        let rel = next_rel(alloc, &rels, row, straight[i])?;
        rels.push(rel)?;
    }
    Ok(rels)
}

/// The fsa of a variable.
fn base_of(fsa: &[VarId], var: VarId) -> VarId
    ensures { result.0 ≡ base_at (map (λ x. x.0) fsa.now) var.0 }
{
    if var.0 == 0 {
        return VarId(0);
    }
    fsa.get(var.0 as usize - 1).copied().unwrap_or(VarId(0))
}

/// The own role of a variable.
fn own_of(own: &[Role], var: VarId, other: Role) -> Role
    ensures { result.0 ≡ slice_index_or (map (λ r. r.0) own.now) var.0 other.0 }
{
    own.get(var.0 as usize).copied().unwrap_or(other)
}

/// The steps from its fsa to a variable.
fn rel_of(alloc: Global, rels: &[Steps], var: VarId) -> Result<Steps, Memory>
    ensures { IfOk result (λ steps. steps ≡ slice_index_or rels.now var.0 []) }
{
    match rels.get(var.0 as usize) {
        Some(rel) => rel.copy(alloc),
        None => Ok(Steps::new(alloc)),
    }
}

/// The statement of a role.
fn statement(alloc: Global, known: &Known, role: Role, row: &RoleRow) -> Result<Off, Memory>
    ensures { IfOk result (λ off. off_tree off ≡ stated (tables known.now) role.0 (role_row_tree row.now)) }
{
    let base = base_of(known.fsa.items(), row.var);
    let own = own_of(&known.own, base, role);
    let rel = rel_of(alloc, &known.rels, row.var)?;
    let tail = row.tail.copy(alloc)?;
    Ok(Off {
        base,
        own,
        role,
        rel,
        tail,
        kind: row.kind,
    })
}

/// Adds the statement at the end of its base's list.
fn add(ends: &mut [Offs], off: Off) -> Result<(), Memory>
    requires { off.base.0 < length ends.old }
    ensures lists { OnOk result ((x : ℕ) → ends_of ends.new x ≡ ends_of ends.old x
        ++ (if off.base.0 == x then off_tree off ∷ [] else [])) }
    ensures count { OnOk result (length ends.new ≡ length ends.old) }
{
    ends[off.base.0 as usize].push(off)
}

/// Adds the statement of a role, in the turn of own roles or in that of the others.
fn add_role(
    alloc: Global,
    ends: &mut [Offs],
    known: &Known,
    role: Role,
    row: &RoleRow,
    own: bool,
) -> Result<(), Memory>
    requires { Within (length ends.old) (tables known.now) }
    ensures lists { OnOk result ((x : ℕ) → ends_of ends.new x ≡ ends_of ends.old x
        ++ ends_at own (stated (tables known.now) role.0 (role_row_tree row.now) ∷ []) x) }
    ensures count { OnOk result (length ends.new ≡ length ends.old) }
{
    let off = statement(alloc, known, role, row)?;
    if off.is_own() == own {
        add(ends, off)
    } else {
        Ok(())
    }
}

/// Adds the statements of one turn: of those that take back a base's own role, or of the others.
fn add_turn(
    alloc: Global,
    ends: &mut [Offs],
    known: &Known,
    roles: &[RoleRow],
    own: bool,
) -> Result<(), Memory>
    requires few { length roles.now ≤ 2000 }
    requires within { Within (length ends.old) (tables known.now) }
    ensures lists { OnOk result ((x : ℕ) → ends_of ends.new x ≡ ends_of ends.old x
        ++ ends_at own (all_stated (tables known.now) 0 (map role_row_tree roles.now)) x) }
    ensures count { OnOk result (length ends.new ≡ length ends.old) }
{
    for (i, row) in roles.iter().enumerate() {
        add_role(alloc, ends, known, Role(i as u32), row, own)?;
    }
    Ok(())
}

/// An empty list for each variable from 0.
fn no_ends(alloc: Global, count: usize) -> Result<Vec<Offs>, Memory>
    ensures empty { IfOk result (λ ends. (x : ℕ) → ends_of ends.items x ≡ []) }
    ensures count { IfOk result (λ ends. length ends.items ≡ count) }
{
    let mut ends = Vec::new(alloc);
    for _ in 0..count {
        ends.push(Offs::new(alloc))?;
    }
    Ok(ends)
}

/// The statements at the end of the body of each variable from 0: by rising role number, its own role's last.
pub(crate) fn ends(
    alloc: Global,
    known: &Known,
    roles: &[RoleRow],
    count: usize,
) -> Result<Vec<Offs>, Memory>
    requires few { length roles.now ≤ 2000 }
    requires within { Within count (tables known.now) }
    ensures { IfOk result (λ ends. (x : ℕ) → ends_of ends.items x
        ≡ at_end (all_stated (tables known.now) 0 (map role_row_tree roles.now)) x) }
{
    let mut ends = no_ends(alloc, count)?;
    add_turn(alloc, &mut ends, known, roles, false)?;
    add_turn(alloc, &mut ends, known, roles, true)?;
    Ok(ends)
}
