//! Cores and plans (ICDE 2007: roles and signOff statements; that variables are numbers is this project's).
ghost use Rattle.std.specs.Prelude.{◌≡◌, ◌++◌, ◌∷◌, [], IfOk, OnOk, OnErr};
ghost use Rattle.gcx_model.specs.PlanView.{core_tree, plan_tree};

use crate::item::{Body, RoleKind};
use gcx_base::{Memory, Step, Steps, VarId};
use std::alloc::Global;
use std::marker::Model;

/// The loop of a variable: over this step from the parent.
#[derive(Drop, Debug)]
pub struct VarRow {
    pub parent: VarId,
    pub step: Step,
}

impl VarRow {
    /// A copy of the row. `Memory`: there was no room for it.
    pub fn copy(&self, alloc: Global) -> Result<VarRow, Memory>
        ensures { IfOk result (λ row. row ≡ self.now) }
    {
        let step = self.step.copy(alloc)?;
        Ok(VarRow {
            parent: self.parent,
            step,
        })
    }
}

/// A role: its variable, a tail and a kind.
#[derive(Drop, Debug)]
pub struct RoleRow {
    pub var: VarId,
    pub tail: Steps,
    pub kind: RoleKind,
}

impl RoleRow {
    /// A copy of the row. `Memory`: there was no room for it.
    pub fn copy(&self, alloc: Global) -> Result<RoleRow, Memory>
        ensures { IfOk result (λ row. row ≡ self.now) }
    {
        let tail = self.tail.copy(alloc)?;
        Ok(RoleRow {
            var: self.var,
            tail,
            kind: self.kind,
        })
    }
}

/// A query in normal form: a body whose loops have one step each, and the row of each variable from 1.
#[derive(Drop, Debug)]
pub struct Core {
    pub body: Body,
    pub vars: VarRows,
}

impl Core {
    /// A copy of the core. `Memory`: there was no room for it.
    pub fn copy(&self, alloc: Global) -> Result<Core, Memory>
        ensures { IfOk result (λ core. core_tree core ≡ core_tree self.now) }
    {
        let body = self.body.copy(alloc)?;
        let vars = self.vars.copy(alloc)?;
        Ok(Core { body, vars })
    }
}

/// A core with signOff statements in it.
#[derive(Drop, Debug)]
pub struct Plan {
    pub body: Body,
    /// The row of each variable from 1.
    pub vars: VarRows,
    /// For each variable from 1 whether it is straight.
    pub straight: Flags,
    /// For each variable from 1 the first straight one at it or above it.
    pub fsa: VarIds,
    /// The row of each role from 0.
    pub roles: RoleRows,
}

impl Plan {
    /// A copy of the plan. `Memory`: there was no room for it.
    pub fn copy(&self, alloc: Global) -> Result<Plan, Memory>
        ensures { IfOk result (λ plan. plan_tree plan ≡ plan_tree self.now) }
    {
        let body = self.body.copy(alloc)?;
        let vars = self.vars.copy(alloc)?;
        let straight = self.straight.copy(alloc)?;
        let fsa = self.fsa.copy(alloc)?;
        let roles = self.roles.copy(alloc)?;
        Ok(Plan {
            body,
            vars,
            straight,
            fsa,
            roles,
        })
    }
}

/// The rows of variables, seen as a list.
#[derive(Drop, Debug)]
pub struct VarRows {
    rows: Vec<VarRow>,
}

impl Model for VarRows {
    ghost use Rattle.std.specs.Prelude.{List};
    ghost use Rattle.gcx_model.specs.declared.plan.VarRow.{VarRow};

    ghost Value = { List VarRow };

    ghost view = { λ l. l.rows.items };
}

impl VarRows {
    /// The empty list.
    pub fn new(alloc: Global) -> VarRows
        ensures { result ≡ [] }
    {
        VarRows {
            rows: Vec::new(alloc),
        }
    }

    /// Adds a row at the end. After `Memory` the list is unchanged.
    pub fn push(&mut self, row: VarRow) -> Result<(), Memory>
        ensures ok { OnOk result (self.new ≡ self.old ++ row ∷ []) }
        ensures err { OnErr result (self.new ≡ self.old) }
    {
        self.rows.push(row)?;
        Ok(())
    }

    /// The rows in order.
    pub fn items(&self) -> &[VarRow]
        ensures { result.now ≡ self.now }
    {
        &self.rows
    }

    /// A copy of the list. `Memory`: there was no room for it.
    pub fn copy(&self, alloc: Global) -> Result<VarRows, Memory>
        ensures { IfOk result (λ rows. rows ≡ self.now) }
    {
        let mut copied = VarRows::new(alloc);
        for row in &self.rows {
            copied.push(row.copy(alloc)?)?;
        }
        Ok(copied)
    }
}

/// The rows of roles, seen as a list.
#[derive(Drop, Debug)]
pub struct RoleRows {
    rows: Vec<RoleRow>,
}

impl Model for RoleRows {
    ghost use Rattle.std.specs.Prelude.{List};
    ghost use Rattle.gcx_model.specs.declared.plan.RoleRow.{RoleRow};

    ghost Value = { List RoleRow };

    ghost view = { λ l. l.rows.items };
}

impl RoleRows {
    /// The empty list.
    pub fn new(alloc: Global) -> RoleRows
        ensures { result ≡ [] }
    {
        RoleRows {
            rows: Vec::new(alloc),
        }
    }

    /// Adds a row at the end. After `Memory` the list is unchanged.
    pub fn push(&mut self, row: RoleRow) -> Result<(), Memory>
        ensures ok { OnOk result (self.new ≡ self.old ++ row ∷ []) }
        ensures err { OnErr result (self.new ≡ self.old) }
    {
        self.rows.push(row)?;
        Ok(())
    }

    /// The rows in order.
    pub fn items(&self) -> &[RoleRow]
        ensures { result.now ≡ self.now }
    {
        &self.rows
    }

    /// A copy of the list. `Memory`: there was no room for it.
    pub fn copy(&self, alloc: Global) -> Result<RoleRows, Memory>
        ensures { IfOk result (λ rows. rows ≡ self.now) }
    {
        let mut copied = RoleRows::new(alloc);
        for row in &self.rows {
            copied.push(row.copy(alloc)?)?;
        }
        Ok(copied)
    }
}

/// Numbers of variables, seen as a list.
#[derive(Drop, Debug)]
pub struct VarIds {
    vars: Vec<VarId>,
}

impl Model for VarIds {
    ghost use Rattle.std.specs.Prelude.{List};
    ghost use Rattle.gcx_base.specs.declared.ids.VarId.{VarId};

    ghost Value = { List VarId };

    ghost view = { λ l. l.vars.items };
}

impl VarIds {
    /// The empty list.
    pub fn new(alloc: Global) -> VarIds
        ensures { result ≡ [] }
    {
        VarIds {
            vars: Vec::new(alloc),
        }
    }

    /// Adds a number at the end. After `Memory` the list is unchanged.
    pub fn push(&mut self, var: VarId) -> Result<(), Memory>
        ensures ok { OnOk result (self.new ≡ self.old ++ var ∷ []) }
        ensures err { OnErr result (self.new ≡ self.old) }
    {
        self.vars.push(var)?;
        Ok(())
    }

    /// The numbers in order.
    pub fn items(&self) -> &[VarId]
        ensures { result.now ≡ self.now }
    {
        &self.vars
    }

    /// A copy of the list. `Memory`: there was no room for it.
    pub fn copy(&self, alloc: Global) -> Result<VarIds, Memory>
        ensures { IfOk result (λ vars. vars ≡ self.now) }
    {
        let vars = self.vars.as_slice().to_vec(alloc)?;
        Ok(VarIds { vars })
    }
}

/// Truth values, seen as a list.
#[derive(Drop, Debug)]
pub struct Flags {
    flags: Vec<bool>,
}

impl Model for Flags {
    ghost use Rattle.std.specs.Prelude.{List, Bool};

    ghost Value = { List Bool };

    ghost view = { λ l. l.flags.items };
}

impl Flags {
    /// The empty list.
    pub fn new(alloc: Global) -> Flags
        ensures { result ≡ [] }
    {
        Flags {
            flags: Vec::new(alloc),
        }
    }

    /// Adds a value at the end. After `Memory` the list is unchanged.
    pub fn push(&mut self, flag: bool) -> Result<(), Memory>
        ensures ok { OnOk result (self.new ≡ self.old ++ flag ∷ []) }
        ensures err { OnErr result (self.new ≡ self.old) }
    {
        self.flags.push(flag)?;
        Ok(())
    }

    /// The values in order.
    pub fn items(&self) -> &[bool]
        ensures { result.now ≡ self.now }
    {
        &self.flags
    }

    /// A copy of the list. `Memory`: there was no room for it.
    pub fn copy(&self, alloc: Global) -> Result<Flags, Memory>
        ensures { IfOk result (λ flags. flags ≡ self.now) }
    {
        let flags = self.flags.as_slice().to_vec(alloc)?;
        Ok(Flags { flags })
    }
}
