//! Conditions of a core. `CondList` holds members that hold it again, so its clauses speak of plain trees.
ghost use Rattle.std.specs.Prelude.{◌≡◌, ◌++◌, ◌∷◌, [], map, IfOk, OnOk, OnErr};
ghost use Rattle.gcx_model.specs.CondView.{core_cond_tree, core_cond_trees};

use gcx_base::{Memory, Rel, Steps, Text, VarId};
use std::alloc::Global;

/// One side of a comparison.
#[derive(Drop, Debug)]
pub enum Operand {
    /// The matches of the steps from the node of the variable.
    Path { var: VarId, steps: Steps },
    Str(Text),
    /// A number in units of 10^-18.
    Num(i128),
}

impl Operand {
    /// A copy of the operand. `Memory`: there was no room for it.
    pub fn copy(&self, alloc: Global) -> Result<Operand, Memory>
        ensures { IfOk result (λ operand. operand ≡ self.now) }
    {
        match self {
            Operand::Path { var, steps } => {
                let steps = steps.copy(alloc)?;
                Ok(Operand::Path { var: *var, steps })
            }
            Operand::Str(text) => Ok(Operand::Str(text.copy(alloc)?)),
            Operand::Num(units) => Ok(Operand::Num(*units)),
        }
    }
}

/// A condition of a core.
#[derive(Drop, Debug)]
#[cycle(core_conditions)]
pub enum Cond {
    True,
    /// Whether the steps have a match from the node of the variable.
    Exists {
        var: VarId,
        steps: Steps,
    },
    /// At most one side is a literal.
    Compare {
        left: Operand,
        rel: Rel,
        right: Operand,
    },
    Not(Box<Cond>),
    /// At least two members.
    All(CondList),
    /// At least two members.
    Any(CondList),
}

impl Cond {
    /// A copy of the condition. `Memory`: there was no room for it.
    #[cycle(copy_core_conditions)]
    pub fn copy(&self, alloc: Global) -> Result<Cond, Memory>
        ensures { IfOk result (λ cond. core_cond_tree cond ≡ core_cond_tree self.now) }
    {
        match self {
            Cond::True => Ok(Cond::True),
            Cond::Exists { var, steps } => {
                let steps = steps.copy(alloc)?;
                Ok(Cond::Exists { var: *var, steps })
            }
            Cond::Compare { left, rel, right } => {
                let left = left.copy(alloc)?;
                let right = right.copy(alloc)?;
                Ok(Cond::Compare {
                    left,
                    rel: *rel,
                    right,
                })
            }
            Cond::Not(cond) => Ok(Cond::Not(Box::new(alloc, cond.copy(alloc)?)?)),
            Cond::All(conds) => Ok(Cond::All(conds.copy(alloc)?)),
            Cond::Any(conds) => Ok(Cond::Any(conds.copy(alloc)?)),
        }
    }
}

/// A list of conditions.
#[derive(Drop, Debug)]
#[cycle(core_conditions)]
pub struct CondList {
    pub members: Vec<Cond>,
}

impl CondList {
    /// The empty list.
    pub fn new(alloc: Global) -> CondList
        ensures { core_cond_trees result ≡ [] }
    {
        CondList {
            members: Vec::new(alloc),
        }
    }

    /// Adds a condition at the end. After `Memory` the list is unchanged.
    pub fn push(&mut self, cond: Cond) -> Result<(), Memory>
        ensures ok { OnOk result (core_cond_trees self.new ≡ core_cond_trees self.old ++ core_cond_tree cond ∷ []) }
        ensures err { OnErr result (core_cond_trees self.new ≡ core_cond_trees self.old) }
    {
        self.members.push(cond)?;
        Ok(())
    }

    /// The conditions in order.
    pub fn items(&self) -> &[Cond]
        ensures same { result.now ≡ self.now.members.items }
        ensures trees { map core_cond_tree result.now ≡ core_cond_trees self.now }
    {
        &self.members
    }

    /// A copy of the list. `Memory`: there was no room for it.
    #[cycle(copy_core_conditions)]
    pub fn copy(&self, alloc: Global) -> Result<CondList, Memory>
        ensures { IfOk result (λ conds. core_cond_trees conds ≡ core_cond_trees self.now) }
    {
        let mut copied = CondList::new(alloc);
        for cond in self.items() {
            copied.push(cond.copy(alloc)?)?;
        }
        Ok(copied)
    }
}
