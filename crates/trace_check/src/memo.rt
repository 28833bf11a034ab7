//! What was found before. An `exists` or a comparison is worked out once for each pair of nodes of its variables, the turns
//! of a loop once for each node that it comes from. What is met at its nodes once isn't kept.
ghost use Rattle.std.specs.Prelude.{◌≡◌, ◌∷◌, [], true, map, IfSome, OnOk, IfOk};
ghost use Rattle.gcx_model.specs.CondView.{core_cond_tree, operand_tree};
ghost use Rattle.gcx_model.specs.Paths.{matches};
ghost use Rattle.gcx_model.specs.Tree.{serial_of};
ghost use Rattle.doc_tree.specs.Rows.{node_at};
ghost use Rattle.trace_check.specs.Memoing.{IsKnown, IsKnownAt, IsMemo, IsPlaceOf};
ghost use Rattle.trace_check.specs.declared.timed.Timed.{Timed};

use crate::conditions::Settled;
use crate::scope::Binding;
use gcx_base::{Axis, Memory, Step, VarId};
use gcx_model::{Cond, Operand, VarRows};
use std::alloc::Global;
use std::collections::BTreeMap;

/// What is known of an `exists` or of a comparison, by the nodes of its variables.
#[derive(Drop)]
pub(crate) struct Kept<'p> {
    pub cond: &'p Cond,
    pub known: BTreeMap<(usize, usize), Settled>,
}

impl<'p> Kept<'p> {
    /// Keeps what is known at these nodes.
    fn keep(&mut self, left: usize, right: usize, known: Settled) -> Result<(), Memory>
        ensures cond { OnOk result (self.new.cond ≡ self.old.cond) }
        ensures known { OnOk result ((t : Timed) → IsKnown t self.old
            → IsKnownAt t (core_cond_tree self.old.cond.now) left right known → IsKnown t self.new) }
    {
        self.known.insert((left, right), known)?;
        Ok(())
    }
}

/// The turns of a loop from a node.
#[derive(Drop)]
pub(crate) struct Turns<'p> {
    pub step: &'p Step,
    pub nodes: Vec<usize>,
}

/// What is kept of conditions and of loops.
#[derive(Drop)]
pub(crate) struct Memo<'p> {
    /// The loop of each variable from 1.
    vars: &'p VarRows,
    /// One entry of each condition that may be met again.
    pub kept: Vec<Kept<'p>>,
    /// Where a condition is looked for first: where one was found last.
    pub next: usize,
    /// By the variable of the loop and the node that it comes from.
    pub turns: BTreeMap<(u32, usize), Turns<'p>>,
}

/// Whether two steps are the same.
fn is_same(kept: &Step, step: &Step) -> bool
    ensures { result ≡ true → kept.now ≡ step.now }
{
    *kept == *step
}

/// Whether two paths have the same steps.
fn are_same(kept: &[Step], steps: &[Step]) -> bool
    ensures { result ≡ true → kept.now ≡ steps.now }
{
    *kept == *steps
}

/// Whether two sides are the same.
fn same_operand(kept: &Operand, operand: &Operand) -> bool
    ensures { result ≡ true → operand_tree kept.now ≡ operand_tree operand.now }
{
    match (kept, operand) {
        (
            Operand::Path { var, steps },
            Operand::Path {
                var: other,
                steps: others,
            },
        ) => *var == *other && are_same(steps.items(), others.items()),
        (Operand::Str(kept), Operand::Str(text)) => *kept == *text,
        (Operand::Num(kept), Operand::Num(units)) => *kept == *units,
        _ => false,
    }
}

/// Whether two conditions without connectives are the same.
fn same_cond(kept: &Cond, cond: &Cond) -> bool
    ensures { result ≡ true → core_cond_tree kept.now ≡ core_cond_tree cond.now }
{
    match (kept, cond) {
        (
            Cond::Exists { var, steps },
            Cond::Exists {
                var: other,
                steps: others,
            },
        ) => *var == *other && are_same(steps.items(), others.items()),
        (
            Cond::Compare { left, rel, right },
            Cond::Compare {
                left: other_left,
                rel: other,
                right: other_right,
            },
        ) => *rel == *other && same_operand(left, other_left) && same_operand(right, other_right),
        _ => false,
    }
}

impl<'p> Memo<'p> {
    /// Nothing is known.
    pub fn new(alloc: Global, vars: &'p VarRows) -> Memo<'p>
        ensures { (t : Timed) → IsMemo t result }
    {
        Memo {
            vars,
            kept: Vec::new(alloc),
            next: 0,
            turns: BTreeMap::new(alloc),
        }
    }

    /// The variable whose node is known by that of this one, since its loop steps from it to children; else the root.
    fn known_by(&self, var: VarId) -> VarId {
        let Some(index) = (var.0 as usize).checked_sub(1) else {
            return VarId(0);
        };
        match self.vars.items().get(index) {
            Some(row) if row.step.axis == Axis::Child => row.parent,
            _ => VarId(0),
        }
    }

    /// Whether what has only these two variables is met once at their nodes, since these tell the nodes of all others in scope.
    pub fn is_met_once(&self, scope: &[Binding], left: VarId, right: VarId) -> bool {
        let mut left = left;
        let mut right = right;
        for binding in scope.iter().rev() {
            let var = binding.var;
            if var != left && var != right {
                return false;
            }
            let from = self.known_by(var);
            if var == left {
                left = from;
            }
            if var == right {
                right = from;
            }
        }
        true
    }

    /// The place of the condition's entry among those from one on up to another one.
    fn place_between(&self, cond: &Cond, from: usize, to: usize) -> Option<usize>
        ensures { IfSome result (λ place. IsPlaceOf place (core_cond_tree cond.now) self.now.kept.items) }
    {
        let end = to.min(self.kept.len());
        for place in from..end {
            if same_cond(self.kept[place].cond, cond) {
                return Some(place);
            }
        }
        None
    }

    /// The place of the condition's entry, if there is one.
    fn place(&self, cond: &Cond) -> Option<usize>
        ensures { IfSome result (λ place. IsPlaceOf place (core_cond_tree cond.now) self.now.kept.items) }
    {
        match self.place_between(cond, self.next, self.kept.len()) {
            Some(place) => Some(place),
            None => self.place_between(cond, 0, self.next),
        }
    }

    /// The place of the condition's entry, which is made where there is none.
    fn place_or_new(&mut self, alloc: Global, cond: &'p Cond) -> Result<usize, Memory>
        ensures place { IfOk result (λ place. IsPlaceOf place (core_cond_tree cond.now) self.new.kept.items) }
        ensures memo { OnOk result ((t : Timed) → IsMemo t self.old → IsMemo t self.new) }
    {
        if let Some(place) = self.place(cond) {
            return Ok(place);
        }
        let place = self.kept.len();
        let known = BTreeMap::new(alloc);
        self.kept.push(Kept { cond, known })?;
        Ok(place)
    }

    /// What is known of the condition at these nodes.
    pub fn known(&mut self, cond: &Cond, left: usize, right: usize) -> Option<Settled>
        ensures known { IfSome result (λ s. (t : Timed) → IsMemo t self.old
            → IsKnownAt t (core_cond_tree cond.now) left right s) }
        ensures memo { (t : Timed) → IsMemo t self.old → IsMemo t self.new }
    {
        let place = self.place(cond)?;
        self.next = place;
        self.kept[place].known.get(&(left, right)).copied()
    }

    /// Keeps what is known of the condition at these nodes.
    pub fn keep(
        &mut self,
        alloc: Global,
        cond: &'p Cond,
        left: usize,
        right: usize,
        known: Settled,
    ) -> Result<(), Memory>
        ensures { OnOk result ((t : Timed) → IsMemo t self.old
            → IsKnownAt t (core_cond_tree cond.now) left right known → IsMemo t self.new) }
    {
        let place = self.place_or_new(alloc, cond)?;
        self.kept[place].keep(left, right, known)?;
        Ok(())
    }

    /// The turns of the loop from the node, if they are kept. They are kept no more.
    pub fn take_turns(&mut self, var: VarId, from: usize, step: &Step) -> Option<Vec<usize>>
        ensures turns { IfSome result (λ nodes. (t : Timed) → IsMemo t self.old
            → nodes.items ≡ map serial_of (matches t.tree (serial_of (node_at t.tree.nodes from)) (step.now ∷ []))) }
        ensures memo { (t : Timed) → IsMemo t self.old → IsMemo t self.new }
    {
        let turns = self.turns.remove(&(var.0, from))?;
        if is_same(turns.step, step) {
            Some(turns.nodes)
        } else {
            None
        }
    }

    /// Keeps the turns of the loop from the node.
    pub fn keep_turns(
        &mut self,
        var: VarId,
        from: usize,
        step: &'p Step,
        nodes: Vec<usize>,
    ) -> Result<(), Memory>
        ensures { OnOk result ((t : Timed) → IsMemo t self.old
            → nodes.items ≡ map serial_of (matches t.tree (serial_of (node_at t.tree.nodes from)) (step.now ∷ []))
            → IsMemo t self.new) }
    {
        self.turns.insert((var.0, from), Turns { step, nodes })?;
        Ok(())
    }
}
