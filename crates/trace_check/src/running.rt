//! The run of a plan over the whole tree: its actions, each with the time from which on it is possible.
ghost use Rattle.std.specs.Prelude.{◌≡◌, ◌<◌, ◌∷◌, [], All, length, map, OnOk, IfOk};
ghost use Rattle.gcx_model.specs.ItemView.{item_tree, body_tree};
ghost use Rattle.gcx_model.specs.Nodes.{Grown};
ghost use Rattle.gcx_model.specs.Paths.{matches};
ghost use Rattle.gcx_model.specs.PlanView.{plan_tree};
ghost use Rattle.gcx_model.specs.Tree.{serial_of};
ghost use Rattle.doc_tree.specs.Rows.{node_at};
ghost use Rattle.time_laws.specs.Times.{timed_acts, item_course, course};
ghost use Rattle.trace_check.specs.Acting.{shown, seen, Adds};
ghost use Rattle.trace_check.specs.Memoing.{IsMemo};
ghost use Rattle.trace_check.specs.Scopes.{env_of, rounds_from, IsBound};
ghost use Rattle.trace_check.specs.Timing.{clock_in};
ghost use Rattle.trace_check.specs.Wanting.{OffsAreThere};
ghost use Rattle.trace_check.specs.declared.timed.Timed.{Timed};

use crate::acts::{Acts, TimedAct};
use crate::conditions::settle;
use crate::memo::Memo;
use crate::scope::{Binding, node_of};
use crate::timed::Timed;
use gcx_base::{Memory, Step, VarId};
use gcx_model::{Body, Item, Plan};
use std::alloc::Global;

/// Where a walk over the plan stands: what its variables are bound to, and what it found before.
#[derive(Drop)]
struct Walk<'p> {
    scope: Vec<Binding>,
    memo: Memo<'p>,
}

impl<'p> Walk<'p> {
    /// Keeps the turns of a loop, if it may be met again at the node of the variable that it comes from.
    fn keep_turns(
        &mut self,
        from: VarId,
        var: VarId,
        node: usize,
        step: &'p Step,
        nodes: Vec<usize>,
    ) -> Result<(), Memory>
        ensures scope { OnOk result (self.new.scope.items ≡ self.old.scope.items) }
        ensures memo { OnOk result ((t : Timed) → IsMemo t self.old.memo
            → nodes.items ≡ map serial_of (matches t.tree (serial_of (node_at t.tree.nodes node)) (step.now ∷ []))
            → IsMemo t self.new.memo) }
    {
        if self.memo.is_met_once(&self.scope, from, from) {
            return Ok(());
        }
        self.memo.keep_turns(var, node, step, nodes)
    }
}

/// The turns of a loop from the node, by what is kept or anew.
fn turns_of<'p>(
    alloc: Global,
    timed: &Timed,
    memo: &mut Memo<'p>,
    var: VarId,
    node: usize,
    step: &'p Step,
) -> Result<Vec<usize>, Memory>
    requires { IsMemo timed.now memo.old }
    ensures turns { IfOk result (λ nodes. nodes.items
        ≡ map serial_of (matches timed.now.tree (serial_of (node_at timed.now.tree.nodes node)) (step.now ∷ []))) }
    ensures memo { OnOk result (IsMemo timed.now memo.new) }
{
    match memo.take_turns(var, node, step) {
        Some(nodes) => Ok(nodes),
        None => timed.tree.reached(alloc, node, step),
    }
}

impl<'p> Acts<'p> {
    /// A loop's turns at these nodes, from a time on. Answers the time from which on they are done.
    #[cycle(runs)]
    fn run_turns(
        &mut self,
        alloc: Global,
        timed: &Timed,
        walk: &mut Walk<'p>,
        var: VarId,
        nodes: &[usize],
        body: &'p Body,
        now: usize,
    ) -> Result<usize, Memory>
        requires bound { IsBound timed.now.tree walk.old.scope.items }
        requires memo { IsMemo timed.now walk.old.memo }
        requires there { All (λ node. node < length timed.now.tree.nodes) nodes.now }
        ensures scope { OnOk result (walk.new.scope.items ≡ walk.old.scope.items) }
        ensures memo { OnOk result (IsMemo timed.now walk.new.memo) }
        ensures acts { IfOk result (Adds self.old.acts.items self.new.acts.items
            (rounds_from timed.now walk.old.scope.items var.0 (body_tree body.now) nodes.now now)) }
    {
        let mut done = now;
        for node in nodes {
            walk.scope.push(Binding { var, node: *node })?;
            done = self.run(alloc, timed, walk, body, done.max(timed.opened_at(*node)))?;
            let _ = walk.scope.pop();
        }
        Ok(done)
    }

    /// An item, from a time on. Answers the time from which on it is done.
    #[cycle(runs)]
    fn run_item(
        &mut self,
        alloc: Global,
        timed: &Timed,
        walk: &mut Walk<'p>,
        item: &'p Item,
        now: usize,
    ) -> Result<usize, Memory>
        requires bound { IsBound timed.now.tree walk.old.scope.items }
        requires memo { IsMemo timed.now walk.old.memo }
        ensures scope { OnOk result (walk.new.scope.items ≡ walk.old.scope.items) }
        ensures memo { OnOk result (IsMemo timed.now walk.new.memo) }
        ensures acts { IfOk result (Adds self.old.acts.items self.new.acts.items
            (item_course (clock_in timed.now) timed.now.tree (item_tree item.now)
            (env_of timed.now.tree walk.old.scope.items) now)) }
    {
        match item {
            Item::Write(text) => {
                self.write(now, text.as_bytes().len())?;
                Ok(now)
            }
            Item::Copy(var) => {
                let node = node_of(&walk.scope, *var);
                self.copy(alloc, timed, node, now)
            }
            Item::For {
                var,
                from,
                step,
                body,
            } => {
                let node = node_of(&walk.scope, *from);
                let nodes = turns_of(alloc, timed, &mut walk.memo, *var, node, step)?;
                let done = self.run_turns(alloc, timed, walk, *var, &nodes, body, now)?;
                walk.keep_turns(*from, *var, node, step, nodes)?;
                Ok(done.max(timed.closed_at(node)))
            }
            Item::If { cond, then, other } => {
                let known = settle(alloc, timed, &walk.scope, &mut walk.memo, cond)?;
                let branch = if known.truth { then } else { other };
                self.run(alloc, timed, walk, branch, now.max(known.at))
            }
            Item::Off(off) => {
                self.sign_off(now, node_of(&walk.scope, off.base), off)?;
                Ok(now)
            }
        }
    }

    /// A body, from a time on. Answers the time from which on it is done.
    #[cycle(runs)]
    fn run(
        &mut self,
        alloc: Global,
        timed: &Timed,
        walk: &mut Walk<'p>,
        body: &'p Body,
        now: usize,
    ) -> Result<usize, Memory>
        requires bound { IsBound timed.now.tree walk.old.scope.items }
        requires memo { IsMemo timed.now walk.old.memo }
        ensures scope { OnOk result (walk.new.scope.items ≡ walk.old.scope.items) }
        ensures memo { OnOk result (IsMemo timed.now walk.new.memo) }
        ensures acts { IfOk result (Adds self.old.acts.items self.new.acts.items
            (course (clock_in timed.now) timed.now.tree (body_tree body.now)
            (env_of timed.now.tree walk.old.scope.items) now)) }
    {
        let mut done = now;
        for item in &body.members {
            done = self.run_item(alloc, timed, walk, item, done)?;
        }
        Ok(done)
    }
}

/// The actions of the plan's run.
pub(crate) fn acts_of<'p>(
    alloc: Global,
    timed: &Timed,
    plan: &'p Plan,
) -> Result<Vec<TimedAct<'p>>, Memory>
    requires grown { Grown timed.now.tree }
    requires some { 0 < length timed.now.tree.nodes }
    ensures acts { IfOk result (λ acts. map shown acts.items
        ≡ map seen (timed_acts (clock_in timed.now) timed.now.tree (plan_tree plan.now))) }
    ensures there { IfOk result (λ acts. OffsAreThere timed.now.tree acts.items) }
{
    let mut acts = Acts::new(alloc);
    let memo = Memo::new(alloc, &plan.vars);
    let scope = Vec::new(alloc);
    let mut walk = Walk { scope, memo };
    acts.run(alloc, timed, &mut walk, &plan.body, 0)?;
    Ok(acts.acts)
}
