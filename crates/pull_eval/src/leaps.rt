//! Loops that pass the matches at which their body does nothing.
ghost use Rattle.std.specs.Prelude.{◌≡◌, ◌↔◌, true, Some, None, IfOk, MatchOption, slice_get};
ghost use Rattle.buf_tree.specs.View.{InUse};
ghost use Rattle.cond_eval.specs.Comparing.{IsNodeRow};
ghost use Rattle.pull_eval.specs.Position.{items};
ghost use Rattle.pull_eval.specs.Guards.{IsGuardOf};
ghost use Rattle.pull_eval.specs.Leaps.{AddsTurns, HasLoop, HasNoTurns, IsTurnsOf, KeepsTheirs, LeapsTo, GoesWith, StayTurns, Looks, IsClosedAt};
ghost use Rattle.pull_eval.specs.declared.turns.Turns.{Turns as ItsTurns};

use crate::block::{ForLoop, ends_with_off};
use crate::guard::{Guard, guard_of, is_settled};
use crate::position::Position;
use crate::turns::{Leap, Turns};
use buf_tree::{Buffer, Row};
use gcx_base::{Memory, Serial, Step, VarId};
use gcx_model::Item;
use node_store::{NodeStore, Place};
use std::alloc::Global;

impl<'p> Position<'p> {
    /// From which match on a loop goes on: at those from the one with the serial `from`, or from the first one, up to there its
    /// body does nothing.
    #[inline(always)]
    pub(crate) fn leap<N: NodeStore<Row>>(
        &mut self,
        alloc: Global,
        for_loop: ForLoop<'p>,
        context: Place,
        from: Option<Serial>,
        buffer: &Buffer<N>,
    ) -> Result<Leap, Memory>
        requires begun { self.old.is_begun ≡ true }
        requires no_copy { self.old.copying ≡ None }
        requires used { InUse buffer.now.rows context.0 }
        requires there { HasLoop self.old buffer.now
            for_loop.var.0 for_loop.step.now (items for_loop.body.now) context.0 }
        ensures frame { IfOk result (λ _. self.new ≡ record self.old { turns = self.new.turns }) }
        ensures leaps { IfOk result (LeapsTo self.old self.new buffer.now
            for_loop.entry.var.0 for_loop.entry.step.now (items for_loop.entry.body.now) context.0 from) }
    {
        if !self.may_leap(context, for_loop.body, buffer) {
            return Ok(Leap::Stay);
        }
        let leap = self.leap_closed(alloc, for_loop, context, from, buffer)?;
        Ok(leap)
    }

    /// Whether the loop's node is closed, it doesn't wait for its first match, and its body doesn't end with a statement, which
    /// each round would carry out.
    #[inline(always)]
    fn may_leap<N: NodeStore<Row>>(&self, context: Place, body: &[Item], buffer: &Buffer<N>) -> bool
        requires { InUse buffer.now.rows context.0 }
        ensures { result ≡ true → IsClosedAt buffer.now.rows context.0 }
    {
        if self.top.seen != 0 || ends_with_off(body) {
            return false;
        }
        buffer.is_closed(context)
    }

    /// Leaps in a loop whose node is closed. Out of line, as it is rare.
    #[inline(never)]
    fn leap_closed<N: NodeStore<Row>>(
        &mut self,
        alloc: Global,
        for_loop: ForLoop<'p>,
        context: Place,
        from: Option<Serial>,
        buffer: &Buffer<N>,
    ) -> Result<Leap, Memory>
        requires begun { self.old.is_begun ≡ true }
        requires no_copy { self.old.copying ≡ None }
        requires closed { IsClosedAt buffer.now.rows context.0 }
        requires there { HasLoop self.old buffer.now
            for_loop.var.0 for_loop.step.now (items for_loop.body.now) context.0 }
        ensures frame { IfOk result (λ _. self.new ≡ record self.old { turns = self.new.turns }) }
        ensures leaps { IfOk result (LeapsTo self.old self.new buffer.now
            for_loop.entry.var.0 for_loop.entry.step.now (items for_loop.entry.body.now) context.0 from) }
    {
        match guard_of(for_loop.body, for_loop.var) {
            Some(guard) => self.leap_by(alloc, for_loop, context, &guard, from, buffer),
            None => Ok(Leap::Stay),
        }
    }

    /// Leaps by the equality without which the loop's body does nothing.
    fn leap_by<N: NodeStore<Row>>(
        &mut self,
        alloc: Global,
        for_loop: ForLoop<'p>,
        context: Place,
        guard: &Guard<'p>,
        from: Option<Serial>,
        buffer: &Buffer<N>,
    ) -> Result<Leap, Memory>
        requires begun { self.old.is_begun ≡ true }
        requires no_copy { self.old.copying ≡ None }
        requires guard { IsGuardOf guard.now for_loop.var.0 (items for_loop.body.now) }
        requires closed { IsClosedAt buffer.now.rows context.0 }
        requires there { HasLoop self.old buffer.now
            for_loop.var.0 for_loop.step.now (items for_loop.body.now) context.0 }
        ensures frame { IfOk result (λ _. self.new ≡ record self.old { turns = self.new.turns }) }
        ensures leaps { IfOk result (LeapsTo self.old self.new buffer.now
            for_loop.entry.var.0 for_loop.entry.step.now (items for_loop.entry.body.now) context.0 from) }
    {
        if !is_settled(for_loop.body, for_loop.var, &self.env, buffer) {
            return Ok(Leap::Stay);
        }
        let Some((node, outer)) = self.env.get(guard.other_var) else {
            unreachable!()
        };
        let index = turns_of(alloc, &mut self.turns, for_loop.step, guard)?;
        let leap = self.turns[index].look(alloc, buffer, context, (node, outer), from)?;
        Ok(leap)
    }
}

impl<'p> Turns<'p> {
    /// Looks at the loop's matches and chooses, for the node from which it takes its step and the one of the outer variable
    /// with its serial: from which match on the loop goes on. One that begins does so at its first one.
    fn look<N: NodeStore<Row>>(
        &mut self,
        alloc: Global,
        buffer: &Buffer<N>,
        context: Place,
        outer: (Place, Serial),
        from: Option<Serial>,
    ) -> Result<Leap, Memory>
        requires context { IsNodeRow buffer.now.rows context.0 }
        requires node { IsNodeRow buffer.now.rows outer.0.0 }
        ensures var { self.new.var ≡ self.old.var }
        ensures looks { IfOk result (Looks buffer.now.rows self.old self.new context.0 outer.0.0 outer.1.0 from) }
    {
        self.turn_to(alloc, buffer, context)?;
        match from {
            None => Ok(self.first_of_all()),
            Some(first) => {
                let (node, serial) = outer;
                self.choose(alloc, buffer, node, serial)?;
                Ok(self.first_from(first))
            }
        }
    }
}

/// The number of what the loop over the variable goes by, if there is any.
fn find(all: &[Turns<'_>], var: VarId) -> Option<usize>
    ensures { MatchOption result (HasNoTurns all.now var) (λ i. IsTurnsOf all.now var i) }
{
    let mut index = 0;
    'turns: while index < all.len() {
        if all[index].var == var {
            return Some(index);
        }
        index += 1;
    }
    None
}

/// The number of what the loop goes by. Nothing was looked at of it, where it went by another step or other paths.
fn turns_of<'p>(
    alloc: Global,
    all: &mut Vec<Turns<'p>>,
    step: &'p Step,
    guard: &Guard<'p>,
) -> Result<usize, Memory>
    ensures there { IfOk result (λ i. (t : ItsTurns) × (slice_get all.new.items i ≡ Some t)
        × GoesWith t step.now guard.now) }
    ensures stays { IfOk result (λ _. StayTurns all.old.items all.new.items) }
    ensures count { IfOk result (λ _. AddsTurns all.old.items all.new.items guard.now.own_var) }
    ensures kept { IfOk result (λ i. KeepsTheirs all.old.items all.new.items i step.now guard.now) }
{
    match find(all, guard.own_var) {
        Some(index) => {
            if goes_by(&all[index], step, guard) {
                return Ok(index);
            }
            all[index] = Turns::new(alloc, guard.own_var, step, guard.own, guard.other);
            Ok(index)
        }
        None => {
            let index = all.len();
            all.push(Turns::new(alloc, guard.own_var, step, guard.own, guard.other))?;
            Ok(index)
        }
    }
}

/// Whether they are of this step and these paths.
fn goes_by<'p>(turns: &Turns<'p>, step: &'p Step, guard: &Guard<'p>) -> bool
    ensures { result ≡ true ↔ GoesWith turns.now step.now guard.now }
{
    turns.step == step && turns.own == guard.own && turns.other == guard.other
}
