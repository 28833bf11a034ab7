//! Loops: from match to match.
ghost use Rattle.std.specs.Prelude.{◌≡◌, ◌<◌, ℕ, true, [], Some, None, IfOk};
ghost use Rattle.gcx_model.specs.Members.{In};
ghost use Rattle.gcx_model.specs.Core.{For};
ghost use Rattle.gcx_model.specs.Past.{Past};
ghost use Rattle.buf_tree.specs.Shape.{Cell, num};
ghost use Rattle.buf_tree.specs.View.{InUse};
ghost use Rattle.buf_tree.specs.Match.{GoesFrom};
ghost use Rattle.pull_eval.specs.Position.{items};
ghost use Rattle.pull_eval.specs.Acting.{Beside, IsNextItem, IsSought};
ghost use Rattle.pull_eval.specs.Calls.{MovesSilently};
ghost use Rattle.pull_eval.specs.Leaps.{EntersAt, FindsFirst, FindsTurn, GoesOnAt, MayBegin, MayTurn};
ghost use Rattle.cond_eval.specs.Searches.{Finds};
ghost use Rattle.pull_eval.specs.Rounds.{from_seen, Learnt, Began};
ghost use Rattle.pull_eval.specs.declared.block.Next.TheVariants.{Unsought};

use crate::block::{Block, ForLoop, Next, Round, ends_with_off};
use crate::machine::Acted;
use crate::position::Position;
use crate::turns::Leap;
use buf_tree::{Buffer, Row};
use cond_eval::{Watermark, place_of};
use gcx_base::{Memory, Step, VarId};
use gcx_model::Item;
use node_store::{NodeStore, Place};
use std::alloc::Global;

/// The first match with a serial above `seen`, up to which there is none. 0: nothing is known.
#[inline(always)]
fn first_match<N: NodeStore<Row>>(
    buffer: &Buffer<N>,
    context: Place,
    step: &Step,
    seen: u64,
) -> Option<Place>
    requires used { InUse buffer.now.rows context.0 }
    requires below { (c : Cell) → In c buffer.now.rows → num c < buffer.now.nodes }
    ensures { (c : Cell) → In c buffer.now.rows → c.place ≡ context.0
        → Finds buffer.now.rows c step.now (from_seen c seen) result }
{
    if seen == 0 {
        buffer.match_behind(context, step, context)
    } else {
        Watermark(seen).new_match(buffer, context, step)
    }
}

/// What is found of the next match of a loop behind the one at this place.
#[inline(always)]
fn match_behind<N: NodeStore<Row>>(
    buffer: &Buffer<N>,
    context: Place,
    step: &Step,
    from: Place,
) -> Next
    requires goes { GoesFrom buffer.now.rows context.0 step.now.axis from.0 }
    requires some { 0 < buffer.now.nodes }
    ensures learnt { (c d : Cell) → In c buffer.now.rows → In d buffer.now.rows → c.place ≡ context.0 → d.place ≡ from.0
        → Learnt buffer.now c step.now (num d) result }
    ensures sought { result ≡ Unsought → ⊥ }
{
    match buffer.match_behind(context, step, from) {
        Some(place) => Next::Found(place),
        None => Next::NoneUpTo(Watermark::newest(buffer)),
    }
}

impl<'p> Position<'p> {
    /// A loop is entered at its first match, or passed where it has none and none comes.
    #[inline(always)]
    pub(crate) fn enter<N: NodeStore<Row>>(
        &mut self,
        alloc: Global,
        from: VarId,
        for_loop: ForLoop<'p>,
        rest: &'p [Item],
        buffer: &Buffer<N>,
    ) -> Result<Option<Acted>, Memory>
        requires next { IsNextItem self.old
            (For for_loop.var.0 from.0 for_loop.step.now (items for_loop.body.now)) (items rest.now) }
        requires begun { self.old.is_begun ≡ true }
        requires beside { (past : Past) × (k : ℕ) × Beside self.old buffer.now past k }
        ensures begun { IfOk result (λ _. self.new.is_begun ≡ true) }
        ensures moved { IfOk result (λ a. MovesSilently self.old self.new buffer.now buffer.now a) }
    {
        let first = self.first_there(alloc, from, for_loop, rest, buffer)?;
        let acted = self.enter_at(first, from, for_loop, rest, buffer)?;
        Ok(acted)
    }

    /// The first match of the loop that comes next, if it is there.
    #[inline(always)]
    fn first_there<N: NodeStore<Row>>(
        &mut self,
        alloc: Global,
        from: VarId,
        for_loop: ForLoop<'p>,
        rest: &'p [Item],
        buffer: &Buffer<N>,
    ) -> Result<Option<Place>, Memory>
        requires next { IsNextItem self.old
            (For for_loop.var.0 from.0 for_loop.step.now (items for_loop.body.now)) (items rest.now) }
        requires begun { self.old.is_begun ≡ true }
        requires beside { (past : Past) × (k : ℕ) × Beside self.old buffer.now past k }
        ensures frame { IfOk result (λ _. self.new ≡ record self.old { turns = self.new.turns }) }
        ensures first { IfOk result (FindsFirst self.old self.new buffer.now
            for_loop.entry.var.0 from.0 for_loop.entry.step.now (items for_loop.entry.body.now) (items rest.now)) }
    {
        let context = place_of(&self.env, from);
        let seen = self.top.seen;
        let leap = self.leap(alloc, for_loop, context, None, buffer)?;
        match leap {
            Leap::Stay => Ok(first_match(buffer, context, for_loop.step, seen)),
            Leap::To(place) => Ok(Some(place)),
            Leap::Over => Ok(None),
        }
    }

    /// The loop that comes next is entered at this match, its first one. None: there is none.
    #[inline(always)]
    fn enter_at<N: NodeStore<Row>>(
        &mut self,
        first: Option<Place>,
        from: VarId,
        for_loop: ForLoop<'p>,
        rest: &'p [Item],
        buffer: &Buffer<N>,
    ) -> Result<Option<Acted>, Memory>
        requires next { IsNextItem self.old
            (For for_loop.var.0 from.0 for_loop.step.now (items for_loop.body.now)) (items rest.now) }
        requires begun { self.old.is_begun ≡ true }
        requires first { MayBegin self.old buffer.now
            for_loop.var.0 from.0 for_loop.step.now (items for_loop.body.now) (items rest.now) first }
        ensures begun { IfOk result (λ _. self.new.is_begun ≡ true) }
        ensures moved { IfOk result (λ a. EntersAt self.old self.new buffer.now
            for_loop.entry.var.0 from.0 for_loop.entry.step.now (items for_loop.entry.body.now) (items rest.now) first a) }
    {
        let context = place_of(&self.env, from);
        match first {
            Some(place) => {
                let round = Round {
                    var: for_loop.var,
                    step: for_loop.step,
                    body: for_loop.body,
                    context,
                    present: place,
                    next: Next::Unsought,
                };
                self.top.go_on(rest);
                self.below.push(self.top)?;
                self.begin_round(round, buffer)
            }
            None => {
                if buffer.is_closed(context) {
                    self.top.go_on(rest);
                    return Ok(None);
                }
                let seen = Watermark::newest(buffer);
                self.top.seen = seen.0;
                Ok(Some(Acted::Blocked))
            }
        }
    }

    /// The body begins at the round's match. Where it doesn't end with a statement, the loop looks for its next match now.
    #[inline(always)]
    fn begin_round<N: NodeStore<Row>>(
        &mut self,
        round: Round<'p>,
        buffer: &Buffer<N>,
    ) -> Result<Option<Acted>, Memory>
        requires goes { GoesFrom buffer.now.rows round.context.0 round.step.now.axis round.present.0 }
        requires some { 0 < buffer.now.nodes }
        ensures began { IfOk result (λ a. Began buffer.now self.old self.new round.entry × (a ≡ None)) }
    {
        let place = round.present;
        self.env.bind(round.var, place, buffer.serial(place))?;
        let next = if ends_with_off(round.body) {
            Next::Unsought
        } else {
            match_behind(buffer, round.context, round.step, place)
        };
        self.top = Block {
            rest: round.body,
            round: Some(Round { next, ..round }),
            seen: 0,
        };
        Ok(None)
    }

    /// The loop of the body that runs looks for its next match, if it hasn't yet.
    pub(crate) fn look_ahead<N: NodeStore<Row>>(&mut self, buffer: &Buffer<N>)
        requires begun { self.old.is_begun ≡ true }
        requires beside { (past : Past) × (k : ℕ) × Beside self.old buffer.now past k }
        requires some { self.old.top.rest.now ≡ [] → ⊥ }
        requires no_copy { self.old.copying ≡ None }
        ensures stays { (past : Past) (k : ℕ) → Beside self.old buffer.now past k → Beside self.new buffer.now past k }
        ensures sought { IsSought self.new.top }
        ensures rest { self.new.top.rest ≡ self.old.top.rest }
        ensures no_copy { self.new.copying ≡ None }
        ensures begun { self.new.is_begun ≡ true }
        ensures env { self.new.env ≡ self.old.env }
    {
        if let Some(round) = self.top.round {
            if let Next::Unsought = round.next {
                let next = match_behind(buffer, round.context, round.step, round.present);
                self.top.round = Some(Round { next, ..round });
            }
        }
    }

    /// A body is over: of the plan, of a branch or of a round.
    #[inline(always)]
    pub(crate) fn leave<N: NodeStore<Row>>(
        &mut self,
        alloc: Global,
        buffer: &Buffer<N>,
    ) -> Result<Option<Acted>, Memory>
        requires over { self.old.top.rest.now ≡ [] }
        requires no_copy { self.old.copying ≡ None }
        requires begun { self.old.is_begun ≡ true }
        requires beside { (past : Past) × (k : ℕ) × Beside self.old buffer.now past k }
        ensures begun { IfOk result (λ _. self.new.is_begun ≡ true) }
        ensures moved { IfOk result (λ a. MovesSilently self.old self.new buffer.now buffer.now a) }
    {
        match self.top.round {
            Some(round) => self.next_round(alloc, round, buffer),
            None => Ok(self.go_below()),
        }
    }

    /// The next round of the loop, or out of it where none comes.
    #[inline(always)]
    fn next_round<N: NodeStore<Row>>(
        &mut self,
        alloc: Global,
        round: Round<'p>,
        buffer: &Buffer<N>,
    ) -> Result<Option<Acted>, Memory>
        requires over { self.old.top.rest.now ≡ [] }
        requires no_copy { self.old.copying ≡ None }
        requires round { self.old.top.round ≡ Some round }
        requires begun { self.old.is_begun ≡ true }
        requires beside { (past : Past) × (k : ℕ) × Beside self.old buffer.now past k }
        ensures begun { IfOk result (λ _. self.new.is_begun ≡ true) }
        ensures moved { IfOk result (λ a. MovesSilently self.old self.new buffer.now buffer.now a) }
    {
        let next = self.next_there(alloc, round, buffer)?;
        let acted = self.turn_at(next, round, buffer)?;
        Ok(acted)
    }

    /// The match with which the loop goes on, if it is there. At those that are passed the body does nothing.
    #[inline(always)]
    fn next_there<N: NodeStore<Row>>(
        &mut self,
        alloc: Global,
        round: Round<'p>,
        buffer: &Buffer<N>,
    ) -> Result<Option<Place>, Memory>
        requires over { self.old.top.rest.now ≡ [] }
        requires no_copy { self.old.copying ≡ None }
        requires round { self.old.top.round ≡ Some round }
        requires begun { self.old.is_begun ≡ true }
        requires beside { (past : Past) × (k : ℕ) × Beside self.old buffer.now past k }
        ensures frame { IfOk result (λ _. self.new ≡ record self.old { turns = self.new.turns }) }
        ensures turns { IfOk result (FindsTurn self.old self.new buffer.now round.entry) }
    {
        let place = match round.next {
            Next::Found(place) => place,
            Next::NoneUpTo(mark) => {
                return Ok(mark.new_match(buffer, round.context, round.step));
            }
            Next::Unsought => unreachable!(),
        };
        let from = buffer.serial(place);
        let for_loop = ForLoop {
            var: round.var,
            step: round.step,
            body: round.body,
        };
        let leap = self.leap(alloc, for_loop, round.context, Some(from), buffer)?;
        match leap {
            Leap::Stay => Ok(Some(place)),
            Leap::To(later) => Ok(Some(later)),
            Leap::Over => Ok(None),
        }
    }

    /// The loop goes on with this match. None: there is none, or the body does nothing at any that is left.
    #[inline(always)]
    fn turn_at<N: NodeStore<Row>>(
        &mut self,
        next: Option<Place>,
        round: Round<'p>,
        buffer: &Buffer<N>,
    ) -> Result<Option<Acted>, Memory>
        requires over { self.old.top.rest.now ≡ [] }
        requires no_copy { self.old.copying ≡ None }
        requires round { self.old.top.round ≡ Some round }
        requires begun { self.old.is_begun ≡ true }
        requires turns { MayTurn self.old buffer.now round next }
        ensures begun { IfOk result (λ _. self.new.is_begun ≡ true) }
        ensures moved { IfOk result (λ a. GoesOnAt self.old self.new buffer.now round.entry next a) }
    {
        match next {
            Some(present) => self.begin_round(Round { present, ..round }, buffer),
            None => {
                if buffer.is_closed(round.context) {
                    return Ok(self.go_below());
                }
                let next = Next::NoneUpTo(Watermark::newest(buffer));
                self.top.round = Some(Round { next, ..round });
                Ok(Some(Acted::Blocked))
            }
        }
    }
}
