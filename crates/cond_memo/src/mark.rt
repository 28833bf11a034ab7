//! What is kept of an `exists`, or of a comparison with a literal.
ghost use Rattle.std.specs.Prelude.{◌≡◌, ◌+◌, ◌<◌, ◌⊎◌, true, [], None, Some, IfOk};
ghost use Rattle.gcx_base.specs.declared.steps.Step.{Step};
ghost use Rattle.gcx_model.specs.Members.{In};
ghost use Rattle.buf_tree.specs.Shape.{Cell, num};
ghost use Rattle.buf_tree.specs.View.{InUse};
ghost use Rattle.cond_memo.specs.Marks.{AsksLiteral, Fits, MayTell, IsAbout, LooksUpto, settled};
ghost use Rattle.cond_memo.specs.Calls.{TellsDoes, TellsSettled, TellsMatch, LooksAt, FindsNew, SearchesOn, SearchesBack, SearchesAll, SettlesItself, TellsAnswer};

use crate::waiting::{match_above, shut_by_now};
use buf_tree::{Buffer, Row};
use cond_eval::{Watermark, satisfies, value};
use gcx_base::{Axis, Memory, Rel, Serial, Step, Steps, Test, VarId};
use gcx_model::Operand;
use node_store::{NodeStore, Place};
use std::alloc::Global;

/// Room for walks and for values.
#[derive(Drop, Debug)]
pub(crate) struct Room {
    pub flags: Vec<bool>,
    pub text: Vec<u8>,
}

/// What a match must be: with no literal any, else one of which the relation to it holds.
#[derive(Drop, Debug)]
pub(crate) struct Ask {
    pub rel: Rel,
    pub literal: Operand,
}

/// The path and what is asked of its matches, and what is known of that for one node of the variable.
#[derive(Drop, Debug)]
pub(crate) struct Mark {
    pub var: VarId,
    pub steps: Steps,
    pub ask: Option<Ask>,
    /// The last step; as a descendant step, where it isn't the only one. All matches are matches of it.
    pub last: Step,
    /// The node. None before the first question.
    pub of: Option<Serial>,
    /// All nodes that there were when the question was asked.
    pub upto: Watermark,
    /// The innermost match that was open then. All that were are it or above it, and none of the others does.
    pub waiting: Option<Serial>,
    /// The truth, once it is known.
    pub value: Option<bool>,
}

/// The step to which all matches of the steps are matches.
pub fn last_of(alloc: Global, steps: &[Step]) -> Result<Step, Memory>
    ensures { IfOk result (λ last. Fits steps.now last) }
{
    match steps.split_last() {
        None => Ok(Step {
            axis: Axis::Descendant,
            test: Test::AnyNode,
        }),
        Some((last, front)) => {
            if front.is_empty() {
                return last.copy(alloc);
            }
            let test = last.test.copy(alloc)?;
            Ok(Step {
                axis: Axis::Descendant,
                test,
            })
        }
    }
}

impl Mark {
    /// Nothing is known.
    pub fn new(alloc: Global, var: VarId, steps: &Steps, ask: Option<Ask>) -> Result<Mark, Memory>
        ensures var { IfOk result (λ m. m.var ≡ var) }
        ensures steps { IfOk result (λ m. m.steps ≡ steps.now) }
        ensures ask { IfOk result (λ m. m.ask ≡ ask) }
        ensures last { IfOk result (λ m. Fits steps.now m.last) }
        ensures unasked { IfOk result (λ m. m.of ≡ None) }
    {
        Ok(Mark {
            var,
            steps: steps.copy(alloc)?,
            ask,
            last: last_of(alloc, steps.items())?,
            of: None,
            upto: Watermark(0),
            waiting: None,
            value: None,
        })
    }

    /// Forgets what is known, where that is of another node.
    #[inline(always)]
    pub fn turn_to(&mut self, of: Serial)
        ensures same { self.old.of ≡ Some of → self.new ≡ self.old }
        ensures other { (self.old.of ≡ Some of → ⊥)
            → self.new ≡ record self.old { of = Some of; upto = record { 0 = of.0 }; waiting = None; value = None } }
    {
        if self.of != Some(of) {
            self.of = Some(of);
            self.upto = Watermark(of.0);
            self.waiting = None;
            self.value = None;
        }
    }

    /// Whether a match of this node is closed and does.
    #[inline(always)]
    fn does<N: NodeStore<Row>>(
        &self,
        buffer: &Buffer<N>,
        place: Place,
        room: &mut Room,
    ) -> Result<bool, Memory>
        requires used { InUse buffer.now.rows place.0 }
        requires literal { AsksLiteral self.now.ask }
        ensures { IfOk result (λ b. TellsDoes buffer.now.rows self.now.ask place.0 b) }
    {
        match &self.ask {
            None => Ok(true),
            Some(ask) => {
                let left = value(buffer, place, &mut room.text)?;
                Ok(satisfies(left, ask.rel, &ask.literal))
            }
        }
    }

    /// Whether it is settled if a match of this node does: without a literal at once, else once it is closed.
    #[inline(always)]
    fn is_settled<N: NodeStore<Row>>(&self, buffer: &Buffer<N>, place: Place) -> bool
        requires { InUse buffer.now.rows place.0 }
        ensures { TellsSettled buffer.now.rows self.now.ask place.0 result }
    {
        match &self.ask {
            None => true,
            Some(_) => buffer.is_closed(place),
        }
    }

    /// Whether the steps lead to the row, which the last of them reaches.
    #[inline(always)]
    fn is_match<N: NodeStore<Row>>(
        &self,
        buffer: &Buffer<N>,
        node: Place,
        place: Place,
        room: &mut Room,
    ) -> Result<bool, Memory>
        requires used { InUse buffer.now.rows place.0 }
        requires fits { Fits self.now.steps self.now.last }
        ensures { IfOk result (λ b. TellsMatch buffer.now.rows self.now.steps self.now.last node.0 place.0 b) }
    {
        let steps = self.steps.items();
        if steps.len() == 1 {
            return Ok(true);
        }
        buffer.leads(node, steps, place, &mut room.flags)
    }

    /// Looks at a new row: true where it is a match that does.
    #[inline(always)]
    fn look_at<N: NodeStore<Row>>(
        &mut self,
        buffer: &Buffer<N>,
        node: Place,
        place: Place,
        room: &mut Room,
    ) -> Result<bool, Memory>
        requires used { InUse buffer.now.rows place.0 }
        requires fits { Fits self.old.steps self.old.last }
        requires literal { AsksLiteral self.old.ask }
        ensures frame { IfOk result (λ _. self.new ≡ record self.old { waiting = self.new.waiting }) }
        ensures looked { IfOk result (λ b. LooksAt buffer.now.rows self.old node.0 place.0 self.new.waiting b) }
    {
        if !self.is_match(buffer, node, place, room)? {
            return Ok(false);
        }
        if !self.is_settled(buffer, place) {
            self.waiting = Some(buffer.serial(place));
            return Ok(false);
        }
        self.does(buffer, place, room)
    }

    /// The first row behind those that were looked at that the last step reaches.
    #[inline(always)]
    fn first_new<N: NodeStore<Row>>(&self, buffer: &Buffer<N>, node: Place) -> Option<Place>
        requires used { InUse buffer.now.rows node.0 }
        requires below { (c : Cell) → In c buffer.now.rows → num c < buffer.now.nodes }
        ensures { FindsNew buffer.now.rows self.now node.0 result }
    {
        if self.upto.0 == buffer.serial(node).0 {
            buffer.match_behind(node, &self.last, node)
        } else {
            self.upto.new_match(buffer, node, &self.last)
        }
    }

    /// Looks at the rows that are new: true where one is a match that does.
    #[inline(always)]
    fn look_on<N: NodeStore<Row>>(
        &mut self,
        buffer: &Buffer<N>,
        node: Place,
        room: &mut Room,
    ) -> Result<bool, Memory>
        requires used { InUse buffer.now.rows node.0 }
        requires below { (c : Cell) → In c buffer.now.rows → num c < buffer.now.nodes }
        requires steps { self.old.steps ≡ [] → ⊥ }
        requires fits { Fits self.old.steps self.old.last }
        requires literal { AsksLiteral self.old.ask }
        ensures frame { IfOk result (λ _. self.new ≡ record self.old { waiting = self.new.waiting; upto = self.new.upto }) }
        ensures upto { IfOk result (λ b. LooksUpto buffer.now.nodes self.old.upto.0 self.new.upto.0 b) }
        ensures searched { IfOk result (λ b. SearchesOn buffer.now self.old node.0 self.new.waiting self.new.upto.0 b) }
    {
        let mut at = self.first_new(buffer, node);
        'rows: while let Some(here) = at {
            if self.look_at(buffer, node, here, room)? {
                return Ok(true);
            }
            at = buffer.match_behind(node, &self.last, here);
        }
        self.upto = Watermark::newest(buffer);
        Ok(false)
    }

    /// Looks at the matches that were open and are closed now, from the innermost up: true where one does.
    #[inline(always)]
    fn look_back<N: NodeStore<Row>>(
        &mut self,
        buffer: &Buffer<N>,
        node: Place,
        room: &mut Room,
    ) -> Result<bool, Memory>
        requires used { InUse buffer.now.rows node.0 }
        requires steps { self.old.steps ≡ [] → ⊥ }
        requires literal { AsksLiteral self.old.ask }
        ensures frame { IfOk result (λ _. self.new ≡ record self.old { waiting = self.new.waiting }) }
        ensures searched { IfOk result (λ b. SearchesBack buffer.now self.old node.0 self.new.waiting b) }
    {
        'up: while let Some(place) = shut_by_now(buffer, node, self.waiting) {
            if self.does(buffer, place, room)? {
                return Ok(true);
            }
            let steps = self.steps.items();
            self.waiting = match_above(buffer, node, steps, place, &mut room.flags)?;
        }
        Ok(false)
    }

    /// Whether the node does, which is the only match where there are no steps.
    fn does_itself<N: NodeStore<Row>>(
        &self,
        buffer: &Buffer<N>,
        node: Place,
        room: &mut Room,
    ) -> Result<bool, Memory>
        requires used { InUse buffer.now.rows node.0 }
        requires literal { AsksLiteral self.now.ask }
        ensures { IfOk result (λ b. SettlesItself buffer.now self.now.ask node.0 b) }
    {
        if !self.is_settled(buffer, node) {
            return Ok(false);
        }
        self.does(buffer, node, room)
    }

    /// Whether some match does by now, of the node that the mark is about.
    #[inline(always)]
    fn is_found<N: NodeStore<Row>>(
        &mut self,
        buffer: &Buffer<N>,
        node: Place,
        room: &mut Room,
    ) -> Result<bool, Memory>
        requires used { InUse buffer.now.rows node.0 }
        requires below { (c : Cell) → In c buffer.now.rows → num c < buffer.now.nodes }
        requires fits { Fits self.old.steps self.old.last }
        requires literal { AsksLiteral self.old.ask }
        ensures frame { IfOk result (λ _. self.new ≡ record self.old { waiting = self.new.waiting; upto = self.new.upto }) }
        ensures upto { IfOk result (λ _. (self.new.upto.0 ≡ self.old.upto.0) ⊎ (self.new.upto.0 + 1 ≡ buffer.now.nodes)) }
        ensures found { IfOk result (λ b. SearchesAll buffer.now self.old node.0 self.new.waiting self.new.upto.0 b) }
    {
        if self.steps.items().is_empty() {
            return self.does_itself(buffer, node, room);
        }
        if self.look_back(buffer, node, room)? {
            return Ok(true);
        }
        self.look_on(buffer, node, room)
    }

    /// What is known of the node: true or false, or None.
    #[inline(always)]
    pub fn ask<N: NodeStore<Row>>(
        &mut self,
        buffer: &Buffer<N>,
        node: Place,
        of: Serial,
        room: &mut Room,
    ) -> Result<Option<bool>, Memory>
        requires { MayTell self.old buffer.now.rows buffer.now.nodes node.0 of.0 }
        ensures same { IfOk result (λ _. IsAbout self.new self.old.var self.old.steps self.old.ask) }
        ensures told { IfOk result (λ t. TellsAnswer buffer.now self.old self.new node.0 of.0 t) }
    {
        self.turn_to(of);
        if let Some(value) = self.value {
            return Ok(Some(value));
        }
        let found = self.is_found(buffer, node, room)?;
        let over = buffer.is_closed(node);
        Ok(self.keep(found, over))
    }

    /// Keeps the truth, where it is known: true once a match does, false once none does and no more come.
    #[inline(always)]
    fn keep(&mut self, found: bool, over: bool) -> Option<bool>
        requires { self.old.value ≡ None }
        ensures kept { self.new ≡ record self.old { value = settled found over } }
        ensures value { result ≡ settled found over }
    {
        if found || over {
            self.value = Some(found);
        }
        self.value
    }
}
