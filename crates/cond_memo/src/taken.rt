//! Which matches of a path were taken.
ghost use Rattle.std.specs.Prelude.{◌≡◌, ◌<◌, ◌↔◌, ℕ, [], suc, true, Some, None, IfOk};
ghost use Rattle.gcx_model.specs.Members.{In};
ghost use Rattle.buf_tree.specs.Shape.{Cell, num};
ghost use Rattle.buf_tree.specs.Match.{GoesFrom};
ghost use Rattle.buf_tree.specs.View.{InUse};
ghost use Rattle.cond_memo.specs.Marks.{Fits};
ghost use Rattle.cond_memo.specs.Calls.{TellsMatch};
ghost use Rattle.cond_memo.specs.Taking.{FindsUntaken, MayTake, MayTakeAt, TakesMore, TakesUntaken};
ghost use Rattle.cond_memo.specs.Searching.{FindsBehindMatch, FindsMatch, FindsRow, IsRowFound, MayPass, PassesOpen, StartsRow, TellsAbove};

use crate::mark::last_of;
use crate::waiting::{match_above, shut_by_now};
use buf_tree::{Buffer, Row};
use cond_eval::Watermark;
use gcx_base::{Memory, Serial, Step, Steps};
use node_store::{NodeStore, Place};
use std::alloc::Global;

/// A path, and which of its closed matches from a node were taken.
#[derive(Drop, Debug)]
pub struct Taken {
    pub steps: Steps,
    /// The last step; as a descendant step, where it isn't the only one. All matches are matches of it.
    pub last: Step,
    /// The node. None before the first question.
    pub of: Option<Serial>,
    /// The matches with smaller serials were looked at.
    pub below: u64,
    /// The innermost of those that were open then. All that were are it or above it, and all others were taken.
    pub waiting: Option<Serial>,
}

impl Taken {
    /// No match was taken.
    pub fn new(alloc: Global, steps: &Steps) -> Result<Taken, Memory>
        ensures steps { IfOk result (λ t. t.steps ≡ steps.now) }
        ensures fits { IfOk result (λ t. Fits t.steps t.last) }
        ensures of { IfOk result (λ t. t.of ≡ None) }
    {
        Ok(Taken {
            steps: steps.copy(alloc)?,
            last: last_of(alloc, steps.items())?,
            of: None,
            below: 0,
            waiting: None,
        })
    }

    /// Whether it is about the node of this serial.
    #[inline(always)]
    pub fn is_of(&self, of: Serial) -> bool
        ensures { result ≡ true ↔ self.now.of ≡ Some of }
    {
        self.of == Some(of)
    }

    /// Whether the match of this serial is the one that is kept of those that were open.
    #[inline(always)]
    fn is_waiting(&self, serial: Serial) -> bool
        ensures { result ≡ true ↔ self.now.waiting ≡ Some serial }
    {
        self.waiting == Some(serial)
    }

    /// None of the matches from this node was taken.
    pub fn turn_to(&mut self, of: Serial)
        ensures { self.new ≡ record self.old { of = Some of; below = 0; waiting = None } }
    {
        self.of = Some(of);
        self.below = 0;
        self.waiting = None;
    }

    /// It is about no node.
    pub fn forget(&mut self)
        ensures { self.new ≡ record self.old { of = None; below = 0; waiting = None } }
    {
        self.of = None;
        self.below = 0;
        self.waiting = None;
    }

    /// Whether the steps lead to the row, which the last of them reaches.
    #[inline(always)]
    fn is_match<N: NodeStore<Row>>(
        &self,
        buffer: &Buffer<N>,
        node: Place,
        place: Place,
        flags: &mut Vec<bool>,
    ) -> Result<bool, Memory>
        requires used { InUse buffer.now.rows place.0 }
        requires fits { Fits self.now.steps self.now.last }
        ensures { IfOk result (λ b. TellsMatch buffer.now.rows self.now.steps self.now.last node.0 place.0 b) }
    {
        let steps = self.steps.items();
        if steps.len() == 1 {
            return Ok(true);
        }
        buffer.leads(node, steps, place, flags)
    }

    /// The first match from the row on, which the last step reaches.
    fn match_from<N: NodeStore<Row>>(
        &self,
        buffer: &Buffer<N>,
        node: Place,
        from: Option<Place>,
        flags: &mut Vec<bool>,
    ) -> Result<Option<Place>, Memory>
        requires used { InUse buffer.now.rows node.0 }
        requires some { self.now.steps ≡ [] → ⊥ }
        requires fits { Fits self.now.steps self.now.last }
        requires from { IsRowFound buffer.now.rows node.0 self.now.last from }
        ensures { IfOk result (λ r. (after : ℕ) → FindsRow buffer.now.rows node.0 self.now.last after from
            → FindsMatch buffer.now node.0 self.now.steps (suc after) r) }
    {
        let mut at = from;
        'rows: while let Some(here) = at {
            if self.is_match(buffer, node, here, flags)? {
                return Ok(Some(here));
            }
            at = buffer.match_behind(node, &self.last, here);
        }
        Ok(None)
    }

    /// The first row from the bound on that the last step reaches.
    #[inline(always)]
    fn first_row<N: NodeStore<Row>>(&self, buffer: &Buffer<N>, node: Place) -> Option<Place>
        requires used { InUse buffer.now.rows node.0 }
        requires below { (c : Cell) → In c buffer.now.rows → num c < buffer.now.nodes }
        ensures { StartsRow buffer.now.rows node.0 self.now.last self.now.below result }
    {
        if self.below <= buffer.serial(node).0 {
            buffer.match_behind(node, &self.last, node)
        } else {
            Watermark(self.below - 1).new_match(buffer, node, &self.last)
        }
    }

    /// The node, which is its own match, where it wasn't looked at.
    fn itself<N: NodeStore<Row>>(&self, buffer: &Buffer<N>, node: Place) -> Option<Place>
        requires used { InUse buffer.now.rows node.0 }
        requires steps { self.now.steps ≡ [] }
        ensures { FindsMatch buffer.now node.0 self.now.steps self.now.below result }
    {
        if self.below <= buffer.serial(node).0 {
            Some(node)
        } else {
            None
        }
    }

    /// The first match that wasn't looked at.
    fn first<N: NodeStore<Row>>(
        &self,
        buffer: &Buffer<N>,
        node: Place,
        flags: &mut Vec<bool>,
    ) -> Result<Option<Place>, Memory>
        requires used { InUse buffer.now.rows node.0 }
        requires below { (c : Cell) → In c buffer.now.rows → num c < buffer.now.nodes }
        requires fits { Fits self.now.steps self.now.last }
        ensures { IfOk result (λ r. FindsMatch buffer.now node.0 self.now.steps self.now.below r) }
    {
        if self.steps.items().is_empty() {
            return Ok(self.itself(buffer, node));
        }
        let row = self.first_row(buffer, node);
        self.match_from(buffer, node, row, flags)
    }

    /// The first match behind this one.
    fn behind<N: NodeStore<Row>>(
        &self,
        buffer: &Buffer<N>,
        node: Place,
        place: Place,
        flags: &mut Vec<bool>,
    ) -> Result<Option<Place>, Memory>
        requires from { GoesFrom buffer.now.rows node.0 self.now.last.axis place.0 }
        requires fits { Fits self.now.steps self.now.last }
        ensures { IfOk result (λ r. FindsBehindMatch buffer.now node.0 place.0 self.now.steps r) }
    {
        if self.steps.items().is_empty() {
            return Ok(None);
        }
        let row = buffer.match_behind(node, &self.last, place);
        self.match_from(buffer, node, row, flags)
    }

    /// The nearest match above this one.
    fn above<N: NodeStore<Row>>(
        &self,
        buffer: &Buffer<N>,
        node: Place,
        place: Place,
        flags: &mut Vec<bool>,
    ) -> Result<Option<Serial>, Memory>
        requires { MayTakeAt buffer.now self.now node.0 place.0 }
        ensures { IfOk result (λ r. TellsAbove buffer.now self.now node.0 place.0 r) }
    {
        if self.steps.items().is_empty() {
            return Ok(None);
        }
        match_above(buffer, node, self.steps.items(), place, flags)
    }

    /// The first closed match, where the first that wasn't looked at is this one. The open ones before it wait.
    fn pass_open<N: NodeStore<Row>>(
        &mut self,
        buffer: &Buffer<N>,
        node: Place,
        first: Option<Place>,
        flags: &mut Vec<bool>,
    ) -> Result<Option<Place>, Memory>
        requires may { MayPass buffer.now self.old node.0 first }
        requires fits { Fits self.old.steps self.old.last }
        ensures frame { IfOk result (λ _. TakesMore self.old self.new) }
        ensures next { IfOk result (λ r. PassesOpen buffer.now self.old self.new node.0 first r) }
    {
        let mut at = first;
        'matches: while let Some(place) = at {
            let serial = buffer.serial(place);
            if buffer.is_closed(place) {
                self.below = serial.0;
                return Ok(Some(place));
            }
            self.waiting = Some(serial);
            at = self.behind(buffer, node, place, flags)?;
        }
        self.below = buffer.nodes();
        Ok(None)
    }

    /// The next of the closed matches that weren't taken: first those that were open, from the innermost up. None where
    /// all were.
    pub fn next<N: NodeStore<Row>>(
        &mut self,
        buffer: &Buffer<N>,
        node: Place,
        flags: &mut Vec<bool>,
    ) -> Result<Option<Place>, Memory>
        requires may { MayTake buffer.now self.old node.0 }
        requires fits { Fits self.old.steps self.old.last }
        ensures frame { IfOk result (λ _. TakesMore self.old self.new) }
        ensures next { IfOk result (λ r. FindsUntaken buffer.now self.old self.new node.0 r) }
    {
        if let Some(place) = shut_by_now(buffer, node, self.waiting) {
            return Ok(Some(place));
        }
        let first = self.first(buffer, node, flags)?;
        self.pass_open(buffer, node, first, flags)
    }

    /// Takes this match, which is the next one, and tells which comes next.
    pub fn take<N: NodeStore<Row>>(
        &mut self,
        buffer: &Buffer<N>,
        node: Place,
        place: Place,
        flags: &mut Vec<bool>,
    ) -> Result<Option<Place>, Memory>
        requires may { MayTakeAt buffer.now self.old node.0 place.0 }
        requires fits { Fits self.old.steps self.old.last }
        ensures frame { IfOk result (λ _. TakesMore self.old self.new) }
        ensures next { IfOk result (λ r. TakesUntaken buffer.now self.old self.new node.0 place r) }
    {
        if self.is_waiting(buffer.serial(place)) {
            self.waiting = self.above(buffer, node, place, flags)?;
            return self.next(buffer, node, flags);
        }
        let first = self.behind(buffer, node, place, flags)?;
        self.pass_open(buffer, node, first, flags)
    }
}
