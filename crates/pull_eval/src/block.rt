//! Where a machine stands in its plan: blocks, the rounds of loops, and a copy in progress.
ghost use Rattle.std.specs.Prelude.{◌≡◌, true, false, None};
ghost use Rattle.pull_eval.specs.Position.{EndsWithOff};

use cond_eval::Watermark;
use gcx_base::{Step, VarId};
use gcx_model::Item;
use node_store::Place;

/// What is known of the match with which a loop goes on.
#[derive(Clone, Copy, Debug)]
pub(crate) enum Next {
    /// It wasn't looked for.
    Unsought,
    /// The match, which is held until its own round is over.
    Found(Place),
    /// There is none up to here.
    NoneUpTo(Watermark),
}

/// A loop of the plan: its variable, the step to its matches and its body.
#[derive(Clone, Copy, Debug)]
pub(crate) struct ForLoop<'p> {
    pub var: VarId,
    pub step: &'p Step,
    pub body: &'p [Item],
}

/// A loop at one of its matches.
#[derive(Clone, Copy, Debug)]
pub(crate) struct Round<'p> {
    pub var: VarId,
    pub step: &'p Step,
    pub body: &'p [Item],
    /// The place of the node from which the loop takes its step.
    pub context: Place,
    /// The place of the match at hand, while its body has items left.
    pub present: Place,
    pub next: Next,
}

/// What is left of a body.
#[derive(Clone, Copy, Debug)]
pub(crate) struct Block<'p> {
    pub rest: &'p [Item],
    /// The loop whose body it is. None for the plan's body and for a branch.
    pub round: Option<Round<'p>>,
    /// Where the loop with which the rest begins waits for its first match: there is none with a serial up to this one.
    /// Else 0.
    pub seen: u64,
}

impl<'p> Block<'p> {
    /// A body from its start, in no loop.
    pub fn new(rest: &'p [Item]) -> Block<'p>
        ensures rest { result.rest.now ≡ rest.now }
        ensures round { result.round ≡ None }
        ensures seen { result.seen ≡ 0 }
    {
        Block {
            rest,
            round: None,
            seen: 0,
        }
    }

    /// Goes on to what is left.
    pub fn go_on(&mut self, rest: &'p [Item])
        ensures rest { self.new.rest.now ≡ rest.now }
        ensures round { self.new.round ≡ self.old.round }
        ensures seen { self.new.seen ≡ 0 }
    {
        self.rest = rest;
        self.seen = 0;
    }
}

/// A copy in progress: within the node's copy, behind the child that is present.
#[derive(Clone, Copy, Debug)]
pub(crate) struct Copying {
    /// The node that is copied.
    pub top: Place,
    pub node: Place,
    /// The last child whose copy is over, if there is one.
    pub present: Option<Place>,
}

/// Whether the body ends with a statement.
pub(crate) fn ends_with_off(body: &[Item]) -> bool
    ensures ends { result ≡ true → EndsWithOff body.now }
    ensures others { result ≡ false → EndsWithOff body.now → ⊥ }
{
    matches!(body.last(), Some(Item::Off(_)))
}
