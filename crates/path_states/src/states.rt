//! The states of the open nodes.
ghost use Rattle.std.specs.Prelude.{◌≡◌, ◌∷◌, ◌++◌, ℕ, List, [], Some, option_map, slice_get, IfOk, IfSome, OnOk, OnErr};
ghost use Rattle.gcx_base.specs.declared.kind.Kind.TheVariants.{Element, Text};
ghost use Rattle.gcx_model.specs.Members.{In};
ghost use Rattle.gcx_model.specs.Past.{IsNode};
ghost use Rattle.gcx_model.specs.PlanView.{plan_tree};
ghost use Rattle.path_states.specs.Names.{IsNameNumber};
ghost use Rattle.path_states.specs.PathTree.{IsPathTree};
ghost use Rattle.path_states.specs.Room.{IsWithinRoom};
ghost use Rattle.path_states.specs.State.{StateView, IsMade, StartsAs};
ghost use Rattle.path_states.specs.States.{Enters, last_state, outer_states};

use crate::branches::{StepIndex, index_of};
use crate::names::number_in;
use crate::paths::{PathTree, tree_of};
use crate::remembered::{Bound, Remembered};
use crate::state::{State, make_state};
use gcx_base::{Kind, Memory};
use gcx_model::Plan;
use std::alloc::Global;
use std::marker::Model;

/// The states of the open nodes of a document, seen as their list, that of the document node first.
///
/// A state and the number of a name lead to the state of a child. Both are remembered within a bound, so what a tag gives
/// is looked up; beyond it a state is made anew, and forgotten when its node is left. `Memory` is want of memory, and
/// leaves all as it was.
#[derive(Drop)]
pub struct PathStates {
    tree: PathTree,
    steps: StepIndex,
    known: Remembered,
    /// The numbers of the states of the open nodes around the innermost one.
    outer: Vec<usize>,
    /// That of the innermost one.
    here: usize,
}

impl Model for PathStates {
    ghost use Rattle.path_states.specs.States.{StatesView, states_code};
    ghost use Rattle.path_states.specs.contracts.paths.PathTree as path_tree;

    ghost Value = { StatesView };

    ghost coded = { states_code path_tree.the_row.coded };

    ghost use Rattle.path_states.specs.Open.{AreOpen, seen_states};

    ghost view = { seen_states };

    ghost invariant = { AreOpen };
}

impl PathStates {
    /// That of the document node alone, for this plan.
    pub fn new(alloc: Global, plan: &Plan, bound: Bound) -> Result<PathStates, Memory>
        ensures tree { IfOk result (λ v. IsPathTree (plan_tree plan.now) v.tree) }
        ensures most { IfOk result (λ v. (v.most_states ≡ bound.states) × (v.most_bytes ≡ bound.bytes)) }
        ensures first { IfOk result (λ v. (s : StateView) × (v.states ≡ s ∷ []) × StartsAs v.tree.states.items s) }
    {
        let tree = tree_of(alloc, plan)?;
        let steps = index_of(alloc, &tree.states)?;
        let mut active = Vec::new(alloc);
        active.push(0)?;
        let first = make_state(alloc, &tree.states, active, &[], &[])?;
        let stride = steps.names.len().saturating_add(2);
        let known = Remembered::new(alloc, bound, stride, first)?;
        Ok(PathStates {
            tree,
            steps,
            known,
            outer: Vec::new(alloc),
            here: 0,
        })
    }

    /// The plan's paths.
    #[inline(always)]
    pub fn tree(&self) -> &PathTree
        ensures { result.now ≡ self.now.tree }
    {
        &self.tree
    }

    /// The number of this name. Takes no memory.
    #[inline(always)]
    pub fn number(&self, name: &[u8]) -> usize
        ensures { IsNameNumber self.now.names (Element name.now) result }
    {
        number_in(&self.steps.names, name)
    }

    /// The number of texts.
    #[inline(always)]
    pub fn text(&self) -> usize
        ensures { (bytes : List ℕ) → IsNameNumber self.now.names (Text bytes) result }
    {
        self.steps.names.len() + 1
    }

    /// The number of the name of an element, or that of texts. Takes no memory.
    #[inline(always)]
    pub fn number_of(&self, kind: &Kind) -> usize
        requires node { IsNode kind.now }
        ensures { IsNameNumber self.now.names kind.now result }
    {
        match kind {
            Kind::Element(name) => self.number(name.as_bytes()),
            Kind::Text(_) => self.text(),
            Kind::Document => self.text(),
        }
    }

    /// Goes to a new node whose name has the number, below the innermost one.
    #[inline(always)]
    pub fn enter(&mut self, alloc: Global, number: usize) -> Result<(), Memory>
        ensures entered { OnOk result (Enters self.old self.new number) }
        ensures err { OnErr result (self.new ≡ self.old) }
    {
        self.outer.reserve(1)?;
        let to = self
            .known
            .child(alloc, &self.tree.states, &self.steps, self.here, number)?;
        self.outer.push_reserved(self.here);
        self.here = to;
        Ok(())
    }

    /// Leaves the innermost node, unless it is the document node, for its parent. Takes no memory.
    #[inline(always)]
    pub fn leave(&mut self)
        ensures { self.new ≡ record self.old { states = outer_states self.old.states } }
    {
        match self.outer.pop() {
            Some(above) => {
                self.known.forget(self.here);
                self.here = above;
            }
            None => {}
        }
    }

    /// The state of the innermost node.
    #[inline(always)]
    pub fn here(&self) -> &State
        ensures is { last_state self.now.states ≡ Some result.now }
        ensures made { IsMade self.now.tree.states.items result.now }
    {
        &self.known.states[self.here]
    }

    /// The state of the open node of this level, which for the document node is 0.
    #[inline(always)]
    pub fn at(&self, level: usize) -> Option<&State>
        ensures is { option_map (λ s. s.now) result ≡ slice_get self.now.states level }
        ensures made { IfSome result (λ s. IsMade self.now.tree.states.items s.now) }
    {
        if level == self.outer.len() {
            return Some(&self.known.states[self.here]);
        }
        match self.outer.get(level) {
            Some(number) => Some(&self.known.states[*number]),
            None => None,
        }
    }

    /// The states that are remembered, and the number of slots for moves between them.
    pub fn remembered(&self) -> (&[State], usize)
        ensures made { (s : StateView) → In s result.0.now → IsMade self.now.tree.states.items s }
        ensures within { IsWithinRoom self.now.most_states self.now.most_bytes result.0.now result.1 }
    {
        (self.known.kept_states(), self.known.moves.len())
    }
}
