ghost use Rattle.std.specs.Prelude.{◌≡◌, ◌++◌, ◌∷◌, [], IfOk, OnOk, OnErr};
ghost use Rattle.gcx_base.specs.Tests.{passes};

use crate::{Kind, Memory, Name};
use std::alloc::Global;
use std::marker::Model;

/// The axis of a step.
#[derive(Clone, Copy, Debug, PartialEq, Eq)]
pub enum Axis {
    Child,
    Descendant,
}

/// What a step asks of a node: a name, any element, any text, or any of both.
#[derive(Drop, Debug, PartialEq, Eq)]
pub enum Test {
    Named(Name),
    AnyElement,
    AnyText,
    AnyNode,
}

impl Test {
    /// Whether a node of this kind passes the test. The document node passes none.
    #[inline(always)]
    pub fn passes(&self, kind: &Kind) -> bool
        ensures { result ≡ passes self.now kind.now }
    {
        match (self, kind) {
            (_, Kind::Document) => false,
            (Test::Named(name), Kind::Element(other)) => *name == *other,
            (Test::AnyElement | Test::AnyNode, Kind::Element(_)) => true,
            (Test::AnyText | Test::AnyNode, Kind::Text(_)) => true,
            _ => false,
        }
    }

    /// A copy of the test. `Memory`: there was no room for it.
    pub fn copy(&self, alloc: Global) -> Result<Test, Memory>
        ensures { IfOk result (λ test. test ≡ self.now) }
    {
        Ok(match self {
            Test::Named(name) => Test::Named(name.copy(alloc)?),
            Test::AnyElement => Test::AnyElement,
            Test::AnyText => Test::AnyText,
            Test::AnyNode => Test::AnyNode,
        })
    }
}

/// A step from a node to others below it (XQuery 1.0, section 3.2.1).
#[derive(Drop, Debug, PartialEq, Eq)]
pub struct Step {
    pub axis: Axis,
    pub test: Test,
}

impl Step {
    /// A copy of the step. `Memory`: there was no room for it.
    pub fn copy(&self, alloc: Global) -> Result<Step, Memory>
        ensures { IfOk result (λ step. step ≡ self.now) }
    {
        Ok(Step {
            axis: self.axis,
            test: self.test.copy(alloc)?,
        })
    }
}

/// A list of steps.
#[derive(Drop, Debug)]
pub struct Steps {
    steps: Vec<Step>,
}

impl Model for Steps {
    ghost use Rattle.std.specs.Prelude.{List};
    ghost use Rattle.gcx_base.specs.declared.steps.Step.{Step};

    ghost Value = { List Step };

    ghost view = { λ s. s.steps.items };
}

impl Steps {
    /// The empty list.
    pub fn new(alloc: Global) -> Steps
        ensures { result ≡ [] }
    {
        Steps {
            steps: Vec::new(alloc),
        }
    }

    /// Adds a step at the end. After `Memory` the list is unchanged.
    pub fn push(&mut self, step: Step) -> Result<(), Memory>
        ensures ok { OnOk result (self.new ≡ self.old ++ step ∷ []) }
        ensures err { OnErr result (self.new ≡ self.old) }
    {
        self.steps.push(step)?;
        Ok(())
    }

    /// The steps in order.
    pub fn items(&self) -> &[Step]
        ensures { result.now ≡ self.now }
    {
        &self.steps
    }

    /// A copy of the list. `Memory`: there was no room for it.
    pub fn copy(&self, alloc: Global) -> Result<Steps, Memory>
        ensures { IfOk result (λ steps. steps ≡ self.now) }
    {
        let mut copied = Steps::new(alloc);
        for step in &self.steps {
            copied.push(step.copy(alloc)?)?;
        }
        Ok(copied)
    }
}
