//! Paths, with the places that faults name.
ghost use Rattle.std.specs.Prelude.{◌≡◌, OnOk};
ghost use Rattle.xq_parse.specs.Machine.{a_route, added, descent_at, no_trail, or_else};

use gcx_base::{Axis, Memory, Name, Step, Steps};
use gcx_model::PathExpr;
use std::alloc::Global;

/// A variable and where it stands.
#[derive(Drop)]
pub(crate) struct Var {
    pub name: Name,
    pub at: u64,
}

/// A step, and where its slash stands.
#[derive(Drop)]
pub(crate) struct PlacedStep {
    pub at: u64,
    pub step: Step,
}

/// The steps read so far; where the last one stands, if it is a descendant step; and where the first
/// descendant step stands that isn't the last.
#[derive(Drop)]
pub(crate) struct Trail {
    pub steps: Steps,
    pub last: Option<u64>,
    pub late: Option<u64>,
}

/// A path, where its variable stands, and where its first descendant step stands that isn't the last.
#[derive(Drop)]
pub(crate) struct Route {
    pub path: PathExpr,
    pub var_at: Option<u64>,
    pub late: Option<u64>,
}

/// The first of two places.
pub(crate) fn first_of(before: Option<u64>, behind: Option<u64>) -> Option<u64>
    ensures { result ≡ or_else before behind }
{
    match before {
        Some(at) => Some(at),
        None => behind,
    }
}

fn descent(axis: Axis, at: u64) -> Option<u64>
    ensures { result ≡ descent_at axis at }
{
    match axis {
        Axis::Child => None,
        Axis::Descendant => Some(at),
    }
}

impl Trail {
    pub(crate) fn new(alloc: Global) -> Trail
        ensures { result ≡ no_trail }
    {
        Trail {
            steps: Steps::new(alloc),
            last: None,
            late: None,
        }
    }

    pub(crate) fn push(&mut self, placed: PlacedStep) -> Result<(), Memory>
        ensures { OnOk result (self.new ≡ added self.old placed.at placed.step) }
    {
        let late = first_of(self.late, self.last);
        let last = descent(placed.step.axis, placed.at);
        self.steps.push(placed.step)?;
        self.late = late;
        self.last = last;
        Ok(())
    }

    /// The path of these steps.
    pub(crate) fn from(self, start: Option<Var>) -> Route
        ensures { result ≡ a_route start self }
    {
        let (start, var_at) = match start {
            Some(var) => (Some(var.name), Some(var.at)),
            None => (None, None),
        };
        Route {
            path: PathExpr {
                start,
                steps: self.steps,
            },
            var_at,
            late: self.late,
        }
    }
}
