//! What is found of places while a query is read.
ghost use Rattle.std.specs.Prelude.{◌≡◌};
ghost use Rattle.xq_parse.specs.Machine.{no_marks, seen, seen_in_order, unbound_at};

use crate::route::{Route, first_of};
use crate::scope::Scope;

/// Where the first variable stands that no clause binds, and where the first descendant step stands
/// that had to be the last of its path.
#[derive(Clone, Copy, Drop)]
pub(crate) struct Marks {
    pub unknown: Option<u64>,
    pub late: Option<u64>,
}

fn unbound(scope: &Scope, route: &Route) -> Option<u64>
    ensures { result ≡ unbound_at scope.now route.now.path.start route.now.var_at }
{
    match &route.path.start {
        Some(name) if !scope.has(name) => route.var_at,
        _ => None,
    }
}

impl Marks {
    pub(crate) fn new() -> Marks
        ensures { result ≡ no_marks }
    {
        Marks {
            unknown: None,
            late: None,
        }
    }

    /// Notes what a condition's path has.
    pub(crate) fn see(&mut self, scope: &Scope, route: &Route)
        ensures { self.new ≡ seen scope.now self.old route.now }
    {
        self.unknown = first_of(self.unknown, unbound(scope, route));
    }

    /// Notes what the path of a clause or of an expression has.
    pub(crate) fn see_in_order(&mut self, scope: &Scope, route: &Route)
        ensures { self.new ≡ seen_in_order scope.now self.old route.now }
    {
        self.see(scope, route);
        self.late = first_of(self.late, route.late);
    }
}
