ghost use Rattle.placed_laws.specs.Plans.{PlacedOnce, PathsByRows, OneStatement, SignedByRole, PlanWrites, PlanBytes};

/// Of the plans that are placed for a core there is one.
pub fn placed_once()
    ensures { PlacedOnce }
{}

/// The path of a variable is the same by a plan's rows and by the variable tree.
pub fn paths_by_rows()
    ensures { PathsByRows }
{}

/// A role's statement is the one of the plan that tells it.
pub fn one_statement()
    ensures { OneStatement }
{}

/// Among a plan's statements the role tells for which one a node is signed.
pub fn signed_by_role()
    ensures { SignedByRole }
{}

/// A plan writes what its core writes.
pub fn plan_writes()
    ensures { PlanWrites }
{}

/// A plan of a query's core writes what is settled.
pub fn plan_bytes()
    ensures { PlanBytes }
{}
