ghost use Rattle.pass_laws.specs.Idle.{GuardedAreQuiet, ClosedAreSettled};

/// A guarded body does nothing where its comparison is false and no more nodes come for it.
pub fn guarded_are_quiet()
    ensures { GuardedAreQuiet }
{}

/// No more nodes come for a body whose free variables are bound to closed nodes.
pub fn closed_are_settled()
    ensures { ClosedAreSettled }
{}
