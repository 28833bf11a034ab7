ghost use Rattle.placed_laws.specs.Runs.{PrefixLaw, ClosedLaw, PointLaw, ResumeLaw, DemandIsReached};

/// Where an open tree grows, the actions only go on; where they are done, they stay the same.
pub fn prefix_law()
    ensures { PrefixLaw }
{}

/// Where every node is closed, a run is done.
pub fn closed_law()
    ensures { ClosedLaw }
{}

/// Behind each number of actions there is a point.
pub fn point_law()
    ensures { PointLaw }
{}

/// From a point on, what is still to come follows on the actions so far.
pub fn resume_law()
    ensures { ResumeLaw }
{}

/// The demand run goes through core states.
pub fn demand_is_reached()
    ensures { DemandIsReached }
{}
