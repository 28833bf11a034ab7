ghost use Rattle.move_laws.specs.Kept.{TruthKept, CopyKept, MatchesKept, LaterKept, FirstKept, ClosedStays, ReachedGrows, TakenAreThere, SoFarStays, PointStays};

/// A condition has the same truth where what it needs is kept.
pub fn truth_kept()
    ensures { TruthKept }
{}

/// A copy is the same where the subtree is kept.
pub fn copy_kept()
    ensures { CopyKept }
{}

/// A path has the same matches where they are kept.
pub fn matches_kept()
    ensures { MatchesKept }
{}

/// A path has the same later matches where they are kept.
pub fn later_kept()
    ensures { LaterKept }
{}

/// A path has the same first match where it is kept.
pub fn first_kept()
    ensures { FirstKept }
{}

/// A closed node stays closed, and keeps its matches and its value.
pub fn closed_stays()
    ensures { ClosedStays }
{}

/// What Feeds and Acts reach has grown.
pub fn reached_grows()
    ensures { ReachedGrows }
{}

/// In a core state no more actions are taken than there are.
pub fn taken_are_there()
    ensures { TakenAreThere }
{}

/// The actions that are taken stay while tokens come.
pub fn so_far_stays()
    ensures { SoFarStays }
{}

/// A point stays one while tokens come.
pub fn point_stays()
    ensures { PointStays }
{}
