ghost use Rattle.run_laws.specs.Turning.{TurnsReach, TurnsReachAll, OneTurnMore};

/// Turns in any order reach a core state.
pub fn turns_reach()
    ensures { TurnsReach }
{}

/// Each core state is reached by some turns.
pub fn turns_reach_all()
    ensures { TurnsReachAll }
{}

/// One turn more goes on from what those before it reach.
pub fn one_turn_more()
    ensures { OneTurnMore }
{}
