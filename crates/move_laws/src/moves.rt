ghost use Rattle.move_laws.specs.Moves.{OpeningPoint, WriteMove, OffMove, BranchMove, FirstRound, NoRound, NextRound, LastRound, EmptyRest, BranchWaits, LoopWaits, RoundWaits, RunIsDone, PointsAreStacks};

/// A run begins with the plan's body.
pub fn opening_point()
    ensures { OpeningPoint }
{}

/// Where bytes come next, they are the next action.
pub fn write_move()
    ensures { WriteMove }
{}

/// Where a statement comes next, it is the next action, at the node of its base.
pub fn off_move()
    ensures { OffMove }
{}

/// A condition that is known takes its branch.
pub fn branch_move()
    ensures { BranchMove }
{}

/// A loop that comes next begins with its first match.
pub fn first_round()
    ensures { FirstRound }
{}

/// A loop with no match, at a closed node, is over.
pub fn no_round()
    ensures { NoRound }
{}

/// Behind a round comes that of the first later match.
pub fn next_round()
    ensures { NextRound }
{}

/// With no later match, at a closed node, a loop is over.
pub fn last_round()
    ensures { LastRound }
{}

/// At the end of a branch the rest behind it goes on.
pub fn empty_rest()
    ensures { EmptyRest }
{}

/// A condition that isn't known waits: no action is left, and the run isn't done.
pub fn branch_waits()
    ensures { BranchWaits }
{}

/// So does a loop with no match at an open node.
pub fn loop_waits()
    ensures { LoopWaits }
{}

/// So does a loop with no later match at an open node.
pub fn round_waits()
    ensures { RoundWaits }
{}

/// Where only empty rests are left, no action is left, and the run is done.
pub fn run_is_done()
    ensures { RunIsDone }
{}

/// Which frames of a point stand on which.
pub fn points_are_stacks()
    ensures { PointsAreStacks }
{}
