ghost use Rattle.placed_laws.specs.Needs.{NeedLaw, BoundLaw, TurnLaw, UnsignedLaw, TruthHeld, TurnsHeld, LoopHeld, CopyHeld};

/// What a point needs is held.
pub fn need_law()
    ensures { NeedLaw }
{}

/// At a point the variables that come next are bound to matches of their paths.
pub fn bound_law()
    ensures { BoundLaw }
{}

/// The present match of a loop is one of its parent's node, and of the variable's path.
pub fn turn_law()
    ensures { TurnLaw }
{}

/// A statement that comes next isn't carried out yet at its base's node.
pub fn unsigned_law()
    ensures { UnsignedLaw }
{}

/// Over the held nodes a condition has the truth that it has over the tree.
pub fn truth_held()
    ensures { TruthHeld }
{}

/// Over the held nodes a loop has the later matches that it has over the tree.
pub fn turns_held()
    ensures { TurnsHeld }
{}

/// Over the held nodes a loop that comes next has the matches that it has over the tree.
pub fn loop_held()
    ensures { LoopHeld }
{}

/// Over the held nodes a copy is that over the tree.
pub fn copy_held()
    ensures { CopyHeld }
{}
