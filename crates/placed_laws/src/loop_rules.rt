ghost use Rattle.placed_laws.specs.LoopRules.{VariablesOfLoops, PathByLoop, StraightByLoop, FsaByLoop};

/// The variables of a core are those of its loops.
pub fn variables_of_loops()
    ensures { VariablesOfLoops }
{}

/// The path of a loop's variable is its parent's and the loop's step.
pub fn path_by_loop()
    ensures { PathByLoop }
{}

/// Which variables are straight, by where their loops stand.
pub fn straight_by_loop()
    ensures { StraightByLoop }
{}

/// The fsa of a variable is itself where it is straight, else its parent's.
pub fn fsa_by_loop()
    ensures { FsaByLoop }
{}
