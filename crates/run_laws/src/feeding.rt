ghost use Rattle.run_laws.specs.Feeding.{NodesGrow, MatchesGrow, TruthStays, OpenChain};

/// The nodes, and the matches of a path, stay in front of the new ones.
pub fn nodes_grow()
    ensures { NodesGrow }
{}

/// The matches of a path stay in front of the new ones, which have new numbers.
pub fn matches_grow()
    ensures { MatchesGrow }
{}

/// A truth that is known stays.
pub fn truth_stays()
    ensures { TruthStays }
{}

/// The open nodes are a chain.
pub fn open_chain()
    ensures { OpenChain }
{}
