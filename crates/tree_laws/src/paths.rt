ghost use Rattle.tree_laws.specs.Paths.{HitsBySteps, MatchesAreHits, FirstIsLeast, LoopsBindHits, OneChain, LoopsInOrder, GivesByKind};

/// A path hits a node where its first step reaches some node from which the rest hits it.
pub fn hits_by_steps()
    ensures { HitsBySteps }
{}

/// Matches are the nodes hit, each once, by rising serial.
pub fn matches_are_hits()
    ensures { MatchesAreHits }
{}

/// First is the match of the smallest serial, or none where there is none.
pub fn first_is_least()
    ensures { FirstIsLeast }
{}

/// Nested loops over the steps of a path bind innermost the nodes that it hits.
pub fn loops_bind_hits()
    ensures { LoopsBindHits }
{}

/// With at most one descendant step, nested loops bind each node once.
pub fn one_chain()
    ensures { OneChain }
{}

/// With a descendant step only as the last one, nested loops bind the matches in document order.
pub fn loops_in_order()
    ensures { LoopsInOrder }
{}

/// What it means that a role of each kind reaches a node.
pub fn gives_by_kind()
    ensures { GivesByKind }
{}
