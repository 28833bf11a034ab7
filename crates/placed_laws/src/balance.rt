ghost use Rattle.placed_laws.specs.Balance.{BalanceLaw, EmptyAtEnd, OnceLaw, OffsAtMatches, TakenStays, GoneStays, HeldByFeed, HeldByAct};

/// At the end each role is taken from exactly the nodes to which it was given.
pub fn balance_law()
    ensures { BalanceLaw }
{}

/// At the end nothing is held.
pub fn empty_at_end()
    ensures { EmptyAtEnd }
{}

/// No statement is carried out twice at one node.
pub fn once_law()
    ensures { OnceLaw }
{}

/// Each statement that is carried out is one of the plan, at a match of its base's path.
pub fn offs_at_matches()
    ensures { OffsAtMatches }
{}

/// What is taken stays taken.
pub fn taken_stays()
    ensures { TakenStays }
{}

/// A node that isn't held is never held again.
pub fn gone_stays()
    ensures { GoneStays }
{}

/// The nodes held behind a token come from those held before it and the new one.
pub fn held_by_feed()
    ensures { HeldByFeed }
{}

/// The nodes held behind an action come from those held before it.
pub fn held_by_act()
    ensures { HeldByAct }
{}
