ghost use Rattle.run_laws.specs.Sums.{SumsByFeed, SumsByAct, TakenIsGiven};

/// A token adds the roles that are given to its node, and those of them that are taken in advance.
pub fn sums_by_feed()
    ensures { SumsByFeed }
{}

/// An action takes its role back from the nodes that have it live no more.
pub fn sums_by_act()
    ensures { SumsByAct }
{}

/// At the end all that was given is taken back.
pub fn taken_is_given()
    ensures { TakenIsGiven }
{}
