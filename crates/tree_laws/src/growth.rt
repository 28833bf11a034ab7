ghost use Rattle.tree_laws.specs.Growth.{GrowIsFeeding, LeadsIsFeeding, TokensAreFound, NodesAreNumbered};

/// The relation between an open tree and one with a token more, in words, is a token that may come.
pub fn grow_is_feeding()
    ensures { GrowIsFeeding }
{}

/// An open tree comes from another one by tokens each of which may come.
pub fn leads_is_feeding()
    ensures { LeadsIsFeeding }
{}

/// An open tree determines its tokens and their order.
pub fn tokens_are_found()
    ensures { TokensAreFound }
{}

/// The nodes of an open tree are numbered from 0 in document order, each behind its parent.
pub fn nodes_are_numbered()
    ensures { NodesAreNumbered }
{}
