ghost use Rattle.spread_laws.specs.Keeping.{LiveByTops, LiveByKept, KeptTells, KeptAreLive, KeptByFeed, NewTops, KeptNewly, KeptByWrite, TopsByAct, TopsByRows, KeptByAct, AloneTakes, TablesTell, TablesBuilt};

/// A spread role is live at the tops of its statement and below them, and nowhere else.
pub fn live_by_tops()
    ensures { LiveByTops }
{}

/// A node has the roles kept at it, and the spread ones of its parent.
pub fn live_by_kept()
    ensures { LiveByKept }
{}

/// Where a role is kept, by its statement.
pub fn kept_tells()
    ensures { KeptTells }
{}

/// The roles kept at a node are among those live there.
pub fn kept_are_live()
    ensures { KeptAreLive }
{}

/// A token leaves what is kept at the nodes that were there.
pub fn kept_by_feed()
    ensures { KeptByFeed }
{}

/// The rows of the open nodes tell of which statements a new node is a top.
pub fn new_tops()
    ensures { NewTops }
{}

/// Where nothing is signed at an open node, what is kept at a new one follows from the paths that lead to it.
pub fn kept_newly()
    ensures { KeptNewly }
{}

/// A write leaves what is kept.
pub fn kept_by_write()
    ensures { KeptByWrite }
{}

/// Which tops a statement leaves.
pub fn tops_by_act()
    ensures { TopsByAct }
{}

/// The rows tell which held nodes stay tops.
pub fn tops_by_rows()
    ensures { TopsByRows }
{}

/// A statement adds nothing to what is kept at a node.
pub fn kept_by_act()
    ensures { KeptByAct }
{}

/// Where the base's path has no descendant step, the statement takes its role from the whole subtree of the base.
pub fn alone_takes()
    ensures { AloneTakes }
{}

/// The tables of a plan tell by role and by variable.
pub fn tables_tell()
    ensures { TablesTell }
{}

/// The statements of the plan make up the table.
pub fn tables_built()
    ensures { TablesBuilt }
{}
