ghost use Rattle.past_laws.specs.Pasts.{CoreStatePast, PastOpens, PastFeeds, PastActs, LiveByBases, OwnTells, ReachHeld, NewNode, NewUnsigned, AheadTakes, AheadSigned, AheadBefore, LiveByFeed, RowsByFeed, RowsByAct, LiveByAct, LosesByAct, RolesByAct, SignedByAct, OpenNodes, WaitingLaw, RowTells, HeldLocal, HeldAbove, BasesAbove, OpenBehind, FirstBehind, NewRoles, KeptByRows};

/// In a core state there is a past, however many of its actions were taken before the last token.
pub fn core_state_past()
    ensures { CoreStatePast }
{}

/// Before any token and any action there is a past.
pub fn past_opens()
    ensures { PastOpens }
{}

/// A token that may come makes a past of a past.
pub fn past_feeds()
    ensures { PastFeeds }
{}

/// A write makes a past of a past, and so does a statement of the plan at one of its bases.
pub fn past_acts()
    ensures { PastActs }
{}

/// A role is live at a node where its statement reaches the node from a base that isn't signed.
pub fn live_by_bases()
    ensures { LiveByBases }
{}

/// The role of the base itself is live or signed at the nodes that are bases, and at no others.
pub fn own_tells()
    ensures { OwnTells }
{}

/// From a base that isn't signed a statement reaches the same nodes over the held ones as over the tree.
pub fn reach_held()
    ensures { ReachHeld }
{}

/// A token opens one node at most, the next child of the innermost open node.
pub fn new_node()
    ensures { NewNode }
{}

/// No statement is signed at a new node.
pub fn new_unsigned()
    ensures { NewUnsigned }
{}

/// At a new node what is taken depends on the actions in advance alone.
pub fn ahead_takes()
    ensures { AheadTakes }
{}

/// A role is taken from a new node where its statement was carried out in advance at each base that reaches the node.
pub fn ahead_signed()
    ensures { AheadSigned }
{}

/// What is in advance behind a token was so before it.
pub fn ahead_before()
    ensures { AheadBefore }
{}

/// A node that was there keeps its roles behind a token.
pub fn live_by_feed()
    ensures { LiveByFeed }
{}

/// The rows behind a token are those of nodes that were held before it, and of the new one.
pub fn rows_by_feed()
    ensures { RowsByFeed }
{}

/// The rows behind an action are those of nodes that were held before it; a write changes none.
pub fn rows_by_act()
    ensures { RowsByAct }
{}

/// Which roles are live at a node behind a statement.
pub fn live_by_act()
    ensures { LiveByAct }
{}

/// Which nodes lose a role by a statement.
pub fn loses_by_act()
    ensures { LosesByAct }
{}

/// The roles of a row behind a statement.
pub fn roles_by_act()
    ensures { RolesByAct }
{}

/// The roles signed at a row behind a statement.
pub fn signed_by_act()
    ensures { SignedByAct }
{}

/// The open nodes are those that are open.
pub fn open_nodes_are()
    ensures { OpenNodes }
{}

/// Which statements wait for the next token, behind a token and behind an action.
pub fn waiting_law()
    ensures { WaitingLaw }
{}

/// A row tells which roles are live at its node, and which are signed.
pub fn row_tells()
    ensures { RowTells }
{}

/// A node is held where it is open, has a live role, or has a child that is held.
pub fn held_local()
    ensures { HeldLocal }
{}

/// What is above a held node is held.
pub fn held_above()
    ensures { HeldAbove }
{}

/// A statement reaches nodes of its base's subtree, and the bases above one node are above one another.
pub fn bases_above()
    ensures { BasesAbove }
{}

/// The nodes and the open nodes behind each kind of token.
pub fn open_behind()
    ensures { OpenBehind }
{}

/// Which node is the first match of a path behind a token.
pub fn first_behind()
    ensures { FirstBehind }
{}

/// The roles of a new node's row.
pub fn new_roles()
    ensures { NewRoles }
{}

/// The rows tell which held nodes keep the role of a statement that is carried out.
pub fn kept_by_rows()
    ensures { KeptByRows }
{}
