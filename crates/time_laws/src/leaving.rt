ghost use Rattle.time_laws.specs.Laws.{HeldByTimes, LiveByTimes};

/// A role is live at a node until the last statement that reaches the node is carried out.
pub fn live_by_times()
    ensures { LiveByTimes }
{}

/// A node is held until it is closed and the last statement that reaches its subtree is carried out.
pub fn held_by_times()
    ensures { HeldByTimes }
{}
