ghost use Rattle.pass_laws.specs.Scopes.{TurnUses, TurnFree, TurnHeld, OtherHeld};

/// Each outer variable that the body of a loop uses is bound below the loop, to a node that is held.
pub fn turn_uses()
    ensures { TurnUses }
{}

/// What is free in the body of a loop is its variable or has a smaller number.
pub fn turn_free()
    ensures { TurnFree }
{}

/// The matches of a loop without statements are held, and so is what its conditions ask about at each of them.
pub fn turn_held()
    ensures { TurnHeld }
{}

/// What the conditions of a loop ask about at outer variables is held.
pub fn other_held()
    ensures { OtherHeld }
{}
