ghost use Rattle.tree_laws.specs.Departing.{DepartedAreGone};

/// The departed nodes are those that were there and aren't there any more, by falling serial.
pub fn departed_are_gone()
    ensures { DepartedAreGone }
{}
