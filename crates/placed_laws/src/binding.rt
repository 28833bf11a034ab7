ghost use Rattle.placed_laws.specs.Binding.{CopyBoundLaw};

/// A copy in progress copies the node to which its variable is bound, a match of the variable's path.
pub fn copy_bound_law()
    ensures { CopyBoundLaw }
{}
