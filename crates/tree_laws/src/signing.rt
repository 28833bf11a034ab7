ghost use Rattle.tree_laws.specs.Signing.{SignedIsOff};

/// A node is signed for a statement where the actions carry it out there.
pub fn signed_is_off()
    ensures { SignedIsOff }
{}
