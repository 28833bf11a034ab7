ghost use Rattle.doc_laws.specs.Bounds.{SeenWithin};

/// The open tree behind each token that is seen is no deeper than may be, and has a node for a byte at most.
pub fn seen_within()
    ensures { SeenWithin }
{}
