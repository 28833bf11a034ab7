ghost use Rattle.tree_laws.specs.DocumentTrees.{DocumentsGrow};

/// The tree of a whole document comes from the opening one, and its nodes are closed.
pub fn documents_grow()
    ensures { DocumentsGrow }
{}
