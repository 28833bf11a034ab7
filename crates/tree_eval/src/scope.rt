//! Which node each variable is bound to.
ghost use Rattle.std.specs.Prelude.{◌≡◌, None};
ghost use Rattle.tree_eval.specs.Scopes.{bound_in};

use gcx_base::Name;

/// A variable, and the node to which it is bound.
#[derive(Clone, Copy)]
pub(crate) struct Binding<'q> {
    pub name: &'q Name,
    pub node: usize,
}

/// The node to which the innermost variable of the name is bound. The innermost is the last.
pub(crate) fn look_up(scope: &[Binding<'_>], name: &Name) -> Option<usize>
    ensures { result ≡ bound_in None name.now scope.now }
{
    let mut found = None;
    for binding in scope {
        if binding.name.as_bytes() == name.as_bytes() {
            found = Some(binding.node);
        }
    }
    found
}
