//! Which node each variable is bound to.
ghost use Rattle.std.specs.Prelude.{◌≡◌};
ghost use Rattle.trace_check.specs.Scopes.{bound_in};

use gcx_base::VarId;

/// A variable, and the node to which it is bound.
#[derive(Clone, Copy, Debug)]
pub(crate) struct Binding {
    pub var: VarId,
    pub node: usize,
}

/// The node to which the innermost binding of the variable binds it, the document node where there is none. The innermost is the
/// last.
pub(crate) fn node_of(scope: &[Binding], var: VarId) -> usize
    ensures { result ≡ bound_in 0 var.0 scope.now }
{
    let mut node = 0;
    for binding in scope {
        if binding.var == var {
            node = binding.node;
        }
    }
    node
}
