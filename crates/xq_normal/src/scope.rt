//! Which variable each name stands for.
ghost use Rattle.std.specs.Prelude.{◌≡◌};
ghost use Rattle.gcx_model.specs.Normal.{start_var};
ghost use Rattle.xq_normal.specs.Scopes.{names_of};

use gcx_base::{Name, VarId};

/// A name, and the variable that it stands for.
#[derive(Clone, Copy)]
pub(crate) struct Binding<'q> {
    pub name: &'q Name,
    pub var: VarId,
}

/// The variable of the innermost binding of the name. The innermost is the last. A list serves: each
/// binding has a loop of its own, and a query with more than 500 loops is refused before any look-up.
pub(crate) fn look_up(scope: &[Binding<'_>], name: &Name) -> VarId
    ensures { result.0 ≡ names_of scope.now name.now }
{
    let mut found = VarId(0);
    for binding in scope {
        if binding.name.as_bytes() == name.as_bytes() {
            found = binding.var;
        }
    }
    found
}

/// The variable at which a path begins.
pub(crate) fn start_of(scope: &[Binding<'_>], start: &Option<Name>) -> VarId
    ensures { result.0 ≡ start_var (names_of scope.now) start.now }
{
    match start {
        Some(name) => look_up(scope, name),
        None => VarId(0),
    }
}
