//! Roles of a node as a list, and short lists of levels.
ghost use Rattle.std.specs.Prelude.{◌≡◌, ◌++◌, ◌∷◌, [], false, true, map, IfOk, OnOk};
ghost use Rattle.gcx_model.specs.Given.{IsAboveLast};
ghost use Rattle.path_states.specs.Lists.{Climbs, From, Gains};
ghost use Rattle.matcher.specs.Frames.{AddsRole, AreBoth, IsRoleOf};

use crate::frames::Found;
use gcx_base::{Memory, Role};
use gcx_model::Given;
use path_states::rise;
use smallvec::SmallVec;
use std::alloc::Global;

/// Levels of open nodes. A short list lies in the value itself.
pub(crate) type Levels = SmallVec<usize, 4>;

/// Adds a role, where it is above the others.
fn put_role(given: &mut Given, number: u32) -> Result<(), Memory>
    ensures { OnOk result (AddsRole given.old given.new number) }
{
    let role = Role(number);
    if is_above(given, role) {
        given.push(role)?;
    }
    Ok(())
}

/// The rising list as roles.
pub(crate) fn given_of(alloc: Global, numbers: &[u32]) -> Result<Given, Memory>
    ensures { Climbs numbers.now → IfOk result (λ given. map (λ r. r.0) given ≡ numbers.now) }
{
    let mut given = Given::new(alloc);
    for number in numbers {
        put_role(&mut given, *number)?;
    }
    Ok(given)
}

/// Whether the role may be added to these.
pub(crate) fn is_above(given: &Given, role: Role) -> bool
    ensures yes { result ≡ true → IsAboveLast given.now role }
    ensures no { result ≡ false → IsAboveLast given.now role → ⊥ }
{
    match given.items().last() {
        Some(last) => last.0 < role.0,
        None => true,
    }
}

/// Adds the roles of first matches.
fn put_first(roles: &mut Vec<u32>, found: &[Found]) -> Result<(), Memory>
    ensures gains { OnOk result (Gains roles.old.items roles.new.items (From found.now IsRoleOf)) }
    ensures climbs { OnOk result (Climbs roles.old.items → Climbs roles.new.items) }
{
    for one in found {
        rise(roles, one.role)?;
    }
    Ok(())
}

/// These roles, which rise, and those of first matches.
pub(crate) fn given_with(alloc: Global, roles: &[u32], found: &[Found]) -> Result<Given, Memory>
    ensures { Climbs roles.now → IfOk result (λ given. AreBoth roles.now found.now (map (λ r. r.0) given)) }
{
    if found.is_empty() {
        let given = given_of(alloc, roles)?;
        return Ok(given);
    }
    let mut all = Vec::new(alloc);
    all.extend_from_slice(roles)?;
    put_first(&mut all, found)?;
    let both = given_of(alloc, &all)?;
    Ok(both)
}
