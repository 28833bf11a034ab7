//! No roles.
ghost use Rattle.std.specs.Prelude.{◌≡◌};
ghost use Rattle.std.specs.FinSet as set;

use role_set::RoleSet;
use std::alloc::Global;
use std::marker::Model;

/// A set that stays without roles, to be lent.
#[derive(Drop)]
pub(crate) struct NoRoles {
    roles: RoleSet,
}

impl Model for NoRoles {
    ghost use Rattle.std.specs.Prelude.{◌≡◌};
    ghost use Rattle.std.specs.FinSet as set;

    ghost Value = { Unit {0} };

    ghost view = { λ s. tt };

    ghost invariant = { λ s. s.roles ≡ set.empty };
}

impl NoRoles {
    /// The set. Takes no memory.
    pub(crate) fn new(alloc: Global) -> NoRoles {
        NoRoles {
            roles: RoleSet::new(alloc),
        }
    }

    /// The empty set.
    #[inline(always)]
    pub(crate) fn empty(&self) -> &RoleSet
        ensures { result.now ≡ set.empty }
    {
        &self.roles
    }
}
