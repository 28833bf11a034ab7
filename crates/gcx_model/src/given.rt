ghost use Rattle.std.specs.Prelude.{◌≡◌, ◌++◌, ◌∷◌, [], IfOk, OnOk, OnErr};
ghost use Rattle.gcx_model.specs.Given.{IsAboveLast, IsRising};

use gcx_base::{Memory, Role};
use smallvec::SmallVec;
use std::alloc::Global;
use std::marker::Model;

/// The roles given to a node: a strictly rising list. Up to four lie in the value itself.
#[derive(Drop, Debug)]
pub struct Given {
    roles: SmallVec<Role, 4>,
}

impl Model for Given {
    ghost use Rattle.std.specs.Prelude.{List};
    ghost use Rattle.gcx_base.specs.declared.ids.Role.{Role};

    ghost Value = { List Role };

    ghost use Rattle.gcx_model.specs.Given.{IsRising};

    ghost view = { λ g. g.roles.items };

    ghost invariant = { λ g. IsRising g.roles.items };
}

impl Given {
    /// The empty list.
    #[inline(always)]
    pub fn new(alloc: Global) -> Given
        ensures { result ≡ [] }
    {
        Given {
            roles: SmallVec::new(alloc),
        }
    }

    /// Adds a role, which is above the last one, at the end. After `Memory` the list is unchanged.
    #[inline(always)]
    pub fn push(&mut self, role: Role) -> Result<(), Memory>
        requires { IsAboveLast self.old role }
        ensures ok { OnOk result (self.new ≡ self.old ++ role ∷ []) }
        ensures err { OnErr result (self.new ≡ self.old) }
    {
        self.roles.push(role)?;
        Ok(())
    }

    /// The roles, strictly rising.
    #[inline(always)]
    pub fn items(&self) -> &[Role]
        ensures same { result.now ≡ self.now }
        ensures rising { IsRising self.now }
    {
        self.roles.as_slice()
    }

    /// A copy of the list. `Memory`: there was no room for it.
    pub fn copy(&self, alloc: Global) -> Result<Given, Memory>
        ensures { IfOk result (λ given. given ≡ self.now) }
    {
        let roles = SmallVec::from_slice(alloc, self.roles.as_slice())?;
        Ok(Given { roles })
    }
}
