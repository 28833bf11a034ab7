//! The roles of a node, as a set that holds a few of them in place.
#![tactic(auto)]

ghost use Rattle.std.specs.Prelude.{◌≡◌, ◌<◌, ◌↔◌, OnOk, OnErr, IsOk, IsTrue, true, ℕ};
ghost use Rattle.std.specs.Ordering.{nat_cmp};
ghost use Rattle.std.specs.FinSet as set;

mod high_roles;
mod node_roles;
mod numbers;
mod word;

use crate::numbers::{Numbers, add_number, has_none, has_number, remove_number};
use crate::word::{WORD_BITS, has_bit, with_bit, without_bit};
use gcx_base::{Memory, Role};
pub use node_roles::NodeRoles;
use std::alloc::Global;
use std::marker::Model;

/// A set of roles, seen as the finite set of their numbers.
///
/// The roles below 64 are bits of one word: to ask for one, to give or to take it costs a few instructions, and never
/// memory. A plan rarely has more. Of greater roles up to four lie in place too; more of them take memory for each, and not
/// for all roles below, as words of bits would.
#[derive(Drop)]
pub struct RoleSet {
    low: u64,
    high: Numbers,
}

impl Model for RoleSet {
    ghost use Rattle.std.specs.Ordering.{nat_cmp};
    ghost use Rattle.std.specs.FinSet as set;
    ghost use Rattle.std.specs.Coded.{coded_ℕ};
    ghost use Rattle.std.specs.Prelude.{◌≤◌};
    ghost use Rattle.role_set.specs.Words.{roles_of, HighOnce};

    ghost Value = { set.FinSet nat_cmp };

    ghost coded = { set.code coded_ℕ };

    ghost view = { λ s. roles_of s.low s.high.items };

    ghost invariant = { λ s. (4 ≤ s.high.capacity) × HighOnce s.high.items };
}

impl RoleSet {
    /// The empty set. Takes no memory.
    #[inline(always)]
    pub fn new(alloc: Global) -> RoleSet
        ensures { result ≡ set.empty }
    {
        RoleSet {
            low: 0,
            high: Numbers::new(alloc),
        }
    }

    /// Whether the set has the role. Takes no memory.
    #[inline(always)]
    pub fn has(&self, role: Role) -> bool
        ensures { result ≡ set.contains self.now role.0 }
    {
        if role.0 < WORD_BITS {
            has_bit(self.low, role.0)
        } else {
            has_number(&self.high, role.0)
        }
    }

    /// Whether the set has no role. Takes no memory.
    #[inline(always)]
    pub fn is_empty(&self) -> bool
        ensures { IsTrue result ↔ self.now ≡ set.empty }
    {
        self.low == 0 && has_none(&self.high)
    }

    /// Adds the role. A role that the set has isn't refused, nor is any below 64, nor the first from 64 on: none of
    /// these takes memory. After `Memory` the set is unchanged.
    #[inline(always)]
    pub fn give(&mut self, role: Role) -> Result<(), Memory>
        ensures ok { OnOk result (self.new ≡ set.insert self.old role.0) }
        ensures err { OnErr result (self.new ≡ self.old) }
        ensures has { set.contains self.old role.0 ≡ true → IsOk result }
        ensures low { role.0 < 64 → IsOk result }
        ensures first { ((k : ℕ) → set.contains self.old k ≡ true → k < 64) → IsOk result }
    {
        if role.0 < WORD_BITS {
            self.low = with_bit(self.low, role.0);
            return Ok(());
        }
        if has_number(&self.high, role.0) {
            return Ok(());
        }
        add_number(&mut self.high, role.0)
    }

    /// Takes the role, which the set has, out of it. Takes no memory.
    #[inline(always)]
    pub fn take(&mut self, role: Role)
        requires { set.contains self.old role.0 ≡ true }
        ensures { self.new ≡ set.remove self.old role.0 }
    {
        if role.0 < WORD_BITS {
            self.low = without_bit(self.low, role.0);
        } else {
            remove_number(&mut self.high, role.0);
        }
    }
}
