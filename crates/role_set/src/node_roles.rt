//! The roles of a node, held and signed, as one value.
ghost use Rattle.std.specs.Prelude.{◌≡◌, ◌<◌, ◌-◌, ◌^◌, ◌↔◌, OnOk, OnErr, IfOk, IsOk, IsTrue, true, min, ℕ};
ghost use Rattle.std.specs.FinSet as set;

use crate::RoleSet;
use crate::high_roles::{
    HighRoles, count_high, drop_high, give_high, has_high, held_high, holds_none, is_signed_high,
    meets_high, sign_high, take_high,
};
use crate::word::{WORD_BITS, has_bit, meet, with_bit, without_bit};
use gcx_base::{Memory, Role};
use std::alloc::Global;
use std::boxed::Box;
use std::marker::Model;

/// The roles that a node holds, and the signed ones, whose statements were carried out at it, seen as the finite sets
/// of their numbers.
///
/// The roles below 64 are bits of a word for each of the two sets, and never take memory. The greater ones lie in a box, which
/// is made for the first of them, held or signed, and given back with the last.
pub struct NodeRoles {
    held: u64,
    signed: u64,
    high: Option<Box<HighRoles>>,
    alloc: Global,
}

// In line, since few nodes have roles from 64 on: so to drop one without them needs no call.
impl Drop for NodeRoles {
    #[inline(always)]
    fn drop(self) {
        let NodeRoles {
            held: _,
            signed: _,
            high,
            alloc: _,
        } = self;
        match high {
            None => {}
            Some(high) => drop_high(high),
        }
    }
}

impl Model for NodeRoles {
    ghost use Rattle.role_set.specs.NodeRoles.{NodeSets, sets_code};

    ghost Value = { NodeSets };

    ghost coded = { sets_code };

    ghost use Rattle.role_set.specs.Pairs.{sets_of, IsHigh};

    ghost view = { λ s. sets_of s.held s.signed s.high };

    ghost invariant = { λ s. IsHigh s.high };
}

impl NodeRoles {
    /// No role, held or signed. Takes no memory.
    #[inline(always)]
    pub fn new(alloc: Global) -> NodeRoles
        ensures { result ≡ record { held = set.empty; signed = set.empty } }
    {
        NodeRoles {
            held: 0,
            signed: 0,
            high: None,
            alloc,
        }
    }

    /// These roles as held ones, and none signed. Takes no memory where all of them are below 64.
    #[inline(always)]
    pub fn of(alloc: Global, roles: &RoleSet) -> Result<NodeRoles, Memory>
        ensures ok { IfOk result (λ made. made ≡ record { held = roles.now; signed = set.empty }) }
        ensures low { ((k : ℕ) → set.contains roles.now k ≡ true → k < 64) → IsOk result }
    {
        let high = held_high(alloc, &roles.high)?;
        Ok(NodeRoles {
            held: roles.low,
            signed: 0,
            high,
            alloc,
        })
    }

    /// Whether the role is held. Takes no memory.
    #[inline(always)]
    pub fn has(&self, role: Role) -> bool
        ensures { result ≡ set.contains self.now.held role.0 }
    {
        if role.0 < WORD_BITS {
            has_bit(self.held, role.0)
        } else {
            has_high(&self.high, role.0)
        }
    }

    /// Whether the role is signed. Takes no memory.
    #[inline(always)]
    pub fn is_signed(&self, role: Role) -> bool
        ensures { result ≡ set.contains self.now.signed role.0 }
    {
        if role.0 < WORD_BITS {
            has_bit(self.signed, role.0)
        } else {
            is_signed_high(&self.high, role.0)
        }
    }

    /// Whether no role is held; signed ones don't count. Takes no memory.
    #[inline(always)]
    pub fn is_empty(&self) -> bool
        ensures { IsTrue result ↔ self.now.held ≡ set.empty }
    {
        self.held == 0 && holds_none(&self.high)
    }

    /// Whether one of these roles is held. Takes no memory.
    #[inline(always)]
    pub fn meets(&self, roles: &RoleSet) -> bool
        ensures { (result ≡ true) ↔ ((k : ℕ) × (set.contains self.now.held k ≡ true) × (set.contains roles.now k ≡ true)) }
    {
        if meet(self.held, roles.low) {
            return true;
        }
        meets_high(&self.high, &roles.high)
    }

    /// How many roles are held, `u64::MAX` where that is less. Takes no memory.
    pub fn count(&self) -> u64
        ensures { result ≡ min (set.len self.now.held) (2 ^ 64 - 1) }
    {
        u64::from(self.held.count_ones()).saturating_add(count_high(&self.high))
    }

    /// Makes the role a held one. One that is held isn't refused, nor is any below 64: neither takes memory. After `Memory`
    /// both sets are unchanged.
    #[inline(always)]
    pub fn give(&mut self, role: Role) -> Result<(), Memory>
        ensures ok { OnOk result (self.new ≡ record self.old { held = set.insert self.old.held role.0 }) }
        ensures err { OnErr result (self.new ≡ self.old) }
        ensures has { set.contains self.old.held role.0 ≡ true → IsOk result }
        ensures low { role.0 < 64 → IsOk result }
    {
        if role.0 < WORD_BITS {
            self.held = with_bit(self.held, role.0);
            return Ok(());
        }
        if has_high(&self.high, role.0) {
            return Ok(());
        }
        give_high(&mut self.high, self.alloc, role.0)
    }

    /// Makes the role a signed one. One that is signed isn't refused, nor is any below 64: neither takes memory. After
    /// `Memory` both sets are unchanged.
    #[inline(always)]
    pub fn sign(&mut self, role: Role) -> Result<(), Memory>
        ensures ok { OnOk result (self.new ≡ record self.old { signed = set.insert self.old.signed role.0 }) }
        ensures err { OnErr result (self.new ≡ self.old) }
        ensures has { set.contains self.old.signed role.0 ≡ true → IsOk result }
        ensures low { role.0 < 64 → IsOk result }
    {
        if role.0 < WORD_BITS {
            self.signed = with_bit(self.signed, role.0);
            return Ok(());
        }
        if is_signed_high(&self.high, role.0) {
            return Ok(());
        }
        sign_high(&mut self.high, self.alloc, role.0)
    }

    /// Takes the role, which is held, out of the held ones. Takes no memory.
    #[inline(always)]
    pub fn take(&mut self, role: Role)
        requires { set.contains self.old.held role.0 ≡ true }
        ensures { self.new ≡ record self.old { held = set.remove self.old.held role.0 } }
    {
        if role.0 < WORD_BITS {
            self.held = without_bit(self.held, role.0);
        } else {
            take_high(&mut self.high, role.0);
        }
    }
}
