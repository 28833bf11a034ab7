//! What the buffer keeps of a node.
ghost use Rattle.std.specs.Prelude.{◌≡◌, ◌≤◌, ◌↔◌, ◌⊎◌, not, true, false, IsTrue, OnOk, OnErr};
ghost use Rattle.std.specs.FinSet as set;
ghost use Rattle.std.specs.Ordering.{nat_cmp};
ghost use Rattle.buf_tree.specs.Rows.{is_bare, Meet, document_row, below_row, covered_by, shut_row, untaken, signed_for};
ghost use Rattle.buf_tree.specs.Spread.{capped64};

use gcx_base::{Kind, Memory, Role, Serial};
use role_set::{NodeRoles, RoleSet};
use std::marker::Model;
use std::snapshot::Snapshot;

/// A node of the buffer, seen as its number and that of its parent, how deep it lies, whether it is open, what it is, its
/// roles, and those whose statements were carried out at it.
#[derive(Drop)]
pub struct Row {
    serial: u64,
    /// What clauses see as the serial of its parent, of the document node 0. It takes no room: the store's link leads there.
    parent: Snapshot<u64>,
    level: u32,
    is_open: bool,
    /// Whether some row above keeps a spread role.
    covered: bool,
    kind: Kind,
    roles: NodeRoles,
}

impl Model for Row {
    ghost use Rattle.gcx_base.specs.contracts.kind.Kind as kinds;
    ghost use Rattle.buf_tree.specs.Row.{Row as RowView, row_code};

    ghost Value = { RowView };

    ghost coded = { row_code kinds.the_row.coded };

    ghost view = { λ r. record {
      serial = r.serial;
      parent = r.parent.value;
      level = r.level;
      is_open = r.is_open;
      kind = r.kind;
      roles = r.roles.held;
      signed = r.roles.signed;
      covered = r.covered;
    } };
}

impl Row {
    /// The row of the open document node with these roles.
    pub(crate) fn document(roles: NodeRoles) -> Row
        requires { roles.signed ≡ set.empty }
        ensures { result ≡ document_row roles.held }
    {
        Row {
            serial: 0,
            parent: Snapshot::of(&0),
            level: 0,
            is_open: true,
            covered: false,
            kind: Kind::Document,
            roles,
        }
    }

    /// The row of a new child of this one, with these roles. A text is closed. `covered` says whether this row, or one
    /// above it, keeps a spread role.
    #[inline(always)]
    pub(crate) fn new_child(&self, serial: u64, kind: Kind, roles: NodeRoles, covered: bool) -> Row
        requires level { self.now.level ≤ 1000 }
        requires signed { roles.signed ≡ set.empty }
        ensures { result ≡ covered_by covered (below_row self.now.serial self.now.level serial kind roles.held) }
    {
        Row {
            serial,
            parent: Snapshot::of(&self.serial),
            level: self.level + 1,
            is_open: !kind.is_text(),
            covered,
            kind,
            roles,
        }
    }

    /// The node's number in document order.
    #[inline(always)]
    pub fn serial(&self) -> Serial
        ensures { result.0 ≡ self.now.serial }
    {
        Serial(self.serial)
    }

    /// How deep the node lies. The document node lies at 0.
    #[inline(always)]
    pub(crate) fn level(&self) -> u32
        ensures { result ≡ self.now.level }
    {
        self.level
    }

    /// What the node is.
    #[inline(always)]
    pub fn kind(&self) -> &Kind
        ensures { result.now ≡ self.now.kind }
    {
        &self.kind
    }

    /// Whether the node is closed.
    #[inline(always)]
    pub fn is_closed(&self) -> bool
        ensures { result ≡ not self.now.is_open }
    {
        !self.is_open
    }

    /// Whether the node has the role.
    #[inline(always)]
    pub(crate) fn has(&self, role: Role) -> bool
        ensures { result ≡ set.contains self.now.roles role.0 }
    {
        self.roles.has(role)
    }

    /// Whether the node has no role, and none from above.
    #[inline(always)]
    pub(crate) fn has_none(&self) -> bool
        ensures { IsTrue result ↔ ((self.now.roles ≡ set.empty) × (self.now.covered ≡ false)) }
    {
        self.roles.is_empty() && !self.covered
    }

    /// How many roles are kept at the node, `u64::MAX` where that is less.
    pub(crate) fn entries(&self) -> u64
        ensures { result ≡ capped64 (set.len self.now.roles) }
    {
        self.roles.count()
    }

    /// Whether the row, or one above it, keeps one of the spread roles.
    #[inline(always)]
    pub(crate) fn covers(&self, spread: &RoleSet) -> bool
        ensures { (result ≡ true) ↔ ((self.now.covered ≡ true) ⊎ Meet self.now.roles spread.now) }
    {
        self.covered || self.roles.meets(spread)
    }

    /// Says whether some row above keeps a spread role.
    #[inline(always)]
    pub(crate) fn cover(&mut self, covered: bool)
        ensures { self.new ≡ covered_by covered self.old }
    {
        self.covered = covered;
    }

    /// Whether the node is signed for the role's statement.
    #[inline(always)]
    pub(crate) fn is_signed(&self, role: Role) -> bool
        ensures { result ≡ set.contains self.now.signed role.0 }
    {
        self.roles.is_signed(role)
    }

    /// Closes the node.
    #[inline(always)]
    pub(crate) fn shut(&mut self)
        ensures { self.new ≡ shut_row self.old }
    {
        self.is_open = false;
    }

    /// Takes a role, which the node has, back from it.
    #[inline(always)]
    pub(crate) fn untake(&mut self, role: Role)
        requires { set.contains self.old.roles role.0 ≡ true }
        ensures { self.new ≡ untaken role.0 self.old }
    {
        self.roles.take(role);
    }

    /// Signs the node for the role's statement. Want of memory leaves it as it was.
    #[inline(always)]
    pub(crate) fn sign(&mut self, role: Role) -> Result<(), Memory>
        ensures ok { OnOk result (self.new ≡ signed_for role.0 self.old) }
        ensures err { OnErr result (self.new ≡ self.old) }
    {
        self.roles.sign(role)?;
        Ok(())
    }
}

/// Whether a new node of this kind leaves at once, where it is said whether it has no role.
#[inline(always)]
pub(crate) fn is_bare(kind: &Kind, has_none: bool) -> bool
    ensures { (roles : set.FinSet nat_cmp) → IsTrue has_none ↔ roles ≡ set.empty → result ≡ is_bare kind.now roles }
{
    if !kind.is_text() {
        return false;
    }
    has_none
}
