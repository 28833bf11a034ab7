//! The items of a core and of a plan. `Body` holds items that hold it again, so its clauses speak of plain trees.
ghost use Rattle.std.specs.Prelude.{◌≡◌, ◌++◌, ◌∷◌, [], map, IfOk, OnOk, OnErr};
ghost use Rattle.gcx_model.specs.ItemView.{item_tree, item_trees, off_tree};
ghost use Rattle.gcx_model.specs.Placed.{is_own};

use crate::cond::Cond;
use gcx_base::{Memory, Role, Step, Steps, Text, VarId};
use std::alloc::Global;

/// To which nodes a role is given.
#[derive(Clone, Copy, Debug, PartialEq, Eq)]
pub enum RoleKind {
    /// To each match of the variable's path.
    Own,
    /// To the first match of the tail at each match of the variable's path.
    First,
    /// To each match of the variable's path and then the tail, and to all nodes below it.
    Whole,
}

/// A signOff statement: from here on the role isn't wanted below the node of the base.
#[derive(Drop, Debug)]
pub struct Off {
    /// The variable at whose node the statement is carried out.
    pub base: VarId,
    /// The role of the base itself.
    pub own: Role,
    /// The role that is taken back.
    pub role: Role,
    /// The steps from the base to the role's variable.
    pub rel: Steps,
    /// The steps from the role's variable on.
    pub tail: Steps,
    pub kind: RoleKind,
}

impl Off {
    /// Whether the statement takes back its base's own role, and so reaches its base alone.
    pub fn is_own(&self) -> bool
        ensures { result ≡ is_own (off_tree self.now) }
    {
        match self.kind {
            RoleKind::Own => self.rel.items().is_empty(),
            RoleKind::First | RoleKind::Whole => false,
        }
    }

    /// A copy of the statement. `Memory`: there was no room for it.
    pub fn copy(&self, alloc: Global) -> Result<Off, Memory>
        ensures { IfOk result (λ off. off ≡ self.now) }
    {
        let rel = self.rel.copy(alloc)?;
        let tail = self.tail.copy(alloc)?;
        Ok(Off {
            base: self.base,
            own: self.own,
            role: self.role,
            rel,
            tail,
            kind: self.kind,
        })
    }
}

/// An item of a body.
#[derive(Drop, Debug)]
#[cycle(items)]
pub enum Item {
    /// The text is written.
    Write(Text),
    /// The node of the variable is written, with all below it.
    Copy(VarId),
    /// The body for each match of the step from the node of `from`, bound to `var`.
    For {
        var: VarId,
        from: VarId,
        step: Step,
        body: Body,
    },
    If {
        cond: Cond,
        then: Body,
        other: Body,
    },
    /// A signOff statement. Only plans have them.
    Off(Off),
}

impl Item {
    /// A copy of the item. `Memory`: there was no room for it.
    #[cycle(copy_items)]
    pub fn copy(&self, alloc: Global) -> Result<Item, Memory>
        ensures { IfOk result (λ item. item_tree item ≡ item_tree self.now) }
    {
        match self {
            Item::Write(text) => Ok(Item::Write(text.copy(alloc)?)),
            Item::Copy(var) => Ok(Item::Copy(*var)),
            Item::For {
                var,
                from,
                step,
                body,
            } => {
                let step = step.copy(alloc)?;
                let body = body.copy(alloc)?;
                Ok(Item::For {
                    var: *var,
                    from: *from,
                    step,
                    body,
                })
            }
            Item::If { cond, then, other } => {
                let cond = cond.copy(alloc)?;
                let then = then.copy(alloc)?;
                let other = other.copy(alloc)?;
                Ok(Item::If { cond, then, other })
            }
            Item::Off(off) => Ok(Item::Off(off.copy(alloc)?)),
        }
    }
}

/// A list of items.
#[derive(Drop, Debug)]
#[cycle(items)]
pub struct Body {
    pub members: Vec<Item>,
}

impl Body {
    /// The empty list.
    pub fn new(alloc: Global) -> Body
        ensures { item_trees result ≡ [] }
    {
        Body {
            members: Vec::new(alloc),
        }
    }

    /// Adds an item at the end. After `Memory` the list is unchanged.
    pub fn push(&mut self, item: Item) -> Result<(), Memory>
        ensures ok { OnOk result (item_trees self.new ≡ item_trees self.old ++ item_tree item ∷ []) }
        ensures err { OnErr result (item_trees self.new ≡ item_trees self.old) }
    {
        self.members.push(item)?;
        Ok(())
    }

    /// The items in order.
    pub fn items(&self) -> &[Item]
        ensures same { result.now ≡ self.now.members.items }
        ensures trees { map item_tree result.now ≡ item_trees self.now }
    {
        &self.members
    }

    /// A copy of the list. `Memory`: there was no room for it.
    #[cycle(copy_items)]
    pub fn copy(&self, alloc: Global) -> Result<Body, Memory>
        ensures { IfOk result (λ body. item_trees body ≡ item_trees self.now) }
    {
        let mut copied = Body::new(alloc);
        for item in self.items() {
            copied.push(item.copy(alloc)?)?;
        }
        Ok(copied)
    }
}
