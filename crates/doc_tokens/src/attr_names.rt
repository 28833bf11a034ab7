ghost use Rattle.std.specs.Prelude.{◌≡◌, [], ◌∷◌, not, OnOk};
ghost use Rattle.gcx_model.specs.Attributes.{is_fresh};
ghost use Rattle.doc_tokens.specs.AttrNames.{IsLookedUp};

use crate::open_names::OpenNames;
use gcx_base::Memory;
use std::alloc::Global;
use std::collections::BTreeSet;
use std::marker::Model;

/// How many names are looked at one after another.
const FEW: usize = 16;

/// The names of a tag's attributes, seen as their list from the last one on.
#[derive(Drop)]
pub struct AttrNames {
    alloc: Global,
    /// The first ones.
    few: OpenNames,
    /// Those behind them, in their order.
    late: OpenNames,
    /// Those of `late`, to be looked up.
    set: BTreeSet<Vec<u8>>,
}

impl Model for AttrNames {
    ghost use Rattle.std.specs.Prelude.{List, ℕ, ◌++◌};
    ghost use Rattle.doc_tokens.specs.AttrNames.{IsLookedUp};

    ghost Value = { List (List ℕ) };

    ghost view = { λ n. n.late ++ n.few };

    ghost invariant = { λ n. IsLookedUp n.late n.set };
}

/// Adds a name to both.
fn add_late(
    alloc: Global,
    late: &mut OpenNames,
    set: &mut BTreeSet<Vec<u8>>,
    name: &[u8],
) -> Result<(), Memory>
    requires { IsLookedUp late.old set.old }
    ensures late { OnOk result (late.new ≡ name.now ∷ late.old) }
    ensures set { OnOk result (IsLookedUp late.new set.new) }
{
    let key = name.to_vec(alloc)?;
    set.insert(key)?;
    late.push(name)?;
    Ok(())
}

impl AttrNames {
    /// No names.
    pub fn new(alloc: Global) -> AttrNames
        ensures { result ≡ [] }
    {
        AttrNames {
            alloc,
            few: OpenNames::new(alloc),
            late: OpenNames::new(alloc),
            set: BTreeSet::new(alloc),
        }
    }

    /// Adds a name.
    pub fn push(&mut self, name: &[u8]) -> Result<(), Memory>
        ensures { OnOk result (self.new ≡ name.now ∷ self.old) }
    {
        if self.few.len() < FEW && !self.late.has_open() {
            return self.few.push(name);
        }
        self.push_late(name)
    }

    /// Adds a name behind the first ones.
    fn push_late(&mut self, name: &[u8]) -> Result<(), Memory>
        ensures { OnOk result (self.new ≡ name.now ∷ self.old) }
    {
        let added = add_late(self.alloc, &mut self.late, &mut self.set, name);
        if added.is_err() {
            // Both have the same names again.
            self.late.clear();
            self.set.clear();
        }
        added
    }

    /// Whether a name is one of them.
    pub fn has(&self, name: &[u8]) -> bool
        ensures { result ≡ not (is_fresh name.now self.now) }
    {
        self.few.has(name) || (self.late.has_open() && self.set.contains(name))
    }

    /// Forgets all names, and keeps the room of the first.
    #[inline(always)]
    pub fn clear(&mut self)
        ensures { self.new ≡ [] }
    {
        self.few.clear();
        if self.late.has_open() {
            self.late.clear();
            self.set.clear();
        }
    }
}
