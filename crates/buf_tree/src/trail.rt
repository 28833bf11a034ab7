//! Room for the walks of statements.
ghost use Rattle.std.specs.Prelude.{◌≡◌, ◌+◌, ◌≤◌, true, OnOk, length, vec_capacity};

use gcx_base::{Memory, Step};
use gcx_model::Off;
use std::alloc::Global;

/// The flags of a walk: for the steps of a statement's tail, for those from the base, and for a tail once more. A
/// buffer keeps them from statement to statement, so that most statements take no memory for their walks.
#[derive(Drop)]
pub(crate) struct Trail {
    pub(crate) tails: Vec<bool>,
    pub(crate) rels: Vec<bool>,
    pub(crate) again: Vec<bool>,
}

impl Trail {
    /// No room yet. Takes no memory.
    pub(crate) fn new(alloc: Global) -> Trail {
        Trail {
            tails: Vec::new(alloc),
            rels: Vec::new(alloc),
            again: Vec::new(alloc),
        }
    }

    /// Room for the walks of this statement, where another base may keep its role: else it takes none.
    #[inline(always)]
    pub(crate) fn prepare(&mut self, off: &Off, others: bool) -> Result<(), Memory>
        ensures tails { OnOk result (others ≡ true → length off.now.tail + 1 ≤ vec_capacity self.new.tails) }
        ensures rels { OnOk result (others ≡ true → length off.now.rel + 1 ≤ vec_capacity self.new.rels) }
        ensures again { OnOk result (others ≡ true → length off.now.tail + 1 ≤ vec_capacity self.new.again) }
    {
        if !others {
            return Ok(());
        }
        make_room(&mut self.tails, off.tail.items())?;
        make_room(&mut self.again, off.tail.items())?;
        make_room(&mut self.rels, off.rel.items())
    }
}

/// Room for a walk with these steps.
pub(crate) fn make_room(flags: &mut Vec<bool>, steps: &[Step]) -> Result<(), Memory>
    ensures { OnOk result (length steps.now + 1 ≤ vec_capacity flags.new) }
{
    flags.clear();
    flags.reserve(steps.len() + 1)?;
    Ok(())
}
