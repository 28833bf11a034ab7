//! How a run ended, and its numbers.
ghost use Rattle.std.specs.Prelude.{◌<◌, ◌^◌, length};

use gcx_model::{DocFault, Plan};

/// How a run ended. `Refused` never carries want of memory.
#[derive(Clone, Copy, Debug, PartialEq, Eq)]
pub enum Ended {
    Ok,
    Refused(DocFault),
    ReadFault,
    WriteFault,
    Memory,
}

/// What a run did: how many bytes the source gave, and the numbers of the engine behind it.
#[derive(Clone, Copy, Debug, PartialEq, Eq)]
pub struct Report {
    pub ended: Ended,
    pub taken_bytes: u64,
    pub nodes: u64,
    pub peak: u64,
    pub given: u128,
    pub taken: u128,
    pub held: u64,
}

/// A plan's roles lie in memory, so no sum of them over the nodes of a document comes to the end of its type.
pub(crate) fn few_roles(plan: &Plan)
    ensures { length plan.now.roles < 2 ^ 64 }
{
    prove!(plan.roles.items().len() <= usize::MAX);
}
