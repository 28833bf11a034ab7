//! Trees of rows under places, whose calls do the same work however many rows or siblings there are.
#![tactic(auto)]

mod cursor;
mod slab_nodes;
mod store;

pub use cursor::At;
pub use slab_nodes::SlabNodes;
pub use store::{NodeStore, Place, Refused};
