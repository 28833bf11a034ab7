//! Rows in raw blocks.
#![tactic(auto)]

mod arena;
mod cells;
mod edit;
mod heap;
mod maybe_link;
mod node;
mod raw;
mod rows;
mod slot;

pub use raw::RawNodes;
