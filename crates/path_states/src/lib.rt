//! The states of the open nodes of a document under a plan's paths, each made once as far as it is remembered.
#![tactic(auto)]

mod active;
mod branches;
mod homes;
mod moves;
mod names;
mod outputs;
mod paths;
mod remembered;
mod rising;
mod state;
mod states;

pub use paths::{PathState, PathTree, Way};
pub use remembered::Bound;
pub use rising::{rise, rise_all};
pub use state::State;
pub use states::PathStates;
