//! Whether a relation holds of some pair of values, where each value is looked at once.
#![tactic(auto)]

mod compared;
mod ends;
mod extent;
mod hand;
mod shared;

pub use compared::Compared;
pub use hand::Hand;
