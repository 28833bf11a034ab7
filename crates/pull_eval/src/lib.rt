//! The evaluator of a plan over a buffer: one action a call.
#![tactic(auto)]

mod block;
mod copies;
mod guard;
mod leaps;
mod loops;
mod machine;
mod position;
mod turns;

pub use machine::{Acted, Machine};
