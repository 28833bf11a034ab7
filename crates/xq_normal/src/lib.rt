//! From a query to its core (ICDE 2007: loops over single steps; the move of each `If` inside the loops
//! of its branches is this project's).
#![tactic(auto)]

mod bodies;
mod conditions;
mod loops;
mod measure;
mod moves;
mod normal;
mod rows;
mod scope;
mod shape;
mod text;

pub use normal::normalise;
pub use text::{put_cond, put_step, put_steps};
