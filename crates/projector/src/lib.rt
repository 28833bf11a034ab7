//! Tokens into a buffer: each new node with the roles that it is given.
#![tactic(auto)]

mod late;
mod passed;
mod projector;
mod signing;

pub use projector::{Fed, Projector, Tally};
