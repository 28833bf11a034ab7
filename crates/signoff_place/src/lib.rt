//! The plan of a core: its signOff statements, and how a plan is printed.
#![tactic(auto)]

mod compiler;
mod lines;
mod place;
mod statements;
mod text;

pub use compiler::compile;
pub use text::explain;
