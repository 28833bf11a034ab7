//! What a run has of one plan: the projector, which takes the tokens of a document, the evaluator, which takes the actions of the
//! plan, both over one buffer, what they wrote, and the lines of a trace where one is wanted.
#![tactic(auto)]

mod actors;
mod laws;
mod lent;
mod lines;
mod pace;
mod part;
mod tallies;
mod told;

pub use actors::{Actors, Tallied};
pub use laws::trace_never_ahead;
pub use lines::{Lines, NoLines, TraceLines};
pub use pace::{Pace, Work};
pub use part::Part;
