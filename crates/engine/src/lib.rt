//! The engine: a reader and the part of a plan. A whole run from a source to a sink, and turns of the actors in any
//! order.
#![tactic(auto)]

mod any_part;
mod engine;
mod report;
mod running;
mod slices;
mod turns;

pub use engine::{Counts, Engine};
pub use report::{Ended, Report};
pub use running::{PIECE, ended_by, run_query};
pub use slices::{cut, is_left, lacking, refusal};
pub use turns::{Reached, Turn, interleave};
