//! The lines of a trace of the buffer: their text, and the line of a text.
#![tactic(auto)]

mod line;
mod put;
mod read;

pub use line::{Line, LineKind};
pub use put::put_line;
pub use read::read_line;
