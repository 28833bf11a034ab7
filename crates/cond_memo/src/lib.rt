//! The truth of an `exists` or a comparison, with what is kept of the answers: at each question only what is new is looked at.
#![tactic(auto)]

mod mark;
mod marked;
mod pair;
mod reaching;
mod taken;
mod waiting;

pub use mark::last_of;
pub use marked::Marked;
pub use taken::Taken;
