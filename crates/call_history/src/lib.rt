//! What only clauses read: the calls that an object has answered. It takes no space, and its calls do nothing at run time.
#![tactic(auto)]

mod history;
mod misses;
mod name;

pub use history::History;
pub use misses::Misses;
pub use name::HandleName;
