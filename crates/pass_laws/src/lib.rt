//! Laws of a loop that passes the matches at which its body does nothing. Each is the contract of a function that does
//! nothing: who calls it knows the law.
#![tactic(auto)]

mod idle;
mod scopes;
mod turns;
mod value_lists;

pub use idle::{closed_are_settled, guarded_are_quiet};
pub use scopes::{other_held, turn_free, turn_held, turn_uses};
pub use turns::{last_rounds_pass, rounds_pass};
pub use value_lists::{lists_stay, lists_tell};
