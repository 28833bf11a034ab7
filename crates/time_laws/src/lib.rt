//! Laws of a plan's run by the times at which things happen in it, where a time is a number of tokens. Each is the contract
//! of a function that does nothing: who calls it knows the law.
#![tactic(auto)]

mod checking;
mod leaving;
mod times;
mod tracing;

pub use checking::{line_ends_law, one_answer};
pub use leaving::{held_by_times, live_by_times};
pub use times::{clock_of_tokens, run_by_times, times_rise};
pub use tracing::{trace_before_tokens, trace_by_times};
