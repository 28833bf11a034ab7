//! The truth of conditions over the rows of a buffer, and what variables are bound to.
#![tactic(auto)]

mod conds;
mod env;
mod pairs;
mod plain;
mod sets;
mod truth;
mod values;
mod watermark;

pub use conds::{Conds, Leaves, truth_of};
pub use env::{Env, place_of};
pub use gcx_model::Truth;
pub use pairs::closed_matches;
pub use plain::{Plain, compare_truth};
pub use sets::Member;
pub use truth::{negate, settle};
pub use values::{flipped, satisfies, value};
pub use watermark::Watermark;
