//! Conditions with an index for equalities of two paths: another way to find their truth.
#![tactic(auto)]

mod comparisons;
mod equality;
mod indexed;
mod values;

pub use equality::{Equality, Listed, Side};
pub use indexed::Indexed;
pub use values::{Probes, Values};
