//! How values compare: as texts by their bytes, and as decimal numbers of any length, exactly.
#![tactic(auto)]

mod number;
mod rel;

pub use number::{NumText, compare_number};
pub use rel::{compare_text, holds};
