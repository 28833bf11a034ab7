//! The tree of a document that a source gives, or its tokens.
#![tactic(auto)]

mod reading;
mod tokens;

pub use reading::{DocumentEnd, read_tree};
pub use tokens::read_tokens;
