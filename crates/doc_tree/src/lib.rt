//! The numbered tree of a document's tokens: its nodes, what steps reach on it, string values, and copies as text.
#![tactic(auto)]

mod copies;
mod row;
mod sets;
mod texts;
mod tree;

pub use row::Content;
pub use tree::Tree;
