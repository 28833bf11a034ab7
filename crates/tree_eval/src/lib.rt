//! The meaning of a query over a whole document, from the document's tree.
#![tactic(auto)]

mod answer;
mod conditions;
mod scope;

pub use answer::answer_whole;
