//! Characters of a document or a query: UTF-8 that comes in pieces, and references.
#![tactic(auto)]

mod chars;
mod cut;
mod reference;
mod scan;

pub use chars::{CharFault, Chars, Split};
pub use reference::{RefStep, Reference, references_agree};
