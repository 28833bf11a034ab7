//! Parts of a document that are read as a whole: tags, attributes, values, texts and references that are plain and within all limits.
#![tactic(auto)]

mod front;
mod lanes;
mod name;
mod reference;
mod span;
mod whole;
mod whole_tag;

pub use front::first_char;
pub use whole::read_front;
