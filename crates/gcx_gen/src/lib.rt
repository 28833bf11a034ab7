//! Documents that are made from a number.
#![tactic(auto)]

mod document;
mod item;
mod pieces;

pub use document::document_bytes;
pub use pieces::{WriteEnd, write_document};
