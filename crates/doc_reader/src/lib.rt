//! The reader of documents: bytes in pieces of any size in, tokens out.
#![tactic(auto)]

mod lent_reader;
mod machine;
mod piece;
mod reader;

pub use doc_tokens::{Lent, Token};
pub use lent_reader::LentReader;
pub use reader::Reader;
