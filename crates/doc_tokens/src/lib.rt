//! The tokens of a document that wait, lent as parts of one list of bytes, and what they are made of: the text at hand, and the names
//! of open elements and of attributes.
#![tactic(auto)]

mod attr_names;
mod bytes;
mod lent;
mod open_names;
mod token;
mod tokens;

pub use attr_names::AttrNames;
pub use lent::Lent;
pub use open_names::OpenNames;
pub use token::Token;
pub use tokens::Tokens;
