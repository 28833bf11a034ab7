//! The tokens of a query, with the bytes where each stands.
#![tactic(auto)]

mod gap;
mod lexeme;
mod lexer;
mod name;
mod number;
mod sign;
mod string;
mod token;

pub use lexer::lex;
pub use sign::Sign;
pub use token::{Tok, TokKind, Tokens};
