//! The parser of queries.
#![tactic(auto)]

mod conditions;
mod cursor;
mod expressions;
mod marks;
mod paths;
mod query_text;
mod refusal;
mod route;
mod scope;

pub use query_text::parse;
