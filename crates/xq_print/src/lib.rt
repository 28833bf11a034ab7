//! Prints a query as text.
#![tactic(auto)]

mod cond;
mod expr;
mod literal;
mod path;

pub use cond::{put_where, rel_text};
pub use expr::print;
pub use literal::{put_number, put_string};
pub use path::{put_name, put_test};
