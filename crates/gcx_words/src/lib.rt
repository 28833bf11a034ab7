//! The command line: what a list of words asks for.
#![tactic(auto)]

mod command;
mod found;
mod pairs;
mod parsers;
mod reading;

pub use command::{Command, CommandName};
pub use pairs::{Pair, Pairs};
pub use reading::command_of;
