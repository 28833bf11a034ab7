//! Which roles a new node is given, from the states and frames of the open nodes.
#![tactic(auto)]

mod found;
mod frames;
mod matcher;
mod none;
mod open_frames;
mod opening;
mod roles;
mod signs;
mod upward;

pub use matcher::Matcher;
