//! The command line of `gcx`.
#![tactic(auto)]

mod checking;
mod command;
mod diagnosis;
mod document;
mod explain;
mod laws;
mod lines;
mod made;
mod many;
mod peak;
mod query;
mod real;
mod running;
mod selfrun;
mod status;
mod text;
mod whole;
mod writing;

pub use command::gcx_main;
pub use diagnosis::diagnose;
pub use laws::{checks_end_well, many_write_as_one, runs_are_accepted, selfrun_is_accepted};
pub use real::gcx_files;
pub use status::Status;
