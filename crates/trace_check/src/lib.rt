//! Judges a trace against a plan and a document's tokens: it finds for everything that happens in a run the time at which it
//! happens, on the whole tree, and so the lines. It keeps the tree, the actions and the text.
#![tactic(auto)]

mod acts;
mod check;
mod checked;
mod conditions;
mod copies;
mod course;
mod given;
mod laws;
mod leaving;
mod memo;
mod reach;
mod running;
mod scope;
mod telling;
mod timed;
mod values;

pub use check::check_run;
pub use checked::Checked;
pub use laws::traces_are_accepted;
