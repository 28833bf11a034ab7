//! Several plans over one reading of a document.
#![tactic(auto)]

mod many;
mod running;

pub use many::Many;
pub use running::{ManyReport, run_many};
