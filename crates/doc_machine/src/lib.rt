//! The machine that reads documents, character by character, with the limits of a step.
#![tactic(auto)]

mod bytes;
mod end_tag;
mod judging;
mod markup;
mod mode;
mod referring;
mod scan;
mod step;
mod stop;
mod tag;
mod text;

pub use end_tag::close_element;
pub use judging::judge;
pub use mode::{Brackets, Mode, Quote};
pub use referring::{Letters, Referring};
pub use scan::Scan;
pub use stop::{Refusal, Stop};
pub use tag::{behind_tag, empty_element, end_value, open_element};
