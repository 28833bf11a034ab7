//! The nodes of a document that are open or still have a role.
#![tactic(auto)]

mod ahead;
mod buffer;
mod edits;
mod loose;
mod matches;
mod opened;
mod passed;
mod recount;
mod row;
mod search;
mod spread;
mod statements;
mod sweep;
mod tops;
mod trail;
mod upward;

pub use ahead::Ahead;
pub use buffer::Buffer;
pub use loose::{
    ends_passed, last_is_innermost, one_row_more, passes_element, passes_text, row_there,
    rows_rise, settles_none, settles_one,
};
pub use row::Row;
