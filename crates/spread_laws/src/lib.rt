//! Laws on where the roles of whole subtrees are kept: at the tops alone, from where what lies below has them. Each is
//! the contract of a function that does nothing: who calls it knows the law.
#![tactic(auto)]

mod keeping;

pub use keeping::{
    alone_takes, kept_are_live, kept_by_act, kept_by_feed, kept_by_write, kept_newly, kept_tells,
    live_by_kept, live_by_tops, new_tops, tables_built, tables_tell, tops_by_act, tops_by_rows,
};
