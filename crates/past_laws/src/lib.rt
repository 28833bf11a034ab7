//! Laws on what a buffer has behind it: pasts, what held nodes tell of statements, and how rows change. Each is
//! the contract of a function that does nothing: who calls it knows the law.
#![tactic(auto)]

mod pasts;

pub use pasts::{
    ahead_before, ahead_signed, ahead_takes, bases_above, core_state_past, first_behind,
    held_above, held_local, kept_by_rows, live_by_act, live_by_bases, live_by_feed, loses_by_act,
    new_node, new_roles, new_unsigned, open_behind, open_nodes_are, own_tells, past_acts,
    past_feeds, past_opens, reach_held, roles_by_act, row_tells, rows_by_act, rows_by_feed,
    signed_by_act, waiting_law,
};
