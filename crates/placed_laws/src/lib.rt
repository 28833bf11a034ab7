//! Laws on runs over a tree that grows, and on the plans that are placed for a core: balance, what points need, what
//! is written. Each is the contract of a function that does nothing: who calls it knows the law.
#![tactic(auto)]

mod balance;
mod binding;
mod given;
mod loop_rules;
mod needs;
mod normal;
mod plans;
mod runs;

pub use balance::{
    balance_law, empty_at_end, gone_stays, held_by_act, held_by_feed, offs_at_matches, once_law,
    taken_stays,
};
pub use binding::copy_bound_law;
pub use given::given_stays;
pub use loop_rules::{fsa_by_loop, path_by_loop, straight_by_loop, variables_of_loops};
pub use needs::{
    bound_law, copy_held, loop_held, need_law, truth_held, turn_law, turns_held, unsigned_law,
};
pub use normal::{known_is_front, normal_is_good, normal_law};
pub use plans::{
    one_statement, paths_by_rows, placed_once, plan_bytes, plan_writes, signed_by_role,
};
pub use runs::{closed_law, demand_is_reached, point_law, prefix_law, resume_law};
