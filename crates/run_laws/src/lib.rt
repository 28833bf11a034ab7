//! Laws on the demand run, its trace and its peak, on turns of the two actors, and on what an evaluator and an engine
//! need of runs. Each is the contract of a function that does nothing: who calls it knows the law.
#![tactic(auto)]

mod bindings;
mod feeding;
mod going;
mod peaks;
mod sums;
mod trace;
mod turning;

pub use bindings::{loop_variable_free, plan_acts, round_variable_free};
pub use feeding::{matches_grow, nodes_grow, open_chain, truth_stays};
pub use going::{known_goes_on, peak_goes_on, trace_goes_on};
pub use peaks::{held_counts, peak_step, peak_within};
pub use sums::{sums_by_act, sums_by_feed, taken_is_given};
pub use trace::{
    events_are_reached, one_demand_run, one_telling, peak_is_greatest, trace_by_events,
};
pub use turning::{one_turn_more, turns_reach, turns_reach_all};
