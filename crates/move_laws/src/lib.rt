//! How a point goes on: one law for each small step of an evaluator, and what stays the same over fewer nodes and
//! more tokens. Each is the contract of a function that does nothing: who calls it knows the law.
#![tactic(auto)]

mod copying;
mod kept;
mod moves;
mod quiet;

pub use copying::{
    copy_begins, copy_ends, copy_frames_stand, copy_goes_on, copy_is_cut, copy_steps, copy_waits,
    fine_point_stays, fine_points, fine_resume, inside_held,
};
pub use kept::{
    closed_stays, copy_kept, first_kept, later_kept, matches_kept, point_stays, reached_grows,
    so_far_stays, taken_are_there, truth_kept,
};
pub use moves::{
    branch_move, branch_waits, empty_rest, first_round, last_round, loop_waits, next_round,
    no_round, off_move, opening_point, points_are_stacks, round_waits, run_is_done, write_move,
};
pub use quiet::quiet_token;
