// The caller's tally, and the tests before start, step and run, in order. They write nothing.
#![tactic(auto)]

mod refusal;
mod tally;

pub use refusal::{Cause, run_check, start_check, step_check};
pub use tally::{ALL_LANES, Tally, has_room, is_checked, is_rejected};
