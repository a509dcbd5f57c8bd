//! The reports of runs and the auditor: what a run's report says, and that an auditor judges it legal.
#![tactic(auto)]

mod laws;
mod worked;

pub use laws::{
    lines_are_cut, lines_are_right, lines_can_be_shown, reads_can_be_counted,
    reports_of_runs_are_legal, reports_say_their_lines, runs_tell_their_ends,
    scenarios_end_before_the_mark,
};
pub use worked::{worked_audits, worked_cores};
