//! The phase of a tick in which the cores and the applications of a host work side by side on flows that they share:
//! turns are lent, taken and collected, and what was done in them has one order.
#![tactic(auto)]

mod attempt;
mod hosts;
mod lane;
mod laws;
mod parts;
mod phase;
mod run;

pub use attempt::{Answered, Attempt};
pub use hosts::{HostPart, play_phases};
pub use lane::{AppLane, CoreLane, Lane};
pub use laws::{busy_attempts_do_nothing, deeds_are_words, deeds_leave_the_column};
pub use parts::played_parts_are_phases;
pub use phase::{collect_all, lanes_failed, lend_all, play_phase};
pub use run::with_lanes;
