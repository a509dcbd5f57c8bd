//! One host in a run: how its ticks go under any scripts of its applications, which orders of a tick are right, and the
//! laws of these.
#![tactic(auto)]

mod kept_seg;
mod laws;
mod log;
mod opening;
mod run_laws;
mod worked;

pub use kept_seg::KeptSeg;
pub use log::{LogEvent, LogLine};
pub use opening::Start;
pub use worked::worked_ticks;
