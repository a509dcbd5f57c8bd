//! Whole runs: a capture replayed or a scenario run, tick by tick, and the report, the capture and the summary that
//! show a run.
#![tactic(auto)]

mod capture;
mod logs;
mod on_cores;
mod replaying;
mod report;
mod running;
mod summary;

pub use capture::write_capture;
pub use logs::{FlowList, HostRun, HostRuns, RunLog};
pub use replaying::{Mode, ReplayFault, replay, replay_serially};
pub use report::write_report;
pub use running::{run, run_serially};
pub use summary::write_summary;
