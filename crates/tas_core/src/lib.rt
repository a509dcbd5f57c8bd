//! What the workers of a host share: today the host's log.
#![tactic(auto)]

mod log;
mod stretch;

pub use host_rounds::{KeptSeg, LogEvent, LogLine};
pub use log::HostLog;
pub use stretch::{LogRun, LogStretch, RunKind};
