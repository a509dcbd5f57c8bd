//! Threads that live for a whole run. In a phase each is handed some jobs that stand side by side in a list, and works
//! on them one after the other, beside the other threads and the caller.
#![tactic(auto)]

mod batch;
mod crew;
mod desk;
mod handover;
mod hiring;
mod job;
mod post;

pub use batch::work_each;
pub use crew::Crew;
pub use desk::BEFORE_JOB;
pub use hiring::{Run, with_crew};
pub use job::{Job, Weighed};
