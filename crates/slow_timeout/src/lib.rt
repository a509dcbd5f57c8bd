//! The work that time brings: a flow's ticks and the control of its rate.
#![tactic(auto)]

mod control;
mod engine;
mod timer;

pub use engine::TimerWork;
pub use timer::early_ticks;
