//! The run of a scenario on hosts whose cores and applications share their flows, on the threads of one crew that
//! lives for the run.
#![tactic(auto)]

mod arriving;
mod closing;
mod collecting;
mod ending;
mod laws;
mod resting;
mod run;
mod starting;
mod stepping;
mod ticks;
mod world;

pub use run::play_scenario_on_cores;
