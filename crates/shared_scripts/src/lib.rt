//! The scripts of a scenario's applications on a host of shared flows, tick by tick: what they try beside its cores,
//! how they go on by the answers, and what they ask alone.
#![tactic(auto)]

mod begin;
mod ending;
mod going;
mod hearing;
mod laws;
mod moving;
mod scripts;
mod turns;

pub use ending::end_tick;
pub use laws::{scripts_begin_playable, ticks_are_made};
pub use scripts::HostScripts;
