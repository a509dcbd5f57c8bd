//! The run of a scenario in serial order: its hosts, their applications, and the link between them.
#![tactic(auto)]

mod arriving;
mod collecting;
mod playing;
mod resting;
mod traffic;
mod world;

pub use traffic::Traffic;
pub use world::{WorldEnd, play_scenario};
