//! The host of a scenario, with the applications that run on it: in a tick each of them makes the call of its step.
#![tactic(auto)]

mod filling;
mod host;
mod kill;
mod moves;
mod resting;
mod script;
mod start;
mod starts;
mod steps;
mod streams;
mod trying;

pub use filling::FillBytes;
pub use host::ScenarioHost;
pub use moves::moves_at;
pub use script::AppScript;
pub use start::scripts_on;
pub use starts::HostStarts;
