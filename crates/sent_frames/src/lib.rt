//! What the hosts of a scenario send each other: the frames of a tick, from the histories of flows and from the logs of
//! hosts, each with its number.
#![tactic(auto)]

mod counts;
mod flows;
mod frames;
mod strays;

pub use counts::SentCounts;
pub use frames::{Origin, Sender};
