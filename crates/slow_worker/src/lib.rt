//! The worker of a host's slow path: frames that cores leave, on flows that cores and applications share.
#![tactic(auto)]

mod clock;
mod collecting;
mod emitting;
mod entering;
mod kicking;
mod known;
mod looking;
mod meeting;
mod opening;
mod queues;
mod served;
mod turning;
mod worker;

pub use clock::Clock;
pub use served::Served;
pub use worker::{SlowRemains, SlowWorker};
