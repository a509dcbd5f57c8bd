//! Whether a flow's history is legal, told entry by entry by the engines that make such histories.
#![tactic(auto)]

mod judge;
mod making;
mod replies;
mod trial;

pub use judge::FlowJudge;
