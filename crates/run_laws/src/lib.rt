//! The rules of runs one by one: small laws of the definitions, and worked ticks, frames, captures and runs, each of
//! which no other reading of its rule meets.
#![tactic(auto)]

mod rules;
mod worked;

pub use rules::{
    accept_takes_the_first, calls_go_on_with_the_rest, connects_are_refused_by_their_cause,
    kills_concern_their_own_flows, replays_shut_when_nothing_is_pending,
};
pub use worked::{worked_frames, worked_hosts, worked_records, worked_rest, worked_words};
