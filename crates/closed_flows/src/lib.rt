//! Flows that are closed when a tick begins send nothing in it, in whatever order it goes: laws of every tick of a
//! host.
#![tactic(auto)]

mod laws;

pub use laws::{
    closed_flows_send_nothing, open_flows_are_indexed, silent_growth_sends_nothing,
    unindexed_flows_send_nothing,
};
