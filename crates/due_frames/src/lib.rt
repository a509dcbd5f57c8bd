//! Which frames come to a host in a tick: each once, at most; and which flows add none. Laws for whoever plays a run.
#![tactic(auto)]

mod laws;

pub use laws::{
    due_frames_are_distinct, flows_stay_few, silent_flows_add_no_frames, worlds_stay_few,
};
