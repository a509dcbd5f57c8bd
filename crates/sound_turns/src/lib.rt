//! What the slow path does in its turns of a tick keeps a host of shared flows sound.
#![tactic(auto)]

mod time;
mod turns;

pub use time::time_keeps_it;
pub use turns::{collected_frames_keep_it, first_turns_keep_it, later_turns_keep_it};
