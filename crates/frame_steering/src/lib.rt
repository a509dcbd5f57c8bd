//! Which core each frame of a tick goes to, while groups of flows move.
#![tactic(auto)]

mod handing;
mod laws;

pub use handing::{GroupMove, hand_out};
pub use laws::each_frame_goes_to_one_core;
