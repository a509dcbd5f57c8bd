//! The link between the hosts of a scenario: what its lines do to frames, and which frames are due in a tick.
#![tactic(auto)]

mod due_frames;
mod frames;
mod laws;
mod script;

pub use due_frames::due;
pub use frames::{DueFrame, DueList, Sent, SentList};
pub use laws::due_goes_by_ticks;
pub use script::{DropEach, LinkAct, LinkScript, Target};
