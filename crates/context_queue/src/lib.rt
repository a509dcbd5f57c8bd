//! Notes from many senders to one receiver.
#![tactic(auto)]

mod delivery;
mod laws;
mod note;
mod queue;

pub use laws::taken_and_waiting_is_posted;
pub use note::Note;
pub use queue::{ContextQueue, Full, ReceiverPass, SenderPass};
