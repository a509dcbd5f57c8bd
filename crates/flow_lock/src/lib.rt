//! The flows of a host, shared by cores and applications: claim words, and records that move.
#![tactic(auto)]

mod barrier;
mod closed;
mod pass;
mod plays;
mod slow;
mod table;
mod view;
mod word;

pub use closed::{CloseRefused, Closed};
pub use pass::{Full, Pass, Pin, PinRefused, Pinned, SlowPass};
pub use table::FlowTable;
pub use view::{Deed, Held, History, Mark, Sight, Span, Turn, View};
pub use word::Word;
