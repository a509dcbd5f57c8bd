//! The lines of a report, each read by itself: what it says, or that it is of no form.
#![tactic(auto)]

mod entries;
mod events;
mod fronts;
mod hex;
mod line;
mod lines;
mod origins;
mod segments;

pub use hex::HexText;
pub use line::{CallLine, EntryLine, EventLine, ReplyLine, ReportLine, SegLine};
pub use lines::read_line;
