//! The picture of a connection, as a report of a run or a replay tells of it.
#![tactic(auto)]

mod choice;
mod ends;
mod flows;
mod hosts;
mod known;
mod laws;
mod lines;
mod listing;
mod pictures;
mod rows;
mod said;
mod stage;

pub use choice::Wanted;
pub use laws::a_report_has_no_fault;
pub use pictures::{PictureFault, picture};
