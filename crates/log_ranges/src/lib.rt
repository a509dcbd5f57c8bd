//! The ranges of a log's numbers: what is held of a log has each number in the range of its field.
#![tactic(auto)]

mod entries;
mod lines;
mod segments;

pub use entries::{ends_fit, stretch_fits};
pub use lines::lines_fit;
