//! The canonical text of a scenario reads as that scenario.
#![tactic(auto)]

mod laws;
mod printed;

pub use laws::{canonical_text_reads_back, canonical_text_tells_its_scenario};
pub use printed::print_canonical;
