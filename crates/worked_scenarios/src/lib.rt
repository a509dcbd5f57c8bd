//! Worked runs of scenarios: their reports, written by another program, are those of the definitions.
#![tactic(auto)]

mod worked;

pub use worked::{worked_ends, worked_forms, worked_links, worked_scaling, worked_talks};
