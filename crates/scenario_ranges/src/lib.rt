//! The ranges that the grammar of scenarios keeps.
#![tactic(auto)]

mod laws;

pub use laws::what_is_read_is_in_range;
