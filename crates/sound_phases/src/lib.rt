//! That a host of shared flows is sound still after a phase in which its cores and applications worked side by side.
#![tactic(auto)]

mod laws;

pub use laws::{phases_keep_it, phases_keep_the_count};
