//! A host whose flows are shared, seen as a host in the middle of a run: what orders of deeds in the table leave of it,
//! and what is done alone.
#![tactic(auto)]

mod alone;
mod laws;
mod words;

pub use alone::calls_alone_are_moves;
pub use laws::{
    deeds_keep_the_index, open_flows_are_found, orders_are_of_all, orders_are_of_cores,
    ticks_of_phases_are_shared, words_are_done, words_leave,
};
pub use words::{orders_are_merged, turns_leave_alike, words_are_gathered};
