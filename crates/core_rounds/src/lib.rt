//! A tick of a host with cores: what cores take and applications ask side by side, and what the slow path and the
//! applications do after it; and the laws that such ticks are right ones.
#![tactic(auto)]

mod laws;

pub use laws::{
    cores_ticks_are_by_their_cores, cores_ticks_are_right, shared_ticks_are_by_their_cores,
    shared_ticks_are_right, shares_are_done, ticks_without_cores_are_shared,
};
