//! How fast a flow may send: a bucket of tokens that fills with time, and the control of the window that sizes it.
#![tactic(auto)]

mod bucket;
mod control;

pub use bucket::Bucket;
pub use control::{Counters, interval};
