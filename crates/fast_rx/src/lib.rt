//! What a received segment does to a flow that stands, and the common case of it (RFC 9293, section 3.10.7.4).
#![tactic(auto)]

mod acking;
mod fast;
mod hearing;
mod keeping;
mod receiving;

pub use fast::{FastAnswer, FastRx, Why, fast_rx};
pub use receiving::receive;
