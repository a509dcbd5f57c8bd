//! The bytes of a stream from a place on, in a ring of memory that is taken once.
#![tactic(auto)]

mod cells;
mod filling;
mod ring;

pub use filling::fill_with_zeros;
pub use ring::Ring;
