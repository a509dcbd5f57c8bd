//! A host put together for cores and applications that share its flows.
#![tactic(auto)]

mod applications;
mod assembling;
mod cores;

pub use applications::add_app;
pub use assembling::{Assembled, assemble};
