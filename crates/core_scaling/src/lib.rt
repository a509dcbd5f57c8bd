//! How many of a host's cores take frames, by the load: TAS adds a core where frames come faster than those that are
//! live take them, and removes one where fewer would do.
#![tactic(auto)]

mod scaler;
#[cfg(test)]
mod tests;

pub use scaler::{Change, Scaler};
