//! What applications ask of a host, whatever host it is: traits, and the host of a serial run.
#![tactic(auto)]

mod asked;
mod kill;
mod local;

pub use asked::{AskedHost, ConnectingHost};
