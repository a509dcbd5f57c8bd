//! The words of the command line: which are right, and what they ask for.
#![tactic(auto)]

mod audits;
mod canonical;
mod command;
mod forms;
mod reading;
mod requests;

pub use audits::asks_audit;
pub use reading::{WordsFault, names_cores, read_words};
pub use requests::{Input, Request};
