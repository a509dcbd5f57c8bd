//! Whether a report tells of what the endpoints of its scenario may do.
#![tactic(auto)]

mod auditing;
mod auditor;
mod counts;
mod halves;
mod hosts;
mod laws;
mod lines;
mod watch;

pub use auditing::{AuditFault, Verdict, audit};
pub use laws::{a_text_says_one_thing, what_is_of_its_form_is_not_refused};
