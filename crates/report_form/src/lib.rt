//! The order of the lines in a report: which line may follow which, and at which one a text is no report any more.
#![tactic(auto)]

mod laws;
mod place;

pub use laws::{beginnings_are_led, reports_are_led_to_the_end};
pub use place::Place;
