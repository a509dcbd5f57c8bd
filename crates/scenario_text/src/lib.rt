//! The text of scenarios: which texts are scenarios, the text of a scenario, and made scenarios.
#![tactic(auto)]

mod bulk;
mod draft;
mod fields;
mod hosts;
mod line;
mod lists;
mod names;
mod options;
mod printing;
mod reading;
mod roles;
mod scenario;
mod statement;
mod taking;
mod words;

pub use bulk::bulk_scenario;
pub use lists::Lines;
pub use printing::print_scenario;
pub use reading::{ScenarioFault, read_scenario};
pub use scenario::{AppLine, HostLine, KillLine, MoveLine, Scenario, Step};
