//! The runs of scenarios: hosts with their applications and a lossy link between them, which logs are those of a
//! run, and the run in serial order.
#![tactic(auto)]

mod laws;
mod worked;

pub use laws::{
    flows_are_sound, scenarios_ask_by_moves, serial_order_has_one_core, serial_order_is_right,
};
pub use worked::worked_runs;
