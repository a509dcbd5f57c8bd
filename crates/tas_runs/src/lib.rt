//! Whole runs: what a capture asks of a host, which runs of it are right, the run in serial order, and the texts that
//! show a run.
#![tactic(auto)]

mod laws;
mod run_laws;
mod worked;

pub use laws::{
    batches_are_longest, captures_show_all, flows_are_opened_rightly, flows_are_sound,
    flows_have_sent_all, frames_have_one_place, only_captures_are_replayed, records_are_counted,
    replays_ask_by_moves, scripts_are_asked_in_order, serial_order_has_one_core,
    serial_order_is_right,
};
pub use run_laws::batches_take_up_to_64;
pub use worked::{worked_orders, worked_records, worked_replays, worked_scales};
