//! What holds of every tick of every run of a scenario, and of the log that a run leaves: laws of all orders.
#![tactic(auto)]

mod app_laws;
mod call_laws;
mod count_laws;
mod laws;

pub use app_laws::{
    applications_use_their_own_sockets, connects_have_ports_in_order, kills_end_applications,
    names_stand_for_own_sockets,
};
pub use call_laws::{rates_are_controlled, scripts_go_step_by_step};
pub use count_laws::{
    applications_make_one_call_a_tick, openings_get_the_lowest_slot, sends_take_the_next_bytes,
};
pub use laws::{
    flows_are_opened_rightly, frames_have_one_place, nothing_may_go, open_flows_have_one_tick,
    runs_end_at_rest, slots_are_kept, ticks_only_add,
};
