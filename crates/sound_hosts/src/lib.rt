//! What holds of a host between ticks, whose flows stand in a table that cores and applications share, and what keeps
//! it.
#![tactic(auto)]

mod alone;
mod ending;
mod laws;
mod ports;
mod sockets;

pub use alone::{
    calls_lead_on, frames_alone_keep_it, frames_that_open_keep_it, one_flow_led_keeps_it,
    uses_alone_lead_one_flow,
};
pub use ending::{sweeps_alone_keep_the_slots, time_leads_on};
pub use laws::{new_hosts_are_sound, open_flows_are_led, phases_keep_the_lists};
pub use ports::next_ports_are_free;
pub use sockets::no_call_finds_its_slot_in_use;
