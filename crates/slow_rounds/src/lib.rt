//! What the slow path does alone on a host of shared flows is what a run makes of that host.
#![tactic(auto)]

mod left;
mod moving;
mod sending;
mod turns;

pub use left::left_frames_are_rest_phases;
pub use moving::{
    holders_are_moves, opened_flows_are_moves, ready_flows_are_first, reaped_flows_are_aborted,
    reaped_flows_are_given_up,
};
pub use sending::{
    emissions_alone_are_emit_phases, emissions_alone_keep_it, kicks_alone_keep_it,
    rests_sent_alone_are_emit_phases,
};
pub use turns::{
    collected_lines_are_refusals, first_turns_are_slow_phases, later_turns_are_rest_phases,
};
