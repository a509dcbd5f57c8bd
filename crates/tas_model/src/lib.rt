//! The endpoint of a connection: its calls, its replies, and which histories of them are right.
#![tactic(auto)]

mod bytes;
mod endpoint_laws;
mod entry;
mod laws;
mod recorded;
mod scaling_laws;

pub use bytes::Bytes;
pub use endpoint_laws::{
    control_follows_losses, initial_window_by_size, no_reset_answers_a_reset,
    only_the_third_duplicate_goes_back, window_is_the_newest, worked_rules_are_legal,
};
pub use entry::{
    CAPTURE, Call, Caller, Entry, FlowId, FourTuple, FrameId, Head, HostParams, NO_FLOW, Phase,
    Reason, Reply, Seg,
};
pub use laws::{
    accepted_is_what_is_sent, acknowledges_what_is_in_order, bad_segments_change_nothing,
    bucket_bounds_data, data_in_order_is_received, endpoints_are_valid, one_call_more,
    one_entry_more, places_grow_slowly, read_is_a_prefix, received_is_a_prefix,
    what_is_said_is_heard, worked_histories_are_legal,
};
pub use recorded::Recorded;
pub use scaling_laws::{
    peers_window_is_bounded, shifts_are_agreed, window_is_never_taken_back,
    without_scale_windows_are_as_before, worked_scaling_is_legal,
};
