//! The two ends of a connection: in every run of a scenario whose link damages nothing, what one end reads is what the
//! other end sent.
#![tactic(auto)]

mod laws;

pub use laws::{
    links_are_faithful_where_no_line_corrupts, two_ends_are_one_stream, what_is_read_was_sent,
    what_is_taken_was_sent, worked_flows_have_other_ends,
};
