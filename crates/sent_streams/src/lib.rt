//! What an endpoint sends is one stream from one first number on, and what it takes is that stream where its peer sends
//! nothing else: laws of every legal history.
#![tactic(auto)]

mod laws;

pub use laws::{
    sent_is_one_stream, taken_is_one_stream, the_end_is_told_last, time_bounds_what_is_accepted,
};
