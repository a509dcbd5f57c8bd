//! The sending of segments: which may go next, and its emission from a flow's compact record.
#![tactic(auto)]

mod emission;
mod engine;
mod piece;

pub use emission::{Out, emission_ends, emit, left_to_send, next_out};
pub use engine::FastTx;
pub use piece::{Piece, piece_is_next_segment};
