//! What the lanes of a phase did, in the words of a run: turns, the hand-out of frames to lanes, what the slow path
//! then collects, and ticks of phases.
#![tactic(auto)]

mod laws;

pub use laws::{
    broken_frames_are_lines, core_turns_have_words, lanes_have_a_hand_out,
    left_frames_are_collected, phases_are_turns, ticks_of_phases_are_shared,
};
