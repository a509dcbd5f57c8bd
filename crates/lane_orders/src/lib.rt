//! What cores and applications did side by side, turn by turn, put together: the deeds of a run that they are, what of
//! a tick's frames and asks was done in them, and ticks of such turns.
#![tactic(auto)]

mod laws;

pub use laws::{
    frames_are_handed_once, ticks_of_turns_are_shared, turns_are_beside, turns_leave_one_site,
};
