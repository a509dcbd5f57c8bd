//! Worked histories and replays, each of which shows rules at work that no law of all histories holds.
#![tactic(auto)]

mod worked;

pub use worked::{
    worked_endings, worked_progress, worked_reading, worked_receiving, worked_shifts,
};
