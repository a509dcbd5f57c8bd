//! What applications do alone keeps a host of shared flows sound.
#![tactic(auto)]

mod calls;
mod changing;
mod counting;
mod kills;
mod listeners;
mod opened;

pub use calls::{
    accepts_alone_keep_it, calls_alone_keep_it, closes_alone_keep_it, handed_over_keeps_it,
    releases_alone_keep_it,
};
pub use changing::holders_change_at_a_place;
pub use counting::calls_keep_the_count;
pub use kills::kills_keep_it;
pub use listeners::listens_keep_it;
pub use opened::{connects_alone_keep_it, connects_keep_it};
