//! A host of a run whose cores, slow path and applications share its flows, tick by tick. The steps of a tick stand in
//! files of their own.
#![tactic(auto)]

mod accepting;
mod asked;
mod asks;
mod attempts;
mod books;
mod calls;
mod connecting;
mod emission;
mod ending;
mod flow_laws;
mod handing;
mod histories;
mod host;
mod kills;
mod laws;
mod leaving;
mod serving;
mod sharing;
mod staffing;
mod time;

pub use attempts::tries_are_set;
pub use ending::HostEnd;
pub use flow_laws::{
    asks_keep_filed_histories, filed_histories_are_kept, open_flows_are_in_the_index,
};
pub use handing::Coming;
pub use host::CoreHost;
pub use laws::{
    asks_make_a_row, ticks_made_alone_are_shared, ticks_of_steps_are_right,
    ticks_of_steps_are_shared,
};
pub use sharing::play_hosts;
