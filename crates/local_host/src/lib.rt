//! The host of a run, tick by tick in serial order: its flows, their timers and the frames that come to them; and above
//! it the calls that a replay's application makes.
#![tactic(auto)]

mod arrival;
mod attempts;
mod calls;
mod cores;
mod distinct;
mod flows;
mod host;
mod jobs;
mod lanes;
mod live;
mod parts;
mod pending;
mod reading;
mod replay;
mod script;
mod sleep;
mod slot_marks;
mod starts;
mod steer;

pub use arrival::{Arrival, Packet};
pub use attempts::Attempt;
pub use cores::{SideWork, are_handed_out};
pub use host::{Connecting, HostEnd, LocalHost};
pub use live::{Holder, LiveFlow};
pub use replay::LocalReplay;
pub use script::Shown;
pub use starts::StartSource;
pub use steer::{Cores, GroupMove};
