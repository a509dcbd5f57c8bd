//! What the slow path does first in each tick: closed flows are given up, and time passes for all others, of which
//! those that then have something to send are to be kicked.
#![tactic(auto)]

mod closing;
mod laws;
mod timing;
mod walking;

pub use closing::close_at;
pub use laws::{none_is_busy_alone, time_passes_as_in_a_run, walks_go_on};
pub use timing::{Timed, pass_time};
pub use walking::tick_all;
