//! How flows are set up and torn down: the lists of the slow path, the engine of received segments, and the answers
//! where no flow is.
#![tactic(auto)]

mod numbers;
mod openings;
mod rx;
mod slow_path;
mod strays;
mod syn_sent;

pub use numbers::{NumberSource, SpacedNumbers};
pub use openings::{ListenRefused, Listener, NoPort, PassiveFlow, SynAnswer};
pub use rx::SlowRx;
pub use slow_path::SlowPath;
pub use strays::stray;
