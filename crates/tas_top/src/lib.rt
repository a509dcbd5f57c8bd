//! The call that the program makes: it looks at words, reads the input, makes the run and writes what it left.
#![tactic(auto)]

mod asking;
mod audits;
mod input;
mod runs;
mod stop;
mod telling;
mod top;

pub use audits::tas_audit;
pub use stop::Stop;
pub use telling::tell;
pub use top::{tas, tas_serial};
