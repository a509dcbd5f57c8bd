//! The call that the program `picture` makes: it looks at words, reads a report and writes the picture of a connection.
#![tactic(auto)]

mod drawing;
mod input;
mod stop;
mod telling;
mod top;
mod words;

pub use stop::Stop;
pub use telling::tell;
pub use top::draw;
