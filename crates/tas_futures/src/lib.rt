//! Futures of sockets: a call that may have to be made again is a future, so that a task may wait on many sockets.
#![tactic(auto)]

mod io;
mod ready;
mod recv;
mod send;
mod settling;
mod side;
mod waiters;

pub use io::Io;
pub use ready::{ReadyFuture, ready_future};
pub use recv::{RecvFuture, recv_future};
pub use send::{SendFuture, send_future};
pub use side::{Side, key};
pub use waiters::Waiters;
