//! Sockets: what an application calls on the flows that it shares with the cores.
#![tactic(auto)]

mod accepting;
mod app;
mod begun;
mod calls;
mod connecting;
mod ending;
mod laws;
mod opening;
mod pinning;
mod received;
mod socket;
mod socket_error;

pub use app::App;
pub use begun::{Begun, Target};
pub use laws::no_socket_is_in_the_way;
pub use received::Received;
pub use socket::Socket;
pub use socket_error::SocketError;
