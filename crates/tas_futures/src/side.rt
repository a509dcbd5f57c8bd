//! The two sides of a socket, and their keys.
ghost use Rattle.std.specs.Prelude.{◌≡◌};
ghost use Rattle.tas_futures.specs.Waiting.{key_of};

use libtas_sockets::Socket;

/// What a task waits for at a socket.
#[derive(Clone, Copy, PartialEq, Eq, Debug)]
pub enum Side {
    /// There is something to read: bytes, or the end of the peer's stream.
    Read,
    /// The connection stands, and there is room to send.
    Write,
}

/// The key of a side: twice the socket's number, and 1 more for the side that is written.
pub fn key(s: Socket, side: Side) -> u64
    ensures { result ≡ key_of s side }
{
    let even = 2 * u64::from(s.0);
    match side {
        Side::Read => even,
        Side::Write => even + 1,
    }
}
