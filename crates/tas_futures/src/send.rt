//! A future that sends on a socket.
ghost use Rattle.std.specs.Prelude.{◌≡◌, ℕ, option_copied, None, Result};
ghost use Rattle.futures.specs.Poll.{IfReady, OnPending};
ghost use Rattle.futures.specs.Task.{Covers, Keeps};
ghost use Rattle.tas_futures.specs.Answers.{AsksAgain, IsFinal};
ghost use Rattle.tas_futures.specs.Polling.{HasWaited, Waits, key_in};
ghost use Rattle.tas_futures.specs.Sending.{IsSameSender, IsSendPolled, MaySend, seen, send_call};
ghost use Rattle.tas_futures.specs.Waiting.{IsSourceAt, KeepsOthers};
ghost use Rattle.tas_futures.specs.declared.side.Side.TheVariants.{Write};

use crate::io::Io;
use crate::settling::settled;
use crate::side::{Side, key};
use futures::Future;
use futures::task::{Context, Poll};
use libtas_sockets::{Socket, SocketError};

/// Sends on a socket: each poll makes one `send`, and is pending where there was no room yet, or another pass held the
/// flow's record.
pub struct SendFuture<'a> {
    io: Io<'a>,
    socket: Socket,
    bytes: &'a [u8],
    last: Option<SocketError>,
}

/// A future that offers bytes, fewer than 2^32, on a socket of the application, and gives how many were taken.
pub fn send_future<'a>(io: Io<'a>, s: Socket, bytes: &'a [u8]) -> SendFuture<'a>
    ensures { result ≡ record { io = io.entry; socket = s; bytes = bytes.entry; last = None } }
{
    SendFuture {
        io,
        socket: s,
        bytes,
        last: None,
    }
}

impl SendFuture<'_> {
    /// What the call of the last pending poll was answered, `NotYet` or `Busy`; `None` before one.
    pub fn last(&self) -> Option<&SocketError>
        ensures { option_copied result ≡ (seen self.now).last }
    {
        self.last.as_ref()
    }
}

// It leaves the application and those who wait as the last poll left them.
impl Drop for SendFuture<'_> {
    fn drop(self)
        ensures app { self.exit.0.0.now ≡ (seen self.entry).app }
        ensures places { self.exit.0.1.1.0.now ≡ (seen self.entry).places }
    {
        let SendFuture {
            io: Io {
                app: _,
                table: _,
                waiters: _,
                tick: _,
            },
            socket: _,
            bytes: _,
            last: _,
        } = self;
    }
}

impl Future for SendFuture<'_> {
    type Output = Result<u32, SocketError>;

    ghost can_poll = { MaySend };

    ghost needs = { λ f s. IsSourceAt (seen f).places (key_in (seen f) Write) s };

    ghost gives = { λ f answer. IsFinal answer };

    fn poll(&mut self, cx: &mut Context<'_>) -> Poll<Result<u32, SocketError>>
        requires { MaySend self.old }
        ensures made { IsSendPolled self.old self.new cx.new result }
        ensures value { IfReady result IsFinal }
        ensures waited { OnPending result (HasWaited (seen self.old) (seen self.new) (send_call self.old)) }
        ensures waits { OnPending result (Waits (seen self.new) Write cx.old cx.new) }
        ensures asks { OnPending result (AsksAgain (seen self.new).last cx.new) }
        ensures others { KeepsOthers (key_in (seen self.old) Write) (seen self.old).places (seen self.new).places }
        ensures sender { IsSameSender self.old self.new }
        ensures again { OnPending result (MaySend self.new) }
        ensures same { OnPending result ((x : Result ℕ SocketError) → IsFinal x → IsFinal x) }
        ensures registered { OnPending result (Covers cx.new
            (λ s. IsSourceAt (seen self.new).places (key_in (seen self.new) Write) s)) }
        ensures kept { Keeps cx.old cx.new }
    {
        if !self.io.waiters.register(key(self.socket, Side::Write), cx) {
            return Poll::Ready(Err(SocketError::OutOfMemory));
        }
        let (table, socket, tick) = (self.io.table, self.socket, self.io.tick);
        let answer = self.io.app.send(table, socket, tick, self.bytes);
        settled(answer, &mut self.last, cx)
    }
}
