//! A future that reads from a socket.
ghost use Rattle.std.specs.Prelude.{◌≡◌, option_copied, None, Result, OnErr};
ghost use Rattle.futures.specs.Poll.{IfReady, OnPending};
ghost use Rattle.futures.specs.Task.{Covers, Keeps};
ghost use Rattle.tas_futures.specs.Answers.{AsksAgain, IsFinal};
ghost use Rattle.tas_futures.specs.Polling.{HasWaited, Waits, key_in};
ghost use Rattle.tas_futures.specs.Receiving.{IsReadPolled, IsSameReader, MayRead, buffer, recv_call, seen};
ghost use Rattle.tas_futures.specs.Waiting.{IsSourceAt, KeepsOthers};
ghost use Rattle.tas_futures.specs.declared.side.Side.TheVariants.{Read};

use crate::io::Io;
use crate::settling::settled;
use crate::side::{Side, key};
use futures::Future;
use futures::task::{Context, Poll};
use libtas_sockets::{Received, Socket, SocketError};

/// Reads from a socket: each poll makes one `recv`, and is pending where there was nothing to read yet, or another pass
/// held the flow's record.
pub struct RecvFuture<'a> {
    io: Io<'a>,
    socket: Socket,
    buf: &'a mut [u8],
    last: Option<SocketError>,
}

/// A future that reads from a socket of the application into a buffer of 1 to 65,536 bytes.
pub fn recv_future<'a>(io: Io<'a>, s: Socket, buf: &'a mut [u8]) -> RecvFuture<'a>
    ensures { result ≡ record { io = io.entry; socket = s; buf = buf.entry; last = None } }
{
    RecvFuture {
        io,
        socket: s,
        buf,
        last: None,
    }
}

impl RecvFuture<'_> {
    /// What the call of the last pending poll was answered, `NotYet` or `Busy`; `None` before one.
    pub fn last(&self) -> Option<&SocketError>
        ensures { option_copied result ≡ (seen self.now).last }
    {
        self.last.as_ref()
    }
}

// It leaves the application, those who wait and the buffer as the last poll left them.
impl Drop for RecvFuture<'_> {
    fn drop(self)
        ensures app { self.exit.0.0.now ≡ (seen self.entry).app }
        ensures places { self.exit.0.1.1.0.now ≡ (seen self.entry).places }
        ensures buffer { self.exit.1.1.0.now ≡ buffer self.entry }
    {
        let RecvFuture {
            io: Io {
                app: _,
                table: _,
                waiters: _,
                tick: _,
            },
            socket: _,
            buf: _,
            last: _,
        } = self;
    }
}

impl Future for RecvFuture<'_> {
    type Output = Result<Received, SocketError>;

    ghost can_poll = { MayRead };

    ghost needs = { λ f s. IsSourceAt (seen f).places (key_in (seen f) Read) s };

    ghost gives = { λ f answer. IsFinal answer };

    fn poll(&mut self, cx: &mut Context<'_>) -> Poll<Result<Received, SocketError>>
        requires { MayRead self.old }
        ensures made { IsReadPolled self.old self.new cx.new result }
        ensures value { IfReady result IsFinal }
        ensures waited { OnPending result (HasWaited (seen self.old) (seen self.new) (recv_call self.old)) }
        ensures unread { OnPending result (buffer self.new ≡ buffer self.old) }
        ensures failed { IfReady result (λ answer. OnErr answer (buffer self.new ≡ buffer self.old)) }
        ensures waits { OnPending result (Waits (seen self.new) Read cx.old cx.new) }
        ensures asks { OnPending result (AsksAgain (seen self.new).last cx.new) }
        ensures others { KeepsOthers (key_in (seen self.old) Read) (seen self.old).places (seen self.new).places }
        ensures reader { IsSameReader self.old self.new }
        ensures again { OnPending result (MayRead self.new) }
        ensures same { OnPending result ((x : Result Received SocketError) → IsFinal x → IsFinal x) }
        ensures registered { OnPending result (Covers cx.new
            (λ s. IsSourceAt (seen self.new).places (key_in (seen self.new) Read) s)) }
        ensures kept { Keeps cx.old cx.new }
    {
        if !self.io.waiters.register(key(self.socket, Side::Read), cx) {
            return Poll::Ready(Err(SocketError::OutOfMemory));
        }
        let (table, socket, tick) = (self.io.table, self.socket, self.io.tick);
        let answer = self.io.app.recv(table, socket, tick, self.buf);
        settled(answer, &mut self.last, cx)
    }
}
