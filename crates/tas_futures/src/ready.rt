//! A future that waits until the connection of a socket stands.
ghost use Rattle.std.specs.Prelude.{◌≡◌, option_copied, None, Result};
ghost use Rattle.flow_state.specs.declared.call.CallIn.TheVariants as ins;
ghost use Rattle.futures.specs.Poll.{IfReady, OnPending};
ghost use Rattle.futures.specs.Task.{Covers, Keeps};
ghost use Rattle.tas_futures.specs.Answers.{AsksAgain, IsFinal};
ghost use Rattle.tas_futures.specs.Polling.{HasWaited, Waits, key_in};
ghost use Rattle.tas_futures.specs.Readying.{IsReadyPolled, IsSameAsker, MayAsk, seen};
ghost use Rattle.tas_futures.specs.Waiting.{IsSourceAt, KeepsOthers};
ghost use Rattle.tas_futures.specs.declared.side.Side.TheVariants.{Write};

use crate::io::Io;
use crate::settling::settled;
use crate::side::{Side, key};
use futures::Future;
use futures::task::{Context, Poll};
use libtas_sockets::{Socket, SocketError};

/// Asks whether the connection of a socket stands: each poll makes one `ready`, and is pending where it doesn't yet, or
/// another pass held the flow's record.
pub struct ReadyFuture<'a> {
    io: Io<'a>,
    socket: Socket,
    last: Option<SocketError>,
}

/// A future that waits until the connection of a socket of the application stands.
pub fn ready_future<'a>(io: Io<'a>, s: Socket) -> ReadyFuture<'a>
    ensures { result ≡ record { io = io.entry; socket = s; last = None } }
{
    ReadyFuture {
        io,
        socket: s,
        last: None,
    }
}

impl ReadyFuture<'_> {
    /// What the call of the last pending poll was answered, `NotYet` or `Busy`; `None` before one.
    pub fn last(&self) -> Option<&SocketError>
        ensures { option_copied result ≡ (seen self.now).last }
    {
        self.last.as_ref()
    }
}

// It leaves the application and those who wait as the last poll left them.
impl Drop for ReadyFuture<'_> {
    fn drop(self)
        ensures app { self.exit.0.0.now ≡ (seen self.entry).app }
        ensures places { self.exit.0.1.1.0.now ≡ (seen self.entry).places }
    {
        let ReadyFuture {
            io: Io {
                app: _,
                table: _,
                waiters: _,
                tick: _,
            },
            socket: _,
            last: _,
        } = self;
    }
}

impl Future for ReadyFuture<'_> {
    type Output = Result<(), SocketError>;

    ghost can_poll = { MayAsk };

    ghost needs = { λ f s. IsSourceAt (seen f).places (key_in (seen f) Write) s };

    ghost gives = { λ f answer. IsFinal answer };

    fn poll(&mut self, cx: &mut Context<'_>) -> Poll<Result<(), SocketError>>
        requires { MayAsk self.old }
        ensures made { IsReadyPolled self.old self.new cx.new result }
        ensures value { IfReady result IsFinal }
        ensures waited { OnPending result (HasWaited (seen self.old) (seen self.new) ins.Ready) }
        ensures waits { OnPending result (Waits (seen self.new) Write cx.old cx.new) }
        ensures asks { OnPending result (AsksAgain (seen self.new).last cx.new) }
        ensures others { KeepsOthers (key_in (seen self.old) Write) (seen self.old).places (seen self.new).places }
        ensures asker { IsSameAsker self.old self.new }
        ensures again { OnPending result (MayAsk self.new) }
        ensures same { OnPending result ((x : Result (Unit {0}) SocketError) → IsFinal x → IsFinal x) }
        ensures registered { OnPending result (Covers cx.new
            (λ s. IsSourceAt (seen self.new).places (key_in (seen self.new) Write) s)) }
        ensures kept { Keeps cx.old cx.new }
    {
        if !self.io.waiters.register(key(self.socket, Side::Write), cx) {
            return Poll::Ready(Err(SocketError::OutOfMemory));
        }
        let (table, socket, tick) = (self.io.table, self.socket, self.io.tick);
        let answer = self.io.app.ready(table, socket, tick);
        settled(answer, &mut self.last, cx)
    }
}
