//! What an application tries on a socket beside the cores.
ghost use Rattle.std.specs.Prelude.{◌≡◌};
ghost use Rattle.flow_lock.specs.Steps.{HasTurn};
ghost use Rattle.core_phase.specs.Attempts.{MayTry, HasTried};

use flow_lock::FlowTable;
use flow_state::FlowRecord;
use libtas_sockets::{App, Received, Socket, SocketError};

/// A call on a socket (RFC 9293, section 3.9.1).
#[derive(Drop)]
pub enum Attempt {
    Nothing,
    /// These bytes, fewer than 2^32.
    Send(Vec<u8>),
    /// Into this buffer, of 1 to 65,536 bytes.
    Recv(Vec<u8>),
    Shut,
    Close,
    Abort,
}

impl Attempt {
    /// How much there is to do, beside other attempts: 16 for a call, and 1 for each KiB that it may move.
    pub(crate) fn weight(&self) -> usize {
        match self {
            Attempt::Nothing => 1,
            Attempt::Send(bytes) | Attempt::Recv(bytes) => 16 + bytes.len() / 1024,
            Attempt::Shut | Attempt::Close | Attempt::Abort => 16,
        }
    }
}

/// What the call was answered.
#[derive(Drop)]
pub enum Answered {
    Nothing,
    Sent(Result<u32, SocketError>),
    Read(Result<Received, SocketError>),
    Done(Result<(), SocketError>),
}

/// Makes the call.
pub(crate) fn make(
    app: &mut App,
    t: &FlowTable<FlowRecord>,
    s: Socket,
    tick: u32,
    attempt: &mut Attempt,
) -> Answered
    requires pass { (app.old.pass.table ≡ t.now) × HasTurn app.old.pass.view }
    requires may { MayTry app.old s attempt.old }
    ensures { HasTried s tick app.old app.new attempt.old attempt.new result }
{
    match attempt {
        Attempt::Nothing => Answered::Nothing,
        Attempt::Send(bytes) => Answered::Sent(app.send(t, s, tick, bytes.as_slice())),
        Attempt::Recv(buf) => Answered::Read(app.recv(t, s, tick, buf.as_mut_slice())),
        Attempt::Shut => Answered::Done(app.shut(t, s, tick)),
        Attempt::Close => Answered::Done(app.close(t, s, tick)),
        Attempt::Abort => Answered::Done(app.abort(t, s, tick)),
    }
}
