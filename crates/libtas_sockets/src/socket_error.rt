//! Why a call of an application was not answered Ok.
ghost use Rattle.std.specs.Prelude.{◌≡◌};
ghost use Rattle.libtas_sockets.specs.Answers.{refusal_in};

use crate::socket::Socket;
use flow_lock::Word;
use flow_state::Answer;
use tas_model::{Phase, Reason};

/// Why a call of an application was refused.
#[derive(Clone, Copy, PartialEq, Eq, Debug)]
pub enum SocketError {
    /// There is no room to send, or nothing to read, no connection yet, or none to accept.
    NotYet,
    /// The connection doesn't stand yet.
    NotOpen,
    /// The application ended its stream before.
    Shut,
    /// The flow is closed.
    Closed(Reason),
    /// Another pass held the record: this word was found, and its busy bit is set. No entry was made.
    Busy(Word),
    /// The flow wasn't pinned: the word that was found isn't live, is doomed or has another generation.
    Stale(Word),
    /// The flow wasn't pinned: the word that was seen, and the different one that the exchange found.
    Moved(Word, Word),
    /// The flow that was to be accepted is still in this phase, SYN-SENT or SYN-RECEIVED. No entry was made.
    Early(Phase),
    /// The flow wasn't pinned: the application has this socket on its slot already. No entry was made.
    SlotInUse(Socket),
    /// A listener has this port.
    PortInUse(u16),
    /// All ports for own connections were given.
    NoPort,
    /// Every slot has a flow.
    NoFlowSlot,
    /// Memory is wanting. No entry was made.
    OutOfMemory,
}

/// The refusal that an entry's answer is, where it is one.
pub(crate) fn refusal(answer: &Answer) -> Option<SocketError>
    ensures { result ≡ refusal_in answer.now }
{
    match answer {
        Answer::NotYet => Some(SocketError::NotYet),
        Answer::NotOpen => Some(SocketError::NotOpen),
        Answer::Shut => Some(SocketError::Shut),
        Answer::Closed { reason } => Some(SocketError::Closed(*reason)),
        _ => None,
    }
}
