//! What a poll gives, by the answer of its one call.
ghost use Rattle.std.specs.Prelude.{◌≡◌};
ghost use Rattle.futures.specs.Poll.{OnPending};
ghost use Rattle.futures.specs.Task.{Keeps};
ghost use Rattle.tas_futures.specs.Answers.{AsksAgain, last_after, polled};

use futures::task::{Context, Poll};
use libtas_sockets::SocketError;

/// Pending where the call is to be made again, which `last` keeps then: after `Busy` at once, as nobody tells that a
/// record was given back. Any other answer is the poll's.
pub fn settled<T: Drop>(
    answer: Result<T, SocketError>,
    last: &mut Option<SocketError>,
    cx: &mut Context<'_>,
) -> Poll<Result<T, SocketError>>
    ensures polled { result ≡ polled answer }
    ensures last { last.new ≡ last_after answer last.old }
    ensures asks { OnPending result (AsksAgain last.new cx.new) }
    ensures kept { Keeps cx.old cx.new }
    ensures lacks { cx.new.lacks_waker ≡ cx.old.lacks_waker }
{
    match answer {
        Err(SocketError::NotYet) => {
            *last = Some(SocketError::NotYet);
            Poll::Pending
        }
        Err(SocketError::Busy(word)) => {
            *last = Some(SocketError::Busy(word));
            cx.yield_now()
        }
        other => Poll::Ready(other),
    }
}
