//! The call that the program makes.

ghost use Rattle.std.specs.Prelude.{◌≡◌, ◌≢◌, ◌⊎◌, map, string_bytes};
ghost use Rattle.picture_top.specs.Answers.{call, IsDrawn, HasStopped, HasEnded, IsDrawable};
ghost use Rattle.picture_top.specs.Stops.{status_of};
ghost use Rattle.picture_top.specs.Telling.{IsTold};

use crate::drawing::picture_in;
use crate::stop::Stop;
use crate::telling::tell;
use crate::words::asked_by;
use report_picture::a_report_has_no_fault;
use std::alloc::Global;
use tas_num::{IoFault, Sink, Source, write_all};

/// Answers the words of `picture`, those behind the program's name, and gives the status that the program ends with: it
/// reads a report and writes the picture of the connection that the words ask for. Where it stops, a fault line goes to
/// `faults`, and if that fails, the status stays.
pub fn draw<S: Source, K: Sink, F: Sink>(
    alloc: Global,
    words: &[String],
    source: &mut S,
    sink: &mut K,
    faults: &mut F,
) -> u8
    // At 0 the words ask for a flow, all that the source had is a report with it, and the sink grew by exactly the
    // picture of it; nothing is told.
    ensures drawn { result ≡ 0 → IsDrawn (call (map string_bytes words.now) (S.state source.old) (S.state source.new)
        (K.state sink.old) (K.state sink.new) (F.state faults.old) (F.state faults.new)) }
    // Each other status has its cause: 2 the words are of no form, 3 this line is the earliest at fault or the one past
    // a report that has not the flow, 4 the source failed, 5 the sink failed, 6 memory, 7 there are more than 64 MiB.
    ensures cause { result ≢ 0 → HasStopped (call (map string_bytes words.now) (S.state source.old)
        (S.state source.new) (K.state sink.old) (K.state sink.new) (F.state faults.old) (F.state faults.new)) result }
    // A right input gives status 0, or want of memory, where no stream fails.
    ensures complete { IsDrawable (call (map string_bytes words.now) (S.state source.old) (S.state source.new)
        (K.state sink.old) (K.state sink.new) (F.state faults.old) (F.state faults.new))
        → (result ≡ 0) ⊎ (result ≡ 6) }
{
    a_report_has_no_fault();
    answered(alloc, words, source, sink, faults)
}

/// The same, by its end.
fn answered<S: Source, K: Sink, F: Sink>(
    alloc: Global,
    words: &[String],
    source: &mut S,
    sink: &mut K,
    faults: &mut F,
) -> u8
    ensures { HasEnded (call (map string_bytes words.now) (S.state source.old) (S.state source.new)
        (K.state sink.old) (K.state sink.new) (F.state faults.old) (F.state faults.new)) result }
{
    let Some(asked) = asked_by(words) else {
        return stopped(faults, Stop::Words);
    };
    let out = match picture_in(alloc, &asked, source) {
        Ok(out) => out,
        Err(stop) => return stopped(faults, stop),
    };
    match write_all(sink, &out) {
        Ok(()) => 0,
        Err(IoFault::Failed) => stopped(faults, Stop::Write),
        Err(IoFault::OutOfMemory) => stopped(faults, Stop::Memory),
    }
}

/// Tells of a stop, and answers its status.
fn stopped<F: Sink>(faults: &mut F, stop: Stop) -> u8
    ensures status { result ≡ status_of stop }
    ensures told { IsTold stop (F.state faults.old) (F.state faults.new) }
{
    tell(faults, stop);
    stop.status()
}
