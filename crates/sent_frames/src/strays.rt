//! The frames that answer segments of no flow.

ghost use Rattle.std.specs.Prelude.{◌≡◌, ◌<◌, ◌+◌, ◌^◌, ◌++◌, ◌∷◌, [], length, IfOk, OnOk};
ghost use Rattle.scenario_runs.specs.Worlds.{World, frames_of_log};
ghost use Rattle.tas_core.specs.Stretches.{lines_in, lines_of};
ghost use Rattle.sent_frames.specs.Sending.{addresses_of, of_tick, AreUpTo, answers_in};

use crate::frames::{Origin, Sender, push_segment};
use host_rounds::{LogEvent, LogLine};
use link_script::SentList;
use run_texts::answer_in;
use std::alloc::{AllocError, Global};
use tas_core::LogStretch;
use tas_model::NO_FLOW;

/// Collects the frames of a tick among the answers to segments of no flow that these lines of a host's log show, the
/// first of which has this number. The answer is the number of the next one. The error is want of memory.
pub fn collect_lines(
    alloc: Global,
    sender: &Sender<'_>,
    number: u64,
    tick: u32,
    stretches: &[LogStretch],
    sent: &mut SentList,
) -> Result<u64, AllocError>
    requires hosts { length sender.now.addresses.now < 2 ^ 32 }
    requires few { number + length (lines_of stretches.now) < 2 ^ 64 }
    requires last { AreUpTo tick sent.old }
    ensures frames { (world : World) → sender.now.addresses.now ≡ addresses_of world → OnOk result (sent.new
        ≡ sent.old ++ of_tick tick (frames_of_log world sender.now.host number (lines_of stretches.now))) }
    ensures number { IfOk result (λ n. n ≡ number + answers_in (lines_of stretches.now)) }
    ensures last { OnOk result (AreUpTo tick sent.new) }
{
    let mut number = number;
    for stretch in stretches {
        number = collect_stretch(alloc, sender, number, tick, stretch, sent)?;
    }
    Ok(number)
}

/// The same of the lines of one stretch. A run shows no answer.
fn collect_stretch(
    alloc: Global,
    sender: &Sender<'_>,
    number: u64,
    tick: u32,
    stretch: &LogStretch,
    sent: &mut SentList,
) -> Result<u64, AllocError>
    requires hosts { length sender.now.addresses.now < 2 ^ 32 }
    requires few { number + length (lines_in stretch.now) < 2 ^ 64 }
    requires last { AreUpTo tick sent.old }
    ensures frames { (world : World) → sender.now.addresses.now ≡ addresses_of world → OnOk result (sent.new
        ≡ sent.old ++ of_tick tick (frames_of_log world sender.now.host number (lines_in stretch.now))) }
    ensures number { IfOk result (λ n. n ≡ number + answers_in (lines_in stretch.now)) }
    ensures last { OnOk result (AreUpTo tick sent.new) }
{
    match stretch {
        LogStretch::One(line) => collect_answer(alloc, sender, number, tick, line, sent),
        LogStretch::Run(_) => Ok(number),
    }
}

/// Collects the answer that a line of the log shows, where there is one and it is of the tick. The answer is the number
/// of the next one.
fn collect_answer(
    alloc: Global,
    sender: &Sender<'_>,
    number: u64,
    tick: u32,
    line: &LogLine,
    sent: &mut SentList,
) -> Result<u64, AllocError>
    requires hosts { length sender.now.addresses.now < 2 ^ 32 }
    requires few { number + 1 < 2 ^ 64 }
    requires last { AreUpTo tick sent.old }
    ensures frames { (world : World) → sender.now.addresses.now ≡ addresses_of world → OnOk result (sent.new
        ≡ sent.old ++ of_tick tick (frames_of_log world sender.now.host number (line.now ∷ []))) }
    ensures number { IfOk result (λ n. n ≡ number + answers_in (line.now ∷ [])) }
    ensures last { OnOk result (AreUpTo tick sent.new) }
{
    let LogEvent::Stray { tuple, answer, .. } = &line.event else {
        return Ok(number);
    };
    let Some(seg) = answer_in(*answer) else {
        return Ok(number);
    };
    if line.tick == tick {
        let origin = Origin {
            host: sender.host,
            flow: NO_FLOW,
            to: sender.host_at(tuple.raddr),
            tuple: *tuple,
        };
        push_segment(alloc, &origin, number, tick, seg, sent)?;
    }
    Ok(number + 1)
}
