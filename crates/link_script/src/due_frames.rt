//! Which frames come in a tick.

ghost use Rattle.std.specs.Prelude.{◌≡◌, ◌++◌, ◌∷◌, ◌+◌, ◌==◌, IfOk, OnOk, OnErr};
ghost use Rattle.std.specs.List.{flat_map};
ghost use Rattle.std.specs.List.Sorted.{IsStrictlySortedBy};
ghost use Rattle.std.specs.Ordering.{nat_cmp};
ghost use Rattle.link_script.specs.DueFrames.{is_due, inverted, coming_of, coming_after, copies_under, is_dropped};
ghost use Rattle.link_script.specs.DueFrames as frames;

use crate::frames::{DueFrame, DueList, Sent, SentList};
use crate::script::{LinkAct, LinkScript};
use std::alloc::{AllocError, Global};
use std::collections::BTreeSet;
use tas_model::{Bytes, FrameId};

/// Where a frame stands among those that are due.
#[derive(Clone, Copy, PartialEq, Eq, PartialOrd, Ord)]
struct Turn {
    tick: u32,
    host: u32,
    flow: u32,
    number: u64,
    copy: u32,
}

/// The frames that are due in a tick, of those that were sent: a frame of the tick before, but for what the lines do to
/// it. They stand by tick of emission, then by host, flow, number and copy.
/// The error is want of memory. It looks at the frames alone that were sent one tick earlier, or earlier by a delay
/// that a line has.
pub fn due<'a>(
    alloc: Global,
    script: &LinkScript,
    emitted: &'a SentList,
    tick: u32,
) -> Result<DueList<'a>, AllocError>
    ensures { IfOk result (λ d. d ≡ frames.due script.now emitted.now tick) }
{
    let mut frames = coming(alloc, script, emitted, tick, script.delays())?;
    frames.sort_by_key(|coming| turn_of(coming.frame()))?;
    Ok(DueList::of(frames))
}

/// What comes in a tick of the frames that were sent earlier by one of these delays, and one. The error is want of
/// memory.
fn coming<'a>(
    alloc: Global,
    script: &LinkScript,
    emitted: &'a SentList,
    tick: u32,
    delays: &BTreeSet<u32>,
) -> Result<Vec<DueFrame<'a>>, AllocError>
    ensures frames { IfOk result (λ frames. frames.items
        ≡ flat_map (coming_after script.now emitted.now tick) delays.now.keys) }
    ensures delays { OnOk result (IsStrictlySortedBy nat_cmp delays.now.keys) }
{
    let mut frames = Vec::new(alloc);
    for delay in delays {
        take_after(alloc, script, emitted, tick, *delay, &mut frames)?;
    }
    Ok(frames)
}

/// Where a frame stands among those that are due.
fn turn_of(frame: &Sent) -> Turn
    ensures { result ≡ record {
      tick = frame.now.tick;
      host = frame.now.id.host;
      flow = frame.now.id.flow;
      number = frame.now.id.number;
      copy = frame.now.id.copy;
    } }
{
    Turn {
        tick: frame.tick,
        host: frame.id.host,
        flow: frame.id.flow,
        number: frame.id.number,
        copy: frame.id.copy,
    }
}

/// Takes what comes of the frames that were sent so many ticks earlier, and one. The error is want of memory.
fn take_after<'a>(
    alloc: Global,
    script: &LinkScript,
    emitted: &'a SentList,
    tick: u32,
    delay: u32,
    frames: &mut Vec<DueFrame<'a>>,
) -> Result<(), AllocError>
    ensures { OnOk result (frames.new.items ≡ frames.old.items ++ coming_after script.now emitted.now tick delay) }
{
    let Some(before) = tick.checked_sub(delay) else {
        return Ok(());
    };
    let Some(sent) = before.checked_sub(1) else {
        return Ok(());
    };
    for frame in emitted.sent_in(sent) {
        take_coming(alloc, script, tick, frame, frames)?;
    }
    Ok(())
}

/// Takes what comes of a frame in a tick. The error is want of memory.
fn take_coming<'a>(
    alloc: Global,
    script: &LinkScript,
    tick: u32,
    frame: &'a Sent,
    frames: &mut Vec<DueFrame<'a>>,
) -> Result<(), AllocError>
    ensures { OnOk result (frames.new.items ≡ frames.old.items ++ coming_of script.now tick frame.now) }
{
    let act = script.act_on(&frame.id);
    if !comes_in(act, frame, tick) || is_dropped(act) || script.is_kth(&frame.id) {
        return Ok(());
    }
    match act {
        Some(LinkAct::Dup) => {
            frames.push(DueFrame::as_sent(frame))?;
            frames.push(DueFrame::made_of(frame, second_copy(alloc, frame)?))?;
        }
        Some(LinkAct::Corrupt(place)) => {
            frames.push(DueFrame::made_of(frame, corrupted(alloc, frame, place)?))?;
        }
        _ => frames.push(DueFrame::as_sent(frame))?,
    }
    Ok(())
}

/// Whether a frame with this line is due in a tick, if it is not lost.
fn comes_in(act: Option<LinkAct>, frame: &Sent, tick: u32) -> bool
    ensures { result ≡ (frame.now.tick + 1 + frames.delay_by act == tick) }
{
    let delay = match act {
        Some(LinkAct::Delay(ticks)) => ticks as u64,
        _ => 0,
    };
    frame.tick as u64 + 1 + delay == tick as u64
}

/// Whether a line loses its frame.
fn is_dropped(act: Option<LinkAct>) -> bool
    ensures { result ≡ is_dropped act }
{
    matches!(act, Some(LinkAct::Drop))
}

/// The second copy of a frame that comes twice. The error is want of memory.
fn second_copy(alloc: Global, frame: &Sent) -> Result<Sent, AllocError>
    ensures { IfOk result (λ s. s ≡ record (frame.now) { id = record (frame.now.id) { copy = 1 } }) }
{
    Ok(Sent {
        id: FrameId {
            copy: 1,
            ..frame.id
        },
        tick: frame.tick,
        to: frame.to,
        packet: Bytes::copy(alloc, frame.packet.as_slice())?,
    })
}

/// A copy of a frame, with all bits of the packet's byte at a place inverted, where it has one. The error is want of
/// memory.
fn corrupted(alloc: Global, frame: &Sent, place: u32) -> Result<Sent, AllocError>
    ensures { IfOk result (λ s. s ≡ record (frame.now) { packet = inverted frame.now.packet place }) }
{
    let mut packet = Vec::from_slice(alloc, frame.packet.as_slice())?;
    if let Some(byte) = packet.get_mut(place as usize) {
        *byte = !*byte;
    }
    Ok(Sent {
        id: frame.id,
        tick: frame.tick,
        to: frame.to,
        packet: Bytes::of(packet),
    })
}
