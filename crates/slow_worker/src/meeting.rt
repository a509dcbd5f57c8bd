// A segment that is of no flow.
ghost use Rattle.std.specs.Prelude.{◌≡◌, IfOk, OnErr};
ghost use Rattle.flow_state.specs.Calls.{seg_of};
ghost use Rattle.host_rounds.specs.Deliveries.{opens as model_opens};
ghost use Rattle.host_rounds.specs.declared.log.LogEvent.TheVariants as events;
ghost use Rattle.slow_worker.specs.declared.served.Served.TheVariants as answers;
ghost use Rattle.slow_worker.specs.Workers.{sight_of, with_sight};
ghost use Rattle.slow_worker.specs.Serving.{with_line, stray_event};

use crate::served::Served;
use crate::worker::SlowWorker;
use core_worker::tuple_of;
use segment_fields::Segment;
use slow_handshake::stray;
use std::alloc::{AllocError, Global};
use tas_core::{KeptSeg, LogEvent};
use tas_model::{Bytes, FrameId, Head, Seg};

/// Whether the segment asks for a connection: SYN is set, and neither ACK nor RST is.
pub(crate) fn opens(seg: &Segment<'_>) -> bool
    ensures { result ≡ model_opens (seg_of seg.now) }
{
    seg.flags.is_syn() && !seg.flags.is_rst() && !seg.flags.is_ack()
}

/// The segment with a payload of its own. The error is want of memory.
fn owned(alloc: Global, seg: &Segment<'_>) -> Result<KeptSeg, AllocError>
    ensures { IfOk result (λ s. s ≡ seg_of seg.now) }
{
    let owned = Seg {
        head: Head {
            flags: seg.flags.0,
            seq: seg.seq,
            ack: seg.ack,
            window: seg.window,
            mss: seg.mss,
            scale: seg.scale,
        },
        bytes: Bytes::copy(alloc, seg.payload)?,
    };
    KeptSeg::new(alloc, owned)
}

impl SlowWorker {
    /// Answers a segment that is of no flow and opens none, by a line of the log. The error is want of memory.
    pub(crate) fn answer_stray(
        &mut self,
        tick: u32,
        frame: FrameId,
        seg: &Segment<'_>,
    ) -> Result<Served, AllocError>
        ensures answer { IfOk result (λ a. a ≡ answers.Stray) }
        ensures sight { IfOk result
            (λ _. sight_of self.new ≡ with_line tick (stray_event self.old.path frame seg.now) (sight_of self.old)) }
        ensures senders { self.new.senders ≡ self.old.senders }
        ensures rest { self.new ≡ with_sight (sight_of self.new) self.old }
        ensures err { OnErr result (self.new ≡ self.old) }
    {
        let answer = stray(seg, self.path.listening(seg.dport));
        let event = LogEvent::Stray {
            frame,
            tuple: tuple_of(seg),
            seg: owned(self.alloc, seg)?,
            answer,
        };
        self.note(tick, event)?;
        Ok(Served::Stray)
    }

    /// Drops a SYN that a listener has no room for, or the table, by a line of the log. The error is want of memory.
    pub(crate) fn drop_frame(
        &mut self,
        tick: u32,
        frame: FrameId,
        backlog: bool,
    ) -> Result<Served, AllocError>
        ensures answer { IfOk result (λ a. a ≡ answers.Dropped backlog) }
        ensures sight { IfOk result (λ _. sight_of self.new ≡ with_line tick (events.Dropped frame backlog)
            (sight_of self.old)) }
        ensures senders { self.new.senders ≡ self.old.senders }
        ensures rest { self.new ≡ with_sight (sight_of self.new) self.old }
        ensures err { OnErr result (self.new ≡ self.old) }
    {
        self.note(tick, LogEvent::Dropped { frame, backlog })?;
        Ok(Served::Dropped { backlog })
    }

    /// Writes the line of a packet that breaks a rule of reading. The error is want of memory.
    pub(crate) fn refuse(
        &mut self,
        tick: u32,
        frame: FrameId,
        number: u8,
    ) -> Result<Served, AllocError>
        ensures answer { IfOk result (λ a. a ≡ answers.Refused number) }
        ensures sight { IfOk result (λ _. sight_of self.new ≡ with_line tick (events.Refused frame number)
            (sight_of self.old)) }
        ensures senders { self.new.senders ≡ self.old.senders }
        ensures rest { self.new ≡ with_sight (sight_of self.new) self.old }
        ensures err { OnErr result (self.new ≡ self.old) }
    {
        self.note(tick, LogEvent::Refused { frame, number })?;
        Ok(Served::Refused(number))
    }
}
