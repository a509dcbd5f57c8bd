// A turn of a worker.
ghost use Rattle.std.specs.Prelude.{◌≡◌, ◌<◌, ◌++◌, [], length, nat_lt, OnOk, OnErr, IfNone, IfSome};
ghost use Rattle.crossbeam_queue.specs.Fifo.{Held};
ghost use Rattle.context_queue.specs.Notes.{HasTaken, HoldsRest};
ghost use Rattle.core_worker.specs.Workers.{with_pass, with_kicks, IsFree, HasQueue, HasSenders};
ghost use Rattle.core_worker.specs.Sending.{IsPartSent, IsAllSent};
ghost use Rattle.core_worker.specs.Turns.{deferred_by, exceptions_by, IsFirstDone, AreFramesDone, IsFrameLeft};
ghost use Rattle.core_worker.specs.Turns.{AreFramesLeft, kicked_in, IsKicked, AreAllKicksDone, AreKicksLeft, IsTurn};
ghost use Rattle.core_worker.specs.Turns.{IsTurnStopped, IsDrained, IsBounded};

use crate::frames::{Frame, Handled, Passed, PassedFrame};
use crate::handling::{Duty, handle};
use crate::kicks::KICK;
use crate::passed::PassedFrames;
use crate::sending::send;
use crate::shared::Shared;
use crate::worker::CoreWorker;
use context_queue::Note;
use std::alloc::AllocError;
use std::sync::Wait;
use tas_model::FlowId;
use tas_num::Gate;

impl CoreWorker {
    /// Handles all frames that were handed to the worker, in their order, and then its kicks, by sending what may go:
    /// all that stand in its queue, but no more than that has room for, so that a turn ends whatever is posted
    /// meanwhile. The gate's point 64 h + 2 k is passed before each frame and the next one after it, on host h and
    /// core k. The error is want of memory; what was done stands, and each frame that wasn't handled is still in the
    /// list.
    pub fn turn<R: Wait, G: Gate>(
        &mut self,
        rt: &R,
        shared: &Shared,
        tick: u32,
        gate: &G,
    ) -> Result<(), AllocError>
        requires free { IsFree shared.now self.old }
        requires queue { HasQueue shared.now self.old }
        requires senders { HasSenders shared.now self.old }
        ensures free { IsFree shared.now self.new }
        ensures queue { HasQueue shared.now self.new }
        ensures senders { HasSenders shared.now self.new }
        ensures done { OnOk result (IsTurn shared.now tick self.old self.new) }
        ensures empty { OnOk result (self.new.frames ≡ []) }
        ensures kicks { OnOk result (IsDrained shared.now self.old.core self.old.kicks self.new.kicks) }
        ensures bounded { IsBounded shared.now self.old.core self.old.kicks self.new.kicks }
        ensures stopped { OnErr result (IsTurnStopped shared.now tick self.old self.new) }
    {
        self.take_frames(rt, shared, tick, gate)?;
        self.take_kicks(rt, shared, tick)
    }

    /// Handles all frames.
    fn take_frames<R: Wait, G: Gate>(
        &mut self,
        rt: &R,
        shared: &Shared,
        tick: u32,
        gate: &G,
    ) -> Result<(), AllocError>
        requires free { IsFree shared.now self.old }
        requires senders { HasSenders shared.now self.old }
        ensures free { IsFree shared.now self.new }
        ensures senders { HasSenders shared.now self.new }
        ensures done { OnOk result (AreFramesDone shared.now tick self.old.frames self.old self.new) }
        ensures empty { OnOk result (self.new.frames ≡ []) }
        ensures left { OnErr result (AreFramesLeft shared.now tick self.old self.new) }
        ensures queue { HasQueue shared.now self.old → HasQueue shared.now self.new }
        ensures same { (self.new.core ≡ self.old.core) × (self.new.kicks ≡ self.old.kicks) }
    {
        while self.has_frame() {
            self.take_frame(rt, shared, tick, gate)?;
        }
        Ok(())
    }

    /// Whether a frame is left.
    fn has_frame(&self) -> bool
        ensures { result ≡ nat_lt 0 (length self.now.frames) }
    {
        self.frames.first().is_some()
    }

    /// Handles the first frame.
    fn take_frame<R: Wait, G: Gate>(
        &mut self,
        rt: &R,
        shared: &Shared,
        tick: u32,
        gate: &G,
    ) -> Result<(), AllocError>
        requires free { IsFree shared.now self.old }
        requires senders { HasSenders shared.now self.old }
        requires some { 0 < length self.old.frames }
        ensures free { IsFree shared.now self.new }
        ensures senders { HasSenders shared.now self.new }
        ensures done { OnOk result (IsFirstDone shared.now tick self.old self.new) }
        ensures left { OnErr result (IsFrameLeft shared.now tick self.old self.new) }
        ensures same { (self.new.core ≡ self.old.core) × (self.new.kicks ≡ self.old.kicks) }
    {
        self.deferred.reserve(1)?;
        self.exceptions.reserve(1)?;
        let Some(first) = self.frames.first() else {
            unreachable!()
        };
        let duty = Duty {
            core: self.core,
            check_sums: self.check_sums,
            tick,
        };
        gate.pass(self.point);
        let handled = handle(
            rt,
            shared,
            duty,
            &mut self.pass,
            &mut self.reader,
            &mut self.log,
            &mut self.senders,
            first.id,
            first.packet.as_slice(),
        );
        gate.pass(self.point + 1);
        let handled = handled?;
        let Some(frame) = self.frames.take_first() else {
            unreachable!()
        };
        place(&mut self.deferred, &mut self.exceptions, frame, handled);
        Ok(())
    }

    /// Takes kicks until none is left, or as many as their queue has room for, and sends what may go of their flows.
    fn take_kicks<R: Wait>(&mut self, rt: &R, shared: &Shared, tick: u32) -> Result<(), AllocError>
        requires free { IsFree shared.now self.old }
        requires queue { HasQueue shared.now self.old }
        ensures free { IsFree shared.now self.new }
        ensures queue { HasQueue shared.now self.new }
        ensures done { OnOk result (AreAllKicksDone shared.now tick self.old self.new) }
        ensures empty { OnOk result (IsDrained shared.now self.old.core self.old.kicks self.new.kicks) }
        ensures bounded { IsBounded shared.now self.old.core self.old.kicks self.new.kicks }
        ensures left { OnErr result (AreKicksLeft shared.now tick self.old self.new) }
        ensures frames { self.new.frames ≡ self.old.frames }
        ensures senders { self.new.senders ≡ self.old.senders }
    {
        for _ in 0..shared.kicks(self.core).room() {
            let Some(note) = self.next_kick(rt, shared) else {
                return Ok(());
            };
            self.kick(shared, tick, note)?;
        }
        Ok(())
    }

    /// The next note of the core's queue.
    fn next_kick<R: Wait>(&mut self, rt: &R, shared: &Shared) -> Option<Note>
        requires queue { HasQueue shared.now self.old }
        ensures taken { IfSome result (λ note. HasTaken note self.old.kicks self.new.kicks) }
        ensures empty { IfNone result (Held 0 (HoldsRest self.old.kicks)) }
        ensures none { IfNone result (self.new ≡ self.old) }
        ensures rest { self.new ≡ with_kicks self.new.kicks self.old }
    {
        let queue = shared.kicks(self.core);
        queue.drain_one(rt, &mut self.kicks)
    }

    /// Sends what may go of the flow that a note wants to be looked at.
    fn kick(&mut self, shared: &Shared, tick: u32, note: Note) -> Result<(), AllocError>
        requires free { IsFree shared.now self.old }
        ensures free { IsFree shared.now self.new }
        ensures sent { OnOk result (IsKicked (kicked_in shared.now.table.slots note) (IsAllSent self.old.core tick)
            self.old.pass.view self.new.pass.view) }
        ensures part { OnErr result (IsKicked (kicked_in shared.now.table.slots note) (IsPartSent self.old.core tick)
            self.old.pass.view self.new.pass.view) }
        ensures rest { self.new ≡ with_pass self.new.pass self.old }
    {
        if note.kind != KICK || note.slot >= shared.table.slots() {
            return Ok(());
        }
        let flow = FlowId {
            slot: note.slot,
            generation: note.generation,
        };
        send(&shared.table, &mut self.pass, flow, self.core, tick)
    }
}

/// Puts a frame that was handled where its answer says.
fn place(deferred: &mut PassedFrames, exceptions: &mut PassedFrames, frame: Frame, handled: Handled)
    requires room { (0 < deferred.old.spare) × (0 < exceptions.old.spare) }
    ensures deferred { deferred.new.list ≡ deferred.old.list ++ deferred_by frame handled }
    ensures exceptions { exceptions.new.list ≡ exceptions.old.list ++ exceptions_by frame handled }
{
    let Handled::Passed(passed) = handled else {
        return;
    };
    let passed_frame = PassedFrame { frame, passed };
    match passed {
        Passed::Busy(_) | Passed::Moved(_, _) => deferred.put(passed_frame),
        _ => exceptions.put(passed_frame),
    }
}
