//! The worker of one core: what it keeps between two turns.

ghost use Rattle.std.specs.Prelude.{◌≡◌, ◌<◌, ◌++◌, ◌∷◌, [], length, IfOk, OnOk, OnErr, IfNone, IfSome};
ghost use Rattle.core_worker.specs.Workers.{sight_of, with_sight, with_frames, with_deferred, with_exceptions, IsFree};
ghost use Rattle.core_worker.specs.Workers.{with_log, with_senders, new_worker, frame_of, HasSenders};
ghost use Rattle.core_worker.specs.Handling.{IsHandled, IsUnhandled, setting_of};

use crate::frames::{Frame, Handled, PassedFrame};
use crate::handed::FrameList;
use crate::handling::{Duty, handle};
use crate::passed::PassedFrames;
use crate::senders::AppSenders;
use crate::shared::Shared;
use context_queue::{ReceiverPass, SenderPass};
use flow_index::IndexReader;
use flow_lock::Pass;
use flow_state::FlowRecord;
use std::alloc::{AllocError, Global};
use std::marker::Model;
use std::sync::Wait;
use tas_core::HostLog;
use tas_model::{Bytes, FrameId};

/// The worker of one core. It handles the frames that were handed to it, and keeps those that it passed on.
#[derive(Drop)]
pub struct CoreWorker {
    /// Its way to the table of flows. At each call it has no pin and holds no record.
    pub pass: Pass<FlowRecord>,
    /// Whether it looks at the checksums of packets.
    pub check_sums: bool,
    pub(crate) core: u32,
    /// The gate's point before each frame; the one after it is the next.
    pub(crate) point: u32,
    pub(crate) reader: IndexReader,
    pub(crate) log: HostLog,
    pub(crate) frames: FrameList,
    pub(crate) deferred: PassedFrames,
    pub(crate) exceptions: PassedFrames,
    pub(crate) kicks: ReceiverPass,
    pub(crate) senders: AppSenders,
}

impl Model for CoreWorker {
    ghost use Rattle.std.specs.Prelude.{◌<◌};
    ghost use Rattle.core_worker.specs.Workers.{Worker};

    ghost Value = { Worker };

    ghost view = { λ w. record {
      core = w.core;
      point = w.point;
      pass = w.pass;
      check_sums = w.check_sums;
      known = w.reader;
      log = w.log;
      frames = w.frames;
      deferred = w.deferred.list;
      exceptions = w.exceptions.list;
      kicks = w.kicks;
      senders = w.senders;
    } };

    ghost invariant = { λ w. w.point < 4294967295 };
}

impl CoreWorker {
    /// The worker of a core, below 16, on a host by its place in the scenario, with empty lists. It takes no memory.
    pub fn new(
        alloc: Global,
        host: u32,
        core: u32,
        pass: Pass<FlowRecord>,
        reader: IndexReader,
        kicks: ReceiverPass,
    ) -> CoreWorker
        requires host { host < 67108863 }
        requires core { core < 16 }
        ensures { result ≡ new_worker host core pass reader kicks }
    {
        CoreWorker {
            pass,
            check_sums: true,
            core,
            point: 64 * host + 2 * core,
            reader,
            log: HostLog::new(alloc),
            frames: FrameList::new(alloc),
            deferred: PassedFrames::new(alloc),
            exceptions: PassedFrames::new(alloc),
            kicks,
            senders: AppSenders::new(alloc),
        }
    }

    /// Adds a sender of an application's queue. The error is want of memory, and then the sender is gone and all else
    /// as it was.
    pub fn add_sender(&mut self, app: u32, sender: SenderPass) -> Result<(), AllocError>
        ensures ok { OnOk result (self.new
            ≡ with_senders (self.old.senders ++ record { app = app; sender = sender } ∷ []) self.old) }
        ensures err { OnErr result (self.new ≡ self.old) }
    {
        self.senders.add(app, sender)
    }

    /// Puts a frame behind those that the worker has to handle. The error is want of memory, and leaves all as it was.
    pub fn hand(&mut self, id: FrameId, packet: Bytes) -> Result<(), AllocError>
        ensures ok { OnOk result (self.new ≡ with_frames (self.old.frames ++ frame_of id packet ∷ []) self.old) }
        ensures err { OnErr result (self.new ≡ self.old) }
    {
        self.frames.push(Frame { id, packet })
    }

    /// Handles one frame, and leaves no pin. The application of the flow that it is entered in is told what it brought.
    /// The error is want of memory, and then the frame made no entry, no line and no note.
    pub fn frame<R: Wait>(
        &mut self,
        rt: &R,
        shared: &Shared,
        tick: u32,
        id: FrameId,
        packet: &Bytes,
    ) -> Result<Handled, AllocError>
        requires free { IsFree shared.now self.old }
        requires senders { HasSenders shared.now self.old }
        ensures free { IsFree shared.now self.new }
        ensures senders { HasSenders shared.now self.new }
        ensures handled { IfOk result (IsHandled (setting_of shared.now tick self.old) id packet.now
            (sight_of self.old) (sight_of self.new)) }
        ensures full { OnErr result (IsUnhandled (setting_of shared.now tick self.old) packet.now
            (sight_of self.old) (sight_of self.new)) }
        ensures rest { self.new ≡ with_sight (sight_of self.new) self.old }
    {
        let duty = Duty {
            core: self.core,
            check_sums: self.check_sums,
            tick,
        };
        handle(
            rt,
            shared,
            duty,
            &mut self.pass,
            &mut self.reader,
            &mut self.log,
            &mut self.senders,
            id,
            packet.as_slice(),
        )
    }

    /// The lines that the worker wrote.
    pub fn log(&self) -> &HostLog
        ensures { result.now ≡ self.now.log }
    {
        &self.log
    }

    /// Takes out the lines that the worker wrote, and leaves it none. It takes no memory.
    pub fn take_log(&mut self, alloc: Global) -> HostLog
        ensures lines { result ≡ self.old.log }
        ensures rest { self.new ≡ with_log [] self.old }
    {
        std::mem::replace(&mut self.log, HostLog::new(alloc))
    }

    /// Moves the lines that the worker wrote behind those of a log. The error is want of memory, and leaves all as it
    /// was.
    pub fn move_log(&mut self, log: &mut HostLog) -> Result<(), AllocError>
        ensures ok { OnOk result ((log.new ≡ log.old ++ self.old.log) × (self.new ≡ with_log [] self.old)) }
        ensures err { OnErr result ((log.new ≡ log.old) × (self.new ≡ self.old)) }
    {
        log.append(&mut self.log)
    }

    /// How many frames there are that another pass stood in the way of.
    pub fn deferred(&self) -> usize
        ensures { result ≡ length self.now.deferred }
    {
        self.deferred.len()
    }

    /// How many frames there are that are left to the slow path for another reason.
    pub fn exceptions(&self) -> usize
        ensures { result ≡ length self.now.exceptions }
    {
        self.exceptions.len()
    }

    /// Takes the first frame out that another pass stood in the way of.
    pub fn take_deferred(&mut self) -> Option<PassedFrame>
        ensures none { IfNone result ((self.old.deferred ≡ []) × (self.new ≡ self.old)) }
        ensures first { IfSome result (λ f. self.old.deferred ≡ f ∷ self.new.deferred) }
        ensures rest { self.new ≡ with_deferred self.new.deferred self.old }
    {
        self.deferred.take_first()
    }

    /// Takes the first frame out that is left to the slow path for another reason.
    pub fn take_exception(&mut self) -> Option<PassedFrame>
        ensures none { IfNone result ((self.old.exceptions ≡ []) × (self.new ≡ self.old)) }
        ensures first { IfSome result (λ f. self.old.exceptions ≡ f ∷ self.new.exceptions) }
        ensures rest { self.new ≡ with_exceptions self.new.exceptions self.old }
    {
        self.exceptions.take_first()
    }
}
