//! The worker of the slow path: what it keeps between two turns.

ghost use Rattle.std.specs.Prelude.{◌≡◌, ◌<◌, ◌+◌, ◌++◌, ◌∷◌, true, [], IfOk, IsOk, OnOk, OnErr};
ghost use Rattle.slow_worker.specs.Workers.{sight_of, with_sight, waiting, first_sight};
ghost use Rattle.slow_worker.specs.Workers.{IsSound, HasSenders, setting_of};
ghost use Rattle.slow_worker.specs.Opening.{IsKnown, IsUnknown};
ghost use Rattle.slow_worker.specs.Serving.{with_line, IsServed, IsUnserved};

use crate::clock::Clock;
use crate::kicking::Kickers;
use crate::known::KnownFlows;
use crate::opening::show;
use crate::served::Served;
use app_reaper::{FiledList, PinList};
use context_queue::SenderPass;
use core_worker::{AppSenders, KickList, PassedFrame, PassedFrames, Shared, tuple_of};
use flow_index::{IndexReader, IndexWriter};
use flow_lock::SlowPass;
use flow_state::FlowRecord;
use segment_fields::read;
use slow_handshake::{NumberSource, SlowPath};
use std::alloc::{AllocError, Global};
use std::collections::VecDeque;
use std::marker::Model;
use std::sync::Wait;
use steering::SteerPass;
use tas_core::{HostLog, LogEvent, LogLine};
use tas_model::{Bytes, FlowId, FourTuple, FrameId};

/// The worker of a host's slow path. It takes the frames that cores passed on.
///
/// It is no `Drop`, since the index's writer is none.
pub struct SlowWorker {
    /// The flows that are being opened.
    pub path: SlowPath,
    /// Its way to the table of flows. At each call it holds no record.
    pub pass: SlowPass<FlowRecord>,
    /// The slow path's pin of each open flow.
    pub pins: PinList,
    /// The records of flows that were freed.
    pub filed: FiledList,
    /// What happened outside of every flow.
    pub log: HostLog,
    /// Whether it looks at the checksums of packets.
    pub check_sums: bool,
    pub(crate) alloc: Global,
    /// The slow path's pins of closed flows that other passes have pins of.
    pub(crate) doomed: PinList,
    pub(crate) flows: KnownFlows,
    pub(crate) index: IndexWriter,
    pub(crate) deferred: PassedFrames,
    pub(crate) exceptions: PassedFrames,
    /// How far time has passed for the flows.
    pub(crate) time: Clock,
    pub(crate) senders: AppSenders,
    /// Kicks that weren't posted yet.
    pub(crate) kicks: KickList,
    pub(crate) kickers: Kickers,
}

impl Model for SlowWorker {
    ghost use Rattle.slow_worker.specs.Workers.{Worker};

    ghost Value = { Worker };

    ghost view = { λ w. record {
      path = w.path;
      pass = w.pass;
      pins = w.pins.list;
      doomed = w.doomed.list;
      filed = w.filed.list;
      log = w.log;
      check_sums = w.check_sums;
      flows = w.flows.list;
      index = w.index;
      deferred = w.deferred;
      exceptions = w.exceptions;
      time = w.time;
      senders = w.senders;
      kicks = w.kicks.list;
      kickers = w.kickers;
    } };
}

/// What a slow path's worker leaves behind.
#[derive(Drop)]
pub struct SlowRemains {
    pub path: SlowPath,
    pub pass: SlowPass<FlowRecord>,
    pub pins: PinList,
    pub doomed: PinList,
    pub filed: FiledList,
    pub log: HostLog,
    /// The exceptions that weren't handled, the first first.
    pub exceptions: VecDeque<PassedFrame>,
    /// The deferred frames that weren't handled, the first first.
    pub deferred: VecDeque<PassedFrame>,
}

impl SlowWorker {
    /// The worker of a host's slow path, which knows no flow, and kicks no core yet. It takes no memory.
    pub fn new(
        alloc: Global,
        path: SlowPath,
        pass: SlowPass<FlowRecord>,
        index: IndexWriter,
        steer: SteerPass,
    ) -> SlowWorker
        ensures sight { sight_of result ≡ first_sight path pass index }
        ensures filed { result.filed ≡ [] }
        ensures waiting { waiting result ≡ [] }
        ensures check_sums { result.check_sums ≡ true }
        ensures time { result.time ≡ Clock.New }
        ensures kickers { result.kickers ≡ record { steer = steer; senders = [] } }
    {
        SlowWorker {
            path,
            pass,
            pins: PinList::new(alloc),
            filed: FiledList::new(alloc),
            log: HostLog::new(alloc),
            check_sums: true,
            alloc,
            doomed: PinList::new(alloc),
            flows: KnownFlows::new(alloc),
            index,
            deferred: PassedFrames::new(alloc),
            exceptions: PassedFrames::new(alloc),
            time: Clock::New,
            senders: AppSenders::new(alloc),
            kicks: KickList::new(alloc),
            kickers: Kickers::new(alloc, steer),
        }
    }

    /// A further reader of the index, for a core; its writer was made for more readers than were made before.
    pub fn reader<R: Wait>(&mut self, rt: &R) -> Result<IndexReader, AllocError>
        requires left { 0 < self.old.index.left }
        ensures made { IsOk result }
        ensures new { IfOk result (λ reader. reader ≡ []) }
        ensures kept { (self.new.index.published ≡ self.old.index.published)
            × (self.new.index.pending ≡ self.old.index.pending) × (self.new.index.left + 1 ≡ self.old.index.left) }
        ensures rest { self.new ≡ record self.old { index = self.new.index } }
    {
        self.index.reader(rt)
    }

    /// Adds a sender of an application's queue. The error is want of memory, and then the sender is gone and all else
    /// as it was.
    pub fn add_sender(&mut self, app: u32, sender: SenderPass) -> Result<(), AllocError>
        ensures ok { OnOk result (self.new ≡ record self.old {
          senders = self.old.senders ++ record { app = app; sender = sender } ∷ [];
        }) }
        ensures err { OnErr result (self.new ≡ self.old) }
    {
        self.senders.add(app, sender)
    }

    /// Adds the sender of the next core's queue of kicks, that of core 0 first. The error is want of memory, and then
    /// the sender is gone and all else as it was.
    pub fn add_kicker(&mut self, sender: SenderPass) -> Result<(), AllocError>
        ensures ok { OnOk result (self.new ≡ record self.old {
          kickers = record self.old.kickers { senders = self.old.kickers.senders ++ sender ∷ [] };
        }) }
        ensures err { OnErr result (self.new ≡ self.old) }
    {
        self.kickers.add(sender)
    }

    /// A flow that an application opened receives the segments of its four-tuple from now on. The error is want of
    /// memory; then it doesn't, but the index may show it.
    pub fn know<R: Wait>(&mut self, rt: &R, tuple: FourTuple, id: FlowId) -> Result<(), AllocError>
        ensures known { OnOk result (IsKnown tuple id (sight_of self.old) (sight_of self.new)) }
        ensures unknown { OnErr result (IsUnknown tuple id (sight_of self.old) (sight_of self.new)) }
        ensures rest { self.new ≡ with_sight (sight_of self.new) self.old }
    {
        self.flows.reserve()?;
        show(rt, &mut self.index, tuple, id)?;
        self.flows.put(tuple, id);
        Ok(())
    }

    /// Ends the worker, and leaves the frames that still wait. It waits for the readers of the index that read.
    pub fn end<R: Wait>(self, rt: &R) -> SlowRemains
        ensures path { result.path ≡ self.path }
        ensures pass { result.pass ≡ self.pass }
        ensures pins { result.pins.list ≡ self.pins }
        ensures doomed { result.doomed.list ≡ self.doomed }
        ensures filed { result.filed.list ≡ self.filed }
        ensures log { result.log ≡ self.log }
        ensures exceptions { result.exceptions.items ≡ self.exceptions.list }
        ensures deferred { result.deferred.items ≡ self.deferred.list }
    {
        let SlowWorker {
            path,
            pass,
            pins,
            filed,
            log,
            check_sums: _,
            alloc: _,
            doomed,
            flows: _,
            index,
            deferred,
            exceptions,
            time: _,
            senders: _,
            kicks: _,
            kickers: _,
        } = self;
        index.end(rt);
        SlowRemains {
            path,
            pass,
            pins,
            doomed,
            filed,
            log,
            exceptions: exceptions.into_frames(),
            deferred: deferred.into_frames(),
        }
    }

    /// Handles one frame: its packet is read, and the segment is received by the flow that has its four-tuple, whose
    /// application is told what that brought, or it meets a listener, or is a stray. A flow that it opens has the first
    /// number that the source has for it. The error is want of memory, or that no number is left for an opening, and
    /// then the frame made no entry, no flow, no line and no note.
    pub fn frame<R: Wait, N: NumberSource>(
        &mut self,
        rt: &R,
        shared: &Shared,
        numbers: &N,
        tick: u32,
        id: FrameId,
        packet: &Bytes,
    ) -> Result<Served, AllocError>
        requires kept { IsSound shared.now.table (sight_of self.old) }
        requires senders { HasSenders shared.now self.old }
        ensures kept { IsSound shared.now.table (sight_of self.new) }
        ensures senders { HasSenders shared.now self.new }
        ensures served { IfOk result (IsServed (setting_of (N.number numbers.now) shared.now tick self.old) id
            packet.now (sight_of self.old) (sight_of self.new)) }
        ensures unserved { OnErr result (IsUnserved (setting_of (N.number numbers.now) shared.now tick self.old)
            packet.now (sight_of self.old) (sight_of self.new)) }
        ensures rest { self.new ≡ with_sight (sight_of self.new) self.old }
    {
        let seg = match read(packet.as_slice(), self.check_sums) {
            Ok(seg) => seg,
            Err(refused) => return self.refuse(tick, id, refused.number()),
        };
        match self.flows.find(tuple_of(&seg)) {
            Some(flow) => self.enter(rt, shared, tick, id, flow, &seg),
            None => self.meet(rt, &shared.table, numbers, tick, id, &seg),
        }
    }

    /// Writes a line. The error is want of memory, and leaves all as it was.
    pub(crate) fn note(&mut self, tick: u32, event: LogEvent) -> Result<(), AllocError>
        ensures sight { OnOk result (sight_of self.new ≡ with_line tick event (sight_of self.old)) }
        ensures senders { self.new.senders ≡ self.old.senders }
        ensures rest { self.new ≡ with_sight (sight_of self.new) self.old }
        ensures err { OnErr result (self.new ≡ self.old) }
    {
        self.log.add(LogLine { tick, event })
    }
}
