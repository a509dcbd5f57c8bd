// A SYN that is of no flow.
ghost use Rattle.std.specs.Prelude.{◌≡◌, ◌<◌, Some, length, IfOk, OnOk, OnErr};
ghost use Rattle.flow_lock.specs.Answers.{next_in};
ghost use Rattle.flow_lock.specs.Steps.{MayAct};
ghost use Rattle.app_reaper.specs.OneCall.{history};
ghost use Rattle.slow_worker.specs.Workers.{sight_of, with_sight, IsSound};
ghost use Rattle.slow_worker.specs.Opening.{with_open, IsIndexed, IsTouched, IsOpened, IsUnopened};
ghost use Rattle.slow_worker.specs.Serving.{asked_of, IsOpenedIn, IsUnopenedIn, IsMet, IsUnmet};

use crate::meeting::opens;
use crate::served::Served;
use crate::worker::SlowWorker;
use core_worker::{Kick, tuple_of};
use flow_index::IndexWriter;
use flow_lock::{FlowTable, Pin, SlowPass};
use flow_state::FlowRecord;
use segment_fields::Segment;
use slow_handshake::{NumberSource, SynAnswer};
use std::alloc::AllocError;
use std::sync::Wait;
use tas_model::{FlowId, FourTuple, FrameId};
use tas_num::Seq;

/// Shows readers of the index that the four-tuple is the flow's. The error is want of memory, and then the change may
/// be pending.
pub(crate) fn show<R: Wait>(
    rt: &R,
    index: &mut IndexWriter,
    tuple: FourTuple,
    id: FlowId,
) -> Result<(), AllocError>
    ensures shown { OnOk result (IsIndexed tuple id index.old index.new) }
    ensures touched { OnErr result (IsTouched tuple id index.old index.new) }
{
    index.put(tuple, id)?;
    index.publish(rt)
}

/// Opens the next flow for the record, and answers the slow path's pin.
fn open_next(
    table: &FlowTable<FlowRecord>,
    pass: &mut SlowPass<FlowRecord>,
    flow: FlowRecord,
) -> Pin
    requires pass { (pass.old.table ≡ table.now) × MayAct pass.old.view }
    requires few { pass.old.view.opened < 4294967295 }
    requires next { next_in pass.old.view.marks ≡ Some flow.id }
    requires first { length flow.entries ≡ 1 }
    ensures pin { result ≡ flow.id }
    ensures opened { pass.new ≡ with_open flow.id (history flow) pass.old }
{
    match table.open_flow(pass, flow) {
        Ok((_, pin)) => pin,
        Err(_) => unreachable!(),
    }
}

impl SlowWorker {
    /// A segment that is of no flow meets a listener, or none. The error is want of memory.
    pub(crate) fn meet<R: Wait, N: NumberSource>(
        &mut self,
        rt: &R,
        table: &FlowTable<FlowRecord>,
        numbers: &N,
        tick: u32,
        frame: FrameId,
        seg: &Segment<'_>,
    ) -> Result<Served, AllocError>
        requires kept { IsSound table.now (sight_of self.old) }
        ensures kept { IsSound table.now (sight_of self.new) }
        ensures met { IfOk result (IsMet (asked_of self.old.path seg.now) (N.number numbers.now) tick frame seg.now
            (sight_of self.old) (sight_of self.new)) }
        ensures unmet { OnErr result (IsUnmet (asked_of self.old.path seg.now) seg.now
            (sight_of self.old) (sight_of self.new)) }
        ensures senders { self.new.senders ≡ self.old.senders }
        ensures rest { self.new ≡ with_sight (sight_of self.new) self.old }
    {
        if !opens(seg) {
            return self.answer_stray(tick, frame, seg);
        }
        match self.path.syn(seg) {
            SynAnswer::NoListener => self.answer_stray(tick, frame, seg),
            SynAnswer::BacklogFull(_) => self.drop_frame(tick, frame, true),
            SynAnswer::Opens => self.open_for(rt, table, numbers, tick, frame, seg),
        }
    }

    /// Opens the lowest free slot for a SYN that a listener takes, or drops it for want of one. After 4,294,967,295
    /// openings no number is left for a further one: that is told as want of memory.
    fn open_for<R: Wait, N: NumberSource>(
        &mut self,
        rt: &R,
        table: &FlowTable<FlowRecord>,
        numbers: &N,
        tick: u32,
        frame: FrameId,
        seg: &Segment<'_>,
    ) -> Result<Served, AllocError>
        requires kept { IsSound table.now (sight_of self.old) }
        ensures kept { IsSound table.now (sight_of self.new) }
        ensures opened { IfOk result (IsOpenedIn (next_in self.old.pass.view.marks) (N.number numbers.now) tick frame
            seg.now (sight_of self.old) (sight_of self.new)) }
        ensures unopened { OnErr result (IsUnopenedIn (next_in self.old.pass.view.marks) seg.now
            (sight_of self.old) (sight_of self.new)) }
        ensures senders { self.new.senders ≡ self.old.senders }
        ensures rest { self.new ≡ with_sight (sight_of self.new) self.old }
    {
        let Some(id) = self.pass.next_flow() else {
            return self.drop_frame(tick, frame, false);
        };
        if self.pass.opened() == u32::MAX {
            return Err(AllocError);
        }
        let iss = numbers.first_number(tuple_of(seg), self.pass.opened());
        self.open(rt, table, tick, iss, frame, id, seg)?;
        Ok(Served::Opened(id))
    }

    /// Opens the next flow for a SYN, with this first number: it has a record, the slow path's pin, and a place in all
    /// lists, and it is kicked. All that may want memory comes before the table changes.
    fn open<R: Wait>(
        &mut self,
        rt: &R,
        table: &FlowTable<FlowRecord>,
        tick: u32,
        iss: Seq,
        frame: FrameId,
        id: FlowId,
        seg: &Segment<'_>,
    ) -> Result<(), AllocError>
        requires kept { IsSound table.now (sight_of self.old) }
        requires next { next_in self.old.pass.view.marks ≡ Some id }
        requires slot { id.slot < table.now.slots }
        requires few { self.old.pass.view.opened < 4294967295 }
        ensures kept { IsSound table.now (sight_of self.new) }
        ensures opened { OnOk result (IsOpened tick iss frame seg.now id (sight_of self.old) (sight_of self.new)) }
        ensures unopened { OnErr result (IsUnopened seg.now id (sight_of self.old) (sight_of self.new)) }
        ensures senders { self.new.senders ≡ self.old.senders }
        ensures rest { self.new ≡ with_sight (sight_of self.new) self.old }
    {
        let tuple = tuple_of(seg);
        self.pins.reserve()?;
        self.flows.reserve()?;
        self.kicks.reserve()?;
        self.path.next_iss();
        let params = self.path.params();
        let flow = FlowRecord::passive(self.alloc, id, tuple, params, iss, frame, seg, tick)?;
        let kick = Kick::of(&flow);
        show(rt, &mut self.index, tuple, id)?;
        self.path.opened(id, seg.dport)?;
        self.pins.put(open_next(table, &mut self.pass, flow));
        self.flows.put(tuple, id);
        self.kicks.put_some(kick);
        Ok(())
    }
}
