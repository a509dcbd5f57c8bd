//! One flow while the run goes on, with who has its socket.

ghost use Rattle.std.specs.Prelude.{◌≡◌, ℕ, ◌∷◌, [], ◌==◌, ◌||◌, ◌&&◌, ◌<◌, ◌≤◌, ◌^◌, ◌++◌, not, true, false, length};
ghost use Rattle.std.specs.Prelude.{take, if◌then◌else◌, is_some, OnOk, IfOk};
ghost use Rattle.tas_model.specs.declared.entry.Call.TheVariants as calls;
ghost use Rattle.tas_model.specs.declared.entry.Caller.TheVariants.{Slow, Core, App};
ghost use Rattle.tas_model.specs.LegalHistory.{Legal};
ghost use Rattle.tas_model.specs.NextSegment.{going};
ghost use Rattle.tas_model.specs.Valid.{InRange};
ghost use Rattle.flow_state.specs.Calls.{seg_of, answer_of, call_of, offer_of, IsSmall};
ghost use Rattle.flow_state.specs.App.{column_of, IsAppCall};
ghost use Rattle.flow_state.specs.Flow.{reply_to};
ghost use Rattle.tas_model.specs.ApplicationCalls.{column};
ghost use Rattle.host_rounds.specs.Hosts.{Live, same_tuple, is_indexed_as, is_in_slot, endpoint, with_call, is_over};
ghost use Rattle.host_rounds.specs.Hosts.{is_running, is_held, first_entry, is_ready, waits_at, is_waiting_by};
ghost use Rattle.host_rounds.specs.Deliveries.{received, is_fast};
ghost use Rattle.host_rounds.specs.Upkeep.{swept, timed, controlled, quieted};
ghost use Rattle.host_rounds.specs.Upkeep.{is_control_tick as model_control_tick};
ghost use Rattle.local_host.specs.Arriving.{arrival_in, taking_in};
ghost use Rattle.local_host.specs.Lanes.{is_taken, worked_frame};
ghost use Rattle.local_host.specs.Index.{is_standing, is_settled};
ghost use Rattle.local_host.specs.Lacking.{LacksTicks};
ghost use Rattle.local_host.specs.declared.live.Holder.TheVariants as Holder;
ghost use Rattle.local_host.specs.Live.{flow_in, flow_left, holder_in, IsLegal, opened_live, IsNext};
ghost use Rattle.local_host.specs.Ports.{MayAsk};

use crate::arrival::{Arrival, Packet, Taking};
use crate::calls::{make, pass_one, taken};
use crate::reading::{first_number, is_closed, is_control_tick, sent_count, stage_of};
use crate::sleep::{AWAKE, Sleep, rest, wake};
use capture_items::is_same_tuple;
use fast_rx::FastRx;
use fast_tx::{FastTx, next_out};
use flow_state::{Answer, AppCalls, CallIn, FlowHistory, FlowRecord, Stage};
use segment_fields::Segment;
use slow_handshake::SlowRx;
use slow_timeout::TimerWork;
use std::alloc::{AllocError, Global};
use std::marker::Model;
use tas_model::{Caller, FlowId, FourTuple, FrameId, HostParams};
use tas_num::Seq;

/// Who has the socket of a flow.
#[derive(Clone, Copy, Debug)]
pub enum Holder {
    /// Nobody yet: a SYN opened the flow, and no application accepted it.
    Waiting,
    /// The application with this number.
    Application(u32),
    /// Nobody any more.
    GivenUp,
}

/// The parameters of flows that stand in for others: they take the least memory.
const SMALLEST: HostParams = HostParams {
    addr: 0,
    iss: 0,
    ring: 256,
    mss: 64,
    rto: 1,
    slots: 1,
    backlog: 1,
    fixed: true,
    scale: None,
};

/// A flow of the host, seen as that flow in the middle of a run.
#[derive(Drop)]
pub struct LiveFlow {
    /// The ticks that its record lacks.
    sleep: Sleep,
    history: FlowRecord,
    /// The index leads frames of its four-tuple to it.
    indexed: bool,
    holder: Holder,
    /// Its record was filed, and its slot is free again.
    filed: bool,
}

impl Model for LiveFlow {
    ghost use Rattle.host_rounds.specs.Hosts.{Live};

    ghost Value = { Live };

    ghost use Rattle.local_host.specs.Inside.{live_of, IsLive};

    ghost view = { live_of };

    ghost invariant = { IsLive };
}

impl LiveFlow {
    /// A flow that the peer's SYN opened. The error is want of memory.
    pub fn opened_by_syn(
        alloc: Global,
        id: FlowId,
        tuple: FourTuple,
        params: &HostParams,
        iss: Seq,
        frame: FrameId,
        seg: &Segment<'_>,
        tick: u32,
    ) -> Result<LiveFlow, AllocError>
        requires ranges { InRange params.now }
        ensures { IfOk result (λ l. l ≡ opened_live id tuple params.now (holder_in Holder.Waiting)
            (first_entry Slow tick (calls.Passive frame iss (seg_of seg.now)))) }
    {
        let history = FlowRecord::passive(alloc, id, tuple, params, iss, frame, seg, tick)?;
        Ok(LiveFlow::fresh(history, Holder::Waiting))
    }

    /// A flow that an application connects. The error is want of memory.
    pub fn connected(
        alloc: Global,
        id: FlowId,
        tuple: FourTuple,
        params: &HostParams,
        iss: Seq,
        app: u32,
        tick: u32,
    ) -> Result<LiveFlow, AllocError>
        requires ranges { InRange params.now }
        ensures { IfOk result (λ l. l ≡ opened_live id tuple params.now (holder_in (Holder.Application app))
            (first_entry (App app) tick (calls.Connect iss))) }
    {
        let history = FlowRecord::connect(alloc, id, tuple, params, iss, Caller::App(app), tick)?;
        Ok(LiveFlow::fresh(history, Holder::Application(app)))
    }

    /// The flow of a record that has just been made.
    fn fresh(history: FlowRecord, holder: Holder) -> LiveFlow
        ensures { result ≡ record { flow = flow_in history; indexed = true; holder = holder_in holder; filed = false } }
    {
        LiveFlow {
            history,
            sleep: AWAKE,
            indexed: true,
            holder,
            filed: false,
        }
    }

    /// Which flow it is.
    pub fn id(&self) -> FlowId
        ensures { result ≡ self.now.flow.id }
    {
        self.history.id()
    }

    /// Whether it is of this four-tuple.
    pub fn is_of(&self, tuple: &FourTuple) -> bool
        ensures { result ≡ same_tuple tuple.now self.now.flow.tuple }
    {
        is_same_tuple(tuple, &self.history.tuple())
    }

    /// Whether the index leads frames of this four-tuple to it.
    pub fn is_indexed_as(&self, tuple: &FourTuple) -> bool
        ensures { result ≡ is_indexed_as tuple.now self.now }
    {
        self.indexed && is_same_tuple(tuple, &self.history.tuple())
    }

    /// Whether its record stands in this slot.
    pub fn is_in_slot(&self, slot: u32) -> bool
        ensures { result ≡ is_in_slot slot self.now }
    {
        !self.filed && self.history.id().slot == slot
    }

    /// Whether its record is not filed.
    pub fn is_standing(&self) -> bool
        ensures { result ≡ is_standing self.now }
    {
        !self.filed
    }

    /// Who has its socket.
    pub fn holder(&self) -> Holder
        ensures { holder_in result ≡ self.now.holder }
    {
        self.holder
    }

    /// Whether an application has its socket.
    pub fn is_held(&self) -> bool
        ensures { result ≡ is_held self.now }
    {
        matches!(self.holder, Holder::Application(_))
    }

    /// Whether it is CLOSED.
    pub fn is_over(&self) -> bool
        ensures { result ≡ is_over self.now }
    {
        let _parts = self.history.parts();
        !self.sleep.is_asleep() && is_closed(&self.history)
    }

    /// Whether it has this port, and nobody has its socket yet.
    fn is_unclaimed_at(&self, port: u16) -> bool
        ensures { result ≡ (self.now.flow.tuple.lport == port && is_waiting_by self.now.holder) }
    {
        self.history.tuple().lport == port && matches!(self.holder, Holder::Waiting)
    }

    /// Whether it waits at the port: it is neither accepted nor closed.
    pub fn waits_at(&self, port: u16) -> bool
        ensures { result ≡ waits_at port self.now }
    {
        self.is_unclaimed_at(port) && !self.is_over()
    }

    /// Whether it waits at the port and is past its opening: it may be accepted.
    pub fn is_ready(&self, port: u16) -> bool
        ensures { result ≡ is_ready port self.now }
    {
        self.is_unclaimed_at(port) && matches!(self.stage(), Stage::Running)
    }

    /// Where it stands in the table of calls.
    pub fn stage(&self) -> Stage
        ensures { column_of result ≡ column (endpoint self.now) }
    {
        // What ticks leave as it was is told of a legal history.
        let _parts = self.history.parts();
        stage_of(&self.history)
    }

    /// Its own first sequence number.
    pub fn iss(&self) -> Seq
        ensures { result.0 ≡ (endpoint self.now).iss }
    {
        let _parts = self.history.parts();
        first_number(&self.history)
    }

    /// How many bytes its Sends took.
    pub fn sent_count(&self) -> u128
        ensures count { result ≡ length (endpoint self.now).tx.out }
        ensures near { result < 2 ^ 127 }
    {
        let _parts = self.history.parts();
        sent_count(&self.history)
    }

    /// Whether a sweep leaves it as it is.
    pub fn is_settled(&self) -> bool
        ensures { result ≡ is_settled self.now }
    {
        if !self.is_over() {
            return true;
        }
        !self.indexed && (self.filed || self.is_held())
    }

    /// Where it is closed it leaves the index, and its slot too where no application holds it. Then it gives back the
    /// memory that it has no use for any more.
    pub fn sweep(&mut self)
        ensures { self.new ≡ swept self.old }
    {
        if !self.is_over() {
            return;
        }
        self.indexed = false;
        if self.filed || self.is_held() {
            return;
        }
        self.filed = true;
        self.history.release();
    }

    /// One tick passes, unless it is closed, and its rate is controlled where that is due. The error is want of memory.
    #[inline(always)]
    pub fn tick(&mut self, tick: u32) -> Result<(), AllocError>
        ensures { OnOk result (self.new ≡ timed Slow tick self.old) }
    {
        // What ticks leave as it was is told of a legal history.
        let _parts = self.history.parts();
        if self.is_control_due(tick) {
            return self.tick_awake(tick);
        }
        if self.sleep.pass(tick) {
            return Ok(());
        }
        self.tick_awake(tick)
    }

    /// Whether its rate may be controlled in this tick. Its record is looked at in each tenth tick alone.
    #[inline(always)]
    fn is_control_due(&self, tick: u32) -> bool
        ensures { result ≡ model_control_tick self.now.flow.params.fixed tick }
    {
        tick % 10 == 0 && is_control_tick(self.history.params().fixed, tick)
    }

    /// The same of one that may not sleep through it.
    fn tick_awake(&mut self, tick: u32) -> Result<(), AllocError>
        ensures { OnOk result (self.new ≡ timed Slow tick self.old) }
    {
        let slept = self.sleep;
        self.sleep = AWAKE;
        wake(&mut self.history, &slept)?;
        if is_closed(&self.history) {
            return Ok(());
        }
        pass_one(&mut self.history, tick)?;
        control(&mut self.history, tick)?;
        self.sleep = rest(&self.history);
        Ok(())
    }

    /// A segment comes to it: in serial order by the fast path of core 0 where it is one for that, and else by the slow
    /// path. The error is want of memory.
    pub(crate) fn receive(
        &mut self,
        taking: Taking,
        tick: u32,
        frame: FrameId,
        seg: &Segment<'_>,
    ) -> Result<(), AllocError>
        ensures { OnOk result (self.new ≡ taking_in taking tick frame (seg_of seg.now) self.old) }
    {
        if let Taking::Serially = taking {
            if self.take_segment(0, tick, frame, seg)? {
                return Ok(());
            }
        }
        let slept = self.sleep;
        self.sleep = AWAKE;
        wake(&mut self.history, &slept)?;
        let call = CallIn::Rx { frame, seg: *seg };
        make(&mut self.history, Caller::Slow, tick, &call, &SlowRx)?;
        Ok(())
    }

    /// A segment comes to it on a core, which takes it where it is one for the fast path, and says whether. The error
    /// is want of memory.
    fn take_segment(
        &mut self,
        core: u32,
        tick: u32,
        frame: FrameId,
        seg: &Segment<'_>,
    ) -> Result<bool, AllocError>
        ensures made { IfOk result (λ taken. self.new
            ≡ (if taken then received (Core core) tick frame (seg_of seg.now) self.old else self.old)) }
        ensures taken { IfOk result (λ taken. taken ≡ is_fast (endpoint self.old) (seg_of seg.now)) }
    {
        let slept = self.sleep;
        self.sleep = AWAKE;
        wake(&mut self.history, &slept)?;
        // Its phase is that of its history.
        let _parts = self.history.parts();
        let call = CallIn::Rx { frame, seg: *seg };
        let answer = self.history.act(Caller::Core(core), tick, &call, &FastRx)?;
        Ok(answer.is_some())
    }

    /// A flow that stands in the place of one that a core has. The index has it under no four-tuple. The error is want
    /// of memory.
    pub(crate) fn stand_in(alloc: Global) -> Result<LiveFlow, AllocError>
        ensures { IfOk result (λ l. l.indexed ≡ false) }
    {
        let id = FlowId {
            slot: 0,
            generation: 0,
        };
        let nowhere = FourTuple {
            laddr: 0,
            lport: 0,
            raddr: 0,
            rport: 0,
        };
        let mut flow = LiveFlow::connected(alloc, id, nowhere, &SMALLEST, Seq(0), 0, 0)?;
        flow.indexed = false;
        Ok(flow)
    }

    /// The index has it under no four-tuple any more.
    pub(crate) fn leave_index(&mut self)
        ensures { self.new.indexed ≡ false }
    {
        self.indexed = false;
    }

    /// Whether the index has it under its four-tuple.
    pub(crate) fn is_indexed(&self) -> bool
        ensures { result ≡ self.now.indexed }
    {
        self.indexed
    }

    /// A frame comes to it on a core, which takes it where it is one for the fast path, and says whether. The error is
    /// want of memory.
    pub(crate) fn take(
        &mut self,
        core: u32,
        tick: u32,
        arrival: &Arrival<'_>,
    ) -> Result<bool, AllocError>
        ensures made { OnOk result (self.new ≡ worked_frame core tick (arrival_in arrival.now) self.old) }
        ensures taken { IfOk result (λ taken. taken ≡ is_taken (arrival_in arrival.now).packet self.old) }
    {
        match arrival.packet {
            Packet::Damaged(_) => Ok(false),
            Packet::Segment(_, seg) => self.take_segment(core, tick, arrival.frame, &seg),
        }
    }

    /// An application accepts it, where it stands. The error is want of memory.
    pub fn accept(&mut self, app: u32, tick: u32) -> Result<(), AllocError>
        requires { is_running self.old ≡ true }
        ensures { OnOk result (self.new ≡ record (with_call self.old (App app) tick calls.Accept [])
            { holder = holder_in (Holder.Application app) }) }
    {
        self.ask(Caller::App(app), tick, &CallIn::Accept)?;
        self.holder = Holder::Application(app);
        Ok(())
    }

    /// An application offers bytes, and is told how many of them were taken. The error is want of memory.
    pub fn offer(&mut self, app: u32, tick: u32, bytes: &[u8]) -> Result<usize, AllocError>
        requires small { length bytes.now < 2 ^ 32 }
        ensures made { OnOk result (self.new ≡ with_call self.old (App app) tick
            (calls.Send (length bytes.now)) bytes.now) }
        ensures few { IfOk result (λ n. n ≤ length bytes.now) }
        ensures out { IfOk result (λ n. (endpoint self.new).tx.out ≡ (endpoint self.old).tx.out ++ take n bytes.now) }
    {
        // Its history is legal before the call and after it.
        self.know_legal();
        let answer = self.ask(Caller::App(app), tick, &CallIn::Send { bytes })?;
        self.know_legal();
        Ok(taken(answer))
    }

    /// Its history is legal, with parameters in their ranges.
    fn know_legal(&self)
        ensures legal { InRange self.now.flow.params × Legal self.now.flow.params self.now.flow.entries }
    {
        let _parts = self.history.parts();
    }

    /// It makes a call, by an application or where one was killed by the slow path. The error is want of memory.
    pub fn ask(
        &mut self,
        caller: Caller,
        tick: u32,
        call: &CallIn<'_>,
    ) -> Result<Answer, AllocError>
        requires small { IsSmall call.now }
        requires kind { IsAppCall call.now }
        requires may { MayAsk self.old call.now }
        ensures made { OnOk result (self.new ≡ with_call self.old caller tick (call_of call.now) (offer_of call.now)) }
        ensures answer { IfOk result (λ a. a ≡ answer_of
            (reply_to self.old.flow.params self.old.flow.entries tick (call_of call.now) (offer_of call.now))) }
    {
        let slept = self.sleep;
        self.sleep = AWAKE;
        wake(&mut self.history, &slept)?;
        // Whether an Accept is a step is told by the column of the table of calls.
        let _stage = stage_of(&self.history);
        make(&mut self.history, caller, tick, call, &AppCalls)
    }

    /// Its socket changes hands.
    pub fn hold(&mut self, holder: Holder)
        ensures { self.new ≡ record self.old { holder = holder_in holder } }
    {
        self.holder = holder;
    }

    /// Sends all that may go, by core 0. The error is want of memory.
    pub fn send_all(&mut self, tick: u32) -> Result<(), AllocError>
        ensures { OnOk result (self.new ≡ quieted tick self.old) }
    {
        if !self.may_send() {
            return Ok(());
        }
        while self.emit(tick)? {}
        Ok(())
    }

    /// Whether a segment may go, which a look at the parts of a flow tells that is awake.
    fn may_send(&self) -> bool
        ensures { result ≡ is_some (going (endpoint self.now)) }
    {
        let parts = self.history.parts();
        !self.sleep.is_asleep() && next_out(parts).is_some()
    }

    /// Sends the next segment by core 0, where one may go, and says whether. The error is want of memory.
    fn emit(&mut self, tick: u32) -> Result<bool, AllocError>
        ensures next { IfOk result (λ sent. sent ≡ true → IsNext tick self.old self.new) }
        ensures done { IfOk result (λ sent. sent ≡ false → self.new ≡ quieted tick self.old) }
    {
        let slept = self.sleep;
        self.sleep = AWAKE;
        wake(&mut self.history, &slept)?;
        // Its parts stand for the endpoint of its history.
        let _parts = self.history.parts();
        let answer = self
            .history
            .act(Caller::Core(0), tick, &CallIn::Emit, &FastTx)?;
        Ok(answer.is_some())
    }

    /// Its record, which may lack quiet ticks at the end of its history.
    pub fn record(&self) -> &FlowRecord
        ensures lacks { LacksTicks result.now self.now.flow }
        ensures legal { InRange result.now.params × Legal result.now.params result.now.entries }
    {
        // Its history is legal, with parameters in their ranges.
        let _parts = self.history.parts();
        &self.history
    }

    /// Its history, which is all that it leaves. The error is want of memory.
    #[inline(always)]
    pub fn into_history(self) -> Result<FlowHistory, AllocError>
        ensures flow { IfOk result (λ h. flow_left h ≡ self.flow) }
        ensures legal { IfOk result IsLegal }
    {
        let mut record = self.history;
        wake(&mut record, &self.sleep)?;
        // Its history is legal, with parameters in their ranges.
        let _parts = record.parts();
        Ok(record.into_history())
    }
}

/// The rate of the record's flow is controlled where that is due. The error is want of memory.
fn control(history: &mut FlowRecord, tick: u32) -> Result<(), AllocError>
    ensures { (l : Live) → l.flow ≡ flow_in history.old
        → OnOk result (record l { flow = flow_in history.new } ≡ controlled Slow tick l) }
{
    let fixed = history.params().fixed;
    if is_control_tick(fixed, tick) && matches!(stage_of(history), Stage::Running) {
        make(history, Caller::Slow, tick, &CallIn::Control, &TimerWork)?;
    }
    Ok(())
}
