//! One host of a run, on one thread: its flows, its listeners and its log.

ghost use Rattle.std.specs.Prelude.{true, false, ◌≡◌, None, position, slice_get, ◌++◌, ◌∷◌, [], ◌<◌, ◌-◌, ◌^◌, length};
ghost use Rattle.std.specs.Prelude.{◌&&◌, not, map, nat_lt, ◌==◌, ◌+◌, ◌≤◌, All, OnOk, IfOk, IfSome, Some};
ghost use Rattle.std.specs.List.{list_any, list_all, filter};
ghost use Rattle.tas_model.specs.Valid.{InRange};
ghost use Rattle.tas_model.specs.declared.entry.Caller.TheVariants.{App, Slow};
ghost use Rattle.flow_state.specs.Calls.{seg_of, call_of, offer_of, IsSmall};
ghost use Rattle.flow_state.specs.Calls as calls_of;
ghost use Rattle.host_rounds.specs.Moves.{IsAppCall};
ghost use Rattle.host_rounds.specs.declared.log.LogEvent.TheVariants as events;
ghost use Rattle.host_rounds.specs.Lists.{Each};
ghost use Rattle.host_rounds.specs.Hosts.{Host, Live, is_indexed_as, logged, is_known, is_listening, at_flow};
ghost use Rattle.host_rounds.specs.Hosts.{lowest_free, next_generation, next_start, opened_in, flows_of, with_call};
ghost use Rattle.host_rounds.specs.Hosts.{is_listened, is_full, is_ready, is_over, answer_of, first_port, ports_given};
ghost use Rattle.host_rounds.specs.Hosts.{Listener as ModelListener};
ghost use Rattle.host_rounds.specs.Deliveries.{received, received_serially, stray_answer, met_no_flow};
ghost use Rattle.host_rounds.specs.Deliveries.{opened_by_syn as model_opened_by_syn, opens as model_opens, arrived};
ghost use Rattle.host_rounds.specs.Deliveries.{delivered};
ghost use Rattle.host_rounds.specs.SerialOrder.{slow_phase, emit_phase};
ghost use Rattle.core_rounds.specs.CoreTicks.{IsCoresPhase};
ghost use Rattle.tas_runs.specs.Records.{Content, is_remote};
ghost use Rattle.tas_runs.specs.LocalScript.{resets_here};
ghost use Rattle.local_host.specs.Arriving.{arrival_in, taking_in};
ghost use Rattle.local_host.specs.Handing.{IsSteeredPhase};
ghost use Rattle.local_host.specs.SideWork.{IsSidePhase};
ghost use Rattle.local_host.specs.Trying.{AreAnswered, CanTryIt};
ghost use Rattle.local_host.specs.Index.{is_standing, passes_at, standing_places, AreAtRest};
ghost use Rattle.local_host.specs.Script.{asked_all, asked_live};
ghost use Rattle.local_host.specs.Live.{flow_left, holder_in, IsLegal, connected_by};
ghost use Rattle.local_host.specs.Ports.{IsConnecting, MayAsk};

use crate::arrival::{Arrival, Packet, Taking};
use crate::attempts::Attempt;
use crate::cores::SideWork;
use crate::distinct::are_distinct;
use crate::flows::{FIRST_PORT, Flows};
use crate::live::{Holder, LiveFlow};
use crate::script::Shown;
use crate::starts::{StartSource, flow_params};
use flow_state::{Answer, CallIn, FlowHistory};
use host_rounds::Start;
use segment_fields::Segment;
use slow_handshake::stray;
use std::alloc::{AllocError, Global};
use std::marker::Model;
use std::thread::Threads;
use tas_core::{HostLog, KeptSeg, LogEvent, LogLine};
use tas_model::{Bytes, Caller, FlowId, FourTuple, FrameId, Head, HostParams, Seg};
use tas_num::Gate;

/// An application listens on a port.
#[derive(Clone, Copy)]
struct Listener {
    port: u16,
    /// The application's number.
    app: u32,
}

/// A host, seen as that host in the middle of a run. Its ticks go in serial order.
#[derive(Drop)]
pub struct LocalHost {
    alloc: Global,
    params: HostParams,
    listeners: Vec<Listener>,
    log: HostLog,
    flows: Flows,
}

impl Model for LocalHost {
    ghost use Rattle.host_rounds.specs.Hosts.{Host};
    ghost use Rattle.local_host.specs.Ports.{host_of, IsHost};

    ghost Value = { Host };

    ghost view = { λ h. host_of h.params h.listeners.items h.log h.flows };

    ghost invariant = { λ h. IsHost h.params h.listeners.items h.flows };
}

/// What became of a connect.
#[derive(Clone, Copy, Debug)]
pub enum Connecting {
    /// It opened the flow at this place.
    Opened(usize),
    /// No slot was free.
    NoSlot,
    /// All ports were given.
    NoPort,
}

/// What a host leaves when its run is over.
#[derive(Drop)]
pub struct HostEnd {
    /// Its log.
    pub log: HostLog,
    /// The histories of its flows, in the order of their opening.
    pub flows: Vec<FlowHistory>,
}

impl LocalHost {
    /// A host of these parameters, without flows and listeners and with an empty log. It takes no memory.
    pub fn new(alloc: Global, params: HostParams) -> LocalHost
        requires ranges { InRange params }
        ensures { result ≡ record { params = params; listeners = []; log = []; flows = [] } }
    {
        LocalHost {
            alloc,
            params,
            listeners: Vec::new(alloc),
            log: HostLog::new(alloc),
            flows: Flows::new(alloc),
        }
    }

    /// Its parameters.
    pub fn params(&self) -> &HostParams
        ensures { result.now ≡ self.now.params }
    {
        &self.params
    }

    /// How many flows it opened.
    pub fn flow_count(&self) -> usize
        ensures { result ≡ length self.now.flows }
    {
        self.flows.len()
    }

    /// The number of the flow at place `i`, which has 32 bits, as a host opens at most 2^32 - 1 flows.
    pub fn flow_number(&self, i: usize) -> u32
        requires { i < length self.now.flows }
        ensures { result ≡ i }
    {
        // That there are fewer than 2^32 is known of flows that are looked at.
        let _count = self.flows.len();
        i as u32
    }

    /// The place of the flow that the index has under this four-tuple.
    pub fn find(&self, tuple: &FourTuple) -> Option<usize>
        ensures place { result ≡ position (is_indexed_as tuple.now) self.now.flows }
        ensures standing { IfSome result (λ i. passes_at is_standing self.now.flows i ≡ true) }
    {
        self.flows.find(tuple)
    }

    /// The flow at place `i`.
    pub fn flow(&self, i: usize) -> &LiveFlow
        requires { i < length self.now.flows }
        ensures { slice_get self.now.flows i ≡ Some result.now }
    {
        self.flows.get(i)
    }

    /// What it leaves after its last tick. The error is want of memory.
    pub fn finish(self) -> Result<HostEnd, AllocError>
        ensures log { IfOk result (λ end. end.log ≡ self.log) }
        ensures flows { IfOk result (λ end. map flow_left end.flows.items ≡ flows_of self.flows) }
        ensures legal { IfOk result (λ end. Each IsLegal end.flows.items) }
    {
        let flows = self.flows.into_histories(self.alloc)?;
        Ok(HostEnd {
            log: self.log,
            flows,
        })
    }

    /// Its log.
    pub fn log(&self) -> &HostLog
        ensures { result.now ≡ self.now.log }
    {
        &self.log
    }

    /// Appends a line to its log. The error is want of memory.
    #[inline(always)]
    pub fn note(&mut self, tick: u32, event: LogEvent) -> Result<(), AllocError>
        ensures made { OnOk result (self.new ≡ logged self.old tick event) }
        ensures params { self.new.params ≡ self.old.params }
    {
        self.log.add(LogLine { tick, event })
    }

    /// Whether an application listens on the port.
    pub fn is_listened(&self, port: u16) -> bool
        ensures { result ≡ is_listened port self.now }
    {
        self.listeners.iter().any(|listener| listener.port == port)
    }

    /// Whether a listener takes a SYN at the port: one of a replay's host does, and else an application's.
    fn is_listening(&self, port: u16) -> bool
        ensures listening { result ≡ is_listening self.now port }
        ensures low { result ≡ true → self.now.params.fixed ≡ false → port < first_port }
    {
        self.params.fixed || self.is_listened(port)
    }

    /// Whether as many flows wait at the port as its listener takes.
    fn is_full(&self, port: u16) -> bool
        ensures { result ≡ is_full self.now port }
    {
        !self.params.fixed && self.flows.waiting_at(port) >= self.params.backlog as usize
    }

    /// Whether this application listens on the port.
    pub fn has_listener(&self, app: u32, port: u16) -> bool
        ensures { result ≡ list_any (λ (l : ModelListener). l.app == app && l.port == port) self.now.listeners }
    {
        self.listeners
            .iter()
            .any(|listener| listener.app == app && listener.port == port)
    }

    /// The application listens on the port, which is none that connects are given. The error is want of memory.
    pub fn listen(&mut self, port: u16, app: u32) -> Result<(), AllocError>
        requires { port < first_port }
        ensures { OnOk result (self.new ≡ record self.old {
          listeners = self.old.listeners ++ (record { port = port; app = app }) ∷ [];
        }) }
    {
        self.listeners.push(Listener { port, app })?;
        Ok(())
    }

    /// All listeners of the application go.
    pub fn forget(&mut self, app: u32)
        ensures { self.new ≡ record self.old {
          listeners = filter (λ (l : ModelListener). not (l.app == app)) self.old.listeners;
        } }
    {
        self.listeners.retain(|listener| listener.app != app);
    }

    /// The place of the flow that waits at the port and may be accepted, of several the one that was opened first.
    pub fn first_ready(&self, port: u16) -> Option<usize>
        ensures { result ≡ position (is_ready port) self.now.flows }
    {
        self.flows.first_ready(port)
    }

    /// Whether all its flows are closed.
    pub fn is_over(&self) -> bool
        ensures { result ≡ list_all is_over self.now.flows }
    {
        self.flows.are_over()
    }

    /// The places of its flows that are not filed, in order. A filed flow is closed, and nothing that the host does by
    /// itself changes it.
    pub fn standing(&self) -> &[usize]
        ensures places { result.now ≡ standing_places self.now.flows }
        ensures rest { AreAtRest self.now.flows }
    {
        self.flows.standing()
    }

    /// An application connects to the port of a host: a flow is opened in the lowest free slot, from the next port. The
    /// answer says so, or why not; then nothing changed. The error is want of memory.
    pub fn connect_out<S: StartSource>(
        &mut self,
        tick: u32,
        app: u32,
        raddr: u32,
        rport: u16,
        starts: &S,
    ) -> Result<Connecting, AllocError>
        requires { self.old.params.fixed ≡ false }
        ensures { IfOk result (λ answer.
            IsConnecting (S.starts starts.now) tick app raddr rport self.old self.new answer) }
    {
        let Some(slot) = self.flows.lowest_free(self.params.slots) else {
            return Ok(Connecting::NoSlot);
        };
        let Some(lport) = self.next_port() else {
            return Ok(Connecting::NoPort);
        };
        let tuple = FourTuple {
            laddr: self.params.addr,
            lport,
            raddr,
            rport,
        };
        let place = self.flows.len();
        self.open_connected(tick, app, slot, tuple, starts)?;
        Ok(Connecting::Opened(place))
    }

    /// The port that the next connect is given, where one is left.
    fn next_port(&self) -> Option<u16>
        ensures some { IfSome result (λ port. port ≡ first_port + ports_given self.now) }
        ensures none { result ≡ None → nat_lt (first_port + ports_given self.now) (2 ^ 16) ≡ false }
    {
        let given = self.flows.given();
        if given < 0x1_0000 - FIRST_PORT as usize {
            Some(FIRST_PORT + given as u16)
        } else {
            None
        }
    }

    /// The flow at place `i` makes a call, by an application or where one was killed by the slow path. The error is
    /// want of memory.
    pub fn ask(
        &mut self,
        i: usize,
        caller: Caller,
        tick: u32,
        call: &CallIn<'_>,
    ) -> Result<Answer, AllocError>
        requires place { i < length self.old.flows }
        requires small { IsSmall call.now }
        requires kind { IsAppCall caller (call_of call.now) }
        requires may { (l : Live) → slice_get self.old.flows i ≡ Some l → MayAsk l call.now }
        ensures made { OnOk result (self.new ≡ at_flow i
            (λ (l : Live). with_call l caller tick (call_of call.now) (offer_of call.now)) self.old) }
        ensures answer { IfOk result (λ answer. answer ≡ calls_of.answer_of (answer_of i self.new)) }
    {
        self.flows.ask(i, caller, tick, call)
    }

    /// The socket of the flow at place `i` changes hands.
    pub fn hold(&mut self, i: usize, holder: Holder)
        requires { i < length self.old.flows }
        ensures { self.new ≡ at_flow i (λ (l : Live). record l { holder = holder_in holder }) self.old }
    {
        self.flows.hold(i, holder);
    }

    /// The slow path: closed flows are given up, and time passes for the others. The error is want of memory.
    pub fn pass_time(&mut self, tick: u32) -> Result<(), AllocError>
        ensures made { OnOk result (self.new ≡ slow_phase tick self.old) }
        ensures params { self.new.params ≡ self.old.params }
    {
        self.flows.sweep();
        self.flows.pass_time(tick)
    }

    /// All that may go is sent. The error is want of memory.
    pub fn send_all(&mut self, tick: u32) -> Result<(), AllocError>
        ensures made { OnOk result (self.new ≡ emit_phase tick self.old) }
        ensures params { self.new.params ≡ self.old.params }
    {
        self.flows.send_all(tick)
    }

    /// The slow path: closed flows are given up, and time passes for the others, in at most so many parts of them side
    /// by side. The error is want of memory.
    pub fn pass_time_on_cores<R: Threads + Sync>(
        &mut self,
        rt: &R,
        tick: u32,
        threads: u32,
    ) -> Result<(), AllocError>
        ensures made { OnOk result (self.new ≡ slow_phase tick self.old) }
        ensures params { self.new.params ≡ self.old.params }
    {
        self.flows.sweep();
        self.flows.pass_time_on_cores(rt, tick, threads)
    }

    /// All that may go is sent, by at most so many parts of the flows side by side. The error is want of memory.
    pub fn send_all_on_cores<R: Threads + Sync>(
        &mut self,
        rt: &R,
        tick: u32,
        threads: u32,
    ) -> Result<(), AllocError>
        ensures made { OnOk result (self.new ≡ emit_phase tick self.old) }
        ensures params { self.new.params ≡ self.old.params }
    {
        self.flows.send_all_on_cores(rt, tick, threads)
    }

    /// A packet came that breaks the rule of reading with this number. The error is want of memory.
    fn refuse(&mut self, tick: u32, frame: FrameId, number: u8) -> Result<(), AllocError>
        ensures made { OnOk result (self.new ≡ logged self.old tick (events.Refused frame number)) }
        ensures params { self.new.params ≡ self.old.params }
    {
        self.note(tick, LogEvent::Refused { frame, number })
    }

    /// A segment came that is of no flow, at a port where a listener is or none is, and opens none: its answer is a
    /// reset where it wants one. The error is want of memory.
    fn note_stray(
        &mut self,
        tick: u32,
        frame: FrameId,
        tuple: FourTuple,
        seg: &Segment<'_>,
        listening: bool,
    ) -> Result<(), AllocError>
        ensures made { OnOk result (self.new ≡ logged self.old tick
            (events.Stray frame tuple (seg_of seg.now) (stray_answer listening (seg_of seg.now)))) }
        ensures params { self.new.params ≡ self.old.params }
    {
        let answer = stray(seg, listening);
        let seg = owned(self.alloc, seg)?;
        self.note(
            tick,
            LogEvent::Stray {
                frame,
                tuple,
                seg,
                answer,
            },
        )
    }

    /// The id of the next flow in this slot.
    fn next_id(&self, slot: u32) -> FlowId
        requires few { length self.now.flows < 2 ^ 32 - 1 }
        ensures { result ≡ record { slot = slot; generation = next_generation slot self.now.flows } }
    {
        FlowId {
            slot,
            generation: self.flows.next_generation(slot) as u32,
        }
    }

    /// What the next flow of this four-tuple begins with.
    fn next_start<S: StartSource>(&self, tuple: FourTuple, starts: &S) -> Start
        ensures start { result ≡ next_start (S.starts starts.now) self.now tuple }
        ensures shift { IfSome result.scale (λ shift. shift ≤ 14) }
    {
        starts.start(tuple, self.flows.opened_as(&tuple), self.flows.len() as u32)
    }

    /// A SYN for a listener opens a flow in the lowest free slot, and is dropped where as many flows wait as the
    /// listener takes, or no slot is free. The error is want of memory.
    fn open_by_syn<S: StartSource>(
        &mut self,
        tick: u32,
        frame: FrameId,
        tuple: FourTuple,
        seg: &Segment<'_>,
        starts: &S,
    ) -> Result<(), AllocError>
        requires port { self.old.params.fixed ≡ false → tuple.lport < first_port }
        requires fresh { position (is_indexed_as tuple) self.old.flows ≡ None }
        ensures made { OnOk result (self.new ≡ model_opened_by_syn (is_full self.old tuple.lport) (lowest_free self.old)
            (next_start (S.starts starts.now) self.old tuple) tick self.old frame tuple (seg_of seg.now)) }
        ensures params { self.new.params ≡ self.old.params }
    {
        if self.is_full(tuple.lport) {
            return self.note(
                tick,
                LogEvent::Dropped {
                    frame,
                    backlog: true,
                },
            );
        }
        match self.flows.lowest_free(self.params.slots) {
            None => self.note(
                tick,
                LogEvent::Dropped {
                    frame,
                    backlog: false,
                },
            ),
            Some(slot) => {
                let id = self.next_id(slot);
                let start = self.next_start(tuple, starts);
                let params = flow_params(&self.params, start.scale);
                let flow = LiveFlow::opened_by_syn(
                    self.alloc,
                    id,
                    tuple,
                    &params,
                    start.number,
                    frame,
                    seg,
                    tick,
                )?;
                self.flows.push(tuple, flow)
            }
        }
    }

    /// An application's connect opens a flow in the lowest free slot, and is refused where none is free. The error is
    /// want of memory.
    pub fn connect<S: StartSource>(
        &mut self,
        tick: u32,
        app: u32,
        tuple: FourTuple,
        starts: &S,
    ) -> Result<(), AllocError>
        requires fixed { self.old.params.fixed ≡ true }
        requires fresh { position (is_indexed_as tuple) self.old.flows ≡ None }
        ensures made { OnOk result (self.new ≡ connected_by app (lowest_free self.old)
            (next_start (S.starts starts.now) self.old tuple) tick self.old tuple) }
        ensures params { self.new.params ≡ self.old.params }
    {
        match self.flows.lowest_free(self.params.slots) {
            None => self.note(
                tick,
                LogEvent::ConnectRefused {
                    app,
                    raddr: tuple.raddr,
                    rport: tuple.rport,
                    no_port: false,
                },
            ),
            Some(slot) => self.open_connected(tick, app, slot, tuple, starts),
        }
    }

    /// A connect opens a flow in this slot, where the host may open one more. The error is want of memory.
    fn open_connected<S: StartSource>(
        &mut self,
        tick: u32,
        app: u32,
        slot: u32,
        tuple: FourTuple,
        starts: &S,
    ) -> Result<(), AllocError>
        requires port { self.old.params.fixed ≡ false → tuple.lport ≡ first_port + ports_given self.old }
        requires fresh { position (is_indexed_as tuple) self.old.flows ≡ None }
        requires few { length self.old.flows < 2 ^ 32 - 1 }
        ensures made { OnOk result (self.new ≡ connected_by app (Some slot)
            (next_start (S.starts starts.now) self.old tuple) tick self.old tuple) }
        ensures params { self.new.params ≡ self.old.params }
    {
        let id = self.next_id(slot);
        let start = self.next_start(tuple, starts);
        let params = flow_params(&self.params, start.scale);
        let flow = LiveFlow::connected(self.alloc, id, tuple, &params, start.number, app, tick)?;
        self.flows.push(tuple, flow)
    }

    /// A segment comes that is of no flow. The error is want of memory.
    fn meet_no_flow<S: StartSource>(
        &mut self,
        tick: u32,
        frame: FrameId,
        tuple: FourTuple,
        seg: &Segment<'_>,
        starts: &S,
    ) -> Result<(), AllocError>
        requires fresh { position (is_indexed_as tuple) self.old.flows ≡ None }
        ensures made { OnOk result (self.new ≡ met_no_flow
            (is_listening self.old tuple.lport && model_opens (seg_of seg.now)) (is_listening self.old tuple.lport)
            (next_start (S.starts starts.now) self.old tuple) tick self.old frame tuple (seg_of seg.now)) }
        ensures params { self.new.params ≡ self.old.params }
    {
        let listening = self.is_listening(tuple.lport);
        if listening && opens(seg) {
            self.open_by_syn(tick, frame, tuple, seg, starts)
        } else {
            self.note_stray(tick, frame, tuple, seg, listening)
        }
    }

    /// A segment comes to the host. The error is want of memory.
    fn receive<S: StartSource>(
        &mut self,
        taking: Taking,
        tick: u32,
        frame: FrameId,
        tuple: FourTuple,
        seg: &Segment<'_>,
        starts: &S,
    ) -> Result<(), AllocError>
        ensures made { OnOk result (self.new ≡ arrived (is_known self.old tuple)
            (taking_in taking tick frame (seg_of seg.now))
            (next_start (S.starts starts.now) self.old tuple) tick self.old frame tuple (seg_of seg.now)) }
        ensures params { self.new.params ≡ self.old.params }
    {
        match self.flows.find(&tuple) {
            Some(i) => self.flows.receive(i, taking, tick, frame, seg),
            None => self.meet_no_flow(tick, frame, tuple, seg, starts),
        }
    }

    /// A frame comes to the host, in serial order. The error is want of memory.
    pub fn deliver<S: StartSource>(
        &mut self,
        tick: u32,
        arrival: &Arrival<'_>,
        starts: &S,
    ) -> Result<(), AllocError>
        ensures made { OnOk result (self.new ≡ delivered received_serially (S.starts starts.now) tick self.old
            (arrival_in arrival.now)) }
        ensures params { self.new.params ≡ self.old.params }
    {
        self.deliver_by(Taking::Serially, tick, arrival, starts)
    }

    /// A frame comes to the host, and the slow path takes it. The error is want of memory.
    pub fn deliver_slowly<S: StartSource>(
        &mut self,
        tick: u32,
        arrival: &Arrival<'_>,
        starts: &S,
    ) -> Result<(), AllocError>
        ensures made { OnOk result (self.new ≡ delivered (received Slow) (S.starts starts.now) tick self.old
            (arrival_in arrival.now)) }
        ensures params { self.new.params ≡ self.old.params }
    {
        self.deliver_by(Taking::Slowly, tick, arrival, starts)
    }

    /// Cores take frames, each on a thread of its own where these are many or someone watches: a segment goes to the
    /// core that stands at its place in `steered`, which takes it where the index has its flow and it is for the fast
    /// path. The answer are all other frames, in their order: they are the slow path's. Where a frame comes twice, all
    /// are left. A thread passes the gate's points, 64 * `host` + 2 * core before a frame and one more after it. The
    /// error is want of memory.
    pub fn receive_on_cores<'a, R: Threads + Sync, G: Gate + Sync>(
        &mut self,
        rt: &R,
        tick: u32,
        arrivals: &[Arrival<'a>],
        steered: &[u32],
        host: u32,
        cores: u32,
        gate: &G,
    ) -> Result<Vec<Arrival<'a>>, AllocError>
        requires steered { length steered.now ≡ length arrivals.now }
        requires below { All (λ core. core < cores) steered.now }
        requires cores { (0 < cores) × (cores ≤ 16) }
        requires host { host < 67108863 }
        ensures made { IfOk result (λ rest. IsCoresPhase tick self.old (map arrival_in arrivals.now)
            (map arrival_in rest.items) self.new) }
        ensures steered { IfOk result (λ rest. IsSteeredPhase tick self.old steered.now (map arrival_in arrivals.now)
            (map arrival_in rest.items) self.new) }
        ensures params { self.new.params ≡ self.old.params }
    {
        let none = Vec::new(self.alloc);
        let side = self.work_on_cores(rt, tick, arrivals, steered, none, host, cores, gate)?;
        Ok(side.rest)
    }

    /// The same, and beside the cores applications make attempts, each on the flow at its place where no core has that,
    /// in at most 16 threads of their own. Of the attempts those have an answer that were made; the others leave all as
    /// it was. A thread passes the gate's points 64 * `host` + 62 before an attempt and 64 * `host` + 63 after it.
    /// Where a frame comes twice, and where neither frames are many nor someone watches, no attempt is made. The error
    /// is want of memory.
    pub fn work_on_cores<'a, R: Threads + Sync, G: Gate + Sync>(
        &mut self,
        rt: &R,
        tick: u32,
        arrivals: &[Arrival<'a>],
        steered: &[u32],
        attempts: Vec<Option<Attempt<'a>>>,
        host: u32,
        cores: u32,
        gate: &G,
    ) -> Result<SideWork<'a>, AllocError>
        requires steered { length steered.now ≡ length arrivals.now }
        requires below { All (λ core. core < cores) steered.now }
        requires cores { (0 < cores) × (cores ≤ 16) }
        requires host { host < 67108863 }
        requires fresh { AreAnswered attempts.items attempts.items }
        requires tries { All CanTryIt attempts.items }
        ensures made { IfOk result (λ side. IsSidePhase tick self.old steered.now (map arrival_in arrivals.now)
            (map arrival_in side.rest.items) attempts.entry.items side.attempts.items self.new) }
        ensures params { self.new.params ≡ self.old.params }
    {
        if are_distinct(self.alloc, arrivals)? {
            return self.flows.take_on_cores(
                rt, self.alloc, tick, arrivals, steered, host, gate, attempts,
            );
        }
        let mut rest = Vec::new(self.alloc);
        rest.extend_from_slice(arrivals)?;
        Ok(SideWork { rest, attempts })
    }

    fn deliver_by<S: StartSource>(
        &mut self,
        taking: Taking,
        tick: u32,
        arrival: &Arrival<'_>,
        starts: &S,
    ) -> Result<(), AllocError>
        ensures made { OnOk result (self.new ≡ delivered (taking_in taking) (S.starts starts.now) tick self.old
            (arrival_in arrival.now)) }
        ensures params { self.new.params ≡ self.old.params }
    {
        match arrival.packet {
            Packet::Damaged(rule) => self.refuse(tick, arrival.frame, rule),
            Packet::Segment(tuple, seg) => {
                self.receive(taking, tick, arrival.frame, tuple, &seg, starts)
            }
        }
    }

    /// What a capture's script does for a segment of the flow at place `i`: `remote` says that the segment is a remote
    /// one, `resets` that it is a local one with RST. The error is want of memory.
    pub fn serve(
        &mut self,
        i: usize,
        shown: &mut Shown,
        tick: u32,
        remote: bool,
        resets: bool,
    ) -> Result<(), AllocError>
        requires place { passes_at is_standing self.old.flows i ≡ true }
        requires apart { remote ≡ true → resets ≡ false }
        ensures host { (content : Content) → is_remote content ≡ remote → resets_here content ≡ resets
            → OnOk result (self.new ≡ at_flow i (asked_live tick content shown.old) self.old) }
        ensures shown { (content : Content) (l : Live) → is_remote content ≡ remote → resets_here content ≡ resets
            → slice_get self.old.flows i ≡ Some l
            → OnOk result (shown.new ≡ (asked_all tick content (record { live = l; shown = shown.old })).shown) }
        ensures params { self.new.params ≡ self.old.params }
    {
        self.flows.serve(i, shown, tick, remote, resets)
    }
}

/// Whether the segment is one that opens a flow of a listener.
fn opens(seg: &Segment<'_>) -> bool
    ensures { result ≡ model_opens (seg_of seg.now) }
{
    seg.flags.is_syn() && !seg.flags.is_rst() && !seg.flags.is_ack()
}

/// The segment with a payload of its own. The error is want of memory.
fn owned(alloc: Global, seg: &Segment<'_>) -> Result<KeptSeg, AllocError>
    ensures { IfOk result (λ s. s ≡ seg_of seg.now) }
{
    let owned = Seg {
        head: Head {
            flags: seg.flags.0,
            seq: seg.seq,
            ack: seg.ack,
            window: seg.window,
            mss: seg.mss,
            scale: seg.scale,
        },
        bytes: Bytes::copy(alloc, seg.payload)?,
    };
    KeptSeg::new(alloc, owned)
}
