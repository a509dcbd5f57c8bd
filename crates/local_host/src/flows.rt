//! The flows of a host: by opening, by four-tuple and by slot.

ghost use Rattle.std.specs.Prelude.{true, false, ◌≡◌, ℕ, ◌<◌, ◌≤◌, ◌+◌, ◌-◌, ◌^◌, ◌==◌, ◌++◌, ◌∷◌, [], length, map};
ghost use Rattle.std.specs.Prelude.{position, get_or, nat_eq, ◌||◌, List, slice_get, Some, None, cond, IfOk, IfSome};
ghost use Rattle.std.specs.Prelude.{OnErr, OnOk, is_some, nat_le, count_by, All};
ghost use Rattle.std.specs.List.{list_any, list_all, filter};
ghost use Rattle.std.specs.HashMap.{get};
ghost use Rattle.capture_items.specs.Starts.{equal_tuple};
ghost use Rattle.tas_model.specs.declared.entry.Caller.TheVariants.{Slow};
ghost use Rattle.flow_state.specs.Calls.{seg_of, call_of, offer_of, answer_of, IsSmall};
ghost use Rattle.flow_state.specs.App.{IsAppCall};
ghost use Rattle.flow_state.specs.Flow.{reply_to};
ghost use Rattle.host_rounds.specs.Lists.{Each, change_at};
ghost use Rattle.host_rounds.specs.Hosts.{Live, is_indexed_as, is_in_slot, free_from, free_slot, next_generation};
ghost use Rattle.host_rounds.specs.Hosts.{opened_as};
ghost use Rattle.host_rounds.specs.Hosts.{flows_of, is_ready, is_over, waits_at, with_call, first_port};
ghost use Rattle.host_rounds.specs.Upkeep.{swept, timed, quieted};
ghost use Rattle.local_host.specs.Arriving.{arrival_in, taking_in};
ghost use Rattle.local_host.specs.Handing.{AreDistinct, place_in};
ghost use Rattle.local_host.specs.SideWork.{IsSideWork};
ghost use Rattle.local_host.specs.Trying.{AreAnswered, CanTryIt};
ghost use Rattle.tas_runs.specs.Records.{Content, is_remote};
ghost use Rattle.tas_runs.specs.LocalScript.{resets_here};
ghost use Rattle.local_host.specs.Index.{IsSound, AreAtRest, is_standing, standing_places, passes_at, number_of};
ghost use Rattle.local_host.specs.Index.{given_in, AreMarked, is_settled};
ghost use Rattle.local_host.specs.Ports.{MayAsk};
ghost use Rattle.local_host.specs.Script.{asked_all, asked_live};
ghost use Rattle.local_host.specs.Live.{flow_left, holder_in, IsLegal};

use crate::arrival::{Arrival, Packet, Taking};
use crate::attempts::Attempt;
use crate::cores::{SideWork, take_on_cores};
use crate::live::{Holder, LiveFlow};
use crate::parts::{FLOWS_FOR_THREADS, Sending, Timing, work_all};
use crate::script::Shown;
use crate::slot_marks::SlotMarks;
use flow_state::{Answer, CallIn, FlowHistory};
use segment_fields::Segment;
use std::alloc::{AllocError, Global};
use std::collections::HashMap;
use std::marker::Model;
use std::thread::Threads;
use tas_model::{Caller, FourTuple, FrameId};
use tas_num::Gate;

/// Ports from this one on are given to connects, each once.
pub const FIRST_PORT: u16 = 49152;

/// How many flows a host opens at most: generations and the numbers of flows in the names of frames have 32 bits, and
/// the highest number means no flow.
const MOST_FLOWS: usize = 0xffff_ffff;

/// How many flows are moved before their room is given back.
const PIECE: usize = 4096;

/// What is known of the flows of a four-tuple.
#[derive(Clone, Copy)]
struct Openings {
    /// The place of the flow that was opened last.
    latest: usize,
    /// How many were opened.
    count: usize,
}

/// Flows, and what is known of them beside themselves. While a flow changes the two may not fit.
#[derive(Drop)]
struct Table {
    flows: Vec<LiveFlow>,
    /// The places of those whose records are not filed, in order.
    standing: Vec<usize>,
    openings: HashMap<FourTuple, Openings>,
    /// The place of the flow that something came to last. It only says where a search looks first, as mostly more comes
    /// to the same flow: a flow that is indexed under a four-tuple is the only one, whatever led to it.
    recent: usize,
    /// How many flows there were in a slot.
    generations: HashMap<u32, usize>,
    /// How many flows have ports that connects are given.
    given: usize,
    /// In which slots records of flows stand.
    taken: SlotMarks,
    /// Flows that stood in for those that cores had, for the next ones.
    spare: Vec<LiveFlow>,
}

/// The flows of a host, in the order of their opening, filed ones among them. A flow is found by its four-tuple without
/// a walk over the others. After want of memory none is left.
#[derive(Drop)]
pub struct Flows {
    table: Table,
}

impl Model for Flows {
    ghost use Rattle.std.specs.Prelude.{List};
    ghost use Rattle.host_rounds.specs.Hosts.{Live};

    ghost Value = { List Live };

    ghost use Rattle.local_host.specs.Index.{IsSound};

    ghost view = { λ f. f.table.flows.items };

    ghost invariant = { λ f. IsSound f.table };
}

impl Flows {
    /// No flows. It takes no memory.
    pub fn new(alloc: Global) -> Flows
        ensures { result ≡ [] }
    {
        Flows {
            table: Table {
                flows: Vec::new(alloc),
                standing: Vec::new(alloc),
                openings: HashMap::new(alloc),
                recent: 0,
                generations: HashMap::new(alloc),
                given: 0,
                taken: SlotMarks::new(alloc),
                spare: Vec::new(alloc),
            },
        }
    }

    /// How many flows were opened.
    pub fn len(&self) -> usize
        ensures { result ≡ length self.now }
    {
        self.table.flows.len()
    }

    /// The flow at place `i`.
    pub fn get(&self, i: usize) -> &LiveFlow
        requires { i < length self.now }
        ensures { slice_get self.now i ≡ Some result.now }
    {
        &self.table.flows[i]
    }

    /// The histories of all flows, in the order of their opening. The error is want of memory.
    pub fn into_histories(self, alloc: Global) -> Result<Vec<FlowHistory>, AllocError>
        ensures flows { IfOk result (λ histories. map flow_left histories.items ≡ flows_of self) }
        ensures legal { IfOk result (λ histories. Each IsLegal histories.items) }
    {
        let table = self.table;
        histories_of(alloc, table.flows)
    }

    /// The place of the flow that the index has under this four-tuple.
    pub fn find(&self, tuple: &FourTuple) -> Option<usize>
        ensures place { result ≡ position (is_indexed_as tuple.now) self.now }
        ensures standing { IfSome result (λ i. passes_at is_standing self.now i ≡ true) }
    {
        let recent = self.table.recent;
        if is_indexed_at(&self.table.flows, recent, tuple) {
            return Some(recent);
        }
        self.find_latest(tuple)
    }

    /// The same by the index alone.
    fn find_latest(&self, tuple: &FourTuple) -> Option<usize>
        ensures place { result ≡ position (is_indexed_as tuple.now) self.now }
        ensures standing { IfSome result (λ i. passes_at is_standing self.now i ≡ true) }
    {
        let latest = self.table.openings.get(tuple)?.latest;
        if self.table.flows[latest].is_indexed_as(tuple) {
            Some(latest)
        } else {
            None
        }
    }

    /// The place of the flow that waits at the port and may be accepted, of several the one that was opened first.
    pub fn first_ready(&self, port: u16) -> Option<usize>
        ensures { result ≡ position (is_ready port) self.now }
    {
        first_ready(&self.table.flows, &self.table.standing, port)
    }

    /// How many flows wait at the port.
    pub fn waiting_at(&self, port: u16) -> usize
        ensures { result ≡ count_by (waits_at port) self.now }
    {
        count_waiting(&self.table.flows, &self.table.standing, port)
    }

    /// How many flows have ports that connects are given.
    pub fn given(&self) -> usize
        ensures { result ≡ given_in self.now }
    {
        self.table.given
    }

    /// Whether all are closed.
    pub fn are_over(&self) -> bool
        ensures { result ≡ list_all is_over self.now }
    {
        are_over(&self.table.flows, &self.table.standing)
    }

    /// The places of those whose records are not filed, in order.
    pub fn standing(&self) -> &[usize]
        ensures places { result.now ≡ standing_places self.now }
        ensures rest { AreAtRest self.now }
    {
        &self.table.standing
    }

    /// How many flows of this four-tuple were opened.
    pub fn opened_as(&self, tuple: &FourTuple) -> usize
        ensures { result ≡ opened_as tuple.now self.now }
    {
        match self.table.openings.get(tuple) {
            Some(openings) => openings.count,
            None => 0,
        }
    }

    /// The lowest free slot of so many, and none where as many flows were opened as a host may open.
    pub fn lowest_free(&self, slots: u32) -> Option<u32>
        ensures free { result ≡ free_slot slots self.now }
        ensures few { IfSome result (λ slot. length self.now < 2 ^ 32 - 1) }
    {
        if self.len() >= MOST_FLOWS {
            return None;
        }
        self.table.taken.first_free(slots)
    }

    /// The next generation of a slot: one more than there were flows in it.
    pub fn next_generation(&self, slot: u32) -> usize
        ensures { result ≡ next_generation slot self.now }
    {
        1 + self.table.generations.get(&slot).copied().unwrap_or(0)
    }

    /// A flow was opened, where none of its four-tuple is indexed. The error is want of memory.
    pub fn push(&mut self, tuple: FourTuple, flow: LiveFlow) -> Result<(), AllocError>
        requires own { flow.flow.tuple ≡ tuple }
        requires fresh { position (is_indexed_as tuple) self.old ≡ None }
        requires standing { flow.filed ≡ false }
        ensures made { OnOk result (self.new ≡ self.old ++ flow ∷ []) }
        ensures none { OnErr result (self.new ≡ []) }
    {
        let now = Openings {
            latest: self.table.flows.len(),
            count: 1 + self.opened_as(&tuple),
        };
        let done = self.table.add(tuple, now, flow);
        self.table.settle(done)
    }

    /// Closed flows leave the index, and their slots where no application holds them. In most ticks none does.
    pub fn sweep(&mut self)
        ensures { self.new ≡ map swept self.old }
    {
        if are_settled(&self.table.flows, &self.table.standing) {
            return;
        }
        sweep_all(&mut self.table.flows, &self.table.standing);
        drop_filed(&mut self.table.standing, &self.table.flows);
        self.table
            .taken
            .mark_anew(&self.table.flows, &self.table.standing);
    }

    /// One tick passes for each flow that is not closed. The error is want of memory.
    pub fn pass_time(&mut self, tick: u32) -> Result<(), AllocError>
        ensures made { OnOk result (self.new ≡ map (timed Slow tick) self.old) }
        ensures none { OnErr result (self.new ≡ []) }
    {
        let done = time_all(&mut self.table.flows, &self.table.standing, tick);
        self.table.settle(done)
    }

    /// Each flow sends all that may go. The error is want of memory.
    pub fn send_all(&mut self, tick: u32) -> Result<(), AllocError>
        ensures made { OnOk result (self.new ≡ map (quieted tick) self.old) }
        ensures none { OnErr result (self.new ≡ []) }
    {
        let done = empty_all(&mut self.table.flows, &self.table.standing, tick);
        self.table.settle(done)
    }

    /// One tick passes for each flow that is not closed, in at most so many parts of them side by side. The error is
    /// want of memory.
    pub fn pass_time_on_cores<R: Threads + Sync>(
        &mut self,
        rt: &R,
        tick: u32,
        threads: u32,
    ) -> Result<(), AllocError>
        ensures made { OnOk result (self.new ≡ map (timed Slow tick) self.old) }
        ensures none { OnErr result (self.new ≡ []) }
    {
        if self.are_for_one() {
            return self.pass_time(tick);
        }
        let done = work_all(rt, &Timing { tick }, threads, &mut self.table.flows);
        self.table.settle(done)
    }

    /// Each flow sends all that may go, in at most so many parts of them side by side. The error is want of memory.
    pub fn send_all_on_cores<R: Threads + Sync>(
        &mut self,
        rt: &R,
        tick: u32,
        threads: u32,
    ) -> Result<(), AllocError>
        ensures made { OnOk result (self.new ≡ map (quieted tick) self.old) }
        ensures none { OnErr result (self.new ≡ []) }
    {
        if self.are_for_one() {
            return self.send_all(tick);
        }
        let done = work_all(rt, &Sending { tick }, threads, &mut self.table.flows);
        self.table.settle(done)
    }

    /// Whether one thread, which looks at those alone that are not filed, does as well as several that look at all.
    fn are_for_one(&self) -> bool {
        let standing = self.table.standing.len();
        standing < FLOWS_FOR_THREADS || standing < self.table.flows.len().div_ceil(2)
    }

    /// A segment comes to the flow at place `i`. The error is want of memory.
    pub fn receive(
        &mut self,
        i: usize,
        taking: Taking,
        tick: u32,
        frame: FrameId,
        seg: &Segment<'_>,
    ) -> Result<(), AllocError>
        requires { passes_at is_standing self.old i ≡ true }
        ensures made { OnOk result (self.new ≡ change_at i (taking_in taking tick frame (seg_of seg.now)) self.old) }
        ensures none { OnErr result (self.new ≡ []) }
    {
        self.table.recent = i;
        let done = self.table.flows[i].receive(taking, tick, frame, seg);
        self.table.settle(done)
    }

    /// Cores take frames and applications make attempts, each on a thread of its own where the frames are many or
    /// someone watches. The error is want of memory.
    pub fn take_on_cores<'a, R: Threads + Sync, G: Gate + Sync>(
        &mut self,
        rt: &R,
        alloc: Global,
        tick: u32,
        arrivals: &[Arrival<'a>],
        steered: &[u32],
        host: u32,
        gate: &G,
        attempts: Vec<Option<Attempt<'a>>>,
    ) -> Result<SideWork<'a>, AllocError>
        requires steered { length steered.now ≡ length arrivals.now }
        requires cores { All (λ core. core < 16) steered.now }
        requires host { host < 67108863 }
        requires distinct { AreDistinct (map arrival_in arrivals.now) }
        requires fresh { AreAnswered attempts.items attempts.items }
        requires tries { All CanTryIt attempts.items }
        ensures made { IfOk result (λ side. IsSideWork tick self.old steered.now (map arrival_in arrivals.now)
            (map arrival_in side.rest.items) attempts.entry.items side.attempts.items self.new) }
        ensures none { OnErr result (self.new ≡ []) }
    {
        match self.places(alloc, arrivals) {
            Ok(places) => {
                let flows = &mut self.table.flows;
                let spare = &mut self.table.spare;
                let done = take_on_cores(
                    rt, alloc, flows, spare, &places, tick, arrivals, steered, host, gate, attempts,
                );
                self.table.settle(done)
            }
            Err(error) => self.table.settle(Err(error)),
        }
    }

    /// The place of the flow that the index has for each frame. The error is want of memory.
    fn places(
        &self,
        alloc: Global,
        arrivals: &[Arrival<'_>],
    ) -> Result<Vec<Option<usize>>, AllocError>
        ensures { IfOk result (λ places. places.items
            ≡ map (λ x. place_in self.now (arrival_in x).packet) arrivals.now) }
    {
        let mut places = Vec::with_capacity(alloc, arrivals.len())?;
        for arrival in arrivals {
            places.push(self.place_of(arrival))?;
        }
        Ok(places)
    }

    fn place_of(&self, arrival: &Arrival<'_>) -> Option<usize>
        ensures { result ≡ place_in self.now (arrival_in arrival.now).packet }
    {
        match arrival.packet {
            Packet::Damaged(_) => None,
            Packet::Segment(tuple, _) => self.find(&tuple),
        }
    }

    /// The flow at place `i` makes a call, by an application or where one was killed by the slow path. The error is
    /// want of memory.
    pub fn ask(
        &mut self,
        i: usize,
        caller: Caller,
        tick: u32,
        call: &CallIn<'_>,
    ) -> Result<Answer, AllocError>
        requires place { i < length self.old }
        requires small { IsSmall call.now }
        requires kind { IsAppCall call.now }
        requires may { (l : Live) → slice_get self.old i ≡ Some l → MayAsk l call.now }
        ensures made { OnOk result (self.new ≡ change_at i
            (λ (l : Live). with_call l caller tick (call_of call.now) (offer_of call.now)) self.old) }
        ensures answer { (l : Live) → slice_get self.old i ≡ Some l → IfOk result (λ answer. answer ≡ answer_of
            (reply_to l.flow.params l.flow.entries tick (call_of call.now) (offer_of call.now))) }
        ensures none { OnErr result (self.new ≡ []) }
    {
        let done = self.table.flows[i].ask(caller, tick, call);
        self.table.settle(done)
    }

    /// The socket of the flow at place `i` changes hands.
    pub fn hold(&mut self, i: usize, holder: Holder)
        requires { i < length self.old }
        ensures { self.new ≡ change_at i (λ (l : Live). record l { holder = holder_in holder }) self.old }
    {
        self.table.flows[i].hold(holder);
    }

    /// What a capture's script does for a segment of the flow at place `i`. The error is want of memory.
    pub fn serve(
        &mut self,
        i: usize,
        shown: &mut Shown,
        tick: u32,
        remote: bool,
        resets: bool,
    ) -> Result<(), AllocError>
        requires place { passes_at is_standing self.old i ≡ true }
        requires apart { remote ≡ true → resets ≡ false }
        ensures flows { (content : Content) → is_remote content ≡ remote → resets_here content ≡ resets
            → OnOk result (self.new ≡ change_at i (asked_live tick content shown.old) self.old) }
        ensures shown { (content : Content) (l : Live) → is_remote content ≡ remote → resets_here content ≡ resets
            → slice_get self.old i ≡ Some l → OnOk result
            (shown.new ≡ (asked_all tick content (record { live = l; shown = shown.old })).shown) }
        ensures none { OnErr result (self.new ≡ []) }
    {
        self.table.recent = i;
        let done = shown.serve(&mut self.table.flows[i], tick, remote, resets);
        self.table.settle(done)
    }
}

impl Table {
    /// One flow more, and all that is known of it beside itself. The error is want of memory.
    fn add(&mut self, tuple: FourTuple, now: Openings, flow: LiveFlow) -> Result<(), AllocError>
        requires sound { IsSound self.old }
        requires latest { now.latest ≡ length self.old.flows.items }
        requires count { now.count ≡ 1 + opened_as tuple self.old.flows.items }
        requires own { flow.flow.tuple ≡ tuple }
        requires fresh { position (is_indexed_as tuple) self.old.flows.items ≡ None }
        requires standing { flow.filed ≡ false }
        ensures flows { OnOk result (self.new.flows.items ≡ self.old.flows.items ++ flow ∷ []) }
        ensures sound { OnOk result (IsSound self.new) }
    {
        let slot = flow.id().slot;
        note(
            &mut self.openings,
            &mut self.generations,
            &mut self.taken,
            tuple,
            now,
            slot,
        )?;
        self.given = self.given + count_given(tuple.lport);
        keep(&mut self.standing, &mut self.flows, flow)
    }

    /// Gives back what was done. After want of memory, which may stop between two changes, no flow is kept.
    fn settle<T>(&mut self, done: Result<T, AllocError>) -> Result<T, AllocError>
        requires { OnOk done (IsSound self.old) }
        ensures same { result ≡ done }
        ensures flows { OnOk result (self.new.flows.items ≡ self.old.flows.items) }
        ensures none { OnErr result (self.new.flows.items ≡ []) }
        ensures sound { IsSound self.new }
    {
        if done.is_err() {
            self.flows.clear();
            self.standing.clear();
            self.openings.clear();
            self.generations.clear();
            self.given = 0;
            self.taken.clear();
        }
        done
    }
}

/// The four-tuple has these openings now, and a record more stands in the slot. The error is want of memory.
fn note(
    openings: &mut HashMap<FourTuple, Openings>,
    generations: &mut HashMap<u32, usize>,
    taken: &mut SlotMarks,
    tuple: FourTuple,
    now: Openings,
    slot: u32,
) -> Result<(), AllocError>
    requires { number_of (get nat_eq generations.old slot) < 2 ^ 63 }
    ensures openings { OnOk result ((q : FourTuple) → get equal_tuple openings.new q
        ≡ cond (equal_tuple tuple q) (Some now) (get equal_tuple openings.old q)) }
    ensures generations { OnOk result ((q : ℕ) → number_of (get nat_eq generations.new q)
        ≡ number_of (get nat_eq generations.old q) + cond (slot == q) 1 0) }
    ensures taken { OnOk result ((q : ℕ) → get_or taken.new q false ≡ (get_or taken.old q false || slot == q)) }
{
    note_opening(openings, tuple, now)?;
    note_slot(generations, slot)?;
    taken.take(slot)
}

/// The flow, which stands behind the others. The error is want of memory.
fn keep(
    standing: &mut Vec<usize>,
    flows: &mut Vec<LiveFlow>,
    flow: LiveFlow,
) -> Result<(), AllocError>
    ensures standing { OnOk result (standing.new.items ≡ standing.old.items ++ length flows.old.items ∷ []) }
    ensures flows { OnOk result (flows.new.items ≡ flows.old.items ++ flow ∷ []) }
{
    standing.push(flows.len())?;
    flows.push(flow)?;
    Ok(())
}

/// The four-tuple has these openings now. The error is want of memory, and leaves all as it was.
fn note_opening(
    openings: &mut HashMap<FourTuple, Openings>,
    tuple: FourTuple,
    now: Openings,
) -> Result<(), AllocError>
    ensures ok { OnOk result ((q : FourTuple) → get equal_tuple openings.new q
        ≡ cond (equal_tuple tuple q) (Some now) (get equal_tuple openings.old q)) }
{
    openings.insert(tuple, now)?;
    Ok(())
}

/// One flow more in the slot. The error is want of memory.
fn note_slot(generations: &mut HashMap<u32, usize>, slot: u32) -> Result<(), AllocError>
    requires { number_of (get nat_eq generations.old slot) < 2 ^ 63 }
    ensures { OnOk result ((q : ℕ) → number_of (get nat_eq generations.new q)
        ≡ number_of (get nat_eq generations.old q) + cond (slot == q) 1 0) }
{
    let count = generations.get(&slot).copied().unwrap_or(0);
    generations.insert(slot, count + 1)?;
    Ok(())
}

/// One for a port that connects are given, and none for a lower one.
fn count_given(port: u16) -> usize
    ensures { result ≡ cond (nat_le first_port port) 1 0 }
{
    if port >= FIRST_PORT { 1 } else { 0 }
}

/// The flows whose records were filed are taken out of those that stand.
fn drop_filed(standing: &mut Vec<usize>, flows: &[LiveFlow])
    ensures { standing.new.items ≡ filter (passes_at is_standing flows.now) standing.old.items }
{
    standing.retain(|place| stands(flows, *place));
}

/// Whether the record of the flow at this place is not filed.
fn stands(flows: &[LiveFlow], place: usize) -> bool
    ensures { result ≡ passes_at is_standing flows.now place }
{
    match flows.get(place) {
        Some(flow) => flow.is_standing(),
        None => false,
    }
}

/// The place of the flow that waits at the port and may be accepted, of several the one that was opened first.
fn first_ready(flows: &[LiveFlow], standing: &[usize], port: u16) -> Option<usize>
    requires places { standing.now ≡ standing_places flows.now }
    requires rest { AreAtRest flows.now }
    ensures { result ≡ position (is_ready port) flows.now }
{
    standing
        .iter()
        .copied()
        .find(|place| is_ready_at(flows, *place, port))
}

/// Whether the index leads frames of this four-tuple to the flow at this place.
fn is_indexed_at(flows: &[LiveFlow], place: usize, tuple: &FourTuple) -> bool
    ensures { result ≡ passes_at (is_indexed_as tuple.now) flows.now place }
{
    match flows.get(place) {
        Some(flow) => flow.is_indexed_as(tuple),
        None => false,
    }
}

fn is_ready_at(flows: &[LiveFlow], place: usize, port: u16) -> bool
    ensures { result ≡ passes_at (is_ready port) flows.now place }
{
    match flows.get(place) {
        Some(flow) => flow.is_ready(port),
        None => false,
    }
}

/// How many flows wait at the port.
fn count_waiting(flows: &[LiveFlow], standing: &[usize], port: u16) -> usize
    requires places { standing.now ≡ standing_places flows.now }
    requires rest { AreAtRest flows.now }
    ensures { result ≡ count_by (waits_at port) flows.now }
{
    standing
        .iter()
        .filter(|place| waits_there(flows, **place, port))
        .count()
}

fn waits_there(flows: &[LiveFlow], place: usize, port: u16) -> bool
    ensures { result ≡ passes_at (waits_at port) flows.now place }
{
    match flows.get(place) {
        Some(flow) => flow.waits_at(port),
        None => false,
    }
}

/// Whether all flows are closed.
fn are_over(flows: &[LiveFlow], standing: &[usize]) -> bool
    requires places { standing.now ≡ standing_places flows.now }
    requires rest { AreAtRest flows.now }
    ensures { result ≡ list_all is_over flows.now }
{
    standing.iter().all(|place| is_over_at(flows, *place))
}

fn is_over_at(flows: &[LiveFlow], place: usize) -> bool
    ensures { result ≡ passes_at is_over flows.now place }
{
    match flows.get(place) {
        Some(flow) => flow.is_over(),
        None => false,
    }
}

/// Whether a sweep leaves all flows as they are.
fn are_settled(flows: &[LiveFlow], standing: &[usize]) -> bool
    requires places { standing.now ≡ standing_places flows.now }
    requires rest { AreAtRest flows.now }
    ensures { result ≡ true → map swept flows.now ≡ flows.now }
{
    standing.iter().all(|place| is_settled_at(flows, *place))
}

fn is_settled_at(flows: &[LiveFlow], place: usize) -> bool
    ensures { result ≡ passes_at is_settled flows.now place }
{
    match flows.get(place) {
        Some(flow) => flow.is_settled(),
        None => false,
    }
}

/// The histories of these flows, in their order. The error is want of memory.
///
/// The last flow leaves first, and of the flows no more is kept than was not moved yet, but for a piece, as they may be
/// most of a run's memory.
fn histories_of(alloc: Global, flows: Vec<LiveFlow>) -> Result<Vec<FlowHistory>, AllocError>
    ensures flows { IfOk result (λ histories. map flow_left histories.items ≡ flows_of flows.items) }
    ensures legal { IfOk result (λ histories. Each IsLegal histories.items) }
{
    let mut flows = flows;
    let mut histories = Vec::with_capacity(alloc, flows.len())?;
    'moving: while let Some(flow) = flows.pop() {
        let history = flow.into_history()?;
        histories.push(history)?;
        give_room_back(&mut flows);
    }
    histories.reverse();
    Ok(histories)
}

/// Gives back the room of those that left, where a piece of them did.
fn give_room_back(flows: &mut Vec<LiveFlow>)
    ensures { flows.new.items ≡ flows.old.items }
{
    if flows.len() % PIECE == 0 {
        flows.shrink_to_fit();
    }
}

fn sweep_all(flows: &mut Vec<LiveFlow>, standing: &[usize])
    requires places { standing.now ≡ standing_places flows.old.items }
    requires rest { AreAtRest flows.old.items }
    ensures { flows.new.items ≡ map swept flows.old.items }
{
    for place in standing {
        flows[*place].sweep();
    }
}

fn time_all(flows: &mut Vec<LiveFlow>, standing: &[usize], tick: u32) -> Result<(), AllocError>
    requires places { standing.now ≡ standing_places flows.old.items }
    requires rest { AreAtRest flows.old.items }
    ensures { OnOk result (flows.new.items ≡ map (timed Slow tick) flows.old.items) }
{
    for place in standing {
        flows[*place].tick(tick)?;
    }
    Ok(())
}

fn empty_all(flows: &mut Vec<LiveFlow>, standing: &[usize], tick: u32) -> Result<(), AllocError>
    requires places { standing.now ≡ standing_places flows.old.items }
    requires rest { AreAtRest flows.old.items }
    ensures { OnOk result (flows.new.items ≡ map (quieted tick) flows.old.items) }
{
    for place in standing {
        flows[*place].send_all(tick)?;
    }
    Ok(())
}
