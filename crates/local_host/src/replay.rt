//! The host of a replay: its ticks, with what its application asks.

ghost use Rattle.std.specs.Prelude.{true, false, ◌≡◌, ◌<◌, ◌&&◌, not, ℕ, ◌≤◌, Some, None, slice_get, position, length};
ghost use Rattle.std.specs.Prelude.{List, map, fold, OnOk, IfOk};
ghost use Rattle.flow_state.specs.Calls.{seg_of};
ghost use Rattle.host_rounds.specs.Lists.{Each};
ghost use Rattle.tas_model.specs.declared.entry.FourTuple.{FourTuple};
ghost use Rattle.host_rounds.specs.Hosts.{Live, flows_of};
ghost use Rattle.host_rounds.specs.Rounds.{on_host};
ghost use Rattle.host_rounds.specs.SerialOrder.{slow_phase, frame_phase, ask_phase, emit_phase, serial_tick};
ghost use Rattle.tas_runs.specs.Records as model;
ghost use Rattle.tas_runs.specs.Records.{is_remote};
ghost use Rattle.tas_runs.specs.Starts.{first_start};
ghost use Rattle.tas_runs.specs.LocalScript.{Beginning, connects as model_connects, connected, connected_where};
ghost use Rattle.tas_runs.specs.LocalScript.{all_shown, resets_here, served_where, served_content, capture_scripts};
ghost use Rattle.tas_runs.specs.LocalScript.{arrivals_in, asks_in, due_in};
ghost use Rattle.tas_runs.specs.Replays.{at_start};
ghost use Rattle.capture_items.specs.Items.{item_in};
ghost use Rattle.capture_items.specs.Starts.{AreStartsOf, kept_starts};
ghost use Rattle.local_host.specs.Script.{asked_at, served_later, served_whole};
ghost use Rattle.local_host.specs.Index.{is_standing, passes_at};
ghost use Rattle.tas_model.specs.declared.entry.Caller.TheVariants.{Slow};
ghost use Rattle.host_rounds.specs.Deliveries.{received, delivered};
ghost use Rattle.core_rounds.specs.CoreTicks.{IsCoresTick, rest_phase};
ghost use Rattle.local_host.specs.Arriving.{arrival_in, came};
ghost use Rattle.local_host.specs.Live.{flow_left, IsLegal};

use crate::arrival::{Arrival, arrival_of, arrivals_of};
use crate::host::{HostEnd, LocalHost};
use crate::script::{Shown, THE_APP};
use crate::steer::Cores;
use capture_items::{Content, FlowStarts, Item};
use segment_fields::Segment;
use std::alloc::{AllocError, Global};
use std::marker::Model;
use std::sync::Wait;
use std::thread::Threads;
use tas_model::{FourTuple, HostParams};
use tas_num::Gate;

/// A replay's host and the script that its application takes from the capture, seen as both in the middle of a run.
#[derive(Drop)]
pub struct LocalReplay {
    alloc: Global,
    host: LocalHost,
    /// What was shown of each flow, by its opening.
    shown: Vec<Shown>,
}

impl Model for LocalReplay {
    ghost use Rattle.std.specs.Prelude.{◌≡◌, true, List};
    ghost use Rattle.host_rounds.specs.Scripts.{Site};
    ghost use Rattle.tas_runs.specs.LocalScript.{Shown};

    ghost Value = { Site (List Shown) };

    ghost view = { λ r. record { host = r.host; scripts = r.shown.items } };

    ghost invariant = { λ r. r.host.params.fixed ≡ true };
}

impl LocalReplay {
    /// A replay at its start, on the host with this address. It takes no memory.
    pub fn at_start(alloc: Global, local: u32) -> LocalReplay
        ensures { result ≡ at_start local }
    {
        let host = LocalHost::new(
            alloc,
            HostParams {
                addr: local,
                iss: 0,
                ring: 65535,
                mss: 1460,
                rto: 100,
                slots: 1024,
                backlog: 16,
                fixed: true,
                scale: None,
            },
        );
        LocalReplay {
            alloc,
            host,
            shown: Vec::new(alloc),
        }
    }

    /// The parameters of its host.
    pub fn params(&self) -> &HostParams
        ensures { result.now ≡ self.now.host.params }
    {
        self.host.params()
    }

    /// What its host leaves after the last tick. The error is want of memory.
    pub fn finish(self) -> Result<HostEnd, AllocError>
        ensures log { IfOk result (λ end. end.log ≡ self.host.log) }
        ensures flows { IfOk result (λ end. map flow_left end.flows.items ≡ flows_of self.host.flows) }
        ensures legal { IfOk result (λ end. Each IsLegal end.flows.items) }
    {
        self.host.finish()
    }

    /// One tick, in serial order: the slow path, the frames of the batch, the application, and what may go. The error
    /// is want of memory.
    pub fn play(
        &mut self,
        tick: u32,
        batch: &[Item<'_>],
        starts: &FlowStarts,
    ) -> Result<(), AllocError>
        ensures { (items : List model.Item) → AreStartsOf items starts.now
            → OnOk result (self.new ≡ serial_tick (capture_scripts items) tick self.old
            (due_in (map item_in batch.now))) }
    {
        self.host.pass_time(tick)?;
        self.deliver_all(tick, batch, starts)?;
        self.serve_all(tick, batch, starts)?;
        self.host.send_all(tick)
    }

    /// One tick on a host with cores: the slow path, the frames of the batch by the cores, what they leave by the slow
    /// path, the application, and what may go. The error is want of memory.
    pub fn play_on_cores<R: Threads + Wait + Sync, G: Gate + Sync>(
        &mut self,
        rt: &R,
        tick: u32,
        batch: &[Item<'_>],
        starts: &FlowStarts,
        cores: &mut Cores,
        gate: &G,
    ) -> Result<(), AllocError>
        ensures tick { (items : List model.Item) → AreStartsOf items starts.now
            → OnOk result (IsCoresTick (capture_scripts items) cores.old.count tick (due_in (map item_in batch.now))
            self.old self.new) }
        ensures cores { cores.new ≡ cores.old }
    {
        self.host.pass_time_on_cores(rt, tick, cores.count())?;
        let arrivals = arrivals_of(self.alloc, batch)?;
        let steered = cores.steer(rt, self.alloc, &arrivals, &[])?;
        let (host, count) = (cores.host(), cores.count());
        let rest = self
            .host
            .receive_on_cores(rt, tick, &arrivals, &steered, host, count, gate)?;
        self.deliver_rest(tick, &rest, starts)?;
        self.serve_all(tick, batch, starts)?;
        self.host.send_all_on_cores(rt, tick, cores.count())
    }

    /// The slow path takes the frames that cores left. The error is want of memory.
    fn deliver_rest(
        &mut self,
        tick: u32,
        rest: &[Arrival<'_>],
        starts: &FlowStarts,
    ) -> Result<(), AllocError>
        ensures { (items : List model.Item) → AreStartsOf items starts.now
            → OnOk result (self.new ≡ on_host (λ host. rest_phase (capture_scripts items) tick host
            (map arrival_in rest.now)) self.old) }
    {
        for arrival in rest {
            self.deliver_slowly(tick, arrival, starts)?;
        }
        Ok(())
    }

    /// The slow path takes a frame. The error is want of memory.
    fn deliver_slowly(
        &mut self,
        tick: u32,
        arrival: &Arrival<'_>,
        starts: &FlowStarts,
    ) -> Result<(), AllocError>
        ensures { OnOk result (self.new ≡ on_host (λ host. delivered (received Slow) (kept_starts starts.now) tick
            host (arrival_in arrival.now)) self.old) }
    {
        self.host.deliver_slowly(tick, arrival, starts)
    }

    fn deliver_all(
        &mut self,
        tick: u32,
        batch: &[Item<'_>],
        starts: &FlowStarts,
    ) -> Result<(), AllocError>
        ensures { (items : List model.Item) → AreStartsOf items starts.now
            → OnOk result (self.new ≡ on_host (λ host. frame_phase (capture_scripts items) tick host
            (arrivals_in (map item_in batch.now))) self.old) }
    {
        for item in batch {
            self.deliver(tick, item, starts)?;
        }
        Ok(())
    }

    /// The frame of a record comes to the host, where it is one. The error is want of memory.
    fn deliver(&mut self, tick: u32, item: &Item<'_>, starts: &FlowStarts) -> Result<(), AllocError>
        ensures { OnOk result (self.new ≡ on_host (came (kept_starts starts.now) tick (item_in item.now)) self.old) }
    {
        match arrival_of(item) {
            Some(arrival) => self.host.deliver(tick, &arrival, starts),
            None => Ok(()),
        }
    }

    fn serve_all(
        &mut self,
        tick: u32,
        batch: &[Item<'_>],
        starts: &FlowStarts,
    ) -> Result<(), AllocError>
        ensures { (items : List model.Item) → AreStartsOf items starts.now
            → OnOk result (self.new ≡ ask_phase (capture_scripts items) tick self.old
            (asks_in (map item_in batch.now))) }
    {
        for item in batch {
            self.serve(tick, item, starts)?;
        }
        Ok(())
    }

    /// What the application does for a record. The error is want of memory.
    fn serve(&mut self, tick: u32, item: &Item<'_>, starts: &FlowStarts) -> Result<(), AllocError>
        ensures { OnOk result (self.new ≡ served_whole (kept_starts starts.now) tick
            (item_in item.now).content self.old) }
    {
        match item.content {
            Content::Damaged(_) => Ok(()),
            Content::Remote(tuple, _) => self.ask(tick, &tuple, true, false),
            Content::Local(tuple, seg) => {
                self.begin(tick, tuple, &seg, starts)?;
                self.ask(tick, &tuple, false, seg.flags.is_rst())
            }
        }
    }

    /// The application connects where no flow is and the segment is a SYN of its own, and what a local segment shows is
    /// seen. The error is want of memory.
    fn begin(
        &mut self,
        tick: u32,
        tuple: FourTuple,
        seg: &Segment<'_>,
        starts: &FlowStarts,
    ) -> Result<(), AllocError>
        ensures { OnOk result (self.new ≡ served_content (kept_starts starts.now) Beginning tick
            (model.Local tuple (seg_of seg.now)) self.old) }
    {
        self.connect_where(tick, tuple, seg, starts)?;
        match self.host.find(&tuple) {
            Some(i) => self.see(i, seg),
            None => Ok(()),
        }
    }

    fn connect_where(
        &mut self,
        tick: u32,
        tuple: FourTuple,
        seg: &Segment<'_>,
        starts: &FlowStarts,
    ) -> Result<(), AllocError>
        ensures { OnOk result (self.new ≡ on_host
            (connected (kept_starts starts.now) tick tuple (seg_of seg.now)) self.old) }
    {
        if !connects(seg) {
            return Ok(());
        }
        match self.host.find(&tuple) {
            Some(_) => Ok(()),
            None => self.host.connect(tick, THE_APP, tuple, starts),
        }
    }

    /// What a local segment shows of the flow at place `i` is seen. The error is want of memory.
    fn see(&mut self, i: usize, seg: &Segment<'_>) -> Result<(), AllocError>
        requires { i < length self.old.host.flows }
        ensures { (tick : ℕ) (tuple : FourTuple) → OnOk result
            (self.new ≡ served_where (Some i) Beginning tick (model.Local tuple (seg_of seg.now)) self.old) }
    {
        let count = self.host.flow_count();
        show_all(self.alloc, &mut self.shown, count)?;
        self.shown[i].see(self.host.flow(i), seg)
    }

    /// The application's calls for a segment of this four-tuple, where a flow has it. The error is want of memory.
    fn ask(
        &mut self,
        tick: u32,
        tuple: &FourTuple,
        remote: bool,
        resets: bool,
    ) -> Result<(), AllocError>
        requires apart { remote ≡ true → resets ≡ false }
        ensures { (content : model.Content) → is_remote content ≡ remote → resets_here content ≡ resets
            → OnOk result (self.new ≡ served_later tick content tuple.now self.old) }
    {
        match self.host.find(tuple) {
            Some(i) => self.ask_at(i, tick, remote, resets),
            None => Ok(()),
        }
    }

    /// The application's calls for a segment of the flow at place `i`. The error is want of memory.
    fn ask_at(&mut self, i: usize, tick: u32, remote: bool, resets: bool) -> Result<(), AllocError>
        requires place { passes_at is_standing self.old.host.flows i ≡ true }
        requires apart { remote ≡ true → resets ≡ false }
        ensures { (content : model.Content) (l : Live) → is_remote content ≡ remote → resets_here content ≡ resets
            → slice_get self.old.host.flows i ≡ Some l → OnOk result (self.new ≡ asked_at i l tick content self.old) }
    {
        let count = self.host.flow_count();
        show_all(self.alloc, &mut self.shown, count)?;
        self.host.serve(i, &mut self.shown[i], tick, remote, resets)
    }
}

/// Something may be shown of each of so many flows. The error is want of memory.
fn show_all(alloc: Global, shown: &mut Vec<Shown>, count: usize) -> Result<(), AllocError>
    ensures shown { (flows : List Live) → length flows ≡ count
        → OnOk result (shown.new.items ≡ all_shown flows shown.old.items) }
    ensures len { OnOk result (count ≤ length shown.new.items) }
{
    while shown.len() < count {
        shown.push(Shown::new(alloc))?;
    }
    Ok(())
}

/// Whether the segment is what an application's connect sends.
fn connects(seg: &Segment<'_>) -> bool
    ensures { result ≡ model_connects (seg_of seg.now) }
{
    seg.flags.is_syn() && !seg.flags.is_ack()
}
