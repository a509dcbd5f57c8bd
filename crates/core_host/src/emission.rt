//! What may still go at the end of a tick is sent, and records are looked at for what was.
ghost use Rattle.std.specs.Prelude.{◌≡◌, ◌<◌, ℕ, length, map, slice_get, Some, OnOk};
ghost use Rattle.flow_lock.specs.Steps.{IsAlone, gave};
ghost use Rattle.flow_lock.specs.declared.view.View.{View};
ghost use Rattle.flow_clock.specs.Ledgers.{IsReady, IsKept};
ghost use Rattle.app_reaper.specs.OneCall.{history};
ghost use Rattle.slow_worker.specs.Workers.{IsSound, sight_of};
ghost use Rattle.host_rounds.specs.Hosts.{Host, Live};
ghost use Rattle.host_rounds.specs.Lists.{Each};
ghost use Rattle.core_host.specs.Emission.{IsKicked, IsRestSent, IsIndexedAt, IsTakenAt, IsRecordAt};
ghost use Rattle.core_host.specs.Emission.{IsPinTaken, IsOut};
ghost use Rattle.core_host.specs.Ending.{AreFiled};
ghost use Rattle.core_host.specs.Serving.{KeepsTime};
ghost use Rattle.core_host.specs.Sound.{IsStaffSound, IsUnasked};
ghost use Rattle.core_host.specs.Steps.{IsStep};
ghost use Rattle.core_host.specs.Emission.{AreTriesSet, untried};
ghost use Rattle.core_host.specs.Views.{Staffed, seen_by};

use crate::host::CoreHost;
use app_reaper::PinList;
use core_phase::{Answered, Attempt, Lane, deeds_leave_the_column};
use core_worker::Shared;
use flow_lock::{FlowTable, SlowPass};
use flow_state::FlowRecord;
use slow_rounds::{kicks_alone_keep_it, rests_sent_alone_are_emit_phases};
use slow_worker::SlowWorker;
use std::alloc::AllocError;
use std::sync::Wait;

impl CoreHost {
    /// The core of each flow of which a segment may go is told so, wherever its queue has room, so that the cores send
    /// side by side in the phase that follows. The error is want of memory.
    pub fn kick_all<R: Wait>(&mut self, rt: &R) -> Result<(), AllocError>
        requires sound { IsStaffSound self.old }
        ensures kicked { OnOk result (IsKicked self.old self.new) }
    {
        kicks_alone_keep_it();
        self.slow.kick_all(rt, &*self.shared)
    }

    /// All that may still go is sent alone, by core 0. The error is want of memory.
    pub fn send_rest(&mut self, tick: u32) -> Result<(), AllocError>
        requires sound { IsStaffSound self.old }
        ensures sent { OnOk result (IsRestSent tick self.old self.new) }
    {
        rests_sent_alone_are_emit_phases();
        self.slow.send_rest(&*self.shared, tick)
    }

    /// No application tries anything, nor has an answer.
    pub fn forget_tries(&mut self)
        requires sound { IsStaffSound self.old }
        ensures set { AreTriesSet self.old self.new }
        ensures none { Each IsUnasked self.new.lanes }
    {
        forget_all(&mut self.lanes);
    }

    /// Whether the index has the flow at this place.
    pub fn is_indexed(&self, place: usize) -> bool
        requires { place < length (seen_by self.now).flows }
        ensures { (l : Live) → slice_get (seen_by self.now).flows place ≡ Some l → result ≡ l.indexed }
    {
        self.books.is_indexed(place)
    }

    /// The record of a flow of the index, behind so many others of it, which is to be given back before anything else
    /// is done.
    pub fn take_record(&mut self, at: usize) -> FlowRecord
        requires sound { IsStaffSound self.old }
        requires there { (place : ℕ) × IsIndexedAt place at (seen_by self.old) }
        ensures taken { IsTakenAt at result self.old self.new }
        ensures of_place { (place : ℕ) → IsIndexedAt place at (seen_by self.old)
            → IsRecordAt place result (seen_by self.old) }
    {
        take_from(&*self.shared, &mut self.slow, at)
    }

    /// Gives the record back, as it was.
    pub fn give_record(&mut self, at: usize, flow: FlowRecord)
        requires taken { (before : Staffed) × IsStaffSound before × IsTakenAt at flow before self.old }
        ensures given { (before : Staffed) → IsStaffSound before → IsTakenAt at flow before self.old
            → IsStep (λ (host : Host). host) before self.new × KeepsTime before self.new }
        // Records that were filed have the histories that are known of their flows, if they had.
        ensures filed { (before : Staffed) → IsStaffSound before → IsTakenAt at flow before self.old
            → AreFiled before.host → AreFiled self.new.host }
    {
        deeds_leave_the_column();
        give_to(&*self.shared, &mut self.slow, at, flow);
    }
}

/// Takes the record of the slow path's flow at a place.
fn take_from(shared: &Shared, slow: &mut SlowWorker, at: usize) -> FlowRecord
    requires sound { IsSound shared.now.table (sight_of slow.old) }
    requires alone { IsAlone slow.old.pass.view }
    requires at { at < length slow.old.pins }
    ensures taken { IsPinTaken slow.old.pins at result slow.old.pass.view slow.new.pass.view }
    ensures table { slow.new.pass.table ≡ slow.old.pass.table }
    ensures rest { slow.new ≡ record slow.old { pass = slow.new.pass } }
{
    take_at(&shared.table, &mut slow.pass, &slow.pins, at)
}

fn take_at(
    table: &FlowTable<FlowRecord>,
    slow: &mut SlowPass<FlowRecord>,
    pins: &PinList,
    at: usize,
) -> FlowRecord
    requires slow { IsReady table.now slow.old }
    requires alone { IsAlone slow.old.view }
    requires pins { Each (IsKept table.now.slots slow.old) pins.now.list }
    requires at { at < length pins.now.list }
    ensures taken { IsPinTaken pins.now.list at result slow.old.view slow.new.view }
    ensures table { slow.new.table ≡ slow.old.table }
{
    let pin = pins.pin(at);
    let flow = match table.slow_take(slow, pin) {
        Ok(flow) => flow,
        Err(_) => unreachable!(),
    };
    let _ = flow.parts();
    flow
}

/// Gives the record of the slow path's flow at a place back.
fn give_to(shared: &Shared, slow: &mut SlowWorker, at: usize, flow: FlowRecord)
    requires given { (v : View) × IsOut shared.now.table slow.old.pins at flow v slow.old.pass }
    ensures given { slow.new.pass.view ≡ gave flow.id (history flow) slow.old.pass.view }
    ensures rest { slow.new ≡ record slow.old { pass = record slow.old.pass { view = slow.new.pass.view } } }
{
    give_at(&shared.table, &mut slow.pass, &slow.pins, at, flow);
}

fn give_at(
    table: &FlowTable<FlowRecord>,
    slow: &mut SlowPass<FlowRecord>,
    pins: &PinList,
    at: usize,
    flow: FlowRecord,
)
    requires given { (v : View) × IsOut table.now pins.now.list at flow v slow.old }
    ensures { slow.new ≡ record slow.old { view = gave flow.id (history flow) slow.old.view } }
{
    table.slow_give(slow, pins.pin(at), flow);
}

/// No application among them tries anything, nor has an answer.
fn forget_all(lanes: &mut Vec<Lane>)
    ensures { lanes.new.items ≡ map untried lanes.old.items }
{
    for lane in lanes.iter_mut() {
        forget(lane);
    }
}

fn forget(lane: &mut Lane)
    ensures { lane.new ≡ untried lane.old }
{
    if let Lane::App(app) = lane {
        app.attempt = Attempt::Nothing;
        app.answer = Answered::Nothing;
    }
}
