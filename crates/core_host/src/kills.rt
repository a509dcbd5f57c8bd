//! Applications are killed: each ends, and is reaped.
ghost use Rattle.std.specs.Prelude.{◌≡◌, ◌<◌, ℕ, [], false, not, Some, slice_get, position, OnOk};
ghost use Rattle.std.specs.List.{filter};
ghost use Rattle.slow_handshake.specs.Openings.{is_owned_by};
ghost use Rattle.slow_handshake.specs.declared.openings.Listener.{Listener};
ghost use Rattle.app_reaper.specs.Lists.{is_on};
ghost use Rattle.app_reaper.specs.Reaping.{IsAborted};
ghost use Rattle.flow_lock.specs.Claims.{HasPin};
ghost use Rattle.flow_lock.specs.Steps.{IsAlone};
ghost use Rattle.core_phase.specs.declared.lane.AppLane.{AppLane};
ghost use Rattle.sound_hosts.specs.Hosts as sound;
ghost use Rattle.sound_hosts.specs.Leaving.{books_left};
ghost use Rattle.sound_hosts.specs.Sound.{IsHostSound};
ghost use Rattle.core_host.specs.Alone.{OnApp, MayHand};
ghost use Rattle.core_host.specs.Asking.{HasApp};
ghost use Rattle.core_host.specs.Kills.{HasAbortedWaiting, IsEndedAndReaped, IsKilled};
ghost use Rattle.core_host.specs.Sound.{IsStaffSound};

use crate::books::Books;
use crate::host::CoreHost;
use app_reaper::{CallFault, PinList, make_slow_call, reap_with_baton};
use core_phase::Lane;
use core_worker::Shared;
use flow_lock::SlowPass;
use flow_state::{AppCalls, CallIn, FlowRecord};
use libtas_sockets::App;
use slow_worker::SlowWorker;
use std::alloc::AllocError;
use tas_model::{Caller, FlowId};

impl CoreHost {
    /// The application is killed, while nobody else acts: its flows are aborted by the slow path, also those that wait
    /// at its listeners, and these go. Where it ends `holding` it had the record of its newest socket's flow in hand.
    /// The error is want of memory.
    pub fn kill(&mut self, app: u32, tick: u32, holding: bool) -> Result<(), AllocError>
        requires sound { IsStaffSound self.old }
        requires app { HasApp app self.old }
        ensures { OnOk result (IsKilled app tick self.old self.new) }
    {
        let at = self.own_lane(app);
        let place = at - self.cores as usize;
        abort_waiting(&*self.shared, &mut self.slow, app, tick)?;
        self.names.remove(place);
        let lane = self.lanes.remove(at);
        end_lane(
            &*self.shared,
            &mut self.slow,
            &mut self.books,
            lane,
            tick,
            holding,
        )?;
        forget(&mut self.slow, app);
        Ok(())
    }
}

/// The application's listeners go.
fn forget(slow: &mut SlowWorker, app: u32)
    ensures { slow.new ≡ record slow.old {
      path = record slow.old.path {
        listeners = filter (λ (l : Listener). not (is_owned_by app l)) slow.old.path.listeners;
      };
    } }
{
    slow.path.forget(app);
}

/// The flows that wait at the application's listeners are aborted by the slow path, the first first. The error is want
/// of memory.
fn abort_waiting(
    shared: &Shared,
    slow: &mut SlowWorker,
    app: u32,
    tick: u32,
) -> Result<(), AllocError>
    requires { (h : sound.CoreHost) × (h.table ≡ shared.now.table) × (h.slow ≡ slow.old) × IsHostSound h }
    ensures { OnOk result ((h : sound.CoreHost) → h.table ≡ shared.now.table → h.slow ≡ slow.old → IsHostSound h
        → HasAbortedWaiting app tick h slow.new) }
{
    while let Some(id) = slow.path.waiting(app, 0) {
        abort_one(shared, slow, id, tick)?;
        slow.path.left(id);
    }
    Ok(())
}

/// The slow path aborts a flow of which it has the pin. The error is want of memory.
fn abort_one(
    shared: &Shared,
    slow: &mut SlowWorker,
    id: FlowId,
    tick: u32,
) -> Result<(), AllocError>
    requires pass { (slow.old.pass.table ≡ shared.now.table) × IsAlone slow.old.pass.view }
    requires idle { slow.old.pass.view.held ≡ [] }
    requires pin { (k : ℕ) × (position (is_on id.slot) slow.old.pins ≡ Some k)
        × (slice_get slow.old.pins k ≡ Some id) }
    requires has { HasPin slow.old.pass.view id × (id.slot < shared.now.table.slots) }
    ensures rest { slow.new ≡ record slow.old { pass = slow.new.pass } }
    ensures table { slow.new.pass.table ≡ slow.old.pass.table }
    ensures aborted { OnOk result (IsAborted tick id slow.old.pass.view slow.new.pass.view) }
{
    let Some(at) = slow.pins.place_of(id.slot) else {
        unreachable!()
    };
    let made = make_slow_call(
        &shared.table,
        &mut slow.pass,
        slow.pins.pin(at),
        Caller::Slow,
        tick,
        &CallIn::Abort,
        &AppCalls,
    );
    match made {
        Ok(_) => Ok(()),
        Err(CallFault::OutOfMemory) => Err(AllocError),
        Err(CallFault::Busy(_)) => unreachable!(),
    }
}

/// The application of a lane ends alone, and is reaped. The error is want of memory.
fn end_lane(
    shared: &Shared,
    slow: &mut SlowWorker,
    books: &mut Books,
    lane: Lane,
    tick: u32,
    holding: bool,
) -> Result<(), AllocError>
    requires hand { OnApp (λ (l : AppLane). MayHand shared.now.table l.app slow.old.pass) lane }
    requires plain { OnApp (λ (l : AppLane). l.app.pass.view.slow ≡ false) lane }
    ensures slow { slow.new ≡ record slow.old { pass = slow.new.pass } }
    ensures ended { OnOk result (OnApp (λ (l : AppLane). IsEndedAndReaped shared.now.table tick holding l.app
        slow.old.pass slow.new.pass) lane) }
    ensures books { OnApp (λ (l : AppLane). books.new ≡ books_left l.app.number l.app.sockets books.old) lane }
{
    match lane {
        Lane::App(lane) => end_alone(shared, &mut slow.pass, books, lane.app, tick, holding),
        Lane::Core(_) => unreachable!(),
    }
}

/// The application has the baton while it ends, with the record of its newest socket's flow in hand where it is
/// `holding`, and is reaped. The error is want of memory.
fn end_alone(
    shared: &Shared,
    slow: &mut SlowPass<FlowRecord>,
    books: &mut Books,
    app: App,
    tick: u32,
    holding: bool,
) -> Result<(), AllocError>
    requires hand { MayHand shared.now.table app slow.old }
    requires plain { app.pass.view.slow ≡ false }
    ensures ended { OnOk result (IsEndedAndReaped shared.now.table tick holding app slow.old slow.new) }
    ensures books { books.new ≡ books_left app.number app.sockets books.old }
{
    let mut app = app;
    app.pass_on(&shared.table, slow);
    let ended = app.end(holding, &shared.table);
    leave_all(books, ended.app, &ended.pins);
    match reap_with_baton(&shared.table, slow, ended, tick) {
        Ok(()) => Ok(()),
        Err(_) => Err(AllocError),
    }
}

/// The application gives up the sockets of these pins' flows.
fn leave_all(books: &mut Books, app: u32, pins: &PinList)
    ensures { books.new ≡ books_left app pins.now.list books.old }
{
    for at in 0..pins.len() {
        books.leave(app, pins.pin(at).id());
    }
}
