//! Calls that applications make on their sockets alone, one after the other.
ghost use Rattle.std.specs.Prelude.{◌≡◌, ◌<◌, ◌≤◌, ◌^◌, length, true, Some, IfOk, OnOk};
ghost use Rattle.flow_lock.specs.Steps.{IsAlone};
ghost use Rattle.flow_state.specs.Calls as calls_of;
ghost use Rattle.flow_state.specs.Calls.{call_of, offer_of};
ghost use Rattle.flow_state.specs.declared.call.CallIn.TheVariants as ins;
ghost use Rattle.host_rounds.specs.Hosts.{answer_of};
ghost use Rattle.libtas_sockets.specs.Apps.{IsSocket};
ghost use Rattle.core_phase.specs.declared.lane.AppLane.{AppLane};
ghost use Rattle.core_host.specs.Alone.{OnApp, OnApps, MayHand, ActsAlone, HasAsked, HasLeft};
ghost use Rattle.core_host.specs.Alone.{IsRefusedBy, IsPlainError};
ghost use Rattle.asked_host.specs.Asking.{IsSocketCall, IsEndCall, told};
ghost use Rattle.core_host.specs.Asking.{HasApp, HasSocket, lane_in};
ghost use Rattle.asked_host.specs.Asking.{asked_by, left_by};
ghost use Rattle.core_host.specs.Asking.{IsAsked};
ghost use Rattle.core_host.specs.Sound.{IsStaffSound};
ghost use Rattle.core_host.specs.Views.{seen_by};

use crate::books::Holder;
use crate::host::CoreHost;
use core_phase::Lane;
use core_worker::Shared;
use flow_lock::{FlowTable, SlowPass};
use flow_state::{Answer, CallIn, FlowRecord};
use libtas_sockets::{App, Received, Socket, SocketError};
use slow_worker::SlowWorker;
use std::alloc::AllocError;

impl CoreHost {
    /// The application makes a call on the socket of the flow at a place, which it keeps, while nobody else acts. The
    /// answer tells no window update. The error is want of memory.
    pub fn ask(
        &mut self,
        app: u32,
        place: usize,
        tick: u32,
        call: &CallIn<'_>,
    ) -> Result<Answer, AllocError>
        requires sound { IsStaffSound self.old }
        requires socket { HasSocket app place self.old }
        requires kind { IsSocketCall call.now }
        ensures made { OnOk result (IsAsked app (asked_by app place tick (call_of call.now) (offer_of call.now))
            self.old self.new) }
        ensures answer { IfOk result (λ answer.
            told answer ≡ told (calls_of.answer_of (answer_of place (seen_by self.new)))) }
    {
        let at = self.own_lane(app);
        let socket = Socket(self.books.id(place).slot);
        ask_lane(
            &*self.shared,
            &mut self.slow,
            &mut self.lanes[at],
            &mut self.buffer,
            socket,
            tick,
            call,
        )
    }

    /// The application closes or aborts the flow at a place, and gives its socket up, while nobody else acts. The error
    /// is want of memory.
    pub fn give_up(
        &mut self,
        app: u32,
        place: usize,
        tick: u32,
        call: &CallIn<'_>,
    ) -> Result<(), AllocError>
        requires sound { IsStaffSound self.old }
        requires socket { HasSocket app place self.old }
        requires kind { IsEndCall call.now }
        ensures { OnOk result (IsAsked app (left_by app place tick (call_of call.now)) self.old self.new) }
    {
        let at = self.own_lane(app);
        let socket = Socket(self.books.id(place).slot);
        leave_lane(
            &*self.shared,
            &mut self.slow,
            &mut self.lanes[at],
            socket,
            tick,
            call,
        )?;
        self.books.hold(place, Holder::GivenUp);
        Ok(())
    }

    /// The place of the lane of an application that runs.
    pub(crate) fn own_lane(&self, app: u32) -> usize
        requires { HasApp app self.now }
        ensures { lane_in app self.now ≡ Some result }
    {
        let Some(at) = self.lane_of(app) else {
            unreachable!()
        };
        at
    }
}

/// The application of a lane makes a call on a socket that it keeps, alone. The error is want of memory.
fn ask_lane(
    shared: &Shared,
    slow: &mut SlowWorker,
    lane: &mut Lane,
    buffer: &mut Vec<u8>,
    socket: Socket,
    tick: u32,
    call: &CallIn<'_>,
) -> Result<Answer, AllocError>
    requires app { OnApp (λ (l : AppLane). MayHand shared.now.table l.app slow.old.pass) lane.old }
    requires socket { OnApp (λ (l : AppLane). IsSocket l.app socket) lane.old }
    requires kind { IsSocketCall call.now }
    requires room { length buffer.old.items ≡ 65536 }
    ensures slow { slow.new ≡ record slow.old { pass = slow.new.pass } }
    ensures room { length buffer.new.items ≡ 65536 }
    ensures asked { IfOk result (λ answer. OnApps (ActsAlone (HasAsked socket tick call.now answer) slow.old.pass
        slow.new.pass) lane.old lane.new) }
{
    match lane {
        Lane::App(lane) => {
            ask_alone(
                shared,
                &mut slow.pass,
                &mut lane.app,
                buffer,
                socket,
                tick,
                call,
            )
        }
        Lane::Core(_) => unreachable!(),
    }
}

/// The application of a lane closes or aborts a socket alone. The error is want of memory.
fn leave_lane(
    shared: &Shared,
    slow: &mut SlowWorker,
    lane: &mut Lane,
    socket: Socket,
    tick: u32,
    call: &CallIn<'_>,
) -> Result<(), AllocError>
    requires app { OnApp (λ (l : AppLane). MayHand shared.now.table l.app slow.old.pass) lane.old }
    requires socket { OnApp (λ (l : AppLane). IsSocket l.app socket) lane.old }
    requires kind { IsEndCall call.now }
    ensures slow { slow.new ≡ record slow.old { pass = slow.new.pass } }
    ensures left { OnOk result (OnApps (ActsAlone (HasLeft socket tick call.now) slow.old.pass slow.new.pass)
        lane.old lane.new) }
{
    match lane {
        Lane::App(lane) => leave_alone(shared, &mut slow.pass, &mut lane.app, socket, tick, call),
        Lane::Core(_) => unreachable!(),
    }
}

/// The application has the baton for a call on a socket that it keeps. The error is want of memory.
fn ask_alone(
    shared: &Shared,
    slow: &mut SlowPass<FlowRecord>,
    app: &mut App,
    buffer: &mut Vec<u8>,
    socket: Socket,
    tick: u32,
    call: &CallIn<'_>,
) -> Result<Answer, AllocError>
    requires hand { MayHand shared.now.table app.old slow.old }
    requires socket { IsSocket app.old socket }
    requires kind { IsSocketCall call.now }
    requires room { length buffer.old.items ≡ 65536 }
    ensures room { length buffer.new.items ≡ 65536 }
    ensures asked { IfOk result (λ answer. ActsAlone (HasAsked socket tick call.now answer) slow.old slow.new app.old
        app.new) }
{
    app.pass_on(&shared.table, slow);
    let asked = match call {
        CallIn::Ready => ask_ready(app, &shared.table, socket, tick),
        CallIn::Send { bytes } => ask_send(app, &shared.table, socket, tick, bytes),
        CallIn::Recv { most } => ask_recv(app, &shared.table, socket, tick, *most, buffer),
        CallIn::Shut => ask_shut(app, &shared.table, socket, tick),
        _ => unreachable!(),
    };
    app.pass_back(&shared.table, slow);
    asked
}

/// The application has the baton to close or abort a socket. The error is want of memory.
fn leave_alone(
    shared: &Shared,
    slow: &mut SlowPass<FlowRecord>,
    app: &mut App,
    socket: Socket,
    tick: u32,
    call: &CallIn<'_>,
) -> Result<(), AllocError>
    requires hand { MayHand shared.now.table app.old slow.old }
    requires socket { IsSocket app.old socket }
    requires kind { IsEndCall call.now }
    ensures { OnOk result (ActsAlone (HasLeft socket tick call.now) slow.old slow.new app.old app.new) }
{
    app.pass_on(&shared.table, slow);
    let left = match call {
        CallIn::Close => close(app, &shared.table, socket, tick),
        CallIn::Abort => abort(app, &shared.table, socket, tick),
        _ => unreachable!(),
    };
    app.pass_back(&shared.table, slow);
    left
}

/// Asks Ready with the baton. The error is want of memory.
fn ask_ready(
    app: &mut App,
    table: &FlowTable<FlowRecord>,
    socket: Socket,
    tick: u32,
) -> Result<Answer, AllocError>
    requires pass { (app.old.pass.table ≡ table.now) × IsAlone app.old.pass.view }
    requires socket { IsSocket app.old socket }
    ensures pass { (app.new.pass.table ≡ table.now) × (app.new.pass.view.baton ≡ true) }
    ensures asked { IfOk result (λ answer. HasAsked socket tick ins.Ready answer app.old app.new) }
{
    match app.ready(table, socket, tick) {
        Ok(()) => Ok(Answer::Ok),
        Err(error) => refused(error),
    }
}

/// Sends with the baton. The error is want of memory.
fn ask_send(
    app: &mut App,
    table: &FlowTable<FlowRecord>,
    socket: Socket,
    tick: u32,
    bytes: &[u8],
) -> Result<Answer, AllocError>
    requires pass { (app.old.pass.table ≡ table.now) × IsAlone app.old.pass.view }
    requires socket { IsSocket app.old socket }
    requires few { length bytes.now < 2 ^ 32 }
    ensures pass { (app.new.pass.table ≡ table.now) × (app.new.pass.view.baton ≡ true) }
    ensures asked { IfOk result (λ answer. HasAsked socket tick (ins.Send bytes.entry) answer app.old app.new) }
{
    match app.send(table, socket, tick, bytes) {
        Ok(len) => Ok(Answer::Took { len }),
        Err(error) => refused(error),
    }
}

/// Receives at most so many bytes with the baton. The error is want of memory.
fn ask_recv(
    app: &mut App,
    table: &FlowTable<FlowRecord>,
    socket: Socket,
    tick: u32,
    most: u32,
    buffer: &mut Vec<u8>,
) -> Result<Answer, AllocError>
    requires pass { (app.old.pass.table ≡ table.now) × IsAlone app.old.pass.view }
    requires socket { IsSocket app.old socket }
    requires most { (1 ≤ most) × (most ≤ 65536) }
    requires room { length buffer.old.items ≡ 65536 }
    ensures pass { (app.new.pass.table ≡ table.now) × (app.new.pass.view.baton ≡ true) }
    ensures room { length buffer.new.items ≡ 65536 }
    ensures asked { IfOk result (λ answer. HasAsked socket tick (ins.Recv most) answer app.old app.new) }
{
    match app.recv(table, socket, tick, &mut buffer[..most as usize]) {
        Ok(Received::Bytes(len)) => Ok(Answer::Got { len, update: None }),
        Ok(Received::End) => Ok(Answer::End),
        Err(error) => refused(error),
    }
}

/// Shuts with the baton. The error is want of memory.
fn ask_shut(
    app: &mut App,
    table: &FlowTable<FlowRecord>,
    socket: Socket,
    tick: u32,
) -> Result<Answer, AllocError>
    requires pass { (app.old.pass.table ≡ table.now) × IsAlone app.old.pass.view }
    requires socket { IsSocket app.old socket }
    ensures pass { (app.new.pass.table ≡ table.now) × (app.new.pass.view.baton ≡ true) }
    ensures asked { IfOk result (λ answer. HasAsked socket tick ins.Shut answer app.old app.new) }
{
    match app.shut(table, socket, tick) {
        Ok(()) => Ok(Answer::Ok),
        Err(error) => refused(error),
    }
}

/// Closes with the baton. The error is want of memory.
fn close(
    app: &mut App,
    table: &FlowTable<FlowRecord>,
    socket: Socket,
    tick: u32,
) -> Result<(), AllocError>
    requires pass { (app.old.pass.table ≡ table.now) × IsAlone app.old.pass.view }
    requires socket { IsSocket app.old socket }
    ensures pass { (app.new.pass.table ≡ table.now) × (app.new.pass.view.baton ≡ true) }
    ensures left { OnOk result (HasLeft socket tick ins.Close app.old app.new) }
{
    match app.close(table, socket, tick) {
        Ok(()) => Ok(()),
        Err(SocketError::OutOfMemory) => Err(AllocError),
        Err(_) => unreachable!(),
    }
}

/// Aborts with the baton, where the flow isn't closed. The error is want of memory.
fn abort(
    app: &mut App,
    table: &FlowTable<FlowRecord>,
    socket: Socket,
    tick: u32,
) -> Result<(), AllocError>
    requires pass { (app.old.pass.table ≡ table.now) × IsAlone app.old.pass.view }
    requires socket { IsSocket app.old socket }
    ensures pass { (app.new.pass.table ≡ table.now) × (app.new.pass.view.baton ≡ true) }
    ensures left { OnOk result (HasLeft socket tick ins.Abort app.old app.new) }
{
    match app.abort(table, socket, tick) {
        Ok(()) | Err(SocketError::Closed(_)) => Ok(()),
        Err(SocketError::OutOfMemory) => Err(AllocError),
        Err(_) => unreachable!(),
    }
}

/// The answer that shows a refusal. The error is want of memory.
fn refused(error: SocketError) -> Result<Answer, AllocError>
    requires { IsPlainError error }
    ensures { IfOk result (IsRefusedBy error) }
{
    match error {
        SocketError::NotYet => Ok(Answer::NotYet),
        SocketError::NotOpen => Ok(Answer::NotOpen),
        SocketError::Shut => Ok(Answer::Shut),
        SocketError::Closed(reason) => Ok(Answer::Closed { reason }),
        SocketError::OutOfMemory => Err(AllocError),
        _ => unreachable!(),
    }
}
