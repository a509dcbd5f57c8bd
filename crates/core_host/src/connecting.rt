//! Applications connect alone.
ghost use Rattle.std.specs.Prelude.{◌≡◌, ◌<◌, length, true, false, Ok, IfOk, is_some};
ghost use Rattle.tas_model.specs.Valid.{InRange};
ghost use Rattle.host_rounds.specs.Hosts.{lowest_free};
ghost use Rattle.libtas_sockets.specs.Connecting.{next_tuple};
ghost use Rattle.slow_handshake.specs.Openings.{all_ports};
ghost use Rattle.slow_rounds.specs.Rests.{starts_by};
ghost use Rattle.sound_calls.specs.Connecting.{HasConnectedAlone};
ghost use Rattle.core_phase.specs.declared.lane.AppLane.{AppLane};
ghost use Rattle.core_host.specs.Alone.{OnApp, OnApps, MayHand, IsOkOrFull};
ghost use Rattle.core_host.specs.Asking.{HasApp};
ghost use Rattle.core_host.specs.Connecting.{IsConnecting, IsSlotFree, HasOpened};
ghost use Rattle.core_host.specs.Sound.{IsStaffSound};
ghost use Rattle.core_host.specs.Views.{seen_by};

use crate::books::Holder;
use crate::host::CoreHost;
use core_phase::Lane;
use core_worker::Shared;
use libtas_sockets::{App, Socket, SocketError};
use local_host::Connecting;
use slow_handshake::NumberSource;
use slow_worker::SlowWorker;
use std::alloc::AllocError;
use std::sync::Wait;
use tas_model::{FlowId, FourTuple};

impl CoreHost {
    /// The application connects to the port of a host, while nobody else acts: a flow is opened in the lowest free
    /// slot, from the next port, with the first number that the source has for it. The answer says so, or why not; then
    /// nothing changes. The error is want of memory.
    pub fn connect_out<R: Wait, N: NumberSource>(
        &mut self,
        rt: &R,
        app: u32,
        tick: u32,
        raddr: u32,
        rport: u16,
        numbers: &N,
    ) -> Result<Connecting, AllocError>
        requires sound { IsStaffSound self.old }
        requires app { HasApp app self.old }
        requires ports { (seen_by self.old).params.fixed ≡ false }
        ensures { IfOk result (λ answer. IsConnecting (starts_by (N.number numbers.now)) tick app raddr rport self.old
            self.new answer) }
    {
        if !self.has_slot() {
            return Ok(Connecting::NoSlot);
        }
        let Ok(lport) = self.slow.path.next_port() else {
            return Ok(Connecting::NoPort);
        };
        let tuple = FourTuple {
            laddr: self.slow.path.params().addr,
            lport,
            raddr,
            rport,
        };
        let place = self.books.len();
        let at = self.own_lane(app);
        let id = connect_lane(
            rt,
            &*self.shared,
            &mut self.slow,
            &mut self.lanes[at],
            tuple,
            numbers,
            tick,
        )?;
        self.books.open(id, Holder::Application(app))?;
        Ok(Connecting::Opened(place))
    }

    /// Whether a slot is free for one flow more.
    fn has_slot(&self) -> bool
        requires { IsStaffSound self.now }
        ensures free { result ≡ is_some (lowest_free (seen_by self.now)) }
        ensures few { result ≡ true → length self.now.host.books < 4294967295 }
    {
        self.slow.pass.opened() < u32::MAX && self.slow.pass.next_flow().is_some()
    }
}

/// The application of a lane connects alone, from the next port. The error is want of memory.
fn connect_lane<R: Wait, N: NumberSource>(
    rt: &R,
    shared: &Shared,
    slow: &mut SlowWorker,
    lane: &mut Lane,
    tuple: FourTuple,
    numbers: &N,
    tick: u32,
) -> Result<FlowId, AllocError>
    requires hand { OnApp (λ (l : AppLane). MayHand shared.now.table l.app slow.old.pass) lane.old }
    requires slot { OnApp (λ (l : AppLane). IsSlotFree slow.old l.app) lane.old }
    requires wide { length slow.old.pass.view.words ≡ shared.now.table.slots }
    requires ranges { InRange slow.old.path.params }
    requires ports { slow.old.path.ports < all_ports }
    requires next { tuple ≡ next_tuple slow.old.path tuple.raddr tuple.rport }
    ensures { IfOk result (λ id. OnApps (λ a b. HasConnectedAlone id tuple.raddr tuple.rport
        (N.number numbers.now tuple slow.old.pass.view.opened) tick a b slow.old slow.new) lane.old lane.new) }
{
    match lane {
        Lane::App(lane) => {
            let id = open_alone(shared, slow, &mut lane.app, tuple, numbers, tick)?;
            slow.know(rt, tuple, id)?;
            Ok(id)
        }
        Lane::Core(_) => unreachable!(),
    }
}

/// A flow is opened for the application, from the next port, which is given then, and pinned. The error is want of
/// memory.
fn open_alone<N: NumberSource>(
    shared: &Shared,
    slow: &mut SlowWorker,
    app: &mut App,
    tuple: FourTuple,
    numbers: &N,
    tick: u32,
) -> Result<FlowId, AllocError>
    requires hand { MayHand shared.now.table app.old slow.old.pass }
    requires slot { IsSlotFree slow.old app.old }
    requires wide { length slow.old.pass.view.words ≡ shared.now.table.slots }
    requires ranges { InRange slow.old.path.params }
    requires ports { slow.old.path.ports < all_ports }
    ensures { IfOk result (λ id. HasOpened tuple (N.number numbers.now tuple slow.old.pass.view.opened) tick id app.old
        app.new slow.old slow.new) }
{
    let params = *slow.path.params();
    let connected = app.connect_alone(
        &shared.table,
        &params,
        &mut slow.pass,
        &mut slow.pins,
        tuple,
        numbers,
        tick,
    );
    let socket = socket_in(connected)?;
    slow.path.connected();
    Ok(app.flow(socket))
}

/// The socket. The error is want of memory.
fn socket_in(connected: Result<Socket, SocketError>) -> Result<Socket, AllocError>
    requires { IsOkOrFull connected }
    ensures { IfOk result (λ s. connected ≡ Ok s) }
{
    match connected {
        Ok(socket) => Ok(socket),
        Err(SocketError::OutOfMemory) => Err(AllocError),
        Err(_) => unreachable!(),
    }
}
