//! Applications accept flows alone.
ghost use Rattle.std.specs.Prelude.{◌≡◌, Some, Ok, IfOk, IsOk, OnOk};
ghost use Rattle.slow_handshake.specs.Openings.{first_ready};
ghost use Rattle.core_phase.specs.declared.lane.AppLane.{AppLane};
ghost use Rattle.libtas_sockets.specs.Accepting.{flow_left};
ghost use Rattle.core_host.specs.Alone.{OnApp, OnApps, MayHand, ActsAlone, HasAccepted, IsTakeable, IsOkOrFull};
ghost use Rattle.core_host.specs.Asking.{HasApp, IsAccepting};
ghost use Rattle.core_host.specs.Sound.{IsStaffSound};

use crate::books::Holder;
use crate::host::CoreHost;
use core_phase::Lane;
use core_worker::Shared;
use flow_lock::SlowPass;
use flow_state::FlowRecord;
use libtas_sockets::{App, Socket, SocketError};
use slow_handshake::SlowPath;
use slow_worker::SlowWorker;
use std::alloc::AllocError;
use tas_model::FlowId;

impl CoreHost {
    /// The application accepts the flow that waits at the port and was opened first, where one does whose connection
    /// stands, while nobody else acts. The answer is its place; where there is none nothing changes. The error is want
    /// of memory.
    pub fn accept(&mut self, app: u32, tick: u32, port: u16) -> Result<Option<usize>, AllocError>
        requires sound { IsStaffSound self.old }
        requires app { HasApp app self.old }
        ensures { IfOk result (λ answer. IsAccepting app tick port self.old self.new answer) }
    {
        let Some(id) = ready_flow(&self.slow, port) else {
            return Ok(None);
        };
        let Some(place) = self.books.place_of(id) else {
            unreachable!()
        };
        let at = self.own_lane(app);
        accept_lane(
            &*self.shared,
            &mut self.slow,
            &mut self.lanes[at],
            id,
            port,
            tick,
        )?;
        self.books.hold(place, Holder::Application(app));
        Ok(Some(place))
    }
}

/// The flow of the port that may be accepted next.
fn ready_flow(slow: &SlowWorker, port: u16) -> Option<FlowId>
    ensures { result ≡ first_ready slow.now.path port }
{
    slow.path.ready(port)
}

/// The application of a lane accepts this flow, which may be accepted at the port, alone. The error is want of memory.
fn accept_lane(
    shared: &Shared,
    slow: &mut SlowWorker,
    lane: &mut Lane,
    id: FlowId,
    port: u16,
    tick: u32,
) -> Result<(), AllocError>
    requires hand { OnApp (λ (l : AppLane). MayHand shared.now.table l.app slow.old.pass) lane.old }
    requires first { first_ready slow.old.path port ≡ Some id }
    requires takeable { OnApp (λ (l : AppLane). IsTakeable shared.now.table id l.app slow.old.pass.view) lane.old }
    ensures slow { OnOk result (slow.new ≡ record slow.old {
      pass = slow.new.pass;
      path = flow_left id slow.old.path;
    }) }
    ensures accepted { OnOk result (OnApps (ActsAlone (HasAccepted id tick) slow.old.pass slow.new.pass)
        lane.old lane.new) }
{
    match lane {
        Lane::App(lane) => {
            accept_alone(
                shared,
                &mut slow.pass,
                &mut slow.path,
                &mut lane.app,
                id,
                port,
                tick,
            )
        }
        Lane::Core(_) => unreachable!(),
    }
}

/// The application has the baton to accept this flow, which may be accepted at the port. The error is want of memory.
fn accept_alone(
    shared: &Shared,
    slow: &mut SlowPass<FlowRecord>,
    path: &mut SlowPath,
    app: &mut App,
    id: FlowId,
    port: u16,
    tick: u32,
) -> Result<(), AllocError>
    requires hand { MayHand shared.now.table app.old slow.old }
    requires first { first_ready path.old port ≡ Some id }
    requires takeable { IsTakeable shared.now.table id app.old slow.old.view }
    ensures path { OnOk result (path.new ≡ flow_left id path.old) }
    ensures accepted { OnOk result (ActsAlone (HasAccepted id tick) slow.old slow.new app.old app.new) }
{
    app.pass_on(&shared.table, slow);
    let accepted = app.accept(&shared.table, path, port, tick);
    is_accepted(accepted)?;
    app.pass_back(&shared.table, slow);
    Ok(())
}

/// The error is want of memory.
fn is_accepted(accepted: Result<Socket, SocketError>) -> Result<(), AllocError>
    requires { IsOkOrFull accepted }
    ensures { OnOk result (IsOk accepted) }
{
    match accepted {
        Ok(_) => Ok(()),
        Err(SocketError::OutOfMemory) => Err(AllocError),
        Err(_) => unreachable!(),
    }
}
