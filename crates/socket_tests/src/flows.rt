//! A table of two slots, its passes, and an application with one flow.
ghost use Rattle.std.specs.Prelude.{◌≡◌, ℕ, ◌+◌, ◌<◌, ◌≤◌, [], length, true, IfOk, IfErr, IfSome};
ghost use Rattle.tas_model.specs.Valid.{InRange};
ghost use Rattle.flow_lock.specs.Answers.{next_in};
ghost use Rattle.flow_lock.specs.Callers.{IsGuest, IsUser, IsKeeper, IsOwner};
ghost use Rattle.flow_state.specs.Calls.{IsSmall, IsTimely};
ghost use Rattle.tas_model.specs.declared.entry.Phase.{Phase};
ghost use Rattle.socket_tests.specs.Going.{IsGoing, HasOpened, IsIdle, IsFresh, MayAsk};

use app_reaper::{PinList, make_call};
use context_queue::ContextQueue;
use fast_tx::FastTx;
use flow_lock::{FlowTable, Pass, Pin, PinRefused, SlowPass, Word};
use flow_state::{Answer, CallIn, Engine, FlowRecord};
use libtas_sockets::{App, Socket, SocketError};
use segment_fields::{Flags, Segment};
use slow_handshake::SlowRx;
use std::alloc::{AllocError, Global};
use tas_model::{Caller, FlowId, FourTuple, FrameId, HostParams};
use tas_num::Seq;

pub const PARAMS: HostParams = HostParams {
    addr: 167772162,
    iss: 5000,
    ring: 16384,
    mss: 64,
    rto: 3,
    slots: 2,
    backlog: 1,
    fixed: false,
    scale: None,
};

pub const TUPLE: FourTuple = FourTuple {
    laddr: 167772162,
    lport: 49152,
    raddr: 167772161,
    rport: 80,
};

pub fn start(alloc: Global) -> Result<(FlowTable<FlowRecord>, SlowPass<FlowRecord>), AllocError>
    ensures slow { IfOk result (λ t. IsKeeper t.0 t.1 × (t.1.view.baton ≡ true) × (t.1.view.parts ≡ 4097)) }
    ensures table { IfOk result (λ t. (t.0.slots ≡ 2) × (t.1.view.opened ≡ 0)) }
{
    FlowTable::<FlowRecord>::new(alloc, 2)
}

/// A new pass.
pub fn guest(table: &FlowTable<FlowRecord>, slow: &mut SlowPass<FlowRecord>) -> Pass<FlowRecord>
    requires { IsKeeper table.now slow.old × (slow.old.view.baton ≡ true) × (4000 < slow.old.view.parts) }
    ensures new { IsGuest table.now result }
    ensures slow { IsKeeper table.now slow.new × (slow.new.view.baton ≡ true) }
    ensures same { (slow.new.view.parts + 1 ≡ slow.old.view.parts) × (slow.new.view.opened ≡ slow.old.view.opened) }
{
    table.split(slow)
}

/// A pass is joined.
pub fn farewell(
    table: &FlowTable<FlowRecord>,
    slow: &mut SlowPass<FlowRecord>,
    pass: Pass<FlowRecord>,
)
    requires { IsKeeper table.now slow.old × IsGuest table.now pass }
    ensures keeper { IsKeeper table.now slow.new × (slow.new.view.baton ≡ slow.old.view.baton) }
    ensures same { (slow.old.view.parts ≤ slow.new.view.parts) × (slow.new.view.opened ≡ slow.old.view.opened) }
{
    table.join(slow, pass);
}

/// The slow path opens the next flow for the record.
fn open_next(
    table: &FlowTable<FlowRecord>,
    slow: &mut SlowPass<FlowRecord>,
    flow: FlowRecord,
) -> Option<Pin>
    requires slow { IsKeeper table.now slow.old × (slow.old.view.opened < 1000) }
    requires flow { IfSome (next_in slow.old.view.marks) (λ id. flow.id ≡ id) × (length flow.entries ≡ 1) }
    ensures pin { IfSome result (λ p. (p.slot < table.now.slots) × IsOwner p slow.new) }
    ensures keeper { IsKeeper table.now slow.new × (slow.new.view.opened ≤ slow.old.view.opened + 1) }
{
    match table.open_flow(slow, flow) {
        Ok(opened) => Some(opened.1),
        Err((_, flow)) => {
            drop(flow);
            None
        }
    }
}

/// The slow path opens a flow.
pub fn opened(
    alloc: Global,
    table: &FlowTable<FlowRecord>,
    slow: &mut SlowPass<FlowRecord>,
) -> Option<Pin>
    requires { IsKeeper table.now slow.old × (slow.old.view.opened < 1000) }
    ensures pin { IfSome result (λ p. (p.slot < table.now.slots) × IsOwner p slow.new) }
    ensures keeper { IsKeeper table.now slow.new × (slow.new.view.opened ≤ slow.old.view.opened + 1) }
{
    let id = slow.next_flow()?;
    let made = FlowRecord::connect(alloc, id, TUPLE, &PARAMS, Seq(5000), Caller::Slow, 1);
    let Ok(flow) = made else {
        return None;
    };
    open_next(table, slow, flow)
}

pub fn enter(
    table: &FlowTable<FlowRecord>,
    pass: &mut Pass<FlowRecord>,
    id: FlowId,
) -> Result<Pin, Word>
    requires { IsGuest table.now pass.old × (id.slot < table.now.slots) }
    ensures pinned { IfOk result (λ p. (p ≡ id) × IsUser table.now id pass.new) }
    ensures refused { IfErr result (λ _. IsGuest table.now pass.new) }
{
    match table.pin(pass, id) {
        Ok(pin) => Ok(pin),
        Err(PinRefused::Stale(word)) => Err(word),
        Err(PinRefused::Moved(_, word)) => Err(word),
    }
}

/// Gives a pin up.
pub fn leave(table: &FlowTable<FlowRecord>, pass: &mut Pass<FlowRecord>, pin: Pin)
    requires { IsUser table.now pin pass.old × (pin.slot < table.now.slots) }
    ensures { IsGuest table.now pass.new }
{
    table.unpin(pass, pin);
}

/// Application 1, with no sockets.
pub fn application(alloc: Global, pass: Pass<FlowRecord>) -> Result<App, AllocError>
    requires { (pass.view.pins ≡ []) × (pass.view.held ≡ []) }
    ensures { IfOk result (λ app. (app.pass ≡ pass) × (app.begun ≡ [])) }
{
    let (_, notes) = ContextQueue::new(alloc, 1)?;
    App::new(alloc, 1, pass, notes)
}

/// The application connects.
fn connected(
    alloc: Global,
    table: &FlowTable<FlowRecord>,
    slow: &mut SlowPass<FlowRecord>,
    app: &mut App,
) -> Result<Socket, SocketError>
    requires slow { IsKeeper table.now slow.old × (slow.old.view.opened < 1000) }
    requires app { IsGoing table.now app.old }
    ensures slow { IfOk result (λ _. IsIdle table.now slow.new) }
    ensures app { IfOk result (λ s. HasOpened table.now s app.new) }
{
    let mut pins = PinList::new(alloc);
    app.connect_as(table, &PARAMS, slow, &mut pins, TUPLE, &Seq(5000), 1)
}

/// Makes a call by a pass that has pinned the flow.
fn made<E: Engine>(
    table: &FlowTable<FlowRecord>,
    core: &mut Pass<FlowRecord>,
    pin: &Pin,
    tick: u32,
    call: &CallIn<'_>,
    engine: &E,
) -> Option<Answer>
    requires core { IsUser table.now pin.now core.old × (pin.now.slot < table.now.slots) }
    requires small { IsSmall call.now }
    requires timely { (phase : Phase) → IsTimely phase call.now }
    ensures { IsUser table.now pin.now core.new }
{
    match make_call(table, core, pin, Caller::Core(0), tick, call, engine) {
        Ok(answer) => answer,
        Err(_) => None,
    }
}

/// The peer's SYN and ACK.
fn syn_ack() -> Segment<'static> {
    Segment {
        src: 167772161,
        dst: 167772162,
        sport: 80,
        dport: 49152,
        seq: Seq(1000),
        ack: Seq(5001),
        flags: Flags(18),
        window: 16384,
        mss: None,
        scale: None,
        payload: &[],
    }
}

/// A core sends the SYN and receives the peer's.
pub fn greeted(
    table: &FlowTable<FlowRecord>,
    core: &mut Pass<FlowRecord>,
    pin: &Pin,
) -> Option<Answer>
    requires { IsUser table.now pin.now core.old × (pin.now.slot < table.now.slots) }
    ensures { IsUser table.now pin.now core.new }
{
    let sent = made(table, core, pin, 1, &CallIn::Emit, &FastTx);
    if sent.is_none() {
        return None;
    }
    let frame = FrameId {
        host: 1,
        flow: 0,
        number: 0,
        copy: 0,
    };
    let seg = syn_ack();
    made(table, core, pin, 2, &CallIn::Rx { frame, seg }, &SlowRx)
}

/// A core pins the flow of the socket.
fn beside(
    table: &FlowTable<FlowRecord>,
    app: &App,
    s: Socket,
    core: &mut Pass<FlowRecord>,
) -> Option<Pin>
    requires { HasOpened table.now s app.now × IsGuest table.now core.old × (table.now.slots ≡ 2) }
    ensures { IfSome result (λ p. IsUser table.now p core.new × (p.slot < table.now.slots)) }
{
    let id = app.flow(s);
    if id.slot > 1 {
        return None;
    }
    match enter(table, core, id) {
        Ok(pin) => Some(pin),
        Err(_) => None,
    }
}

/// The application has a connection, which the core has pinned too.
fn shared(
    alloc: Global,
    table: &FlowTable<FlowRecord>,
    slow: &mut SlowPass<FlowRecord>,
    core: &mut Pass<FlowRecord>,
    app: &mut App,
) -> Option<(Socket, Pin)>
    requires slow { IsKeeper table.now slow.old × (slow.old.view.opened < 1000) × (table.now.slots ≡ 2) }
    requires app { IsGoing table.now app.old }
    requires core { IsGuest table.now core.old }
    ensures slow { IfSome result (λ _. IsIdle table.now slow.new) }
    ensures app { IfSome result (λ p. HasOpened table.now p.0 app.new) }
    ensures core { IfSome result (λ p. IsUser table.now p.1 core.new × (p.1.slot < table.now.slots)) }
{
    let Ok(s) = connected(alloc, table, slow, app) else {
        return None;
    };
    let pin = beside(table, app, s, core)?;
    Some((s, pin))
}

/// An application with a connection, and a core that has pinned its flow.
#[derive(Drop)]
pub struct Connection {
    pub app: App,
    pub s: Socket,
    pub core: Pass<FlowRecord>,
    pub pin: Pin,
}

/// An application with this pass connects, and a core pins its flow.
pub fn joined(
    alloc: Global,
    table: &FlowTable<FlowRecord>,
    slow: &mut SlowPass<FlowRecord>,
    pass: Pass<FlowRecord>,
) -> Option<Connection>
    requires { IsFresh table.now slow.old × IsGuest table.now pass }
    ensures slow { IfSome result (λ _. IsIdle table.now slow.new) }
    ensures app { IfSome result (λ j. HasOpened table.now j.s j.app) }
    ensures core { IfSome result (λ j. MayAsk table.now j.pin j.core) }
{
    let mut core = guest(table, slow);
    let Ok(mut app) = application(alloc, pass) else {
        return None;
    };
    let (s, pin) = shared(alloc, table, slow, &mut core, &mut app)?;
    Some(Connection { app, s, core, pin })
}
