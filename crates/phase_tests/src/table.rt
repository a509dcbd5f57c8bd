//! A table with the flow of an application that has connected, where nobody has a turn.
ghost use Rattle.std.specs.Prelude.{◌≡◌, ◌<◌, ◌∷◌, [], IfOk, IfSome};
ghost use Rattle.flow_state.specs.Calls.{IsSmall, IsTimely};
ghost use Rattle.tas_model.specs.declared.entry.Phase.{Phase};
ghost use Rattle.flow_lock.specs.Passes.{first, left, right};
ghost use Rattle.tas_model.specs.Valid.{InRange};
ghost use Rattle.phase_tests.specs.Resting.{IsNewApp, HasFirstTurn, HasSecondTurn, IsRested, IsSettled, IsOff};
ghost use Rattle.phase_tests.specs.Hosts.{IsStarted};

use crate::hosts::Start;
use crate::peer::{HOST, PEER, PORT, frame, segment};
use app_reaper::{PinList, make_slow_call};
use context_queue::ContextQueue;
use fast_tx::FastTx;
use flow_lock::{FlowTable, Pass, Pin, SlowPass};
use flow_state::{CallIn, Engine, FlowRecord};
use libtas_sockets::{App, Socket, SocketError};
use segment_fields::Flags;
use slow_handshake::{SlowPath, SlowRx};
use std::alloc::{AllocError, Global};
use tas_model::{Caller, HostParams};

/// The tick in which the flow is opened.
pub const TICK: u32 = 1;

const PARAMS: HostParams = HostParams {
    addr: HOST,
    iss: 5000,
    ring: 16384,
    mss: 1460,
    rto: 3,
    slots: 2,
    backlog: 1,
    fixed: false,
    scale: None,
};

/// A table of two slots, the slow path's pass, and one that was split off, each with its first turn.
fn two_passes(
    alloc: Global,
) -> Result<
    (
        FlowTable<FlowRecord>,
        SlowPass<FlowRecord>,
        Pass<FlowRecord>,
    ),
    AllocError,
>
    ensures slow { IfOk result (λ t. (t.1.table ≡ t.0) × (t.1.view ≡ left (first 2))) }
    ensures pass { IfOk result (λ t. (t.2.table ≡ t.0) × (t.2.view ≡ right (first 2))) }
{
    let (table, mut slow) = FlowTable::<FlowRecord>::new(alloc, 2)?;
    let pass = table.split(&mut slow);
    Ok((table, slow, pass))
}

/// Application 0, with no sockets.
fn application(alloc: Global, pass: Pass<FlowRecord>) -> Result<App, AllocError>
    requires { (pass.view.pins ≡ []) × (pass.view.held ≡ []) }
    ensures { IfOk result (λ app. (app.pass ≡ pass) × (app.begun ≡ []) × (app.sockets ≡ [])) }
{
    let (_, notes) = ContextQueue::new(alloc, 1)?;
    App::new(alloc, 0, pass, notes)
}

/// The application connects, in the turns that the passes have.
fn connect(
    table: &FlowTable<FlowRecord>,
    path: &mut SlowPath,
    slow: &mut SlowPass<FlowRecord>,
    pins: &mut PinList,
    app: &mut App,
) -> Result<Socket, SocketError>
    requires slow { (slow.old.table ≡ table.now) × (slow.old.view ≡ left (first 2)) }
    requires app { IsNewApp table.now app.old }
    requires ranges { InRange path.old.params }
    requires pins { pins.old.list ≡ [] }
    ensures slow { IfOk result (λ _. HasFirstTurn table.now pins.new.list slow.new) }
    ensures app { IfOk result (λ s. HasSecondTurn table.now s app.new) }
{
    app.connect(table, path, slow, pins, PEER, PORT, TICK)
}

/// The application connects. Its socket, and the slow path's pin.
fn connected(
    alloc: Global,
    table: &FlowTable<FlowRecord>,
    slow: &mut SlowPass<FlowRecord>,
    app: &mut App,
) -> Option<(Socket, Pin)>
    requires slow { (slow.old.table ≡ table.now) × (slow.old.view ≡ left (first 2)) }
    requires app { IsNewApp table.now app.old }
    ensures slow { IfSome result (λ c. HasFirstTurn table.now (c.1 ∷ []) slow.new) }
    ensures app { IfSome result (λ c. HasSecondTurn table.now c.0 app.new) }
{
    let mut path = SlowPath::new(alloc, PARAMS).ok()?;
    let mut pins = PinList::new(alloc);
    let Ok(s) = connect(table, &mut path, slow, &mut pins, app) else {
        return None;
    };
    if pins.len() != 1 {
        return None;
    }
    Some((s, pins.remove(0)))
}

/// The turns come back, and what was done in them is learned.
fn settle(
    table: &FlowTable<FlowRecord>,
    slow: &mut SlowPass<FlowRecord>,
    pin: &Pin,
    s: Socket,
    app: &mut App,
)
    requires slow { HasFirstTurn table.now (pin.now ∷ []) slow.old }
    requires app { HasSecondTurn table.now s app.old }
    ensures slow { IsRested table.now pin.now slow.new }
    ensures parts { slow.new.view.parts ≡ slow.old.view.parts }
    ensures app { IsSettled table.now s app.new }
{
    app.collect(table, slow);
    table.learn(slow);
}

/// A further pass, without a turn.
fn guest(
    table: &FlowTable<FlowRecord>,
    slow: &mut SlowPass<FlowRecord>,
    pin: &Pin,
) -> Pass<FlowRecord>
    requires slow { IsRested table.now pin.now slow.old }
    requires parts { 1 < slow.old.view.parts }
    ensures slow { IsRested table.now pin.now slow.new }
    ensures new { IsOff table.now result }
{
    let mut pass = table.split(slow);
    table.collect(slow, &mut pass);
    table.learn(slow);
    pass
}

/// The slow path makes a call on the flow. Whether it was answered.
fn call<E: Engine>(
    table: &FlowTable<FlowRecord>,
    slow: &mut SlowPass<FlowRecord>,
    pin: &Pin,
    call: &CallIn<'_>,
    engine: &E,
) -> bool
    requires slow { IsRested table.now pin.now slow.old × (pin.now.slot < table.now.slots) }
    requires small { IsSmall call.now }
    requires timely { (phase : Phase) → IsTimely phase call.now }
    ensures { IsRested table.now pin.now slow.new }
{
    match make_slow_call(table, slow, pin, Caller::Slow, TICK, call, engine) {
        Ok(answer) => answer.is_some(),
        Err(_) => false,
    }
}

/// The slow path sends the SYN and receives the peer's SYN and ACK. Whether it could.
fn greet(table: &FlowTable<FlowRecord>, slow: &mut SlowPass<FlowRecord>, pin: &Pin) -> bool
    requires { IsRested table.now pin.now slow.old × (pin.now.slot < table.now.slots) }
    ensures { IsRested table.now pin.now slow.new }
{
    if !call(table, slow, pin, &CallIn::Emit, &FastTx) {
        return false;
    }
    let seg = segment(0, Flags(18), &[]);
    let frame = frame(1);
    call(table, slow, pin, &CallIn::Rx { frame, seg }, &SlowRx)
}

/// An application connects, and the peer answers.
pub fn started(alloc: Global) -> Option<Start>
    ensures { IfSome result IsStarted }
{
    let (table, mut slow, pass) = two_passes(alloc).ok()?;
    let mut app = application(alloc, pass).ok()?;
    let (socket, pin) = connected(alloc, &table, &mut slow, &mut app)?;
    if pin.id().slot >= table.slots() {
        return None;
    }
    settle(&table, &mut slow, &pin, socket, &mut app);
    let core = guest(&table, &mut slow, &pin);
    if !greet(&table, &mut slow, &pin) {
        return None;
    }
    Some(Start {
        table,
        slow,
        pin,
        core,
        app,
        socket,
    })
}
