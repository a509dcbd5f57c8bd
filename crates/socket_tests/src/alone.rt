//! An application that ended is reaped where nobody has a turn.
ghost use Rattle.std.specs.Prelude.{◌≡◌, ◌<◌, ◌≤◌, [], IfOk, IfSome};
ghost use Rattle.tas_model.specs.Valid.{InRange};
ghost use Rattle.flow_lock.specs.Steps.{IsAlone};
ghost use Rattle.app_reaper.specs.Reaping.{IsAtRest};
ghost use Rattle.socket_tests.specs.Going.{HasFirstTurn, HasSecondTurn};

use crate::flows::{PARAMS, application};
use crate::reaped::{Act, act_at};
use crate::threads::last_record;
use app_reaper::{Ended, PinList, reap_alone};
use flow_lock::{FlowTable, Pass, SlowPass};
use flow_state::FlowRecord;
use libtas_sockets::{App, Socket, SocketError};
use slow_handshake::{NumberSource, SlowPath};
use std::alloc::{AllocError, Global};
use std::test::*;
use tas_model::FourTuple;
use tas_num::Seq;

/// A table, the slow path's pass, and one that was split off, each with its turn.
pub fn two_passes(
    alloc: Global,
    slots: u32,
) -> Result<
    (
        FlowTable<FlowRecord>,
        SlowPass<FlowRecord>,
        Pass<FlowRecord>,
    ),
    AllocError,
>
    requires { (0 < slots) × (slots ≤ 1024) }
    ensures slow { IfOk result (λ t. HasFirstTurn t.0 t.1) }
    ensures pass { IfOk result (λ t. HasSecondTurn t.0 t.2) }
    ensures pins { IfOk result (λ t. (t.2.view.pins ≡ []) × (t.2.view.held ≡ [])) }
{
    let (table, mut slow) = FlowTable::<FlowRecord>::new(alloc, slots)?;
    let pass = table.split(&mut slow);
    Ok((table, slow, pass))
}

/// The application connects, in the turns that the passes have.
pub fn connect(
    table: &FlowTable<FlowRecord>,
    path: &mut SlowPath,
    slow: &mut SlowPass<FlowRecord>,
    pins: &mut PinList,
    app: &mut App,
) -> Result<Socket, SocketError>
    requires slow { HasFirstTurn table.now slow.old }
    requires app { HasSecondTurn table.now app.old.pass × (app.old.begun ≡ []) }
    requires ranges { InRange path.old.params }
    ensures slow { IfOk result (λ _. HasFirstTurn table.now slow.new) }
    ensures app { IfOk result (λ _. HasSecondTurn table.now app.new.pass × (app.new.begun ≡ [])) }
    ensures ranges { path.new.params ≡ path.old.params }
{
    app.connect(table, path, slow, pins, 167772161, 80, 1)
}

/// The application connects. The port and the first number that come next then.
fn connected(
    alloc: Global,
    table: &FlowTable<FlowRecord>,
    slow: &mut SlowPass<FlowRecord>,
    app: &mut App,
) -> Option<(Option<u16>, Seq)>
    requires slow { HasFirstTurn table.now slow.old }
    requires app { HasSecondTurn table.now app.old.pass × (app.old.begun ≡ []) }
    ensures slow { IfSome result (λ _. HasFirstTurn table.now slow.new) }
    ensures app { IfSome result (λ _. HasSecondTurn table.now app.new.pass) }
{
    let Ok(mut path) = SlowPath::new(alloc, PARAMS) else {
        return None;
    };
    let mut pins = PinList::new(alloc);
    match connect(table, &mut path, slow, &mut pins, app) {
        Ok(_) => Some(next_numbers(&path)),
        Err(_) => None,
    }
}

/// The port and the first number that come next.
fn next_numbers(path: &SlowPath) -> (Option<u16>, Seq) {
    let tuple = FourTuple {
        laddr: 167772162,
        lport: 49153,
        raddr: 167772161,
        rport: 80,
    };
    (path.next_port().ok(), path.first_number(tuple, 0))
}

/// The application ends, and the turns come back. What it leaves.
fn at_rest(table: &FlowTable<FlowRecord>, slow: &mut SlowPass<FlowRecord>, app: App) -> Ended
    requires slow { HasFirstTurn table.now slow.old }
    requires app { HasSecondTurn table.now app.pass }
    ensures slow { (slow.new.table ≡ table.now) × IsAlone slow.new.view × (slow.new.view.held ≡ []) }
    ensures left { IsAtRest table.now result }
{
    let mut left = app.end(false, table);
    table.collect(slow, &mut left.pass);
    table.learn(slow);
    left
}

/// Reaps what an application left, and closes the table. The first entries of the flow's history.
fn reaped(
    alloc: Global,
    table: FlowTable<FlowRecord>,
    mut slow: SlowPass<FlowRecord>,
    left: Ended,
) -> Option<[Option<Act>; 4]>
    requires slow { (slow.table ≡ table) × IsAlone slow.view × (slow.view.held ≡ []) }
    requires left { IsAtRest table left }
{
    if reap_alone(&table, &mut slow, left, 3).is_err() {
        return None;
    }
    let flow = last_record(alloc, table, slow)?;
    Some([
        act_at(&flow, 0),
        act_at(&flow, 1),
        act_at(&flow, 2),
        act_at(&flow, 3),
    ])
}

/// An application connects and ends, and is reaped once all turns are back. The port and the first number that come
/// next after it had connected, and the first entries of its flow.
fn reaped_alone(alloc: Global) -> Option<((Option<u16>, Seq), [Option<Act>; 4])> {
    let Ok((table, mut slow, pass)) = two_passes(alloc, 2) else {
        return None;
    };
    let Ok(mut app) = application(alloc, pass) else {
        return None;
    };
    let next = connected(alloc, &table, &mut slow, &mut app)?;
    let left = at_rest(&table, &mut slow, app);
    let entries = reaped(alloc, table, slow, left)?;
    Some((next, entries))
}

#[test]
fn an_application_is_reaped_where_nobody_has_a_turn(rt: HostRuntime) -> Result<(), Fail> {
    let Some(made) = reaped_alone(rt.alloc()) else {
        panic!(rt; "the application did not connect, or was not reaped")
    };
    let (next, entries) = made;
    assert_eq!(rt; next, (Some(49153), Seq(69000)));
    assert_eq!(rt;
        entries,
        [Some(Act::Connect), Some(Act::SlowAbort), None, None]
    );
    Ok(())
}
