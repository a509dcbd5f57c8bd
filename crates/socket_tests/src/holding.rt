//! An application that connected alone ends with a record in hand, and is reaped.
ghost use Rattle.std.specs.Prelude.{◌≡◌, [], false, length, IfOk};
ghost use Rattle.app_reaper.specs.Holding.{IsEndedAlone};
ghost use Rattle.socket_tests.specs.Going.{HasAllAlone, HasNoTurn, IsIdle};

use crate::flows::{PARAMS, TUPLE, application};
use crate::reaped::{Act, act_at};
use crate::threads::last_record;
use app_reaper::{Ended, PinList, reap_with_baton};
use flow_lock::{FlowTable, Pass, SlowPass};
use flow_state::FlowRecord;
use libtas_sockets::{App, Socket, SocketError};
use std::alloc::{AllocError, Global};
use std::test::*;
use tas_num::Seq;

/// A table of two slots, the slow path's pass, which is alone, and one that was split off.
fn passes(
    alloc: Global,
) -> Result<
    (
        FlowTable<FlowRecord>,
        SlowPass<FlowRecord>,
        Pass<FlowRecord>,
    ),
    AllocError,
>
    ensures slow { IfOk result (λ t. HasAllAlone t.0 t.1) }
    ensures wide { IfOk result (λ t. length t.1.view.words ≡ t.0.slots) }
    ensures pass { IfOk result (λ t. HasNoTurn t.0 t.2) }
    ensures pins { IfOk result (λ t. (t.2.view.pins ≡ []) × (t.2.view.held ≡ [])) }
{
    let (table, mut slow) = FlowTable::<FlowRecord>::new(alloc, 2)?;
    let mut pass = table.split(&mut slow);
    table.collect(&mut slow, &mut pass);
    table.learn(&mut slow);
    Ok((table, slow, pass))
}

/// The application connects alone.
fn connected(
    alloc: Global,
    table: &FlowTable<FlowRecord>,
    slow: &mut SlowPass<FlowRecord>,
    app: &mut App,
) -> Result<Socket, SocketError>
    requires slow { HasAllAlone table.now slow.old }
    requires wide { length slow.old.view.words ≡ table.now.slots }
    requires app { HasNoTurn table.now app.old.pass }
    ensures slow { IfOk result (λ _. HasAllAlone table.now slow.new) }
    ensures app { IfOk result (λ _. HasNoTurn table.now app.new.pass) }
{
    let mut pins = PinList::new(alloc);
    app.connect_alone(table, &PARAMS, slow, &mut pins, TUPLE, &Seq(5000), 1)
}

/// The application ends with the baton, and takes its flow's record first.
fn ended(table: &FlowTable<FlowRecord>, slow: &mut SlowPass<FlowRecord>, app: App) -> Ended
    requires slow { HasAllAlone table.now slow.old }
    requires app { HasNoTurn table.now app.pass }
    ensures slow { (slow.new.table ≡ table.now) × (slow.new.view.baton ≡ false) × (slow.new.view.turns ≡ [])
        × (slow.new.view.held ≡ []) }
    ensures left { IsEndedAlone table.now result }
{
    let mut app = app;
    app.pass_on(table, slow);
    app.end(true, table)
}

/// Reaps what an application left, and closes the table. The first entries of the flow's history.
fn reaped(
    alloc: Global,
    table: FlowTable<FlowRecord>,
    mut slow: SlowPass<FlowRecord>,
    left: Ended,
) -> Option<[Option<Act>; 3]>
    requires slow { (slow.table ≡ table) × (slow.view.baton ≡ false) × (slow.view.turns ≡ [])
        × (slow.view.held ≡ []) }
    requires left { IsEndedAlone table left }
{
    if left.held.is_none() || reap_with_baton(&table, &mut slow, left, 3).is_err() {
        return None;
    }
    let flow = last_record(alloc, table, slow)?;
    Some([act_at(&flow, 0), act_at(&flow, 1), act_at(&flow, 2)])
}

/// An application connects alone and ends with its flow's record in hand, and is reaped. The first entries of the flow.
fn reaped_in_hand(alloc: Global) -> Option<[Option<Act>; 3]> {
    let Ok((table, mut slow, pass)) = passes(alloc) else {
        return None;
    };
    let Ok(mut app) = application(alloc, pass) else {
        return None;
    };
    let Ok(_) = connected(alloc, &table, &mut slow, &mut app) else {
        return None;
    };
    let left = ended(&table, &mut slow, app);
    reaped(alloc, table, slow, left)
}

#[test]
fn an_application_that_connected_alone_and_ended_with_a_record_is_reaped(
    rt: HostRuntime,
) -> Result<(), Fail> {
    let Some(entries) = reaped_in_hand(rt.alloc()) else {
        panic!(rt; "the application did not connect, held nothing, or was not reaped")
    };
    assert_eq!(rt; entries, [Some(Act::Connect), Some(Act::SlowAbort), None]);
    Ok(())
}
