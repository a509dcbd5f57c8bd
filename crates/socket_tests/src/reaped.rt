//! Applications that end while cores use their flows.
ghost use Rattle.std.specs.Prelude.{◌≡◌, ◌<◌, IfSome};
ghost use Rattle.flow_lock.specs.Callers.{IsTurned, IsGuest, IsUser};
ghost use Rattle.app_reaper.specs.Reaping.{IsEnded};
ghost use Rattle.socket_tests.specs.Going.{HasOpened, IsIdle, IsFresh};

use crate::flows::{farewell, guest, joined, start};
use crate::sockets::shut;
use app_reaper::{Ended, ReapFault, reap};
use flow_lock::{CloseRefused, FlowTable, Pass, Pin, SlowPass, Word};
use flow_state::{CallView, EntryView, FlowRecord};
use libtas_sockets::{App, Socket, SocketError};
use std::alloc::Global;
use std::test::*;
use tas_model::Caller;

/// Who made which call.
#[derive(Clone, Copy, PartialEq, Eq, Debug)]
pub enum Act {
    Connect,
    Shut,
    SlowAbort,
    Other,
}

fn act_of(entry: EntryView<'_>) -> Act {
    match (entry.caller, entry.call) {
        (Caller::App(1), CallView::Connect { .. }) => Act::Connect,
        (Caller::App(1), CallView::Shut) => Act::Shut,
        (Caller::Slow, CallView::Abort) => Act::SlowAbort,
        _ => Act::Other,
    }
}

/// Who made the entry at this place, and which call, where there is one.
pub fn act_at(flow: &FlowRecord, i: usize) -> Option<Act> {
    if i >= flow.entries() {
        return None;
    }
    Some(act_of(flow.entry(i)))
}

/// The first entries of the flow's history, or the word where another pass holds its record.
fn found(
    table: &FlowTable<FlowRecord>,
    core: &mut Pass<FlowRecord>,
    pin: &Pin,
) -> Result<[Option<Act>; 4], Word>
    requires { IsUser table.now pin.now core.old × (pin.now.slot < table.now.slots) }
    ensures { IsUser table.now pin.now core.new }
{
    let flow = match table.take(core, pin) {
        Ok(flow) => flow,
        Err(word) => return Err(word),
    };
    let entries = [
        act_at(&flow, 0),
        act_at(&flow, 1),
        act_at(&flow, 2),
        act_at(&flow, 3),
    ];
    table.give(core, pin, flow);
    Ok(entries)
}

fn ended(table: &FlowTable<FlowRecord>, app: App, holding: bool) -> Ended
    requires { IsTurned table.now app.pass }
    ensures { IsEnded table.now result }
{
    app.end(holding, table)
}

/// The word that stopped the reaper, and what is left.
fn reaped_in_part(
    table: &FlowTable<FlowRecord>,
    slow: &mut SlowPass<FlowRecord>,
    ended: Ended,
) -> Option<(Word, Ended)>
    requires { (slow.old.table ≡ table.now) × IsEnded table.now ended }
    ensures slow { IfSome result (λ _. slow.new ≡ slow.old) }
    ensures left { IfSome result (λ l. IsEnded table.now l.1) }
{
    match reap(table, slow, ended, 3) {
        Err((ReapFault::Busy(word), left)) => Some((word, left)),
        _ => None,
    }
}

/// The same, while a core holds the record.
fn reaped_beside(
    table: &FlowTable<FlowRecord>,
    slow: &mut SlowPass<FlowRecord>,
    core: &mut Pass<FlowRecord>,
    pin: &Pin,
    ended: Ended,
) -> Option<(Word, Ended)>
    requires ended { (slow.old.table ≡ table.now) × IsEnded table.now ended }
    requires core { IsUser table.now pin.now core.old × (pin.now.slot < table.now.slots) }
    ensures slow { IfSome result (λ _. slow.new ≡ slow.old) }
    ensures left { IfSome result (λ l. IsEnded table.now l.1) }
    ensures core { IsUser table.now pin.now core.new }
{
    let flow = match table.take(core, pin) {
        Ok(flow) => flow,
        Err(_) => return None,
    };
    let left = reaped_in_part(table, slow, ended);
    table.give(core, pin, flow);
    left
}

/// Reaps what an application left. The first entries of the flow's history then.
fn reaped(
    table: &FlowTable<FlowRecord>,
    slow: &mut SlowPass<FlowRecord>,
    core: &mut Pass<FlowRecord>,
    pin: &Pin,
    left: Ended,
) -> Option<[Option<Act>; 4]>
    requires left { (slow.old.table ≡ table.now) × IsEnded table.now left }
    requires core { IsUser table.now pin.now core.old × (pin.now.slot < table.now.slots) }
{
    if reap(table, slow, left, 3).is_err() {
        return None;
    }
    match found(table, core, pin) {
        Ok(entries) => Some(entries),
        Err(_) => None,
    }
}

/// An application ends while a core holds its flow's record. The word that stops the reaper, and the first entries of
/// the flow's history once the rest was reaped.
fn reaped_in_two(alloc: Global) -> Option<(Word, [Option<Act>; 4])> {
    let Ok((table, mut slow)) = start(alloc) else {
        return None;
    };
    let pass = guest(&table, &mut slow);
    let joined = joined(alloc, &table, &mut slow, pass)?;
    let (mut core, pin) = (joined.core, joined.pin);
    let left = ended(&table, joined.app, false);
    let (word, left) = reaped_beside(&table, &mut slow, &mut core, &pin, left)?;
    let entries = reaped(&table, &mut slow, &mut core, &pin, left)?;
    Some((word, entries))
}

#[test]
fn a_reaper_stops_where_a_core_holds_the_record(rt: HostRuntime) -> Result<(), Fail> {
    let Some(made) = reaped_in_two(rt.alloc()) else {
        panic!(rt; "the reaper was not stopped by the core, or not by it alone")
    };
    let (word, entries) = made;
    assert!(rt; word.busy && word.live && word.pins == 3);
    assert_eq!(rt;
        entries,
        [Some(Act::Connect), Some(Act::SlowAbort), None, None]
    );
    Ok(())
}

/// How many passes are out, with the table and the slow path's pass as they were.
fn still_out(
    alloc: Global,
    table: FlowTable<FlowRecord>,
    slow: SlowPass<FlowRecord>,
) -> Option<(u32, FlowTable<FlowRecord>, SlowPass<FlowRecord>)>
    requires { IsIdle table slow }
    ensures { IfSome result (λ o. (o.1 ≡ table) × (o.2 ≡ slow)) }
{
    match table.close(alloc, slow) {
        Err((CloseRefused::StillOut(count), table, slow)) => Some((count, table, slow)),
        _ => None,
    }
}

/// A table of which two passes were split off and one was joined, with the other. It could not be closed.
fn left_out(
    alloc: Global,
) -> Option<
    (
        FlowTable<FlowRecord>,
        SlowPass<FlowRecord>,
        Pass<FlowRecord>,
    ),
>
    ensures { IfSome result (λ t. IsFresh t.0 t.1 × IsGuest t.0 t.2) }
{
    let Ok((table, mut slow)) = start(alloc) else {
        return None;
    };
    let first = guest(&table, &mut slow);
    let second = guest(&table, &mut slow);
    let Some((2, table, mut slow)) = still_out(alloc, table, slow) else {
        return None;
    };
    farewell(&table, &mut slow, first);
    let Some((1, table, slow)) = still_out(alloc, table, slow) else {
        return None;
    };
    Some((table, slow, second))
}

/// The application makes one entry and ends holding. The word that the core finds then, and what the application left.
fn ended_holding(
    table: &FlowTable<FlowRecord>,
    core: &mut Pass<FlowRecord>,
    pin: &Pin,
    mut app: App,
    s: Socket,
) -> Option<(Word, Ended)>
    requires app { HasOpened table.now s app }
    requires core { IsUser table.now pin.now core.old × (pin.now.slot < table.now.slots) }
    ensures left { IfSome result (λ l. IsEnded table.now l.1) }
    ensures core { IsUser table.now pin.now core.new }
{
    let Err(SocketError::NotOpen) = shut(table, &mut app, s, 2) else {
        return None;
    };
    let left = ended(table, app, true);
    match found(table, core, pin) {
        Err(word) => Some((word, left)),
        Ok(_) => None,
    }
}

/// An application ends holding its flow's record. The word that a core finds then, and the first entries of the flow's
/// history once the application was reaped.
fn reaped_holding(alloc: Global) -> Option<(Word, [Option<Act>; 4])> {
    let (table, mut slow, pass) = left_out(alloc)?;
    let joined = joined(alloc, &table, &mut slow, pass)?;
    let (mut core, pin) = (joined.core, joined.pin);
    let (word, left) = ended_holding(&table, &mut core, &pin, joined.app, joined.s)?;
    let entries = reaped(&table, &mut slow, &mut core, &pin, left)?;
    Some((word, entries))
}

#[test]
fn an_application_that_ended_holding_is_reaped(rt: HostRuntime) -> Result<(), Fail> {
    let Some(made) = reaped_holding(rt.alloc()) else {
        panic!(rt;
            "the table was closed with passes out, or the application held nothing, or was not reaped"
        )
    };
    let (word, entries) = made;
    assert!(rt; word.busy);
    let acts = [
        Some(Act::Connect),
        Some(Act::Shut),
        Some(Act::SlowAbort),
        None,
    ];
    assert_eq!(rt; entries, acts);
    Ok(())
}
