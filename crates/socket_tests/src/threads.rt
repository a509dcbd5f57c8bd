//! Threads share flows: cores call on one flow, and flows come and go while cores look for them.
ghost use Rattle.std.specs.Prelude.{◌≡◌, ◌+◌, ◌<◌, ◌≤◌, true, IfOk, IfSome};
ghost use Rattle.flow_lock.specs.Callers.{IsGuest, IsUser, IsKeeper, IsOwner};
ghost use Rattle.socket_tests.specs.Going.{IsIdle, MayAsk};

use crate::flows::{enter, farewell, guest, leave, opened, start};
use app_reaper::{CallFault, FiledList, Swept, make_call, sweep};
use flow_lock::{FlowTable, Pass, Pin, SlowPass, Word};
use flow_state::{AppCalls, CallIn, FlowRecord};
use std::alloc::{AllocError, Global};
use std::sync::Wait;
use std::test::*;
use std::thread;
use std::thread::Threads;
use tas_model::{Caller, FlowId};

/// How many calls each core makes on a flow.
const CALLS: u32 = 1_000;

/// How many flows come and go.
const FLOWS: u32 = 100;

/// A core asks whether the connection stands: one take, one entry and one give.
fn asked(
    table: &FlowTable<FlowRecord>,
    pass: &mut Pass<FlowRecord>,
    pin: &Pin,
    core: u32,
) -> Result<(), CallFault>
    requires { IsUser table.now pin.now pass.old × (pin.now.slot < table.now.slots) }
    ensures { IsUser table.now pin.now pass.new }
{
    let caller = Caller::Core(core);
    match make_call(table, pass, pin, caller, 1, &CallIn::Ready, &AppCalls) {
        Ok(_) => Ok(()),
        Err(fault) => Err(fault),
    }
}

/// Makes all calls of a core, each as often as another has the record, and gives the pin up.
fn ask_all<R: Wait>(
    rt: &R,
    table: &FlowTable<FlowRecord>,
    mut pass: Pass<FlowRecord>,
    pin: Pin,
    core: u32,
) -> Pass<FlowRecord>
    requires { MayAsk table.now pin pass }
    ensures { IsGuest table.now result }
{
    let mut calls = 0;
    for _ in rt.forever() {
        if calls == CALLS {
            break;
        }
        match asked(table, &mut pass, &pin, core) {
            Ok(()) => calls += 1,
            Err(CallFault::Busy(_)) => thread::yield_now(),
            Err(CallFault::OutOfMemory) => break,
        }
    }
    leave(table, &mut pass, pin);
    pass
}

/// Whether the history has all calls of the core, in their order.
fn has_all_of(flow: &FlowRecord, core: u32) -> bool {
    let mut next = 0u32;
    for i in 0..flow.entries() {
        let entry = flow.entry(i);
        if entry.caller == Caller::Core(core) {
            if next == CALLS || entry.number != u64::from(next) {
                return false;
            }
            next = next.saturating_add(1);
        }
    }
    next == CALLS
}

/// The record of the one flow.
pub fn last_record(
    alloc: Global,
    table: FlowTable<FlowRecord>,
    slow: SlowPass<FlowRecord>,
) -> Option<FlowRecord>
    requires { IsIdle table slow }
{
    let Ok(mut closed) = table.close(alloc, slow) else {
        return None;
    };
    closed.next()
}

/// The passes of two cores.
fn two_guests(
    table: &FlowTable<FlowRecord>,
    slow: &mut SlowPass<FlowRecord>,
) -> (Pass<FlowRecord>, Pass<FlowRecord>)
    requires { IsKeeper table.now slow.old × (slow.old.view.baton ≡ true) × (4001 < slow.old.view.parts) }
    ensures guests { IsGuest table.now result.0 × IsGuest table.now result.1 }
    ensures slow { IsKeeper table.now slow.new × (slow.new.view.baton ≡ true) }
    ensures same { (slow.new.view.parts + 2 ≡ slow.old.view.parts) × (slow.new.view.opened ≡ slow.old.view.opened) }
{
    let first = guest(table, slow);
    (first, guest(table, slow))
}

/// Two passes are joined.
fn two_farewells(
    table: &FlowTable<FlowRecord>,
    slow: &mut SlowPass<FlowRecord>,
    first: Pass<FlowRecord>,
    second: Pass<FlowRecord>,
)
    requires { IsKeeper table.now slow.old × IsGuest table.now first × IsGuest table.now second }
    ensures { IsKeeper table.now slow.new }
{
    farewell(table, slow, first);
    farewell(table, slow, second);
}

/// A core's pass that has pinned a flow.
#[derive(Drop)]
struct Asker {
    pass: Pass<FlowRecord>,
    pin: Pin,
}

/// A core pins the flow.
fn asker_of(table: &FlowTable<FlowRecord>, mut pass: Pass<FlowRecord>, flow: &Pin) -> Option<Asker>
    requires { IsGuest table.now pass × (flow.now.slot < table.now.slots) }
    ensures { IfSome result (λ a. MayAsk table.now a.pin a.pass) }
{
    match enter(table, &mut pass, flow.id()) {
        Ok(pin) => Some(Asker { pass, pin }),
        Err(_) => None,
    }
}

/// Two cores pin the flow.
fn two_askers(
    table: &FlowTable<FlowRecord>,
    first: Pass<FlowRecord>,
    second: Pass<FlowRecord>,
    flow: &Pin,
) -> Option<(Asker, Asker)>
    requires { IsGuest table.now first × IsGuest table.now second × (flow.now.slot < table.now.slots) }
    ensures { IfSome result (λ a. MayAsk table.now a.0.pin a.0.pass × MayAsk table.now a.1.pin a.1.pass) }
{
    let first = asker_of(table, first, flow)?;
    let second = asker_of(table, second, flow)?;
    Some((first, second))
}

/// Two cores, this one and the next, make all their calls at once.
fn ask_at_once<R: Threads + Wait + Sync>(
    rt: &R,
    table: &FlowTable<FlowRecord>,
    first: Asker,
    second: Asker,
    core: u32,
) -> (Pass<FlowRecord>, Pass<FlowRecord>)
    requires first { MayAsk table.now first.pin first.pass × (core < 1000) }
    requires second { MayAsk table.now second.pin second.pass }
    ensures { IsGuest table.now result.0 × IsGuest table.now result.1 }
{
    let next = core + 1;
    thread::join(
        rt,
        move ||
            requires { MayAsk table.now first.pin first.pass }
            ensures { IsGuest table.entry.now result }
        { ask_all(rt, table, first.pass, first.pin, core) },
        move ||
            requires { MayAsk table.now second.pin second.pass }
            ensures { IsGuest table.entry.now result }
        { ask_all(rt, table, second.pass, second.pin, next) },
    )
}

/// The record of a flow on which two cores made all their calls at once.
fn called_by_two<R: Threads + Wait + Sync>(rt: &R, alloc: Global) -> Option<FlowRecord> {
    let Ok((table, mut slow)) = start(alloc) else {
        return None;
    };
    let (first, second) = two_guests(&table, &mut slow);
    let pin = opened(alloc, &table, &mut slow)?;
    let (first, second) = two_askers(&table, first, second, &pin)?;
    let (first, second) = ask_at_once(rt, &table, first, second, 0);
    two_farewells(&table, &mut slow, first, second);
    last_record(alloc, table, slow)
}

#[test]
fn two_cores_call_on_one_flow(rt: HostRuntime) -> Result<(), Fail> {
    let Some(flow) = called_by_two(&rt, rt.alloc()) else {
        panic!(rt; "no flow was opened, or a core has no pin, or no record came out")
    };
    assert!(rt; has_all_of(&flow, 0) && has_all_of(&flow, 1) && flow.entries() == 2_001);
    Ok(())
}

/// Two pairs of cores make all their calls at once.
fn ask_by_four<R: Threads + Wait + Sync>(
    rt: &R,
    table: &FlowTable<FlowRecord>,
    low: (Asker, Asker),
    high: (Asker, Asker),
) -> (
    (Pass<FlowRecord>, Pass<FlowRecord>),
    (Pass<FlowRecord>, Pass<FlowRecord>),
)
    requires low { MayAsk table.now low.0.pin low.0.pass × MayAsk table.now low.1.pin low.1.pass }
    requires high { MayAsk table.now high.0.pin high.0.pass × MayAsk table.now high.1.pin high.1.pass }
    ensures low { IsGuest table.now result.0.0 × IsGuest table.now result.0.1 }
    ensures high { IsGuest table.now result.1.0 × IsGuest table.now result.1.1 }
{
    thread::join(
        rt,
        move ||
            requires { MayAsk table.now low.0.pin low.0.pass × MayAsk table.now low.1.pin low.1.pass }
            ensures { IsGuest table.entry.now result.0 × IsGuest table.entry.now result.1 }
        { ask_at_once(rt, table, low.0, low.1, 0) },
        move ||
            requires { MayAsk table.now high.0.pin high.0.pass × MayAsk table.now high.1.pin high.1.pass }
            ensures { IsGuest table.entry.now result.0 × IsGuest table.entry.now result.1 }
        { ask_at_once(rt, table, high.0, high.1, 2) },
    )
}

/// Whether the history has all calls of four cores.
fn has_all_of_four(flow: &FlowRecord) -> bool {
    for core in 0..4 {
        if !has_all_of(flow, core) {
            return false;
        }
    }
    true
}

/// The record of a flow on which four cores made all their calls at once.
fn called_by_four<R: Threads + Wait + Sync>(rt: &R, alloc: Global) -> Option<FlowRecord> {
    let Ok((table, mut slow)) = start(alloc) else {
        return None;
    };
    let (first, second) = two_guests(&table, &mut slow);
    let (third, fourth) = two_guests(&table, &mut slow);
    let pin = opened(alloc, &table, &mut slow)?;
    let low = two_askers(&table, first, second, &pin)?;
    let high = two_askers(&table, third, fourth, &pin)?;
    let ((first, second), (third, fourth)) = ask_by_four(rt, &table, low, high);
    two_farewells(&table, &mut slow, first, second);
    two_farewells(&table, &mut slow, third, fourth);
    last_record(alloc, table, slow)
}

#[test]
fn four_cores_call_on_one_flow(rt: HostRuntime) -> Result<(), Fail> {
    let Some(flow) = called_by_four(&rt, rt.alloc()) else {
        panic!(rt; "no flow was opened, or a core has no pin, or no record came out")
    };
    assert!(rt; has_all_of_four(&flow) && flow.entries() == 4_001);
    Ok(())
}

/// Sweeps the flow. The pin, where another pass has pinned the flow too; none where its record was filed.
fn sweep_once(
    table: &FlowTable<FlowRecord>,
    slow: &mut SlowPass<FlowRecord>,
    pin: Pin,
    filed: &mut FiledList,
) -> Result<Option<Pin>, AllocError>
    requires { IsKeeper table.now slow.old × IsOwner pin slow.old × (pin.slot < table.now.slots) }
    ensures keeper { IsKeeper table.now slow.new × (slow.new.view.opened ≡ slow.old.view.opened) }
    ensures kept { IfOk result (λ o. IfSome o (λ p. IsOwner p slow.new × (p.slot < table.now.slots))) }
{
    match sweep(table, slow, pin, filed) {
        Ok(Swept::Freed) => Ok(None),
        Ok(Swept::Pinned(_, kept)) => Ok(Some(kept)),
        Err(error) => Err(error),
    }
}

/// Sweeps the flow as often as another pass has pinned it. Whether its record was filed: memory may be wanting.
fn swept<R: Wait>(
    rt: &R,
    table: &FlowTable<FlowRecord>,
    slow: &mut SlowPass<FlowRecord>,
    pin: Pin,
    filed: &mut FiledList,
) -> bool
    requires { IsKeeper table.now slow.old × IsOwner pin slow.old × (pin.slot < table.now.slots) }
    ensures { IsKeeper table.now slow.new × (slow.new.view.opened ≡ slow.old.view.opened) }
{
    let mut pin = pin;
    for _ in rt.forever() {
        match sweep_once(table, slow, pin, filed) {
            Ok(Some(kept)) => pin = kept,
            Ok(None) => return true,
            Err(_) => return false,
        }
    }
    unreachable!()
}

/// One flow after another is opened and swept. The records that were filed, and the slow path's pass.
fn come_and_go<R: Wait>(
    rt: &R,
    alloc: Global,
    table: &FlowTable<FlowRecord>,
    mut slow: SlowPass<FlowRecord>,
) -> (FiledList, SlowPass<FlowRecord>)
    requires { IsKeeper table.now slow × (slow.view.opened ≡ 0) }
    ensures { IsKeeper table.now result.1 }
{
    let mut filed = FiledList::new(alloc);
    let mut count = 0;
    while count < FLOWS {
        let Some(pin) = opened(alloc, table, &mut slow) else {
            break;
        };
        if !swept(rt, table, &mut slow, pin, &mut filed) {
            break;
        }
        count += 1;
    }
    (filed, slow)
}

/// Asks once on the flow of the lowest slot, where it can be pinned and its record is free. How many entries it made.
fn visited(
    table: &FlowTable<FlowRecord>,
    pass: &mut Pass<FlowRecord>,
    generation: u32,
    core: u32,
) -> u32
    requires { IsGuest table.now pass.old × (table.now.slots ≡ 2) }
    ensures guest { IsGuest table.now pass.new }
    ensures few { result ≤ 1 }
{
    let id = FlowId {
        slot: 0,
        generation,
    };
    let Ok(pin) = enter(table, pass, id) else {
        return 0;
    };
    let entries = match asked(table, pass, &pin, core) {
        Ok(()) => 1,
        Err(_) => 0,
    };
    leave(table, pass, pin);
    entries
}

/// The word of the lowest slot.
fn looked(table: &FlowTable<FlowRecord>, pass: &mut Pass<FlowRecord>) -> Word
    requires { IsGuest table.now pass.old × (table.now.slots ≡ 2) }
    ensures { IsGuest table.now pass.new }
{
    table.look(pass, 0)
}

/// Looks at the lowest slot until the last flow is gone, or often enough, and asks on each flow that it finds. How many
/// entries it made.
fn visit_all(
    table: &FlowTable<FlowRecord>,
    mut pass: Pass<FlowRecord>,
    core: u32,
) -> (u32, Pass<FlowRecord>)
    requires { IsGuest table.now pass × (table.now.slots ≡ 2) }
    ensures { IsGuest table.now result.1 }
{
    let mut entries = 0u32;
    for _ in 0..1_000_000u32 {
        let word = looked(table, &mut pass);
        if word.generation == FLOWS && !word.live {
            break;
        }
        entries = entries.saturating_add(visited(table, &mut pass, word.generation, core));
    }
    (entries, pass)
}

/// How many entries the filed records have, where they are those of the lowest slot's flows, the first one first.
fn entries_in(filed: &FiledList) -> Option<usize> {
    let mut entries = 0usize;
    for i in 0..filed.len() {
        let flow = filed.item(i);
        let id = flow.id();
        if id.slot != 0 || id.generation as usize != i + 1 {
            return None;
        }
        entries = entries.saturating_add(flow.entries());
    }
    Some(entries)
}

/// Two cores look for flows at once, each until the last is gone.
fn visit_at_once<R: Threads + Sync>(
    rt: &R,
    table: &FlowTable<FlowRecord>,
    first: Pass<FlowRecord>,
    second: Pass<FlowRecord>,
) -> ((u32, Pass<FlowRecord>), (u32, Pass<FlowRecord>))
    requires { IsGuest table.now first × IsGuest table.now second × (table.now.slots ≡ 2) }
    ensures { IsGuest table.now result.0.1 × IsGuest table.now result.1.1 }
{
    thread::join(
        rt,
        move ||
            requires { IsGuest table.now first × (table.now.slots ≡ 2) }
            ensures { IsGuest table.entry.now result.1 }
        { visit_all(table, first, 0) },
        move ||
            requires { IsGuest table.now second × (table.now.slots ≡ 2) }
            ensures { IsGuest table.entry.now result.1 }
        { visit_all(table, second, 1) },
    )
}

/// Flows come and go while two cores look for them. The records that were filed, where none stayed in the table, and
/// how many entries the cores made.
fn filed_beside<R: Threads + Wait + Sync>(rt: &R, alloc: Global) -> Option<(FiledList, usize)> {
    let Ok((table, mut slow)) = start(alloc) else {
        return None;
    };
    let (first, second) = two_guests(&table, &mut slow);
    let shared = &table;
    let ((filed, mut slow), ((one, first), (two, second))) = thread::join(
        rt,
        move ||
            requires { IsKeeper shared.now slow × (slow.view.opened ≡ 0) }
            ensures { IsKeeper shared.entry.now result.1 }
        { come_and_go(rt, alloc, shared, slow) },
        move ||
            requires { IsGuest shared.now first × IsGuest shared.now second × (shared.now.slots ≡ 2) }
            ensures { IsGuest shared.entry.now result.0.1 × IsGuest shared.entry.now result.1.1 }
        { visit_at_once(rt, shared, first, second) },
    );
    two_farewells(&table, &mut slow, first, second);
    match last_record(alloc, table, slow) {
        Some(_) => None,
        None => Some((filed, (one as usize).saturating_add(two as usize))),
    }
}

#[test]
fn flows_come_and_go_while_cores_look_for_them(rt: HostRuntime) -> Result<(), Fail> {
    let Some((filed, asked)) = filed_beside(&rt, rt.alloc()) else {
        panic!(rt; "there is no table, or a record stayed in it")
    };
    assert!(rt; filed.len() == 100 && entries_in(&filed) == Some(asked.saturating_add(100)));
    Ok(())
}
