//! What a host leaves when its run is over.
ghost use Rattle.std.specs.Prelude.{◌≡◌, ◌++◌, ◌∷◌, [], ℕ, List, map, IfOk, OnOk};
ghost use Rattle.tas_model.specs.declared.entry.FlowId.{FlowId as Id};
ghost use Rattle.flow_state.specs.Flow.{left_of};
ghost use Rattle.flow_lock.specs.Orders.{total, at_slot};
ghost use Rattle.flow_lock.specs.declared.view.Held.{Held};
ghost use Rattle.app_reaper.specs.Reaping.{ArePins};
ghost use Rattle.host_rounds.specs.Lists.{Each};
ghost use Rattle.sound_hosts.specs.Hosts.{id_of};
ghost use Rattle.sound_phases.specs.Phased.{apps_in};
ghost use Rattle.core_host.specs.Ending.{flow_left, flows_of, IsLegal, AreFiled, IsFiledAs, record_id, left_in};
ghost use Rattle.core_host.specs.Ending.{AreFound, AreApart, IsQuiet, HasFewer, HasLeft, sockets_on, IsAtEase};
ghost use Rattle.core_host.specs.Ending.{MayFree, AreFreed};
ghost use Rattle.core_host.specs.Sound.{IsStaffSound};
ghost use Rattle.core_host.specs.Views.{seen_by};

use crate::books::Books;
use crate::histories::Histories;
use crate::host::CoreHost;
use app_reaper::{Ended, FiledList, PinList};
use core_phase::Lane;
use flow_lock::{FlowTable, Pass, Pin, SlowPass};
use flow_state::{FlowHistory, FlowRecord};
use libtas_sockets::App;
use slow_worker::SlowRemains;
use std::alloc::{AllocError, Global};
use std::sync::Wait;
use tas_core::HostLog;

/// What a host leaves when its run is over.
#[derive(Drop)]
pub struct HostEnd {
    /// Its log.
    pub log: HostLog,
    /// The histories of its flows, in the order of their opening.
    pub flows: Vec<FlowHistory>,
}

impl CoreHost {
    /// What it leaves after its last tick. The error is want of memory.
    pub fn finish<R: Wait>(self, rt: &R) -> Result<HostEnd, AllocError>
        requires sound { IsStaffSound self }
        requires filed { AreFiled self.host }
        ensures log { IfOk result (λ end. end.log ≡ (seen_by self).log) }
        ensures flows { IfOk result (λ end. map flow_left end.flows.items ≡ flows_of (seen_by self)) }
        ensures legal { IfOk result (λ end. Each IsLegal end.flows.items) }
    {
        let CoreHost {
            alloc,
            shared,
            slow,
            steer: _,
            cores: _,
            lanes,
            names: _,
            books,
            buffer: _,
            rooms: _,
            busy: _,
        } = self;
        let SlowRemains {
            path: _,
            pass,
            pins,
            doomed,
            filed,
            log,
            exceptions: _,
            deferred: _,
        } = slow.end(rt);
        let mut pass = pass;
        let mut found = Histories::new(alloc);
        leave_all(&shared.table, &mut pass, lanes);
        find_filed(&mut found, filed)?;
        find_all(&shared.table, &mut pass, &mut found, pins)?;
        find_all(&shared.table, &mut pass, &mut found, doomed)?;
        let flows = in_order(alloc, found, &books)?;
        Ok(HostEnd { log, flows })
    }

    /// Ends a host of which nothing is wanted.
    pub fn end<R: Wait>(self, rt: &R) {
        let CoreHost {
            alloc: _,
            shared: _,
            slow,
            steer: _,
            cores: _,
            lanes: _,
            names: _,
            books: _,
            buffer: _,
            rooms: _,
            busy: _,
        } = self;
        drop(slow.end(rt));
    }
}

/// All applications give their sockets up, one after the other.
fn leave_all(table: &FlowTable<FlowRecord>, slow: &mut SlowPass<FlowRecord>, lanes: Vec<Lane>)
    requires slow { IsQuiet table.now slow.old }
    requires idle { Each (IsAtEase table.now) (apps_in lanes.items) }
    ensures { HasLeft (sockets_on (apps_in lanes.items)) slow.old slow.new }
{
    for lane in lanes {
        leave_lane(table, slow, lane);
    }
}

/// The application gives its sockets up, where the lane is one's.
fn leave_lane(table: &FlowTable<FlowRecord>, slow: &mut SlowPass<FlowRecord>, lane: Lane)
    requires slow { IsQuiet table.now slow.old }
    requires idle { Each (IsAtEase table.now) (apps_in (lane ∷ [])) }
    ensures { HasLeft (sockets_on (apps_in (lane ∷ []))) slow.old slow.new }
{
    match lane {
        Lane::App(lane) => leave(table, slow, lane.app),
        Lane::Core(_) => {}
    }
}

/// An application gives its sockets up, alone.
fn leave(table: &FlowTable<FlowRecord>, slow: &mut SlowPass<FlowRecord>, app: App)
    requires slow { IsQuiet table.now slow.old }
    requires app { IsAtEase table.now app }
    ensures { HasLeft (sockets_on (app ∷ [])) slow.old slow.new }
{
    let mut app = app;
    app.pass_on(table, slow);
    let Ended {
        app: _,
        pass,
        held: _,
        busy: _,
        pins,
    } = app.end(false, table);
    let mut pass = pass;
    let_go(table, &mut pass, pins);
    table.pass_back(&mut pass, slow);
}

/// Gives all pins of a pass up.
fn let_go(table: &FlowTable<FlowRecord>, pass: &mut Pass<FlowRecord>, pins: PinList)
    requires pass { IsQuiet table.now pass.old }
    requires pins { ArePins table.now.slots pass.old.view pins.list }
    ensures table { pass.new.table ≡ pass.old.table }
    ensures fewer { HasFewer (λ i. total (at_slot i) pins.list) pass.old.view pass.new.view }
{
    // At most as many as there are slots.
    let mut pins = pins;
    while pins.len() > 0 {
        table.unpin(pass, pins.remove(0));
    }
}

/// The histories of the records that were filed. The error is want of memory.
fn find_filed(found: &mut Histories, filed: FiledList) -> Result<(), AllocError>
    ensures { OnOk result ((known : List Held) (ids : List Id) → AreFound known found.old ids
        → Each (IsFiledAs known) filed.list → AreFound known found.new (ids ++ map record_id filed.list)) }
{
    let mut filed = filed;
    while let Some(flow) = filed.take_first() {
        found.put(flow.into_history())?;
    }
    Ok(())
}

/// The histories of these flows, whose slots are freed. The error is want of memory.
fn find_all(
    table: &FlowTable<FlowRecord>,
    slow: &mut SlowPass<FlowRecord>,
    found: &mut Histories,
    pins: PinList,
) -> Result<(), AllocError>
    requires { MayFree table.now slow.old pins.list }
    ensures freed { OnOk result (AreFreed table.now pins.list slow.old slow.new) }
    ensures found { OnOk result ((ids : List Id) → AreFound slow.old.view.base found.old ids
        → AreFound slow.old.view.base found.new (ids ++ pins.list)) }
{
    // At most as many as there are slots.
    let mut pins = pins;
    while pins.len() > 0 {
        let flow = free(table, slow, pins.remove(0));
        found.put(flow.into_history())?;
    }
    Ok(())
}

/// The record of a flow, whose slot is freed.
fn free(table: &FlowTable<FlowRecord>, slow: &mut SlowPass<FlowRecord>, pin: Pin) -> FlowRecord
    requires { MayFree table.now slow.old (pin ∷ []) }
    ensures freed { AreFreed table.now (pin ∷ []) slow.old slow.new }
    ensures own { left_of result ≡ left_in slow.old.view.base pin }
{
    table.doom(slow, &pin);
    match table.free(slow, pin) {
        Ok(flow) => flow,
        Err(_) => unreachable!(),
    }
}

/// The histories of all flows, in the order of their opening. The error is want of memory.
fn in_order(alloc: Global, found: Histories, books: &Books) -> Result<Vec<FlowHistory>, AllocError>
    requires { (known : List Held) × AreFound known found (map id_of books.now) × AreApart books.now }
    ensures flows { IfOk result (λ flows. (known : List Held) → AreFound known found (map id_of books.now)
        → AreApart books.now → flows.items ≡ map (left_in known) (map id_of books.now)) }
    ensures legal { IfOk result (λ flows. Each IsLegal flows.items) }
{
    let mut found = found;
    let mut flows = Vec::with_capacity(alloc, books.len())?;
    for i in 0..books.len() {
        let Some(history) = found.take(books.id(i)) else {
            unreachable!()
        };
        // It is a legal one, of parameters in their ranges.
        let _ = history.params();
        flows.push(history)?;
    }
    Ok(flows)
}
