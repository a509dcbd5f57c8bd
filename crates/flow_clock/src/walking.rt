//! The walk over all flows of the slow path.
ghost use Rattle.std.specs.Prelude.{◌≡◌, ◌<◌, [], List, length, IfOk, OnOk, OnErr};
ghost use Rattle.tas_model.specs.declared.entry.FlowId.{FlowId};
ghost use Rattle.flow_index.specs.declared.change.Change.{Change};
ghost use Rattle.core_worker.specs.declared.kicks.Kick.{Kick};
ghost use Rattle.flow_clock.specs.Ledgers.{IsReady, KeepsRights, AreKept, ledger};
ghost use Rattle.slow_handshake.specs.Openings.{Openings};
ghost use Rattle.flow_clock.specs.Walks.{IsServedAt, IsRefusedAt, AreServedFrom, IsWalkStopped, AreSweptAgain};
ghost use Rattle.flow_clock.specs.Walks.{IsSweepStopped, IsTickDone, IsTickStopped};

use crate::closing::{close_at, sweep_one};
use crate::timing::{Timed, pass_time};
use app_reaper::{CallFault, FiledList, PinList};
use core_worker::KickList;
use flow_index::IndexWriter;
use flow_lock::{FlowTable, SlowPass};
use flow_state::FlowRecord;
use slow_handshake::SlowPath;
use std::alloc::AllocError;

/// What the slow path does first in a tick. Each closed flow that others still had pins of is swept again. Then each
/// flow of the list has its time, but for the first `served` ones, which had it in an earlier call of this tick: one
/// Tick, and a Control where that is due; one that is closed leaves the index, the openings and the list instead, and
/// is freed and filed, or is among the doomed ones where others have pins of it. Each flow that its tick left with
/// something to send has a kick more in the list of kicks, and no other has one. One that its tick closed waits for no
/// Accept.
///
/// A flow whose record another pass holds is passed over, which never comes alone: it has no Tick in this tick, neither
/// now nor later, its pin stays at its place, and its timers go on with the next tick.
///
/// The changes of the index are not published yet, and the kicks not posted. The error is want of memory: what was done
/// stands, each pin that is left is in its list still, and those of the first `served` flows are the ones that have had
/// their time. So a further call in the same tick goes on where this one stopped.
pub fn tick_all(
    table: &FlowTable<FlowRecord>,
    slow: &mut SlowPass<FlowRecord>,
    path: &mut SlowPath,
    pins: &mut PinList,
    doomed: &mut PinList,
    filed: &mut FiledList,
    index: &mut IndexWriter,
    kicks: &mut KickList,
    served: &mut usize,
    tick: u32,
) -> Result<(), AllocError>
    requires slow { IsReady table.now slow.old }
    requires kept { AreKept table.now.slots slow.old doomed.old.list pins.old.list }
    ensures slow { IsReady table.now slow.new }
    ensures rights { KeepsRights slow.old.view slow.new.view }
    ensures kept { AreKept table.now.slots slow.new doomed.new.list pins.new.list }
    ensures published { (index.new.published ≡ index.old.published) × (index.new.left ≡ index.old.left) }
    ensures params { path.new.params ≡ path.old.params }
    ensures done { OnOk result (IsTickDone tick served.old
        (ledger slow.old.view pins.old.list doomed.old.list filed.old.list index.old.pending kicks.old.list path.old)
        (ledger slow.new.view pins.new.list doomed.new.list filed.new.list index.new.pending kicks.new.list path.new)) }
    ensures stopped { OnErr result (IsTickStopped tick served.old served.new
        (ledger slow.old.view pins.old.list doomed.old.list filed.old.list index.old.pending kicks.old.list path.old)
        (ledger slow.new.view pins.new.list doomed.new.list filed.new.list index.new.pending kicks.new.list path.new)) }
{
    sweep_again(table, slow, doomed, filed)?;
    serve_all(
        table, slow, path, pins, doomed, filed, index, kicks, served, tick,
    )
}

/// Tries each doomed flow again. The error is want of memory.
fn sweep_again(
    table: &FlowTable<FlowRecord>,
    slow: &mut SlowPass<FlowRecord>,
    doomed: &mut PinList,
    filed: &mut FiledList,
) -> Result<(), AllocError>
    requires slow { IsReady table.now slow.old }
    requires kept { AreKept table.now.slots slow.old doomed.old.list [] }
    ensures slow { IsReady table.now slow.new }
    ensures rights { KeepsRights slow.old.view slow.new.view }
    ensures kept { (pins : List FlowId) → AreKept table.now.slots slow.old doomed.old.list pins
        → AreKept table.now.slots slow.new doomed.new.list pins }
    ensures done { (pins : List FlowId) (changes : List Change) (kicks : List Kick)
        (path : Openings) → OnOk result (AreSweptAgain
        doomed.old.list (ledger slow.old.view pins [] filed.old.list changes kicks path)
        (ledger slow.new.view pins doomed.new.list filed.new.list changes kicks path)) }
    ensures stopped { (pins : List FlowId) (changes : List Change) (kicks : List Kick)
        (path : Openings) → OnErr result (IsSweepStopped
        (ledger slow.old.view pins doomed.old.list filed.old.list changes kicks path)
        (ledger slow.new.view pins doomed.new.list filed.new.list changes kicks path)) }
{
    let mut left = doomed.len();
    while left > 0 {
        filed.reserve()?;
        let pin = doomed.remove(0);
        sweep_one(table, slow, pin, doomed, filed);
        left -= 1;
    }
    Ok(())
}

/// Serves each flow of the list but the first `served` ones. The error is want of memory.
fn serve_all(
    table: &FlowTable<FlowRecord>,
    slow: &mut SlowPass<FlowRecord>,
    path: &mut SlowPath,
    pins: &mut PinList,
    doomed: &mut PinList,
    filed: &mut FiledList,
    index: &mut IndexWriter,
    kicks: &mut KickList,
    served: &mut usize,
    tick: u32,
) -> Result<(), AllocError>
    requires slow { IsReady table.now slow.old }
    requires kept { AreKept table.now.slots slow.old doomed.old.list pins.old.list }
    ensures slow { IsReady table.now slow.new }
    ensures rights { KeepsRights slow.old.view slow.new.view }
    ensures kept { AreKept table.now.slots slow.new doomed.new.list pins.new.list }
    ensures published { (index.new.published ≡ index.old.published) × (index.new.left ≡ index.old.left) }
    ensures params { path.new.params ≡ path.old.params }
    ensures done { OnOk result (AreServedFrom tick served.old
        (ledger slow.old.view pins.old.list doomed.old.list filed.old.list index.old.pending kicks.old.list path.old)
        (ledger slow.new.view pins.new.list doomed.new.list filed.new.list index.new.pending kicks.new.list path.new)) }
    ensures stopped { OnErr result (IsWalkStopped tick served.old served.new
        (ledger slow.old.view pins.old.list doomed.old.list filed.old.list index.old.pending kicks.old.list path.old)
        (ledger slow.new.view pins.new.list doomed.new.list filed.new.list index.new.pending kicks.new.list path.new)) }
{
    while *served < pins.len() {
        if serve_at(
            table, slow, path, pins, *served, doomed, filed, index, kicks, tick,
        )? {
            *served += 1;
        }
    }
    Ok(())
}

/// Serves the flow of the pin at a place, and says whether the pin is there still. The error is want of memory, and
/// leaves the flow and the lists as they were.
fn serve_at(
    table: &FlowTable<FlowRecord>,
    slow: &mut SlowPass<FlowRecord>,
    path: &mut SlowPath,
    pins: &mut PinList,
    at: usize,
    doomed: &mut PinList,
    filed: &mut FiledList,
    index: &mut IndexWriter,
    kicks: &mut KickList,
    tick: u32,
) -> Result<bool, AllocError>
    requires place { at < length pins.old.list }
    requires slow { IsReady table.now slow.old }
    requires kept { AreKept table.now.slots slow.old doomed.old.list pins.old.list }
    ensures slow { IsReady table.now slow.new }
    ensures rights { KeepsRights slow.old.view slow.new.view }
    ensures kept { AreKept table.now.slots slow.new doomed.new.list pins.new.list }
    ensures published { (index.new.published ≡ index.old.published) × (index.new.left ≡ index.old.left) }
    ensures params { path.new.params ≡ path.old.params }
    ensures served { IfOk result (IsServedAt tick at
        (ledger slow.old.view pins.old.list doomed.old.list filed.old.list index.old.pending kicks.old.list path.old)
        (ledger slow.new.view pins.new.list doomed.new.list filed.new.list index.new.pending kicks.new.list path.new)) }
    ensures refused { OnErr result (IsRefusedAt at pins.old.list slow.old.view slow.new.view) }
    ensures pins { OnErr result (pins.new.list ≡ pins.old.list) }
    ensures doomed { OnErr result (doomed.new.list ≡ doomed.old.list) }
    ensures filed { OnErr result (filed.new.list ≡ filed.old.list) }
    ensures pending { OnErr result (index.new.pending ≡ index.old.pending) }
    ensures unkicked { OnErr result (kicks.new.list ≡ kicks.old.list) }
    ensures untold { OnErr result (path.new ≡ path.old) }
{
    let timed = match pass_time(table, slow, path, pins.pin(at), kicks, tick) {
        Ok(timed) => timed,
        Err(CallFault::Busy(_)) => return Ok(true),
        Err(CallFault::OutOfMemory) => return Err(AllocError),
    };
    let Timed::Closed(tuple) = timed else {
        return Ok(true);
    };
    close_at(table, slow, path, pins, at, tuple, doomed, filed, index)?;
    Ok(false)
}
