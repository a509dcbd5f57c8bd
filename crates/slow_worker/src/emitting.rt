//! What may still go is sent alone.
ghost use Rattle.std.specs.Prelude.{◌≡◌, ◌<◌, [], List, OnOk, OnErr};
ghost use Rattle.core_worker.specs.Sending.{IsAllSent, IsPartSent};
ghost use Rattle.flow_clock.specs.Ledgers.{IsReady, IsKept};
ghost use Rattle.flow_lock.specs.Claims.{HasPin};
ghost use Rattle.flow_lock.specs.Steps.{IsAlone};
ghost use Rattle.host_rounds.specs.Lists.{Each};
ghost use Rattle.slow_worker.specs.Alone.{IsUsed, AreUsed, IsSendStopped};
ghost use Rattle.slow_worker.specs.Workers.{sight_of, IsSound};

use crate::worker::SlowWorker;
use app_reaper::PinList;
use core_worker::{Shared, send_all};
use flow_lock::{FlowTable, Pin, SlowPass};
use flow_state::FlowRecord;
use std::alloc::AllocError;

/// The core whose segments these are.
const CORE: u32 = 0;

/// Sends all that may go of a pinned flow, by one take and one give. The error is want of memory, and what was sent
/// stays.
fn send_at(
    table: &FlowTable<FlowRecord>,
    slow: &mut SlowPass<FlowRecord>,
    pin: &Pin,
    tick: u32,
) -> Result<(), AllocError>
    requires slot { pin.now.slot < table.now.slots }
    requires slow { (slow.old.table ≡ table.now) × HasPin slow.old.view pin.now × IsAlone slow.old.view }
    requires free { slow.old.view.held ≡ [] }
    ensures table { slow.new.table ≡ slow.old.table }
    ensures sent { OnOk result (IsUsed (IsAllSent 0 tick) pin.now slow.old.view slow.new.view) }
    ensures part { OnErr result (IsUsed (IsPartSent 0 tick) pin.now slow.old.view slow.new.view) }
{
    let mut flow = match table.slow_take(slow, pin) {
        Ok(flow) => flow,
        Err(_) => unreachable!(),
    };
    let _ = flow.parts();
    let sent = send_all(&mut flow, CORE, tick);
    table.slow_give(slow, pin, flow);
    sent
}

/// Sends so of each flow of the pins, the first first. The error is want of memory.
fn send_from_all(
    table: &FlowTable<FlowRecord>,
    slow: &mut SlowPass<FlowRecord>,
    pins: &PinList,
    tick: u32,
) -> Result<(), AllocError>
    requires slow { IsReady table.now slow.old }
    requires alone { IsAlone slow.old.view }
    requires pins { Each (IsKept table.now.slots slow.old) pins.now.list }
    ensures table { slow.new.table ≡ slow.old.table }
    ensures sent { OnOk result (AreUsed (IsAllSent 0 tick) pins.now.list slow.old.view slow.new.view) }
    ensures part { OnErr result (IsSendStopped tick pins.now.list slow.old.view slow.new.view) }
{
    for at in 0..pins.len() {
        send_at(table, slow, pins.pin(at), tick)?;
    }
    Ok(())
}

impl SlowWorker {
    /// Sends all that may still go of each flow, where the slow path is alone, as core 0 sends it. Nothing else
    /// changes. The error is want of memory, and what was sent stays.
    pub fn send_rest(&mut self, shared: &Shared, tick: u32) -> Result<(), AllocError>
        requires sound { IsSound shared.now.table (sight_of self.old) }
        requires alone { IsAlone self.old.pass.view }
        ensures sound { IsSound shared.now.table (sight_of self.new) }
        ensures alone { IsAlone self.new.pass.view }
        ensures sent { OnOk result (AreUsed (IsAllSent 0 tick) self.old.pins self.old.pass.view self.new.pass.view) }
        ensures part { OnErr result (IsSendStopped tick self.old.pins self.old.pass.view self.new.pass.view) }
        ensures table { self.new.pass.table ≡ self.old.pass.table }
        ensures rest { self.new ≡ record self.old { pass = self.new.pass } }
    {
        send_from_all(&shared.table, &mut self.pass, &self.pins, tick)
    }
}
