//! Flows with something to send are kicked, whoever gave them that.
ghost use Rattle.std.specs.Prelude.{◌≡◌, ◌<◌, ◌++◌, [], ℕ, length, take, OnOk, OnErr};
ghost use Rattle.flow_clock.specs.Ledgers.{IsReady, IsKept};
ghost use Rattle.flow_lock.specs.Claims.{HasPin};
ghost use Rattle.flow_lock.specs.Orders.{known_of};
ghost use Rattle.flow_lock.specs.Steps.{IsAlone};
ghost use Rattle.host_rounds.specs.Lists.{Each};
ghost use Rattle.core_worker.specs.Kicks.{kick_of, one_kick};
ghost use Rattle.slow_worker.specs.Alone.{IsUsed, AreUsed, IsAsItWas, kicks_due, IsLookedAt};
ghost use Rattle.slow_worker.specs.Alone.{IsAllKicked, IsLookStopped};
ghost use Rattle.slow_worker.specs.Kicking.{CanKick};
ghost use Rattle.slow_worker.specs.Workers.{sight_of, IsSound};

use crate::worker::SlowWorker;
use app_reaper::PinList;
use core_worker::{Kick, KickList, Shared};
use flow_lock::{FlowTable, Pin, SlowPass};
use flow_state::FlowRecord;
use std::alloc::AllocError;
use std::sync::Wait;

/// Takes the record of a pinned flow, puts its kick to the list where a segment may go, and gives the record back as it
/// was. The error is want of memory, before it was taken.
fn look_at(
    table: &FlowTable<FlowRecord>,
    slow: &mut SlowPass<FlowRecord>,
    pin: &Pin,
    kicks: &mut KickList,
) -> Result<(), AllocError>
    requires slot { pin.now.slot < table.now.slots }
    requires slow { (slow.old.table ≡ table.now) × HasPin slow.old.view pin.now × IsAlone slow.old.view }
    requires free { slow.old.view.held ≡ [] }
    ensures table { slow.new.table ≡ slow.old.table }
    ensures looked { OnOk result (IsUsed IsAsItWas pin.now slow.old.view slow.new.view) }
    ensures kicked { OnOk result (kicks.new.list
        ≡ kicks.old.list ++ one_kick (kick_of pin.now (known_of pin.now slow.old.view.base))) }
    ensures unlooked { OnErr result (slow.new ≡ slow.old) }
{
    kicks.reserve()?;
    let flow = match table.slow_take(slow, pin) {
        Ok(flow) => flow,
        Err(_) => unreachable!(),
    };
    let _ = flow.parts();
    kicks.put_some(Kick::of(&flow));
    table.slow_give(slow, pin, flow);
    Ok(())
}

/// Looks so at each flow of the pins, the first first. The error is want of memory.
fn look_at_all(
    table: &FlowTable<FlowRecord>,
    slow: &mut SlowPass<FlowRecord>,
    pins: &PinList,
    kicks: &mut KickList,
) -> Result<(), AllocError>
    requires slow { IsReady table.now slow.old }
    requires alone { IsAlone slow.old.view }
    requires pins { Each (IsKept table.now.slots slow.old) pins.now.list }
    requires none { kicks.old.list ≡ [] }
    ensures table { slow.new.table ≡ slow.old.table }
    ensures looked { OnOk result (AreUsed IsAsItWas pins.now.list slow.old.view slow.new.view) }
    ensures kicked { OnOk result (kicks.new.list ≡ kicks_due slow.old.view.base pins.now.list) }
    ensures part { OnErr result ((count : ℕ) × AreUsed IsAsItWas (take count pins.now.list) slow.old.view
        slow.new.view) }
{
    for at in 0..pins.len() {
        look_at(table, slow, pins.pin(at), kicks)?;
    }
    Ok(())
}

impl SlowWorker {
    /// Looks at the record of each flow, where the slow path is alone, and posts one kick for each of which a segment
    /// may go to the queue of its core, or keeps it where that is full. So a flow is kicked to which an application or
    /// a core gave something to send. No history and no other list changes, and kicks that waited are replaced by those
    /// of the flows that still have something to send. The error is want of memory, and then no kick was posted.
    pub fn kick_all<R: Wait>(&mut self, rt: &R, shared: &Shared) -> Result<(), AllocError>
        requires sound { IsSound shared.now.table (sight_of self.old) }
        requires alone { IsAlone self.old.pass.view }
        requires kickers { CanKick shared.now self.old.kickers }
        ensures sound { IsSound shared.now.table (sight_of self.new) }
        ensures alone { IsAlone self.new.pass.view }
        ensures kickers { CanKick shared.now self.new.kickers }
        ensures kicked { OnOk result (IsAllKicked shared.now self.old self.new) }
        ensures stopped { OnErr result (IsLookStopped self.old self.new) }
    {
        self.look(shared)?;
        self.post_kicks(rt, shared);
        Ok(())
    }

    /// Looks at the record of each flow. The kicks are then those that are due. The error is want of memory, and then
    /// they are as they were.
    fn look(&mut self, shared: &Shared) -> Result<(), AllocError>
        requires sound { IsSound shared.now.table (sight_of self.old) }
        requires alone { IsAlone self.old.pass.view }
        ensures sound { IsSound shared.now.table (sight_of self.new) }
        ensures alone { IsAlone self.new.pass.view }
        ensures kickers { self.new.kickers ≡ self.old.kickers }
        ensures looked { OnOk result (IsLookedAt self.old self.new) }
        ensures stopped { OnErr result (IsLookStopped self.old self.new) }
    {
        let mut due = KickList::new(self.alloc);
        look_at_all(&shared.table, &mut self.pass, &self.pins, &mut due)?;
        self.kicks = due;
        Ok(())
    }
}
