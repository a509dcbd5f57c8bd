//! A tick of a run on shared flows.
ghost use Rattle.std.specs.Prelude.{◌≡◌, ◌+◌, ℕ, [], OnOk};
ghost use Rattle.scenario_ranges.specs.Ranges.{IsInRange};
ghost use Rattle.scenario_runs.specs.Histories.{AreBelow};
ghost use Rattle.scenario_runs.specs.Runs.{IsTick};
ghost use Rattle.shared_world.specs.Sites.{HasPlayed, IsReady, world_of};

use crate::collecting::collect_all;
use crate::laws::made_ticks_are_right;
use crate::stepping::play_steps;
use crate::world::SharedWorld;
use core_phase::Lane;
use crew::Crew;
use link_script::due;
use scenario_text::Scenario;
use std::alloc::{AllocError, Global};
use std::sync::Wait;
use tas_num::Gate;

/// Plays a tick of all hosts, the lanes of all side by side. `lanes` is empty before and after. The error is want of
/// memory.
pub(crate) fn play_tick<R: Wait, G: Gate>(
    rt: &R,
    gate: &G,
    crew: &mut Crew<Lane>,
    alloc: Global,
    s: &Scenario,
    tick: u32,
    w: &mut SharedWorld<'_>,
    lanes: &mut Vec<Lane>,
) -> Result<(), AllocError>
    requires ranges { IsInRange s.now }
    requires ready { (cores : ℕ) × IsReady s.now tick cores w.old }
    requires empty { lanes.old.items ≡ [] }
    ensures tick { OnOk result (IsTick s.now tick (world_of w.old) (world_of w.new)) }
    ensures below { (cores : ℕ) → IsReady s.now tick cores w.old → AreBelow cores (world_of w.old)
        → OnOk result (AreBelow cores (world_of w.new)) }
    ensures ready { (cores : ℕ) → IsReady s.now tick cores w.old
        → OnOk result (IsReady s.now (tick + 1) cores w.new) }
    ensures empty { OnOk result (lanes.new.items ≡ []) }
    ensures crew { crew.new ≡ crew.old }
{
    made_ticks_are_right();
    let due = due(alloc, &s.link, &w.traffic.sent, tick)?;
    play_steps(
        rt,
        gate,
        crew,
        alloc,
        s,
        tick,
        &due,
        &mut w.hosts,
        &mut w.scripts,
        lanes,
    )?;
    drop(due);
    send_on(alloc, s, tick, w)?;
    w.traffic.forget(s, tick);
    Ok(())
}

/// What the hosts sent in a tick goes to the link. The error is want of memory.
fn send_on(
    alloc: Global,
    s: &Scenario,
    tick: u32,
    w: &mut SharedWorld<'_>,
) -> Result<(), AllocError>
    requires ranges { IsInRange s.now }
    requires played { (cores : ℕ) × HasPlayed s.now tick cores w.old }
    ensures same { OnOk result (world_of w.new ≡ world_of w.old) }
    ensures ready { (cores : ℕ) → HasPlayed s.now tick cores w.old
        → OnOk result (IsReady s.now (tick + 1) cores w.new) }
{
    collect_all(
        alloc,
        tick,
        0,
        &mut w.hosts,
        &w.traffic.addresses,
        &mut w.traffic.counts,
        &mut w.traffic.sent,
    )?;
    w.traffic.note_last(&s.link, tick);
    Ok(())
}
