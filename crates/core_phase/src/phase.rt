//! A phase, from the turns that are lent to the order that is learned.
ghost use Rattle.std.specs.Prelude.{◌≡◌, ◌+◌, ◌<◌, ◌++◌, ◌∷◌, ℕ, [], true, false, All, length, OnOk};
ghost use Rattle.flow_lock.specs.Orders.{Order};
ghost use Rattle.flow_lock.specs.Passes.{lender, with_turns, new_turn};
ghost use Rattle.flow_lock.specs.Steps.{IsAlone};
ghost use Rattle.core_phase.specs.Lanes.{IsIdle, MayPlay, IsReady, Works, pass_of, with_turns_of};
ghost use Rattle.core_phase.specs.Phases.{AreLent, AreBack, turns_in, IsPhase};

use crate::lane::Lane;
use core_worker::Shared;
use crew::Crew;
use flow_lock::SlowPass;
use flow_state::FlowRecord;
use std::alloc::AllocError;
use std::sync::Wait;
use tas_num::Gate;

/// The lane is given a turn.
fn lend(shared: &Shared, slow: &mut SlowPass<FlowRecord>, lane: &mut Lane)
    requires slow { (slow.old.table ≡ shared.now.table) × (slow.old.view.baton ≡ true) }
    requires idle { IsIdle shared.now lane.old }
    ensures slow { slow.new ≡ record slow.old { view = lender slow.old.view } }
    ensures lent { lane.new ≡ with_turns_of ((pass_of lane.old).view.turns ++ new_turn slow.old.view.made ∷ [])
        lane.old }
{
    match lane {
        Lane::Core(core) => shared.table.lend(slow, &mut core.worker.pass),
        Lane::App(app) => app.app.lend(&shared.table, slow),
    }
}

/// Each lane is given a turn.
pub fn lend_all(shared: &Shared, slow: &mut SlowPass<FlowRecord>, lanes: &mut [Lane])
    requires slow { (slow.old.table ≡ shared.now.table) × (slow.old.view.baton ≡ true) }
    requires idle { All (IsIdle shared.now) lanes.old }
    ensures slow { slow.new ≡ record slow.old {
      view = record slow.old.view { made = slow.old.view.made + length lanes.old };
    } }
    ensures lent { AreLent slow.old.view.made lanes.old lanes.new }
    ensures len { length lanes.new ≡ length lanes.old }
{
    if let Some((lane, rest)) = lanes.split_first_mut() {
        lend(shared, slow, lane);
        lend_all(shared, slow, rest);
    }
}

/// The lane's turn is given back.
fn collect(shared: &Shared, slow: &mut SlowPass<FlowRecord>, lane: &mut Lane)
    requires slow { slow.old.table ≡ shared.now.table }
    requires ready { IsReady shared.now lane.old }
    ensures slow { slow.new ≡ record slow.old { view = with_turns slow.old.view (pass_of lane.old).view } }
    ensures back { lane.new ≡ with_turns_of [] lane.old }
{
    match lane {
        Lane::Core(core) => shared.table.collect(slow, &mut core.worker.pass),
        Lane::App(app) => app.app.collect(&shared.table, slow),
    }
}

/// All turns are given back.
pub fn collect_all(shared: &Shared, slow: &mut SlowPass<FlowRecord>, lanes: &mut [Lane])
    requires slow { slow.old.table ≡ shared.now.table }
    requires ready { All (IsReady shared.now) lanes.old }
    ensures slow { slow.new ≡ record slow.old {
      view = record slow.old.view { turns = slow.old.view.turns ++ turns_in lanes.old };
    } }
    ensures back { AreBack lanes.old lanes.new }
    ensures len { length lanes.new ≡ length lanes.old }
{
    if let Some((lane, rest)) = lanes.split_first_mut() {
        collect(shared, slow, lane);
        collect_all(shared, slow, rest);
    }
}

/// Whether memory was wanting in the lane's turn.
fn has_failed(lane: &Lane) -> bool
    ensures { result ≡ false → Works lane.now }
{
    match lane {
        Lane::Core(core) => core.failed,
        Lane::App(_) => false,
    }
}

/// Whether memory was wanting in a turn.
fn have_failed(lanes: &[Lane]) -> bool
    ensures { result ≡ false → All Works lanes.now }
{
    if let Some((lane, rest)) = lanes.split_first() {
        return has_failed(lane) || have_failed(rest);
    }
    false
}

/// Each lane is given a turn.
fn lend_lanes(shared: &Shared, slow: &mut SlowPass<FlowRecord>, lanes: &mut Vec<Lane>)
    requires slow { (slow.old.table ≡ shared.now.table) × (slow.old.view.baton ≡ true) }
    requires idle { All (IsIdle shared.now) lanes.old.items }
    ensures slow { slow.new ≡ record slow.old {
      view = record slow.old.view { made = slow.old.view.made + length lanes.old.items };
    } }
    ensures lent { AreLent slow.old.view.made lanes.old.items lanes.new.items }
{
    lend_all(shared, slow, lanes.as_mut_slice());
}

/// All turns are given back.
fn collect_lanes(shared: &Shared, slow: &mut SlowPass<FlowRecord>, lanes: &mut Vec<Lane>)
    requires slow { slow.old.table ≡ shared.now.table }
    requires ready { All (IsReady shared.now) lanes.old.items }
    ensures slow { slow.new ≡ record slow.old {
      view = record slow.old.view { turns = slow.old.view.turns ++ turns_in lanes.old.items };
    } }
    ensures back { AreBack lanes.old.items lanes.new.items }
{
    collect_all(shared, slow, lanes.as_mut_slice());
}

/// Whether memory was wanting in a turn.
pub fn lanes_failed(lanes: &Vec<Lane>) -> bool
    ensures { result ≡ false → All Works lanes.now.items }
{
    have_failed(lanes.as_slice())
}

/// All lanes of a host work side by side. What they did in their turns has one order, which leads from the histories
/// before to those after. The error is want of memory in a core's turn; the host is over then.
pub fn play_phase<R: Wait, G: Gate>(
    rt: &R,
    gate: &G,
    crew: &mut Crew<Lane>,
    shared: &Shared,
    slow: &mut SlowPass<FlowRecord>,
    lanes: &mut Vec<Lane>,
) -> Result<(), AllocError>
    requires slow { (slow.old.table ≡ shared.now.table) × IsAlone slow.old.view }
    requires idle { All (IsIdle shared.now) lanes.old.items }
    requires may { All MayPlay lanes.old.items }
    ensures idle { OnOk result (All (IsIdle shared.now) lanes.new.items) }
    ensures table { OnOk result (slow.new.table ≡ slow.old.table) }
    ensures phase { OnOk result (IsPhase lanes.old.items lanes.new.items slow.old.view slow.new.view) }
    ensures crew { crew.new ≡ crew.old }
{
    lend_lanes(shared, slow, lanes);
    crew.phase(rt, gate, lanes);
    if lanes_failed(lanes) {
        return Err(AllocError);
    }
    collect_lanes(shared, slow, lanes);
    shared.table.learn(slow);
    Ok(())
}
