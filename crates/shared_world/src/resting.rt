//! Whether a run is at rest.
ghost use Rattle.std.specs.Prelude.{◌≡◌, ◌+◌, ◌&&◌, ℕ, List, nat_lt, not};
ghost use Rattle.std.specs.List.{list_all};
ghost use Rattle.scenario_runs.specs.Applications.{Script, has_ended};
ghost use Rattle.scenario_runs.specs.Worlds.{is_at_rest as model_rest};
ghost use Rattle.scenario_text.specs.declared.scenario.Scenario.{Scenario};
ghost use Rattle.shared_world.specs.Sites.{IsReady, world_of};

use crate::closing::are_closed;
use crate::world::SharedWorld;
use shared_scripts::HostScripts;

/// Whether all scripts of these hosts have ended.
pub(crate) fn have_ended(scripts: &[HostScripts<'_>]) -> bool
    ensures { result ≡ list_all (λ (xs : List Script). list_all has_ended xs) scripts.now }
{
    for own in scripts {
        if !own.have_ended() {
            return false;
        }
    }
    true
}

/// Whether all is at rest after a tick: all scripts have ended, all flows are closed, and no frame is on the link.
pub(crate) fn is_at_rest(tick: u32, w: &mut SharedWorld<'_>) -> bool
    requires { (s : Scenario) × (cores : ℕ) × IsReady s (tick + 1) cores w.old }
    ensures rest { (s : Scenario) (cores : ℕ) → IsReady s (tick + 1) cores w.old
        → result ≡ model_rest s tick (world_of w.old) }
    ensures same { world_of w.new ≡ world_of w.old }
    ensures ready { (s : Scenario) (cores : ℕ) → IsReady s (tick + 1) cores w.old
        → IsReady s (tick + 1) cores w.new }
{
    if !is_quiet(tick, w) {
        return false;
    }
    are_closed(&mut w.hosts)
}

/// Whether all scripts have ended, and no frame comes after the tick.
fn is_quiet(tick: u32, w: &SharedWorld<'_>) -> bool
    ensures { result ≡ (list_all (λ (xs : List Script). list_all has_ended xs) w.now.scripts.items
        && not (nat_lt tick w.now.traffic.last)) }
{
    have_ended(&w.scripts) && w.traffic.last <= u64::from(tick)
}
