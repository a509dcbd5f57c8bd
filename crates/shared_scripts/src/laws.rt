//! The laws of a tick of a host and its scripts.
ghost use Rattle.std.specs.Prelude.{◌≡◌, ℕ, suc, true, false, List};
ghost use Rattle.core_host.specs.Sharing.{IsPlayed};
ghost use Rattle.core_host.specs.Sound.{IsStaffSound, IsUnasked, IsClear};
ghost use Rattle.core_host.specs.Staffing.{new_host};
ghost use Rattle.core_host.specs.Ticks.{IsTick};
ghost use Rattle.core_host.specs.Views.{Staffed, seen_by};
ghost use Rattle.core_rounds.specs.Shares.{AreDistinct};
ghost use Rattle.core_worker.specs.declared.frames.Frame.{Frame};
ghost use Rattle.host_rounds.specs.Lists.{Each};
ghost use Rattle.phase_orders.specs.CoreTurns.{arrivals_of};
ghost use Rattle.scenario_ranges.specs.Ranges.{IsInRange};
ghost use Rattle.scenario_runs.specs.Applications.{Script};
ghost use Rattle.scenario_runs.specs.Worlds.{scripts_of, site_of};
ghost use Rattle.scenario_text.specs.declared.scenario.HostLine.{HostLine};
ghost use Rattle.scenario_text.specs.declared.scenario.Scenario.{Scenario};
ghost use Rattle.slow_worker.specs.declared.clock.Clock.TheVariants.{New};
ghost use Rattle.shared_scripts.specs.Begun.{IsBegun};
ghost use Rattle.shared_scripts.specs.Ended.{IsEnded};
ghost use Rattle.shared_scripts.specs.Going.{CanGoOn, IsGoneOn, WasBegun};
ghost use Rattle.shared_scripts.specs.Playing.{IsPlayable};
ghost use Rattle.shared_scripts.specs.Turns.{numbers_in};

use script_tries::{tried_scripts_go_on, tries_are_independent, tries_keep_names, tries_stand};

/// A host that was just made, on which the applications of these scripts run, may have any tick as its first.
pub fn scripts_begin_playable()
    ensures { (s : Scenario) (line : HostLine) (t : ℕ) (h : Staffed) → IsInRange s → line.params.fixed ≡ false
        → IsStaffSound h → seen_by h ≡ new_host line.params → h.names ≡ numbers_in (site_of s line).scripts
        → Each IsClear h.lanes → Each IsUnasked h.lanes → h.host.slow.time ≡ New → h.host.slow.check_sums ≡ true
        → IsPlayable t h (site_of s line).scripts }
{}

/// Scripts whose host began a tick may go on when its lanes have played.
pub(crate) fn played_hosts_go_on()
    ensures { (s : Scenario) (t : ℕ) (scripts : List Script) (played : Staffed) → WasBegun s t scripts played
        → CanGoOn t scripts played }
{
    tries_stand();
    tries_are_independent();
    tried_scripts_go_on();
    tries_keep_names();
}

/// A tick that was begun, went on and was ended, its lanes having played twice, is a tick of the host under the scripts
/// of the scenario, with the frames that came, each once, and one turn of each application.
pub fn ticks_are_made()
    ensures tick { (s : Scenario) (t : ℕ) (name : List ℕ) (frames : List Frame) (scripts next : List Script)
        (before trying played kicked sent after : Staffed)
        → IsPlayable t before scripts → AreDistinct (arrivals_of true frames)
        → IsBegun s t name frames scripts before trying → IsPlayed t trying played
        → IsGoneOn s t scripts next played kicked → IsPlayed t kicked sent → IsEnded t sent after
        → IsTick (scripts_of s (seen_by before).params) t
        (record { frames = arrivals_of true frames; asks = numbers_in scripts }) before after scripts next }
    // And the host may have the next tick then.
    ensures playable { (s : Scenario) (t : ℕ) (name : List ℕ) (frames : List Frame) (scripts next : List Script)
        (before trying played kicked sent after : Staffed)
        → IsPlayable t before scripts
        → IsBegun s t name frames scripts before trying → IsPlayed t trying played
        → IsGoneOn s t scripts next played kicked → IsPlayed t kicked sent → IsEnded t sent after
        → IsPlayable (suc t) after next }
{
    tries_stand();
    tries_are_independent();
    tried_scripts_go_on();
    tries_keep_names();
}
