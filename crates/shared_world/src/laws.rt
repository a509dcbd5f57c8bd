//! The law of a tick that hosts made step by step.
ghost use Rattle.std.specs.Prelude.{◌≡◌, ℕ, List};
ghost use Rattle.link_script.specs.DueFrames.{due};
ghost use Rattle.link_script.specs.declared.frames.Sent.{Sent};
ghost use Rattle.scenario_runs.specs.Histories.{AreBelow};
ghost use Rattle.scenario_runs.specs.Runs.{IsTick};
ghost use Rattle.scenario_text.specs.declared.scenario.Scenario.{Scenario};
ghost use Rattle.shared_world.specs.Sites.{HasPlayed, IsReady, world_of};
ghost use Rattle.shared_world.specs.Stepping.{AreMade};
ghost use Rattle.shared_world.specs.declared.world.SharedWorld.{SharedWorld};

use core_host::{filed_histories_are_kept, open_flows_are_in_the_index, ticks_of_steps_are_shared};
use shared_scripts::{HostScripts, ticks_are_made};

/// Where the hosts of a world made a tick step by step, with the frames that were due of those that are kept, what they
/// left has played a right tick of it, each on its own cores.
pub(crate) fn made_ticks_are_right()
    ensures tick { (s : Scenario) (t cores : ℕ) (w n : SharedWorld) (came : List Sent) → IsReady s t cores w
        → came ≡ due s.link w.traffic.sent t
        → AreMade s t came 0 w.scripts.items n.scripts.items w.hosts.items n.hosts.items
        → IsTick s t (world_of w) (world_of n) }
    ensures below { (s : Scenario) (t cores : ℕ) (w n : SharedWorld) (came : List Sent) → IsReady s t cores w
        → came ≡ due s.link w.traffic.sent t
        → AreMade s t came 0 w.scripts.items n.scripts.items w.hosts.items n.hosts.items
        → AreBelow cores (world_of w) → AreBelow cores (world_of n) }
    ensures played { (s : Scenario) (t cores : ℕ) (w n : SharedWorld) (came : List Sent) → IsReady s t cores w
        → came ≡ due s.link w.traffic.sent t
        → AreMade s t came 0 w.scripts.items n.scripts.items w.hosts.items n.hosts.items → n.traffic ≡ w.traffic
        → HasPlayed s t cores n }
{
    ticks_are_made();
    ticks_of_steps_are_shared::<HostScripts<'static>, u32>();
    filed_histories_are_kept::<HostScripts<'static>, u32>();
    open_flows_are_in_the_index();
}
