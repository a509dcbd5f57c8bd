//! The law of phases.
ghost use Rattle.std.specs.Prelude.{◌≡◌, List, All};
ghost use Rattle.flow_lock.specs.declared.view.View.{View};
ghost use Rattle.core_phase.specs.Lanes.{MayPlay};
ghost use Rattle.core_phase.specs.Phases.{IsPhase};
ghost use Rattle.core_phase.specs.declared.lane.Lane.{Lane};
ghost use Rattle.sound_hosts.specs.Counting.{IsCounted};
ghost use Rattle.sound_hosts.specs.Hosts.{CoreHost};
ghost use Rattle.sound_hosts.specs.Sound.{IsHostSound};
ghost use Rattle.sound_phases.specs.Phased.{apps_in, after_phase};

use core_phase::deeds_leave_the_column;

/// A host is sound still after a phase of its lanes, in which each of its applications has its lane, in their order:
/// with what [`play_phase`] asks of the lanes and says of the phase.
///
/// [`play_phase`]: core_phase::play_phase
pub fn phases_keep_it()
    ensures { (h : CoreHost) (vs ws : List Lane) (w : View) → IsHostSound h → apps_in vs ≡ h.apps → All MayPlay vs
        → IsPhase vs ws h.slow.pass.view w → IsHostSound (after_phase vs ws w h) }
{
    deeds_leave_the_column();
}

/// The slow path counts its host's flows still after a phase, in which none is opened.
pub fn phases_keep_the_count()
    ensures { (h : CoreHost) (vs ws : List Lane) (w : View) → IsCounted h → IsPhase vs ws h.slow.pass.view w
        → IsCounted (after_phase vs ws w h) }
{}
