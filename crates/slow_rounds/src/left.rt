//! What the lanes of a phase left.
ghost use Rattle.std.specs.Prelude.{◌≡◌, ◌+◌, ◌<◌, ◌≤◌, ℕ, List, true, length};
ghost use Rattle.tas_model.specs.declared.entry.FlowId.{FlowId};
ghost use Rattle.host_rounds.specs.Scripts.{Scripts};
ghost use Rattle.core_rounds.specs.CoreTicks.{rest_phase};
ghost use Rattle.slow_handshake.specs.Numbers.{FirstNumbers};
ghost use Rattle.core_worker.specs.Workers as cores;
ghost use Rattle.core_phase.specs.declared.lane.Lane.{Lane};
ghost use Rattle.slow_worker.specs.Turns.{IsTurn};
ghost use Rattle.slow_worker.specs.Workers.{Worker};
ghost use Rattle.host_books.specs.Words.{joined};
ghost use Rattle.sound_hosts.specs.Hosts.{CoreHost, host_of};
ghost use Rattle.sound_hosts.specs.Sound.{IsHostSound};
ghost use Rattle.sound_turns.specs.Serving.{with_opened};
ghost use Rattle.phase_orders.specs.Collecting.{log_of, all_broken, all_passed, collected};
ghost use Rattle.phase_orders.specs.CoreTurns.{lines_of};
ghost use Rattle.slow_rounds.specs.Collecting.{AreCollected};
ghost use Rattle.sound_hosts.specs.Counting.{IsCounted};
ghost use Rattle.slow_rounds.specs.Rests.{starts_by};

/// Where the slow path of a sound host collected what the lanes of a phase left, and then made a later turn alone, the
/// host is what a run makes of it where all that they left comes to it: the frames whose packets break a rule of
/// reading, the exceptions of all cores, and what they deferred. It is so with what [`SlowWorker::collect`] and
/// [`SlowWorker::turn`] say, where the cores' lines are those of the first ([`left_frames_are_collected`]).
///
/// [`SlowWorker::collect`]: slow_worker::SlowWorker::collect
/// [`SlowWorker::turn`]: slow_worker::SlowWorker::turn
/// [`left_frames_are_collected`]: phase_orders::left_frames_are_collected
pub fn left_frames_are_rest_phases<S, A>()
    ensures { (scripts : Scripts S A) (h : CoreHost) (tick : ℕ) (before after : List Lane) (u w : Worker)
        (ns : FirstNumbers) (c : cores.Common) → scripts.starts ≡ starts_by ns → IsHostSound h → IsCounted h
        → AreCollected after h.slow u
        → joined log_of after ≡ lines_of h.slow.check_sums tick (all_broken h.slow.check_sums before)
        → length h.books + length (all_passed after) < 4294967295 → IsTurn true ns c tick u w
        → (ids : List FlowId) × (length ids ≤ length (all_passed after))
        × IsHostSound (with_opened ids w h) × IsCounted (with_opened ids w h)
        × (host_of (with_opened ids w h)
        ≡ rest_phase scripts tick (host_of h) (collected h.slow.check_sums before after)) }
{}
