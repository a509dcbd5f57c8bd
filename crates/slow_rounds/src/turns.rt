//! Turns of the slow path's worker, in the words of a run.
ghost use Rattle.std.specs.Prelude.{◌≡◌, ◌+◌, ◌<◌, ◌≤◌, ℕ, Bool, List, false, true, length};
ghost use Rattle.tas_model.specs.declared.entry.FlowId.{FlowId};
ghost use Rattle.host_rounds.specs.Scripts.{Scripts};
ghost use Rattle.host_rounds.specs.SerialOrder.{slow_phase};
ghost use Rattle.core_rounds.specs.CoreTicks.{rest_phase};
ghost use Rattle.slow_handshake.specs.Numbers.{FirstNumbers};
ghost use Rattle.core_worker.specs.Workers as cores;
ghost use Rattle.core_worker.specs.declared.frames.Frame.{Frame};
ghost use Rattle.slow_worker.specs.Clocks.{served_in};
ghost use Rattle.slow_worker.specs.Queues.{IsCollected};
ghost use Rattle.slow_worker.specs.Turns.{IsTurn};
ghost use Rattle.slow_worker.specs.Workers.{Worker, IsSound, sight_of, waiting};
ghost use Rattle.host_books.specs.Books.{Book};
ghost use Rattle.sound_hosts.specs.Hosts.{CoreHost, host_of};
ghost use Rattle.sound_hosts.specs.Moving.{with_slow};
ghost use Rattle.sound_hosts.specs.Sound.{IsHostSound};
ghost use Rattle.sound_turns.specs.Passing.{AreSwept, with_books};
ghost use Rattle.sound_turns.specs.Serving.{without_frames, with_opened};
ghost use Rattle.phase_orders.specs.CoreTurns.{arrivals_of, broken_in, lines_of};
ghost use Rattle.sound_hosts.specs.Counting.{IsCounted};
ghost use Rattle.slow_rounds.specs.Rests.{starts_by, rest_of};

/// What the first turn of a tick of the slow path's worker, made alone, makes of a sound host is the slow path's phase
/// of that tick in a run: closed flows are given up, and time passes for the others. It is so with what
/// [`SlowWorker::turn`] says of such a turn, where no flow has had its time in this tick before.
///
/// [`SlowWorker::turn`]: slow_worker::SlowWorker::turn
pub fn first_turns_are_slow_phases()
    ensures { (h : CoreHost) (ns : FirstNumbers) (c : cores.Common) (tick : ℕ) (w : Worker) → IsHostSound h
        → served_in tick h.slow.time ≡ 0 → IsTurn false ns c tick h.slow w → IsSound h.table (sight_of w)
        → (books : List Book) × AreSwept h.books books × IsHostSound (with_books books w h)
        × (IsCounted h → IsCounted (with_books books w h))
        × (host_of (with_books books w h) ≡ slow_phase tick (host_of h)) }
{}

/// What a later turn, made alone, makes of a host is what a run makes of it where the frames that waited come to it, in
/// the order in which they were served: a flow's frames enter its record, a SYN for a listener opens a flow, and all
/// others are lines of the log. It is so with what [`SlowWorker::turn`] says of such a turn, for a host that is sound
/// but for these frames, whose flows the slow path counts, and of which fewer than 4,294,967,295 were opened before and
/// frames wait. The first numbers are those of the worker's source. The flows that SYNs opened stand behind its books.
///
/// [`SlowWorker::turn`]: slow_worker::SlowWorker::turn
pub fn later_turns_are_rest_phases<S, A>()
    ensures { (scripts : Scripts S A) (h : CoreHost) (ns : FirstNumbers) (c : cores.Common) (tick : ℕ) (w : Worker)
        → scripts.starts ≡ starts_by ns → IsHostSound (without_frames h) → IsCounted h
        → length h.books + length (waiting h.slow) < 4294967295 → IsTurn true ns c tick h.slow w
        → (ids : List FlowId) × (length ids ≤ length (waiting h.slow))
        × IsHostSound (with_opened ids w h) × IsCounted (with_opened ids w h)
        × (host_of (with_opened ids w h) ≡ rest_phase scripts tick (host_of h) (rest_of h.slow)) }
{}

/// Where the slow path collected what a core passed on, the lines that it found there are what a run makes of the
/// core's frames whose packets break a rule of reading: with what [`SlowWorker::collect`] says of that, of a core whose
/// lines are those of these frames.
///
/// [`SlowWorker::collect`]: slow_worker::SlowWorker::collect
pub fn collected_lines_are_refusals<S, A>()
    ensures { (scripts : Scripts S A) (h : CoreHost) (tick : ℕ) (check : Bool) (frames : List Frame)
        (a b : cores.Worker) (w : Worker) → IsCollected a b h.slow w
        → a.log ≡ lines_of check tick (broken_in check frames)
        → host_of (with_slow w h) ≡ rest_phase scripts tick (host_of h) (arrivals_of check (broken_in check frames)) }
{}
