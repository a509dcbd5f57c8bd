//! Turns of the slow path's worker.
ghost use Rattle.std.specs.Prelude.{◌≡◌, ℕ, ◌+◌, ◌<◌, ◌≤◌, List, length, true, false};
ghost use Rattle.tas_model.specs.declared.entry.FlowId.{FlowId};
ghost use Rattle.core_worker.specs.Workers as cores;
ghost use Rattle.slow_handshake.specs.Numbers.{FirstNumbers};
ghost use Rattle.slow_worker.specs.Queues.{IsCollected};
ghost use Rattle.slow_worker.specs.Turns.{IsTurn};
ghost use Rattle.slow_worker.specs.Workers.{Worker, IsSound, sight_of, waiting};
ghost use Rattle.host_books.specs.Books.{Book};
ghost use Rattle.sound_hosts.specs.Hosts.{CoreHost};
ghost use Rattle.sound_hosts.specs.Moving.{with_slow};
ghost use Rattle.sound_hosts.specs.Sound.{IsHostSound};
ghost use Rattle.sound_turns.specs.Passing.{AreSwept, with_books};
ghost use Rattle.sound_turns.specs.Serving.{without_frames, with_opened};

/// A host is sound still after the first turn of a tick of its slow path's worker, made alone: with what
/// [`SlowWorker::turn`] says of such a turn. Of its books each is as it was, or its flow was found closed and was
/// swept.
///
/// [`SlowWorker::turn`]: slow_worker::SlowWorker::turn
pub fn first_turns_keep_it()
    ensures { (h : CoreHost) (ns : FirstNumbers) (c : cores.Common) (tick : ℕ) (w : Worker) → IsHostSound h
        → IsTurn false ns c tick h.slow w → IsSound h.table (sight_of w)
        → (books : List Book) × AreSwept h.books books × IsHostSound (with_books books w h) }
{}

/// But for the frames that wait, a host is sound still where its slow path collected what a core passed on: with what
/// [`SlowWorker::collect`] says of that. A sound host is sound without the frames that wait, of which it has none.
///
/// [`SlowWorker::collect`]: slow_worker::SlowWorker::collect
pub fn collected_frames_keep_it()
    ensures first { (h : CoreHost) → IsHostSound h → IsHostSound (without_frames h) }
    ensures next { (h : CoreHost) (a b : cores.Worker) (w : Worker) → IsCollected a b h.slow w
        → IsHostSound (without_frames h) → IsHostSound (without_frames (with_slow w h)) }
{}

/// A host that is sound but for the frames that wait is sound after a later turn, made alone, in which these were
/// served: with what [`SlowWorker::turn`] says of such a turn. The flows that SYNs opened stand behind its books, where
/// those that were opened before and the frames that wait are together fewer than 4,294,967,295.
///
/// [`SlowWorker::turn`]: slow_worker::SlowWorker::turn
pub fn later_turns_keep_it()
    ensures { (h : CoreHost) (ns : FirstNumbers) (c : cores.Common) (tick : ℕ) (w : Worker)
        → IsHostSound (without_frames h) → length h.books + length (waiting h.slow) < 4294967295
        → IsTurn true ns c tick h.slow w
        → (ids : List FlowId) × (length ids ≤ length (waiting h.slow)) × IsHostSound (with_opened ids w h) }
{}
