//! The time of a tick.
ghost use Rattle.std.specs.Prelude.{◌≡◌, ℕ, List};
ghost use Rattle.slow_worker.specs.Turns.{IsTimePassed};
ghost use Rattle.slow_worker.specs.Workers.{Worker, IsSound, sight_of};
ghost use Rattle.host_books.specs.Books.{Book};
ghost use Rattle.sound_hosts.specs.Hosts.{CoreHost};
ghost use Rattle.sound_hosts.specs.Sound.{IsHostSound};
ghost use Rattle.sound_turns.specs.Passing.{AreSwept, with_books};

/// A host is sound still after its slow path let the time of a tick pass alone, in its first turn of the tick: with
/// what
/// [`SlowWorker::turn`] says of that time, and keeps of its worker. Of its books each is as it was, or its flow was
/// found closed and was swept.
///
/// [`SlowWorker::turn`]: slow_worker::SlowWorker::turn
pub fn time_keeps_it()
    ensures { (h : CoreHost) (tick : ℕ) (w : Worker) → IsHostSound h → IsTimePassed tick h.slow w
        → IsSound h.table (sight_of w)
        → (books : List Book) × AreSwept h.books books × IsHostSound (with_books books w h) }
{}
