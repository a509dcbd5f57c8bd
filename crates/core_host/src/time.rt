//! The first step of a tick: time passes.
ghost use Rattle.std.specs.Prelude.{◌≡◌, ◌<◌, IfSome, OnOk};
ghost use Rattle.slow_worker.specs.Clocks.{HasRisen, last_tick};
ghost use Rattle.slow_worker.specs.Kicking.{CanKick};
ghost use Rattle.slow_worker.specs.Turns.{IsTurn, has_passed as is_passed};
ghost use Rattle.slow_worker.specs.Workers.{HasSenders, IsSound, sight_of};
ghost use Rattle.core_host.specs.Books.{kept_by};
ghost use Rattle.core_host.specs.Sound.{IsStaffSound};
ghost use Rattle.core_host.specs.Steps.{IsTimePassed};

use crate::books::Books;
use crate::host::CoreHost;
use core_worker::Shared;
use slow_worker::SlowWorker;
use std::alloc::AllocError;
use std::sync::Wait;
use tas_num::Seq;

impl CoreHost {
    /// The slow path gives closed flows up, and lets time pass for all others: its first turn of the tick. The error is
    /// want of memory.
    pub fn pass_time<R: Wait>(&mut self, rt: &R, tick: u32) -> Result<(), AllocError>
        requires sound { IsStaffSound self.old }
        requires risen { IfSome (last_tick self.old.host.slow.time) (λ last. last < tick) }
        ensures { OnOk result (IsTimePassed tick self.old self.new) }
    {
        turn_first(rt, &*self.shared, &mut self.slow, &mut self.books, tick)
    }
}

/// The slow path's first turn of a tick, after which the books agree with its pins. The error is want of memory.
fn turn_first<R: Wait>(
    rt: &R,
    shared: &Shared,
    slow: &mut SlowWorker,
    books: &mut Books,
    tick: u32,
) -> Result<(), AllocError>
    requires sound { IsSound shared.now.table (sight_of slow.old) }
    requires risen { HasRisen tick slow.old.time }
    requires senders { HasSenders shared.now slow.old }
    requires kickers { CanKick shared.now slow.old.kickers }
    ensures sound { IsSound shared.now.table (sight_of slow.new) }
    ensures senders { HasSenders shared.now slow.new }
    ensures kickers { CanKick shared.now slow.new.kickers }
    ensures turned { OnOk result (IsTurn (is_passed tick slow.old) (λ tuple n. record { 0 = 0 }) shared.now tick
        slow.old slow.new) }
    ensures kept { OnOk result (books.new ≡ kept_by slow.new.pins books.old) }
{
    slow.turn(rt, shared, &Seq(0), tick)?;
    books.keep(&slow.pins);
    Ok(())
}
