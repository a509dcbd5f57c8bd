// A turn of the worker.
ghost use Rattle.std.specs.Prelude.{◌≡◌, Some, OnOk, OnErr};
ghost use Rattle.slow_worker.specs.Workers.{sight_of, IsSound, HasSenders};
ghost use Rattle.slow_worker.specs.Clocks.{HasRisen, last_tick};
ghost use Rattle.slow_worker.specs.Kicking.{CanKick};
ghost use Rattle.slow_worker.specs.Turns.{IsTimePassed, IsTimeStopped, has_passed as is_passed, IsWork};
ghost use Rattle.slow_worker.specs.Turns.{IsWorkStopped, IsTurn, IsTurnStopped};

use crate::clock::Clock;
use crate::worker::SlowWorker;
use core_worker::Shared;
use flow_clock::tick_all;
use slow_handshake::NumberSource;
use std::alloc::AllocError;
use std::sync::Wait;

impl SlowWorker {
    /// The first turn of a tick: closed flows are given up, and time passes for all others. Every later turn of that
    /// tick handles the frames that wait; but where the first one failed before time had passed for all flows, the next
    /// one goes on with those for which it hasn't, so that none has two Ticks. Ticks rise. Then each kick that was
    /// kept, and each flow that the turn's ticks, entries and openings left with something to send, is posted to the
    /// queue of its core, or kept where that is full. The error is want of memory, or all of 4,294,967,295 numbers for
    /// openings were given; what was done stands.
    pub fn turn<R: Wait, N: NumberSource>(
        &mut self,
        rt: &R,
        shared: &Shared,
        numbers: &N,
        tick: u32,
    ) -> Result<(), AllocError>
        requires sound { IsSound shared.now.table (sight_of self.old) }
        requires risen { HasRisen tick self.old.time }
        requires senders { HasSenders shared.now self.old }
        requires kickers { CanKick shared.now self.old.kickers }
        ensures sound { IsSound shared.now.table (sight_of self.new) }
        ensures senders { HasSenders shared.now self.new }
        ensures kickers { CanKick shared.now self.new.kickers }
        ensures time { last_tick self.new.time ≡ Some tick }
        ensures turned { OnOk result (IsTurn (is_passed tick self.old) (N.number numbers.now) shared.now tick self.old
            self.new) }
        ensures stopped { OnErr result (IsTurnStopped (is_passed tick self.old) (N.number numbers.now) shared.now
            tick self.old self.new) }
    {
        let done = self.work(rt, shared, numbers, tick);
        self.post_kicks(rt, shared);
        done
    }

    /// What the turn is for.
    fn work<R: Wait, N: NumberSource>(
        &mut self,
        rt: &R,
        shared: &Shared,
        numbers: &N,
        tick: u32,
    ) -> Result<(), AllocError>
        requires sound { IsSound shared.now.table (sight_of self.old) }
        requires senders { HasSenders shared.now self.old }
        ensures sound { IsSound shared.now.table (sight_of self.new) }
        ensures senders { HasSenders shared.now self.new }
        ensures kickers { self.new.kickers ≡ self.old.kickers }
        ensures time { last_tick self.new.time ≡ Some tick }
        ensures done { OnOk result (IsWork (is_passed tick self.old) (N.number numbers.now) shared.now tick self.old
            self.new) }
        ensures stopped { OnErr result (IsWorkStopped (is_passed tick self.old) (N.number numbers.now) shared.now
            tick self.old self.new) }
    {
        if self.time.has_passed(tick) {
            self.serve(rt, shared, numbers, tick)
        } else {
            self.pass_time(rt, shared, tick)
        }
    }

    /// Gives closed flows up, and lets time pass for all others that haven't had it in this tick, of which each that
    /// then has something to send is to be kicked.
    fn pass_time<R: Wait>(&mut self, rt: &R, shared: &Shared, tick: u32) -> Result<(), AllocError>
        requires sound { IsSound shared.now.table (sight_of self.old) }
        ensures sound { IsSound shared.now.table (sight_of self.new) }
        ensures senders { self.new.senders ≡ self.old.senders }
        ensures kickers { self.new.kickers ≡ self.old.kickers }
        ensures time { last_tick self.new.time ≡ Some tick }
        ensures passed { OnOk result (IsTimePassed tick self.old self.new) }
        ensures stopped { OnErr result (IsTimeStopped tick self.old self.new) }
    {
        let mut timed = self.time.served(tick);
        let done = tick_all(
            &shared.table,
            &mut self.pass,
            &mut self.path,
            &mut self.pins,
            &mut self.doomed,
            &mut self.filed,
            &mut self.index,
            &mut self.kicks,
            &mut timed,
            tick,
        );
        self.pins.index();
        self.flows.keep(&self.pins);
        self.time = Clock::Passing {
            tick,
            served: timed,
        };
        done?;
        self.time = Clock::Passed { tick };
        self.index.publish(rt)
    }
}
