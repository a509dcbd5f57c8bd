// The frames that wait are handled, one after the other.
ghost use Rattle.std.specs.Prelude.{◌≡◌, ◌<◌, ◌++◌, length, OnOk, OnErr};
ghost use Rattle.slow_worker.specs.Workers.{sight_of, waiting, IsSound, HasSenders};
ghost use Rattle.slow_worker.specs.Queues.{IsAllServed, IsPartServed, IsFirstServed, IsFirstLeft, kept_of};

use crate::served::Served;
use crate::worker::SlowWorker;
use core_worker::{Passed, PassedFrame, Shared};
use slow_handshake::NumberSource;
use std::alloc::AllocError;
use std::sync::Wait;

impl SlowWorker {
    /// Handles all exceptions in their order, and then all deferred frames in theirs, each by `frame`. One whose
    /// flow's record another pass held is deferred. The error is want of memory; what was done stands, and each frame
    /// that wasn't handled still waits.
    pub fn serve<R: Wait, N: NumberSource>(
        &mut self,
        rt: &R,
        shared: &Shared,
        numbers: &N,
        tick: u32,
    ) -> Result<(), AllocError>
        requires kept { IsSound shared.now.table (sight_of self.old) }
        requires senders { HasSenders shared.now self.old }
        ensures kept { IsSound shared.now.table (sight_of self.new) }
        ensures senders { HasSenders shared.now self.new }
        ensures time { self.new.time ≡ self.old.time }
        ensures served { OnOk result (IsAllServed (N.number numbers.now) shared.now tick self.old self.new) }
        ensures part { OnErr result (IsPartServed (N.number numbers.now) shared.now tick self.old self.new) }
    {
        for _ in 0..self.waiting() {
            self.serve_first(rt, shared, numbers, tick)?;
        }
        Ok(())
    }

    /// How many frames wait.
    fn waiting(&self) -> u128
        ensures { result ≡ length (waiting self.now) }
    {
        self.exceptions.len() as u128 + self.deferred.len() as u128
    }

    /// Handles the first frame that waits.
    fn serve_first<R: Wait, N: NumberSource>(
        &mut self,
        rt: &R,
        shared: &Shared,
        numbers: &N,
        tick: u32,
    ) -> Result<(), AllocError>
        requires kept { IsSound shared.now.table (sight_of self.old) }
        requires senders { HasSenders shared.now self.old }
        requires some { 0 < length (waiting self.old) }
        ensures kept { IsSound shared.now.table (sight_of self.new) }
        ensures senders { HasSenders shared.now self.new }
        ensures served { OnOk result (IsFirstServed (N.number numbers.now) shared.now tick self.old self.new) }
        ensures left { OnErr result (IsFirstLeft (N.number numbers.now) shared.now tick self.old self.new) }
    {
        if self.exceptions.len() > 0 {
            self.serve_exception(rt, shared, numbers, tick)
        } else {
            self.serve_deferred(rt, shared, numbers, tick)
        }
    }

    /// Handles the first exception.
    fn serve_exception<R: Wait, N: NumberSource>(
        &mut self,
        rt: &R,
        shared: &Shared,
        numbers: &N,
        tick: u32,
    ) -> Result<(), AllocError>
        requires kept { IsSound shared.now.table (sight_of self.old) }
        requires senders { HasSenders shared.now self.old }
        requires some { 0 < length self.old.exceptions.list }
        ensures kept { IsSound shared.now.table (sight_of self.new) }
        ensures senders { HasSenders shared.now self.new }
        ensures served { OnOk result (IsFirstServed (N.number numbers.now) shared.now tick self.old self.new) }
        ensures left { OnErr result (IsFirstLeft (N.number numbers.now) shared.now tick self.old self.new) }
    {
        self.deferred.reserve(1)?;
        let Some(first) = self.exceptions.take_first() else {
            unreachable!()
        };
        let served = self.frame(
            rt,
            shared,
            numbers,
            tick,
            first.frame.id,
            &first.frame.packet,
        );
        match served {
            Err(e) => {
                self.exceptions.put_back(first);
                Err(e)
            }
            Ok(served) => {
                self.keep(first, served);
                Ok(())
            }
        }
    }

    /// Handles the first deferred frame.
    fn serve_deferred<R: Wait, N: NumberSource>(
        &mut self,
        rt: &R,
        shared: &Shared,
        numbers: &N,
        tick: u32,
    ) -> Result<(), AllocError>
        requires kept { IsSound shared.now.table (sight_of self.old) }
        requires senders { HasSenders shared.now self.old }
        requires none { length self.old.exceptions.list ≡ 0 }
        requires some { 0 < length self.old.deferred.list }
        ensures kept { IsSound shared.now.table (sight_of self.new) }
        ensures senders { HasSenders shared.now self.new }
        ensures served { OnOk result (IsFirstServed (N.number numbers.now) shared.now tick self.old self.new) }
        ensures left { OnErr result (IsFirstLeft (N.number numbers.now) shared.now tick self.old self.new) }
    {
        let Some(first) = self.deferred.take_first() else {
            unreachable!()
        };
        let served = self.frame(
            rt,
            shared,
            numbers,
            tick,
            first.frame.id,
            &first.frame.packet,
        );
        match served {
            Err(e) => {
                self.deferred.put_back(first);
                Err(e)
            }
            Ok(served) => {
                self.keep(first, served);
                Ok(())
            }
        }
    }

    /// A frame that found the record busy is deferred.
    fn keep(&mut self, first: PassedFrame, served: Served)
        requires room { 0 < self.old.deferred.spare }
        ensures deferred { self.new.deferred.list ≡ self.old.deferred.list ++ kept_of first served }
        ensures rest { self.new ≡ record self.old { deferred = self.new.deferred } }
    {
        if let Served::Busy(word) = served {
            self.deferred.put(PassedFrame {
                frame: first.frame,
                passed: Passed::Busy(word),
            });
        }
    }
}
