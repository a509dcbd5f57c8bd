// Kicks are posted to the queues of their cores.
ghost use Rattle.std.specs.Prelude.{◌≡◌, ◌<◌, ◌++◌, ◌∷◌, [], length, OnOk, OnErr};
ghost use Rattle.slow_worker.specs.Kicking.{CanKick, IsKicked};
ghost use Rattle.slow_worker.specs.Turns.{AreKicksPosted, IsFirstKicked};

use crate::worker::SlowWorker;
use context_queue::{Full, SenderPass};
use core_worker::{Kick, Shared};
use std::alloc::{AllocError, Global};
use std::marker::Model;
use std::sync::Wait;
use steering::{SteerPass, group};

/// How kicks go to cores: the pass to the steering that tells a flow's core, and a sender of each core's queue.
#[derive(Drop)]
pub(crate) struct Kickers {
    steer: SteerPass,
    senders: Vec<SenderPass>,
}

impl Model for Kickers {
    ghost use Rattle.slow_worker.specs.Kicking.{Kicking};

    ghost Value = { Kicking };

    ghost view = { λ k. record { steer = k.steer; senders = k.senders.items } };
}

impl Kickers {
    /// No sender yet. It takes no memory.
    pub(crate) fn new(alloc: Global, steer: SteerPass) -> Kickers
        ensures { result ≡ record { steer = steer; senders = [] } }
    {
        Kickers {
            steer,
            senders: Vec::new(alloc),
        }
    }

    /// Adds the sender of the next core's queue. The error is want of memory, and then it is gone.
    pub(crate) fn add(&mut self, sender: SenderPass) -> Result<(), AllocError>
        ensures ok { OnOk result (self.new ≡ record self.old { senders = self.old.senders ++ sender ∷ [] }) }
        ensures err { OnErr result (self.new ≡ self.old) }
    {
        self.senders.push(sender)?;
        Ok(())
    }

    /// Posts a kick to the queue of the flow's core. `Full` comes where that queue was full.
    fn kick<R: Wait>(&mut self, rt: &R, shared: &Shared, kick: Kick) -> Result<(), Full>
        requires can { CanKick shared.now self.old }
        ensures can { CanKick shared.now self.new }
        ensures posted { OnOk result (IsKicked shared.now kick self.old self.new []) }
        ensures kept { OnErr result (IsKicked shared.now kick self.old self.new (kick ∷ [])) }
    {
        let core = shared
            .steering
            .core_of(rt, &mut self.steer, group(&kick.tuple));
        let queue = shared.kicks(core);
        queue.post(rt, &mut self.senders[core as usize], kick.note())
    }
}

impl SlowWorker {
    /// Posts each kick to the queue of its core. Those that a queue was full for are kept, in their order.
    pub(crate) fn post_kicks<R: Wait>(&mut self, rt: &R, shared: &Shared)
        requires can { CanKick shared.now self.old.kickers }
        ensures can { CanKick shared.now self.new.kickers }
        ensures posted { AreKicksPosted shared.now self.old self.new }
    {
        for _ in 0..self.kicks.len() {
            self.post_first(rt, shared);
        }
    }

    /// Posts the first kick, or puts it behind all others.
    fn post_first<R: Wait>(&mut self, rt: &R, shared: &Shared)
        requires can { CanKick shared.now self.old.kickers }
        requires some { 0 < length self.old.kicks }
        ensures can { CanKick shared.now self.new.kickers }
        ensures posted { IsFirstKicked shared.now self.old self.new }
    {
        let Some(kick) = self.kicks.take_first() else {
            unreachable!()
        };
        match self.kickers.kick(rt, shared, kick) {
            Ok(()) => {}
            Err(_) => self.kicks.put(kick),
        }
    }
}
