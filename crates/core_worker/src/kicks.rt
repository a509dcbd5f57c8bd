//! Kicks: flows that have something to send, to be looked at by their cores.
ghost use Rattle.std.specs.Prelude.{◌≡◌, ◌<◌, ◌++◌, ◌∷◌, [], length, OnOk, IfNone, IfSome};
ghost use Rattle.app_reaper.specs.OneCall.{history};
ghost use Rattle.core_worker.specs.Kicks.{kick_of, one_kick, kick_note};

use crate::sending::may_send;
use context_queue::Note;
use flow_state::FlowRecord;
use std::alloc::{AllocError, Global};
use std::collections::VecDeque;
use std::marker::Model;
use tas_model::{FlowId, FourTuple};

/// The kind of a note that wants a flow to be looked at.
pub(crate) const KICK: u8 = 4;

/// A flow that has something to send, with the four-tuple by which its core is known.
#[derive(Clone, Copy, PartialEq, Eq, Debug, Drop)]
pub struct Kick {
    pub flow: FlowId,
    pub tuple: FourTuple,
}

impl Kick {
    /// The kick of a flow, where a segment of it may go.
    pub fn of(flow: &FlowRecord) -> Option<Kick>
        ensures { result ≡ kick_of flow.now.id (history flow.now) }
    {
        if !may_send(flow) {
            return None;
        }
        Some(Kick {
            flow: flow.id(),
            tuple: flow.tuple(),
        })
    }

    /// The note that wants the flow to be looked at.
    pub fn note(&self) -> Note
        ensures { result ≡ kick_note self.now }
    {
        Note {
            kind: KICK,
            slot: self.flow.slot,
            generation: self.flow.generation,
        }
    }
}

/// Kicks that weren't posted yet, the first first.
#[derive(Drop)]
pub struct KickList {
    kicks: VecDeque<Kick>,
}

impl Model for KickList {
    ghost use Rattle.std.specs.Prelude.{◌-◌};
    ghost use Rattle.std.specs.VecDeque.{deque_len, deque_capacity};
    ghost use Rattle.app_reaper.specs.Lists.{Roomy};
    ghost use Rattle.core_worker.specs.declared.kicks.Kick.{Kick};

    ghost Value = { Roomy Kick };

    ghost view = { λ l. record { list = l.kicks.items; spare = deque_capacity l.kicks - deque_len l.kicks } };
}

impl KickList {
    /// No kick. It takes no memory.
    pub fn new(alloc: Global) -> KickList
        ensures { result.list ≡ [] }
    {
        KickList {
            kicks: VecDeque::new(alloc),
        }
    }

    /// How many kicks there are.
    pub fn len(&self) -> usize
        ensures { result ≡ length self.now.list }
    {
        self.kicks.len()
    }

    /// Makes room for one kick more. The error is want of memory.
    pub fn reserve(&mut self) -> Result<(), AllocError>
        ensures room { OnOk result (0 < self.new.spare) }
        ensures list { self.new.list ≡ self.old.list }
    {
        self.kicks.reserve(1)
    }

    /// Appends a kick.
    pub fn put(&mut self, kick: Kick)
        requires room { 0 < self.old.spare }
        ensures list { self.new.list ≡ self.old.list ++ kick ∷ [] }
    {
        self.kicks.push_back_reserved(kick);
    }

    /// Appends the kick of a flow, where there is one.
    pub fn put_some(&mut self, kick: Option<Kick>)
        requires room { 0 < self.old.spare }
        ensures list { self.new.list ≡ self.old.list ++ one_kick kick }
    {
        if let Some(kick) = kick {
            self.put(kick);
        }
    }

    /// Takes the first kick out. There is then room for one more.
    pub fn take_first(&mut self) -> Option<Kick>
        ensures none { IfNone result ((self.old.list ≡ []) × (self.new.list ≡ [])) }
        ensures first { IfSome result (λ k. self.old.list ≡ k ∷ self.new.list) }
        ensures room { IfSome result (λ _. 0 < self.new.spare) }
    {
        self.kicks.pop_front()
    }
}
