//! Passes, as contracts see them: the table, and the view.
ghost use Rattle.std.specs.Prelude.{◌≡◌, ℕ, ◌<◌, Option, [], IfSome, position};
ghost use Rattle.flow_lock.specs.Passes.{Seen, Carries, IsOne, IsSlow};
ghost use Rattle.flow_lock.specs.Answers.{is_free, next_in, is_open_in};
ghost use Rattle.tas_model.specs.declared.entry.FlowId.{FlowId};

use crate::view::{Mark, View};
use crate::word::Word;
use atomic_table::Seat;
use std::marker::Model;
use tas_model::FlowId;

/// One caller's way to the table.
#[derive(Drop)]
pub struct Pass<R> {
    pub(crate) seat: Seat<Option<R>, View>,
}

impl<R> Model for Pass<R> {
    ghost Value = { Seen };

    ghost view = { λ p. record { table = p.seat.table_id; view = p.seat.me.0 } };

    ghost invariant = { λ p. Carries p.seat.me × (p.seat.me.0.out ≡ []) × (0 < p.seat.me.0.parts) × IsOne p.seat.me.0 };
}

/// The slow path's pass, with what it remembers of each slot.
#[derive(Drop)]
pub struct SlowPass<R> {
    pub(crate) pass: Pass<R>,
    pub(crate) marks: Vec<Mark>,
    /// How many passes were split off and not joined.
    pub(crate) passes: u32,
    /// How many flows were opened.
    pub(crate) opened: u32,
}

impl<R> Model for SlowPass<R> {
    ghost Value = { Seen };

    ghost view = { λ p. p.pass };

    ghost invariant = { λ p. IsSlow p.pass p.marks.items p.passes p.opened };
}

impl<R> SlowPass<R> {
    /// The id that the next `open_flow` gives: the lowest slot that no flow has, with its generation one more.
    /// `None` exactly where every slot has a flow.
    pub fn next_flow(&self) -> Option<FlowId>
        ensures next { result ≡ next_in self.now.view.marks }
        ensures slot { IfSome result (λ id. id.slot < self.now.table.slots) }
    {
        let slot = first_free(&self.marks)?;
        Some(FlowId {
            slot: slot as u32,
            generation: self.marks[slot].generation.saturating_add(1),
        })
    }

    /// How many flows were opened. After 4,294,967,295 no more can be, as each opening of a slot has a generation of
    /// its own.
    pub fn opened(&self) -> u32
        ensures { result ≡ self.now.view.opened }
    {
        self.opened
    }

    /// Whether this pass opened the flow and hasn't freed it.
    pub fn is_open(&self, id: FlowId) -> bool
        requires { id.slot < self.now.table.slots }
        ensures { result ≡ is_open_in self.now.view.marks id }
    {
        let mark = &self.marks[id.slot as usize];
        mark.live && mark.generation == id.generation
    }
}

/// The lowest slot that has no flow.
pub(crate) fn first_free(marks: &[Mark]) -> Option<usize>
    ensures { result ≡ position is_free marks.now }
{
    marks.iter().position(|mark| !mark.live)
}

/// A claim on a flow: its slot isn't freed as long as the pin isn't given up. It is seen as the flow's id.
#[derive(Drop)]
pub struct Pin {
    pub(crate) flow: FlowId,
}

impl Model for Pin {
    ghost Value = { FlowId };

    ghost view = { λ p. p.flow };
}

impl Pin {
    /// The flow that is pinned.
    pub fn id(&self) -> FlowId
        ensures { result ≡ self.now }
    {
        self.flow
    }
}

/// Why a flow wasn't pinned.
#[derive(Drop, Debug)]
pub enum PinRefused {
    /// The word that was found: it isn't live, is doomed or has another generation.
    Stale(Word),
    /// The word that was seen, and the different one that the exchange found.
    Moved(Word, Word),
}

/// Every slot has a flow.
#[derive(Clone, Copy, PartialEq, Eq, Debug)]
pub struct Full;

/// A flow that isn't freed, since it has so many pins, which isn't 1.
#[derive(Clone, Copy, PartialEq, Eq, Debug)]
pub struct Pinned(pub u16);
