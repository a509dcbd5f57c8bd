//! A history as the stretches that it is kept in.

ghost use Rattle.std.specs.Prelude.{◌≡◌, ℕ, ◌+◌, ◌<◌, ◌≤◌, List, length, slice_get, Some, flat_map, IfOk, IfErr};
ghost use Rattle.flow_state.specs.Arena.{memory_of};
ghost use Rattle.flow_state.specs.Slots.{IsWithin};
ghost use Rattle.flow_state.specs.Stretches.{AllWithin, StretchWithin, entries_of, entries_in, run_entries, IsRun};
ghost use Rattle.flow_state.specs.Views.{seen_entry, seen_stretch, IsFit};

use crate::paced::PacedRun;
use crate::slot::CameSlot;
use crate::stretch::{QuietRun, Stretch};
use crate::view::{CallView, EntryAt, EntryView, ReplyView};
use std::marker::Model;

/// Entries that follow on each other in a history.
#[derive(Drop)]
pub enum StretchView<'a> {
    /// One entry.
    One(EntryAt<'a>),
    /// Quiet ticks.
    Quiet(QuietRun),
    /// Quiet ticks with Controls between them.
    Paced(PacedRun),
}

/// A history in stretches, seen as the list of their entries. Whoever looks at all of it goes from stretch to stretch.
#[derive(Drop)]
pub struct Stretches<'a> {
    arena: &'a [u8],
    came: &'a [CameSlot],
    items: &'a [Stretch],
}

impl<'a> Model for Stretches<'a> {
    ghost use Rattle.std.specs.Prelude.{List, length, map};
    ghost use Rattle.tas_model.specs.declared.entry.Entry.{Entry};
    ghost use Rattle.flow_state.specs.Arena.{memory_of};
    ghost use Rattle.flow_state.specs.Stretches.{AllWithin, entries_in};

    ghost Value = { List (List Entry) };

    ghost view = { λ s. map (entries_in (memory_of s.arena.now s.came.now)) s.items.now };

    ghost invariant = { λ s. AllWithin (length s.arena.now) (length s.came.now) s.items.now };
}

impl<'a> Stretches<'a> {
    /// The stretches, whose bytes and segments that came stand in this memory.
    pub fn new(arena: &'a [u8], came: &'a [CameSlot], items: &'a [Stretch]) -> Stretches<'a>
        requires { AllWithin (length arena.now) (length came.now) items.now }
        ensures { flat_map (λ xs. xs) result ≡ entries_of (memory_of arena.now came.now) items.now }
    {
        Stretches { arena, came, items }
    }

    /// How many stretches there are.
    pub fn len(&self) -> usize
        ensures { result ≡ length self.now }
    {
        self.items.len()
    }

    /// The `i`-th stretch, counted from 0, the oldest first.
    #[inline(always)]
    pub fn get(&self, i: usize) -> StretchView<'a>
        requires { i < length self.now }
        ensures entries { slice_get self.now i ≡ Some (seen_stretch result) }
        ensures fits { IsFit result }
    {
        stretch_view(self.arena, self.came, &self.items[i])
    }

    /// The `i`-th entry of all, counted from 0, the oldest first. It looks for its stretch from the first on.
    pub fn entry(&self, i: usize) -> EntryView<'a>
        requires { i < length (flat_map (λ xs. xs) self.now) }
        ensures { slice_get (flat_map (λ xs. xs) self.now) i ≡ Some (seen_entry result) }
    {
        let mut left = i;
        for k in 0..self.len() {
            match self.get(k).entry(left) {
                Ok(entry) => return entry,
                Err(past) => left = past,
            }
        }
        unreachable!()
    }
}

impl<'a> StretchView<'a> {
    /// The `j`-th entry of the stretch, counted from 0. The error says how far `j` is past its end.
    fn entry(&self, j: usize) -> Result<EntryView<'a>, usize>
        requires { IsFit self.now }
        ensures found { IfOk result (λ x. slice_get (seen_stretch self.now) j ≡ Some (seen_entry x)) }
        ensures past { IfErr result (λ n. length (seen_stretch self.now) + n ≡ j) }
    {
        match self {
            StretchView::One(entry) => { if j == 0 { Ok(entry.view()) } else { Err(j - 1) } }
            StretchView::Quiet(run) => {
                if j <= run.more as usize {
                    Ok(run.entry(j as u32))
                } else {
                    Err(j - 1 - run.more as usize)
                }
            }
            StretchView::Paced(runs) => runs.entry(j),
        }
    }
}

impl QuietRun {
    /// The `j`-th entry of the run, counted from 0.
    #[inline(always)]
    pub fn entry(&self, j: u32) -> EntryView<'static>
        requires inside { j ≤ self.now.more }
        requires fits { IsRun self.now }
        ensures { slice_get (run_entries self.now) j ≡ Some (seen_entry result) }
    {
        EntryView {
            caller: self.caller,
            number: self.number + u64::from(j),
            tick: self.tick + j,
            call: CallView::Tick,
            reply: ReplyView::Quiet,
        }
    }
}

/// The entries of a stretch.
#[inline(always)]
pub fn stretch_view<'a>(
    arena: &'a [u8],
    came: &'a [CameSlot],
    stretch: &'a Stretch,
) -> StretchView<'a>
    requires { StretchWithin (length arena.now) (length came.now) stretch.now }
    ensures entries { seen_stretch result ≡ entries_in (memory_of arena.now came.now) stretch.now }
    ensures fits { IsFit result }
{
    match stretch {
        Stretch::One { tick, slot } => StretchView::One(EntryAt::new(arena, came, *tick, slot)),
        Stretch::Quiet(run) => StretchView::Quiet(*run),
        Stretch::Paced(runs) => StretchView::Paced(*runs),
    }
}
