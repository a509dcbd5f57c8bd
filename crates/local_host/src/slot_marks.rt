//! Which slots are taken.

ghost use Rattle.std.specs.Prelude.{true, false, ◌≡◌, ℕ, ◌<◌, ◌≤◌, ◌==◌, ◌||◌, [], List, length, get_or};
ghost use Rattle.std.specs.Prelude.{OnErr, OnOk};
ghost use Rattle.std.specs.List.{list_any};
ghost use Rattle.host_rounds.specs.Hosts.{Live, is_in_slot, free_from};
ghost use Rattle.local_host.specs.Index.{passes_at, standing_places, AreMarked};
ghost use Rattle.local_host.specs.Marks.{IsLowest};

use crate::live::LiveFlow;
use std::alloc::{AllocError, Global};
use std::marker::Model;

/// Which slots are taken, seen as a mark for each. None past the last mark is taken.
#[derive(Drop)]
pub struct SlotMarks {
    marks: Vec<bool>,
    /// The lowest slot that is not taken.
    lowest: usize,
}

impl Model for SlotMarks {
    ghost use Rattle.std.specs.Prelude.{List, Bool};
    ghost use Rattle.local_host.specs.Marks.{IsLowest};

    ghost Value = { List Bool };

    ghost view = { λ s. s.marks.items };

    ghost invariant = { λ s. IsLowest s.marks.items s.lowest };
}

impl SlotMarks {
    /// No slot is taken. It takes no memory.
    pub fn new(alloc: Global) -> SlotMarks
        ensures { result ≡ [] }
    {
        SlotMarks {
            marks: Vec::new(alloc),
            lowest: 0,
        }
    }

    /// No slot is taken any more.
    pub fn clear(&mut self)
        ensures { self.new ≡ [] }
    {
        self.marks.clear();
        self.lowest = 0;
    }

    /// A flow's record stands in the slot. The error is want of memory.
    pub fn take(&mut self, slot: u32) -> Result<(), AllocError>
        ensures { OnOk result ((q : ℕ) → get_or self.new q false ≡ (get_or self.old q false || slot == q)) }
    {
        take_slot(&mut self.marks, slot)?;
        self.lowest = first_unmarked(&self.marks, self.lowest);
        Ok(())
    }

    /// Marks the slots, of those that there are marks for, that a flow's record stands in.
    pub fn mark_anew(&mut self, flows: &[LiveFlow], standing: &[usize])
        requires { standing.now ≡ standing_places flows.now }
        ensures len { length self.new ≡ length self.old }
        ensures taken { (slot : ℕ) → slot < length self.old
            → get_or self.new slot false ≡ list_any (is_in_slot slot) flows.now }
    {
        mark_anew(&mut self.marks, flows, standing);
        self.lowest = first_unmarked(&self.marks, 0);
    }

    /// The lowest of so many slots that is not taken.
    pub fn first_free(&self, slots: u32) -> Option<u32>
        ensures { (flows : List Live) → AreMarked self.now flows → result ≡ free_from slots 0 flows }
    {
        if self.lowest < slots as usize {
            Some(self.lowest as u32)
        } else {
            None
        }
    }
}

/// The first slot from `from` on that is not marked, where all before it are.
fn first_unmarked(marks: &[bool], from: usize) -> usize
    requires { (slot : ℕ) → slot < from → get_or marks.now slot false ≡ true }
    ensures { IsLowest marks.now result }
{
    for slot in from..marks.len() {
        if !marks[slot] {
            return slot;
        }
    }
    marks.len()
}

/// A flow's record stands in the slot. The error is want of memory, and leaves all as it was.
fn take_slot(taken: &mut Vec<bool>, slot: u32) -> Result<(), AllocError>
    ensures taken { OnOk result ((q : ℕ) → get_or taken.new.items q false
        ≡ (get_or taken.old.items q false || slot == q)) }
    ensures err { OnErr result (taken.new.items ≡ taken.old.items) }
{
    reach(taken, slot as usize + 1)?;
    taken[slot as usize] = true;
    Ok(())
}

/// There are marks for so many slots at least; no slot is taken by that. The error is want of memory, and leaves all as
/// it was.
fn reach(taken: &mut Vec<bool>, slots: usize) -> Result<(), AllocError>
    ensures len { OnOk result (slots ≤ length taken.new.items) }
    ensures same { OnOk result ((q : ℕ) → get_or taken.new.items q false ≡ get_or taken.old.items q false) }
    ensures err { OnErr result (taken.new.items ≡ taken.old.items) }
{
    if taken.len() < slots {
        taken.resize(slots, false)?;
    }
    Ok(())
}

/// Marks the slots, of those that there are marks for, that a flow's record stands in.
fn mark_anew(taken: &mut [bool], flows: &[LiveFlow], standing: &[usize])
    requires { standing.now ≡ standing_places flows.now }
    ensures len { length taken.new ≡ length taken.old }
    ensures taken { (slot : ℕ) → slot < length taken.old
        → get_or taken.new slot false ≡ list_any (is_in_slot slot) flows.now }
{
    taken.fill(false);
    for place in standing {
        mark_at(taken, flows, *place);
    }
}

/// The slot of the record of the flow at this place is taken.
fn mark_at(taken: &mut [bool], flows: &[LiveFlow], place: usize)
    ensures len { length taken.new ≡ length taken.old }
    ensures taken { (slot : ℕ) → slot < length taken.old
        → get_or taken.new slot false ≡ (get_or taken.old slot false || passes_at (is_in_slot slot) flows.now place) }
{
    match flows.get(place) {
        Some(flow) => mark(taken, flow),
        None => {}
    }
}

/// The slot of the flow's record is taken.
fn mark(taken: &mut [bool], flow: &LiveFlow)
    ensures len { length taken.new ≡ length taken.old }
    ensures taken { (slot : ℕ) → slot < length taken.old
        → get_or taken.new slot false ≡ (get_or taken.old slot false || is_in_slot slot flow.now) }
{
    let slot = flow.id().slot;
    if flow.is_in_slot(slot) && (slot as usize) < taken.len() {
        taken[slot as usize] = true;
    }
}
