//! Marks of the flows in a batch, by which most searches of it are saved.

ghost use Rattle.std.specs.Prelude.{false, ◌≡◌, ◌++◌, [], ◌∷◌, List, map, get_or};
ghost use Rattle.capture_items.specs.Items.{item_in};
ghost use Rattle.capture_items.specs.Marks.{mark_of, CoverAll};

use crate::item::Item;
use tas_model::FourTuple;

/// How many marks there are.
const MARKS: usize = 256;

/// Marks of the flows that a batch has segments of, so that it need not be searched for the others. Flows may share a
/// mark: one that is set tells nothing.
#[derive(Drop)]
pub struct FlowMarks {
    marks: [bool; MARKS],
}

impl FlowMarks {
    /// No flow is marked.
    pub fn new() -> FlowMarks
        ensures { CoverAll result.marks [] }
    {
        FlowMarks {
            marks: [false; MARKS],
        }
    }

    /// Whether the flow's mark is set.
    pub fn may_have(&self, tuple: &FourTuple) -> bool
        ensures { result ≡ get_or self.now.marks (mark_of tuple.now) false }
    {
        self.marks[mark_of(tuple)]
    }

    /// Marks the flow of an item that joins the batch.
    pub fn add(&mut self, item: &Item<'_>)
        ensures { (batch : List Item) → CoverAll self.old.marks (map item_in batch)
            → CoverAll self.new.marks (map item_in (batch ++ item.now ∷ [])) }
    {
        if let Some(tuple) = item.tuple() {
            self.marks[mark_of(&tuple)] = true;
        }
    }
}

/// The place of the flow's mark.
fn mark_of(tuple: &FourTuple) -> usize
    ensures { result ≡ mark_of tuple.now }
{
    (tuple.raddr as usize + tuple.rport as usize + tuple.lport as usize) % MARKS
}
