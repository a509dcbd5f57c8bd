//! The items of a capture in batches, no two of one flow.

ghost use Rattle.std.specs.Prelude.{◌≡◌, ◌<◌, ◌≤◌, [], ◌∷◌, ◌++◌, map, length, OnOk};
ghost use Rattle.tas_runs.specs.Batches.{batches_of, joins, clashes, is_of};
ghost use Rattle.std.specs.List.{list_any};
ghost use Rattle.capture_items.specs.Items.{item_in, items_with};
ghost use Rattle.capture_items.specs.Marks.{CoverAll};

use crate::item::Item;
use crate::marks::FlowMarks;
use crate::reader::ItemReader;
use std::alloc::AllocError;
use std::marker::Model;
use tas_model::FourTuple;

/// The items of a capture from a place on, seen as their list, which are taken batch by batch.
#[derive(Drop)]
pub struct BatchReader<'a> {
    /// The first one, where it was read already and did not join the batch before.
    ahead: Option<Item<'a>>,
    items: ItemReader<'a>,
}

impl<'a> Model for BatchReader<'a> {
    ghost use Rattle.std.specs.Prelude.{List};
    ghost use Rattle.tas_runs.specs.Records.{Item};
    ghost use Rattle.capture_items.specs.Items.{items_with};

    ghost Value = { List Item };

    ghost view = { λ r. items_with r.ahead r.items };
}

impl<'a> BatchReader<'a> {
    /// These items.
    pub fn of(items: ItemReader<'a>) -> BatchReader<'a>
        ensures { result ≡ items.entry }
    {
        BatchReader { ahead: None, items }
    }

    /// Puts the next batch into `batch`, in place of what was there: the longest front of at most 64 with no two
    /// segments of one flow. It is empty where no item is left. The error is want of memory.
    pub fn next_batch(&mut self, batch: &mut Vec<Item<'a>>) -> Result<(), AllocError>
        ensures front { OnOk result (self.old ≡ map item_in batch.new.items ++ self.new) }
        ensures first { OnOk result (0 < length self.old
            → batches_of self.old ≡ map item_in batch.new.items ∷ batches_of self.new) }
        ensures some { OnOk result (0 < length self.old → 0 < length batch.new.items) }
        ensures most { OnOk result (length batch.new.items ≤ 64) }
    {
        let mut marks = FlowMarks::new();
        begin(batch, &mut marks, self.ahead)?;
        self.ahead = None;
        while let Some(item) = self.items.next_item() {
            if !joins(batch, &marks, &item) {
                self.ahead = Some(item);
                return Ok(());
            }
            marks.add(&item);
            batch.push(item)?;
        }
        Ok(())
    }
}

/// Puts the item that was read ahead, if there is one, into `batch`, in place of what was there, and marks its flow.
/// The error is want of memory.
fn begin<'a>(
    batch: &mut Vec<Item<'a>>,
    marks: &mut FlowMarks,
    ahead: Option<Item<'a>>,
) -> Result<(), AllocError>
    requires { CoverAll marks.old.marks [] }
    ensures batch { OnOk result (map item_in batch.new.items ≡ items_with ahead.entry []) }
    ensures marked { OnOk result (CoverAll marks.new.marks (map item_in batch.new.items)) }
{
    batch.clear();
    if let Some(item) = ahead {
        marks.add(&item);
        batch.push(item)?;
    }
    Ok(())
}

/// Whether one more item may come in a batch that is marked.
fn joins(batch: &[Item<'_>], marks: &FlowMarks, item: &Item<'_>) -> bool
    requires { CoverAll marks.now.marks (map item_in batch.now) }
    ensures { result ≡ joins (map item_in batch.now) (item_in item.now) }
{
    batch.len() < 64 && !clashes(batch, marks, item)
}

/// Whether the batch has a segment of the item's flow already.
fn clashes(batch: &[Item<'_>], marks: &FlowMarks, item: &Item<'_>) -> bool
    requires { CoverAll marks.now.marks (map item_in batch.now) }
    ensures { result ≡ clashes (map item_in batch.now) (item_in item.now) }
{
    match item.tuple() {
        Some(tuple) => has_flow(batch, marks, &tuple),
        None => false,
    }
}

/// Whether the batch has a segment of this flow. It is searched only where the flow's mark is set.
fn has_flow(batch: &[Item<'_>], marks: &FlowMarks, tuple: &FourTuple) -> bool
    requires { CoverAll marks.now.marks (map item_in batch.now) }
    ensures { result ≡ list_any (λ x. is_of tuple.now (item_in x)) batch.now }
{
    marks.may_have(tuple) && batch.iter().any(|item| item.is_of(tuple))
}
