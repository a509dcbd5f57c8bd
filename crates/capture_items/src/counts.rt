//! How many records of a capture were frames, were passed over, and were refused.

ghost use Rattle.std.specs.Prelude.{◌≡◌, ◌+◌, ◌-◌, ◌<◌, ◌≤◌, ◌^◌, map, length, count_by};
ghost use Rattle.tas_runs.specs.Records.{is_damaged};
ghost use Rattle.capture_items.specs.Items.{item_in};

use crate::item::Item;

/// How many records of a capture are what: each is counted once.
#[derive(Clone, Copy, PartialEq, Eq, Debug)]
pub struct Counts {
    /// All of them.
    pub records: u32,
    /// Segments that concern the host.
    pub frames: u32,
    /// Records that are passed over.
    pub passed: u32,
    /// Packets that break a rule of reading.
    pub refused: u32,
}

/// How many items there were so far.
#[derive(Clone, Copy, PartialEq, Eq, Debug)]
pub struct Tally {
    /// All of them.
    pub items: u32,
    /// Packets that break a rule of reading.
    pub refused: u32,
}

impl Tally {
    /// None.
    pub fn new() -> Tally
        ensures items { result.items ≡ 0 }
        ensures refused { result.refused ≡ 0 }
    {
        Tally {
            items: 0,
            refused: 0,
        }
    }

    /// So many, and those of one more batch.
    pub fn with(self, batch: &[Item<'_>]) -> Tally
        requires items { self.items + length batch.now < 2 ^ 32 }
        requires refused { self.refused ≤ self.items }
        ensures items { result.items ≡ self.items + length (map item_in batch.now) }
        ensures refused { result.refused ≡ self.refused + count_by is_damaged (map item_in batch.now) }
        ensures few { result.refused ≤ result.items }
    {
        Tally {
            items: self.items + batch.len() as u32,
            refused: self.refused + refused_among(batch) as u32,
        }
    }

    /// How many of a capture's `records` are what, where these are its items.
    pub fn counts(self, records: u32) -> Counts
        requires items { self.items ≤ records }
        requires refused { self.refused ≤ self.items }
        ensures records { result.records ≡ records }
        ensures frames { result.frames ≡ self.items - self.refused }
        ensures passed { result.passed ≡ records - self.items }
        ensures refused { result.refused ≡ self.refused }
    {
        Counts {
            records,
            frames: self.items - self.refused,
            passed: records - self.items,
            refused: self.refused,
        }
    }
}

/// How many items are packets that break a rule of reading.
#[tactic(auto, using(crate::proofs::Counted::count_mapped))]
pub fn refused_among(items: &[Item<'_>]) -> usize
    ensures count { result ≡ count_by is_damaged (map item_in items.now) }
    ensures few { result ≤ length items.now }
{
    items.iter().filter(|item| item.is_damaged()).count()
}
