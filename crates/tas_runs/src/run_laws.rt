//! The laws of batches.

ghost use Rattle.std.specs.Prelude.{◌≡◌, ◌<◌, List, length, true, false};
ghost use Rattle.tas_runs.specs.Records.{Item};
ghost use Rattle.tas_runs.specs.Batches.{clashes, joins};

/// A batch of fewer than 64 records takes each record whose flow has no segment in it yet, so that a batch which ends
/// before another one (see `batches_are_longest`) has 64 records or clashes with the next.
pub fn batches_take_up_to_64()
    ensures { (batch : List Item) (x : Item) → length batch < 64 → clashes batch x ≡ false → joins batch x ≡ true }
{}
