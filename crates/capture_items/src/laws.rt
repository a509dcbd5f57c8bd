//! The laws that lead from what was found in a capture to the run of it.

ghost use Rattle.std.specs.Prelude.{◌≡◌, ℕ, Bool, List, [], Ok, Err};
ghost use Rattle.tas_num.specs.Captures.{Fault, capture_of};
ghost use Rattle.tas_runs.specs.Batches.{batches_of};
ghost use Rattle.tas_runs.specs.SerialOrder.{serial_replay, serial_log};
ghost use Rattle.capture_items.specs.Found.{IsFound};
ghost use Rattle.capture_items.specs.declared.found.Found.{Found};

/// The run of a capture in serial order is that of what was found in it; bytes that are no capture have none.
#[tactic(auto, using(crate::proofs::Replays::fault_is_replayed))]
pub fn what_is_found_is_replayed()
    ensures found { (bytes : List ℕ) (local : ℕ) (loose : Bool) (found : Found) → IsFound bytes local loose found
        → serial_replay local bytes loose ≡ Ok (serial_log local found.records found.items) }
    ensures refused { (bytes : List ℕ) (local : ℕ) (loose : Bool) (fault : Fault) → capture_of bytes ≡ Err fault
        → serial_replay local bytes loose ≡ Err fault }
{}

/// Without items there is no batch.
#[tactic(auto, using(crate::proofs::Batches::no_batch))]
pub fn no_items_have_no_batch()
    ensures { batches_of [] ≡ [] }
{}
