//! Ticks that were worked by hand, held against the definitions.

ghost use Rattle.std.specs.Prelude.{◌≡◌};
ghost use Rattle.host_rounds.specs.WorkedTicks.{marks, ids, visited, visited_marks, visited_log, crowded};
ghost use Rattle.host_rounds.specs.WorkedTicks.{crowded_marks, crowded_ids, crowded_log};

/// Ticks in serial order that were worked by hand: who enters what and when, what the log says, and which slots are
/// given.
pub fn worked_ticks()
    // A listener with a backlog of one, and segments of no flow.
    ensures visited { marks visited ≡ visited_marks }
    ensures visited_log { visited.log ≡ visited_log }
    // A host with one slot.
    ensures crowded { marks crowded ≡ crowded_marks }
    ensures crowded_ids { ids crowded ≡ crowded_ids }
    ensures crowded_log { crowded.log ≡ crowded_log }
{}
