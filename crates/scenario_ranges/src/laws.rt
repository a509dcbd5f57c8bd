//! The law that a scenario that was read is in the ranges of the grammar.

ghost use Rattle.std.specs.Prelude.{◌≡◌, ℕ, List, Ok};
ghost use Rattle.scenario_text.specs.declared.scenario.Scenario.{Scenario};
ghost use Rattle.scenario_text.specs.Reads.{reads};
ghost use Rattle.scenario_ranges.specs.Ranges.{IsInRange};

/// A scenario that was read from a text is in the ranges of the grammar.
pub fn what_is_read_is_in_range()
    ensures { (text : List ℕ) (s : Scenario) → reads text ≡ Ok s → IsInRange s }
{}
