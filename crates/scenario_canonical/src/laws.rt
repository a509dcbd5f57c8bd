//! The laws that a scenario's text says it back.

ghost use Rattle.std.specs.Prelude.{◌≡◌, ℕ, List, Ok};
ghost use Rattle.scenario_text.specs.declared.scenario.Scenario.{Scenario};
ghost use Rattle.scenario_text.specs.Canonical.{canonical};
ghost use Rattle.scenario_text.specs.Reads.{reads};

/// The canonical text of a scenario that was read from a text reads as that scenario.
pub fn canonical_text_reads_back()
    ensures { (text : List ℕ) (s : Scenario) → reads text ≡ Ok s → reads (canonical s) ≡ Ok s }
{}

/// Scenarios that were read from texts and have one canonical text are one scenario.
pub fn canonical_text_tells_its_scenario()
    ensures { (a b : List ℕ) (s t : Scenario) → reads a ≡ Ok s → reads b ≡ Ok t → canonical s ≡ canonical t → s ≡ t }
{}
