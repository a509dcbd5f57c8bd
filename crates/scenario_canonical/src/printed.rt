//! The canonical text of a scenario.

ghost use Rattle.std.specs.Prelude.{◌≡◌, ℕ, List, Ok, IfOk};
ghost use Rattle.scenario_text.specs.Canonical.{canonical};
ghost use Rattle.scenario_text.specs.Reads.{reads};

use scenario_text::{Scenario, print_scenario};
use std::alloc::{AllocError, Global};
use tas_model::Bytes;

/// The canonical text of a scenario, which reads as the same scenario where it was read from a text. The error is want
/// of memory.
pub fn print_canonical(alloc: Global, s: &Scenario) -> Result<Bytes, AllocError>
    ensures text { IfOk result (λ printed. printed ≡ canonical s.now) }
    ensures reads { IfOk result (λ printed. (text : List ℕ) → reads text ≡ Ok s.now → reads printed ≡ Ok s.now) }
{
    print_scenario(alloc, s)
}
