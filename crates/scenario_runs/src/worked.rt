//! Worked runs of scenarios, held against the definitions.

ghost use Rattle.std.specs.Prelude.{◌≡◌};
ghost use Rattle.scenario_runs.specs.WorkedParts.{reported};
ghost use Rattle.scenario_runs.specs.WorkedRuns.{hello, hello_report, damaged, damaged_report, killed_early};
ghost use Rattle.scenario_runs.specs.WorkedRuns.{killed_early_report, one_slot, one_slot_report};

/// Reports that another program wrote for a plain talk, one with a damaged frame, one with a killed client, and one
/// on a host with one slot are those of the run in serial order.
pub fn worked_runs()
    ensures hello { reported hello ≡ hello_report }
    ensures damaged { reported damaged ≡ damaged_report }
    ensures killed_early { reported killed_early ≡ killed_early_report }
    ensures one_slot { reported one_slot ≡ one_slot_report }
{}
