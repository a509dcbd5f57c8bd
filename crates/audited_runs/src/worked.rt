//! The verdicts on worked runs.

ghost use Rattle.std.specs.Prelude.{◌≡◌, ℕ, [], codes, Ok, Some, None};
ghost use Rattle.scenario_text.specs.Reads.{reads};
ghost use Rattle.scenario_text.specs.declared.scenario.Scenario.{Scenario};
ghost use Rattle.scenario_runs.specs.Runs.{serial_run};
ghost use Rattle.trace_audit.specs.Verdicts.{IsLegal};
ghost use Rattle.audited_runs.specs.Audited.{audited};
ghost use Rattle.scenario_runs.specs.WorkedRuns.{hello, killed_early};
ghost use Rattle.report_lines.specs.Lines.{Made, line_in};
ghost use Rattle.report_lines.specs.Shown.{line_text};
ghost use Rattle.audited_runs.specs.WorkedAudits.{audited_counts, ticked_by};

/// The verdicts on the serial runs of these texts have these numbers of flows and of entries, by computation.
pub fn worked_audits()
    ensures hello { ◌≡◌ {A = ℕ × ℕ} (audited_counts hello) (2, 58) }
    ensures killed_early { ◌≡◌ {A = ℕ × ℕ} (audited_counts killed_early) (2, 20) }
    // Of the first of them the numbers are in their ranges, so that its report is legal without a premise.
    ensures legal { (s : Scenario) → reads hello ≡ Ok s → IsLegal (audited s (serial_run s)) 2 58 }
{}

/// Why the premise is there: a line shows a core in 32 bits, while the definitions of runs have cores of any number.
pub fn worked_cores()
    ensures last { line_in [] (codes "0 c4294967295.0 tick = quiet") ≡ Some (Made (ticked_by 4294967295)) }
    ensures next { line_in [] (codes "0 c4294967296.0 tick = quiet") ≡ None }
    // It is the text of an entry by that core all the same.
    ensures text { line_text [] (Made (ticked_by 4294967296)) ≡ codes "0 c4294967296.0 tick = quiet" }
{}
