//! The laws that lead from a run to its verdict.

ghost use Rattle.std.specs.Prelude.{◌≡◌, ◌<◌, ◌^◌, ℕ, ◌++◌, length, List, [], ◌∷◌, Ok, false, count_by};
ghost use Rattle.std.specs.List.{concat};
ghost use Rattle.tas_model.specs.declared.entry.HostParams.{HostParams};
ghost use Rattle.host_rounds.specs.Lists.{Each};
ghost use Rattle.tas_model.specs.Outputs.{bytes_read};
ghost use Rattle.host_rounds.specs.Logs.{Flow, HostRun, RunLog};
ghost use Rattle.tas_runs.specs.Report.{report, line, names_of as names_in};
ghost use Rattle.scenario_text.specs.Canonical.{canonical};
ghost use Rattle.scenario_text.specs.Reads.{reads};
ghost use Rattle.scenario_text.specs.declared.scenario.Scenario.{Scenario};
ghost use Rattle.scenario_runs.specs.Histories.{AreInRange};
ghost use Rattle.scenario_runs.specs.Runs.{Run};
ghost use Rattle.log_ranges.specs.Ranges.{HostFits, Fits};
ghost use Rattle.report_lines.specs.Lines.{Line};
ghost use Rattle.report_lines.specs.Shown.{AreNames, IsLine, line_text};
ghost use Rattle.report_form.specs.Reports.{IsReport};
ghost use Rattle.trace_audit.specs.TextLines.{text_lines, mark, AreHalves};
ghost use Rattle.trace_audit.specs.Forms.{AreSaid, IsRefused, names_of, params_of, addrs_of};
ghost use Rattle.trace_audit.specs.Right.{AreRight};
ghost use Rattle.trace_audit.specs.Verdicts.{IsLegal, IsFound, begins_flow, is_entry};
ghost use Rattle.trace_audit.specs.declared.auditing.Verdict as auditing;
ghost use Rattle.trace_audit.specs.declared.auditing.Verdict.TheVariants as verdicts;
ghost use Rattle.audited_runs.specs.Audited.{audited, audited_text, EndsInLine};
ghost use Rattle.audited_runs.specs.LogLines.{lines_of, flows_in, entries_in};
ghost use Rattle.audited_runs.specs.Told.{AreTold};

/// The text of a line that can be shown has no LF, so that a text that begins with it and an LF has it as its first
/// line.
pub fn lines_are_cut()
    ensures { (names : List (List ℕ)) (said : Line) (rest : List ℕ) → AreNames names → IsLine names said
        → text_lines (line (line_text names said) ++ rest) ≡ line (line_text names said) ∷ text_lines rest }
{}

/// The report of a run's log says the lines of the log, one by one, where each of them can be shown.
pub fn reports_say_their_lines()
    ensures { (names : List (List ℕ)) (log : RunLog) → log.replay ≡ false → AreNames names
        → names_in log.hosts ≡ names → Each (IsLine names) (lines_of log)
        → AreSaid names (text_lines (report log)) (lines_of log) }
{}

/// The lines of a log whose flows are told rightly are a report, and they are right.
pub fn lines_are_right()
    // They stand in the order of a report of these hosts,
    ensures order { (hosts : List HostParams) (log : RunLog) → AreTold hosts hosts log.hosts
        → IsReport (addrs_of hosts) (lines_of log) }
    // and up to each line the flow that is shown is right.
    ensures right { (hosts : List HostParams) (log : RunLog) → AreTold hosts hosts log.hosts
        → AreRight hosts (lines_of log) }
    // They show each flow of the log once, and each entry.
    ensures flows { (log : RunLog) → flows_in log.hosts ≡ count_by begins_flow (lines_of log) }
    ensures entries { (log : RunLog) → entries_in log.hosts ≡ count_by is_entry (lines_of log) }
{}

/// Behind the canonical text of a scenario the first line `==` is the one that was put there.
pub fn scenarios_end_before_the_mark()
    ensures halves { (s : Scenario) (text : List ℕ) → reads (canonical s) ≡ Ok s
        → AreHalves (canonical s ++ mark ++ text) (text_lines (canonical s)) (text_lines text) }
    // All lines of a text are the text.
    ensures whole { (text : List ℕ) → concat (text_lines text) ≡ text }
{}

/// In every run of a scenario, on any number of cores and whatever becomes of frames on the link, where the numbers of
/// its log are in the ranges of their fields: each line of its report can be shown.
pub fn lines_can_be_shown()
    ensures { (s : Scenario) (log : RunLog) → AreInRange s.hosts → Run s log → Fits log
        → Each (IsLine (names_of s.hosts)) (lines_of log) }
{}

/// In each of these runs each flow has the address and the parameters of its host and a history of the endpoint, and
/// one that was opened by a frame was opened by one of the host at its other end.
pub fn runs_tell_their_ends()
    ensures names { (s : Scenario) (log : RunLog) → AreInRange s.hosts → Run s log → Fits log
        → names_in log.hosts ≡ names_of s.hosts }
    ensures told { (s : Scenario) (log : RunLog) → AreInRange s.hosts → Run s log → Fits log
        → AreTold (params_of s.hosts) (params_of s.hosts) log.hosts }
{}

/// In each of these runs the application of a flow reads fewer than 2^64 bytes: it asks once a tick.
pub fn reads_can_be_counted()
    ensures { (s : Scenario) (log : RunLog) → AreInRange s.hosts → Run s log → Each HostFits log.hosts
        → Each (λ (h : HostRun). Each (λ (f : Flow). length (bytes_read f.entries) < 2 ^ 64) h.flows) log.hosts }
{}

/// An auditor judges the report of every run legal, with the number of its flows and of its entries: behind the
/// canonical text of its scenario, which was read from some text, and a line `==`. So it is of every log of a run, on
/// any number of cores, whose numbers are in the ranges of their fields.
pub fn reports_of_runs_are_legal()
    ensures legal { (text : List ℕ) (s : Scenario) (log : RunLog) → reads text ≡ Ok s → Run s log → Fits log
        → IsLegal (audited s log) (flows_in log.hosts) (entries_in log.hosts) }
    // So it is behind the text that the scenario was read from, where the last line of that ends.
    ensures behind { (text : List ℕ) (s : Scenario) (log : RunLog) → reads text ≡ Ok s → EndsInLine text → Run s log
        → Fits log → IsLegal (audited_text text log) (flows_in log.hosts) (entries_in log.hosts) }
    // No other verdict is found on the canonical one,
    ensures found { (text : List ℕ) (s : Scenario) (log : RunLog) → reads text ≡ Ok s → Run s log → Fits log
        → (v : auditing.Verdict) → IsFound (audited s log) v
        → v ≡ verdicts.Legal (flows_in log.hosts) (entries_in log.hosts) }
    // and it is not refused.
    ensures taken { (text : List ℕ) (s : Scenario) (log : RunLog) → reads text ≡ Ok s → Run s log → Fits log
        → (number : ℕ) → IsRefused (audited s log) number → ⊥ }
{}
