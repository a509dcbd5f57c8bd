//! The laws of two ends: what one reads the other was given to send.

ghost use Rattle.std.specs.Prelude.{◌≡◌, ℕ, ◌≤◌, List, [], ◌∷◌, Ok, Contains};
ghost use Rattle.host_rounds.specs.Lists.{Each};
ghost use Rattle.host_rounds.specs.Logs.{HostRun, RunLog};
ghost use Rattle.link_script.specs.LinkLines.{LinkLines};
ghost use Rattle.link_script.specs.declared.script.LinkAct.TheVariants as acts;
ghost use Rattle.link_script.specs.declared.script.Target.{Target};
ghost use Rattle.scenario_text.specs.declared.scenario.Scenario.{Scenario};
ghost use Rattle.scenario_text.specs.Reads.{reads};
ghost use Rattle.scenario_runs.specs.Runs.{Run};
ghost use Rattle.scenario_runs.specs.Histories.{AreInRange};
ghost use Rattle.scenario_runs.specs.WorkedRuns.{hello};
ghost use Rattle.worked_scenarios.specs.WorkedLinks.{own_host};
ghost use Rattle.two_ends.specs.Ends.{IsFaithful, HearsOtherEnd, ReadsOtherEnd};
ghost use Rattle.two_ends.specs.Origins.{TookWhatWasSent};
ghost use Rattle.two_ends.specs.WorkedEnds.{other_end_counts};

/// A link is faithful exactly where none of its lines corrupts a frame, whatever else they do: lose frames, double them
/// or delay them.
pub fn links_are_faithful_where_no_line_corrupts()
    ensures faithful { (lines : LinkLines)
        → ((target : Target) (place : ℕ) → Contains lines.acts (target, acts.Corrupt place) → ⊥)
        → IsFaithful lines }
    ensures corrupt { (lines : LinkLines) (target : Target) (place : ℕ)
        → Contains lines.acts (target, acts.Corrupt place) → IsFaithful lines → ⊥ }
{}

/// In every run of a scenario without `corrupt` lines, whatever the order of its ticks: each segment that a flow took
/// is one that a flow of the run with the four-tuple reversed has sent, or a reset by which a host answered a segment
/// of no flow, as a line of its log shows.
pub fn what_is_taken_was_sent()
    ensures { (s : Scenario) (log : RunLog) → IsFaithful s.link → Run s log
        → Each (λ (h : HostRun). Each (TookWhatWasSent log.hosts) h.flows) log.hosts }
{}

/// In each of these runs, where its numbers are in the ranges of the grammar, each flow that has one other end hears
/// one stream, which is what the other end's application sent.
pub fn two_ends_are_one_stream()
    ensures in_range { (s : Scenario) (log : RunLog) → AreInRange s.hosts → s.limit ≤ 10000 → IsFaithful s.link
        → Run s log → Each (λ (h : HostRun). Each (HearsOtherEnd log.hosts) h.flows) log.hosts }
    // They are where the scenario was read from a text.
    ensures of_texts { (text : List ℕ) (s : Scenario) (log : RunLog) → reads text ≡ Ok s → IsFaithful s.link
        → Run s log → Each (λ (h : HostRun). Each (HearsOtherEnd log.hosts) h.flows) log.hosts }
{}

/// So what its application read is a prefix of what the other end's application sent, and all of it once a Recv was
/// answered by the end.
pub fn what_is_read_was_sent()
    ensures in_range { (s : Scenario) (log : RunLog) → AreInRange s.hosts → s.limit ≤ 10000 → IsFaithful s.link
        → Run s log → Each (λ (h : HostRun). Each (ReadsOtherEnd log.hosts) h.flows) log.hosts }
    ensures of_texts { (text : List ℕ) (s : Scenario) (log : RunLog) → reads text ≡ Ok s → IsFaithful s.link
        → Run s log → Each (λ (h : HostRun). Each (ReadsOtherEnd log.hosts) h.flows) log.hosts }
{}

/// Flows that have one other end are what runs are made of: each of the serial runs of these texts has two flows, and
/// each of them has one other end, also where both are of one host.
pub fn worked_flows_have_other_ends()
    ensures hello { other_end_counts hello ≡ 1 ∷ 1 ∷ [] }
    ensures own_host { other_end_counts own_host ≡ 1 ∷ 1 ∷ [] }
{}
