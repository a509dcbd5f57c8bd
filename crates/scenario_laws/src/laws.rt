//! The laws of ticks that runs of scenarios have of their hosts.

ghost use Rattle.std.specs.Prelude.{◌≡◌, ℕ, ◌+◌, ◌≤◌, ◌<◌, not, true};
ghost use Rattle.tas_model.specs.declared.entry.FrameId.{FrameId};
ghost use Rattle.host_rounds.specs.Logs.{HostRun, RunLog};
ghost use Rattle.host_rounds.specs.Lists.{Each};
ghost use Rattle.host_rounds.specs.Rounds.{IsQuiet};
ghost use Rattle.host_rounds.specs.Places.{uses, uses_hosts, coming};
ghost use Rattle.host_rounds.specs.Passing.{AreTimed, Went};
ghost use Rattle.host_rounds.specs.Standing.{AreApart, AreFiled};
ghost use Rattle.host_rounds.specs.Histories.{HasSentAll};
ghost use Rattle.scenario_text.specs.declared.scenario.Scenario.{Scenario};
ghost use Rattle.scenario_runs.specs.Worlds.{all_ended, is_at_rest};
ghost use Rattle.scenario_runs.specs.Runs.{Run};
ghost use Rattle.scenario_laws.specs.Ticks.{InEachTick};
ghost use Rattle.scenario_laws.specs.Ends.{OfEachLine, IsNamed, HasOpened, IsBefore, last_world};

/// In each tick of a run each frame that comes to a host gets exactly one place in its histories and its log, and no
/// other frame gets one.
pub fn frames_have_one_place()
    // It gets as many places as it comes,
    ensures place { (s : Scenario) (log : RunLog) (run : Run s log) (frame : FrameId) → InEachTick s log run (λ x.
        uses frame x.after ≡ uses frame x.before + coming frame x.frames) }
    // it comes once at most in a tick,
    ensures once { (s : Scenario) (log : RunLog) (run : Run s log) (frame : FrameId)
        → InEachTick s log run (λ x. coming frame x.frames ≤ 1) }
    // and it stands in one place at most of all that a run leaves, of whatever host. So it is of each frame, those of
    // no flow among them: a segment of no flow is answered once at most.
    ensures ended { (s : Scenario) (log : RunLog) (frame : FrameId) → Run s log
        → uses_hosts frame log.hosts ≤ 1 }
{}

/// A log has the hosts of the scenario's lines, and their flows were opened rightly.
pub fn flows_are_opened_rightly()
    // It has a host for each line, with the line's name and address.
    ensures hosts { (s : Scenario) (log : RunLog) → Run s log → OfEachLine IsNamed s.hosts log.hosts }
    // Each flow was opened with its host's parameters, in one of its slots, as that slot's next generation, and with
    // its own first number.
    ensures opened { (s : Scenario) (log : RunLog) → Run s log → OfEachLine HasOpened s.hosts log.hosts }
{}

/// In each tick of a run every flow that was opened before has one Tick, which is wanting only where the flow was
/// closed in the tick. A flow that was closed before has none, nor has one that was opened in the tick.
pub fn open_flows_have_one_tick()
    ensures { (s : Scenario) (log : RunLog) (run : Run s log) → InEachTick s log run (λ x.
        AreTimed x.before.flows x.after.flows) }
{}

/// A tick takes nothing back.
pub fn ticks_only_add()
    // In each tick of a run each history grows by entries of that tick alone, and the log by lines of it;
    ensures went { (s : Scenario) (log : RunLog) (run : Run s log) → InEachTick s log run (λ x.
        Went x.tick x.before x.after) }
    // and all that a log has is of one of its ticks.
    ensures ended { (s : Scenario) (log : RunLog) → Run s log → Each (IsBefore log.ticks) log.hosts }
{}

/// A flow keeps its slot until it is closed and no application holds it, and none other gets it meanwhile.
pub fn slots_are_kept()
    // In each tick of a run those flows are filed that were closed before it and that no application held, and no
    // others.
    ensures filed { (s : Scenario) (log : RunLog) (run : Run s log) → InEachTick s log run (λ x.
        AreFiled x.before.flows x.after.flows) }
    // No two flows ever stand in one slot.
    ensures apart { (s : Scenario) (log : RunLog) (run : Run s log) → InEachTick s log run (λ x.
        AreApart x.after.flows) }
{}

/// A tick ends when nothing may go.
pub fn nothing_may_go()
    // After each tick of a run no flow has a segment that may go,
    ensures ticks { (s : Scenario) (log : RunLog) (run : Run s log) → InEachTick s log run (λ x.
        Each IsQuiet x.after.flows) }
    // and so it is when the run has ended.
    ensures ended { (s : Scenario) (log : RunLog) → Run s log
        → Each (λ (h : HostRun). Each HasSentAll h.flows) log.hosts }
{}

/// A run ends when all is at rest, or with the last tick that the limit allows.
pub fn runs_end_at_rest()
    ensures limit { (s : Scenario) (log : RunLog) → Run s log → log.ticks ≤ s.limit }
    // One that ends before the limit has come to rest with its last tick.
    ensures rest { (s : Scenario) (log : RunLog) (run : Run s log) → log.ticks < s.limit
        → (last : ℕ) × (log.ticks ≡ last + 1) × (is_at_rest s last (last_world s log run) ≡ true) }
    // It is stalled exactly where a script has not ended then,
    ensures stalled { (s : Scenario) (log : RunLog) (run : Run s log)
        → log.stalled ≡ not (all_ended (last_world s log run)) }
    // which is at the limit alone.
    ensures stalled_at_limit { (s : Scenario) (log : RunLog) → Run s log → log.stalled ≡ true
        → log.ticks ≡ s.limit }
{}
