//! The laws of how many calls, which slots and which bytes.

ghost use Rattle.std.specs.Prelude.{ℕ, ◌≤◌};
ghost use Rattle.host_rounds.specs.Logs.{HostRun, RunLog};
ghost use Rattle.host_rounds.specs.Lists.{Each};
ghost use Rattle.host_rounds.specs.EveryTick.{InEveryTick};
ghost use Rattle.scenario_text.specs.declared.scenario.Scenario.{Scenario};
ghost use Rattle.scenario_runs.specs.Runs.{Run};
ghost use Rattle.scenario_laws.specs.Ticks.{InEachTick};
ghost use Rattle.scenario_laws.specs.Slots.{OpenedInLowest};
ghost use Rattle.scenario_laws.specs.Counts.{calls_at};
ghost use Rattle.scenario_laws.specs.Sends.{HadSends};

/// In every run each application makes at most one call in a tick, on a flow or as a line of the log.
pub fn applications_make_one_call_a_tick()
    ensures { (s : Scenario) (log : RunLog) (app tick : ℕ) → Run s log
        → Each (λ (h : HostRun). calls_at app tick h ≤ 1) log.hosts }
{}

/// Each flow that is opened gets the slot that is then the lowest free one of its host.
pub fn openings_get_the_lowest_slot<S, A>()
    // So it is in every right tick of a host, whatever its applications ask, as those of a replay are,
    ensures every { InEveryTick S A (λ scripts t due before after. OpenedInLowest before.host after.host) }
    // and in each tick of a run of a scenario.
    ensures ticks { (s : Scenario) (log : RunLog) (run : Run s log) → InEachTick s log run (λ x.
        OpenedInLowest x.before x.after) }
{}

/// In each tick of a run, what a Send of an application took are the next bytes of its script's text, behind those that
/// were taken before.
pub fn sends_take_the_next_bytes()
    ensures { (s : Scenario) (log : RunLog) (run : Run s log) → InEachTick s log run (HadSends s) }
{}
