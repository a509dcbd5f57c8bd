//! The laws of Controls and of the steps of scripts.

ghost use Rattle.host_rounds.specs.Logs.{HostRun, RunLog};
ghost use Rattle.host_rounds.specs.Lists.{Each};
ghost use Rattle.host_rounds.specs.Hosts.{Live};
ghost use Rattle.scenario_text.specs.declared.scenario.Scenario.{Scenario};
ghost use Rattle.scenario_runs.specs.Runs.{Run};
ghost use Rattle.scenario_laws.specs.Ticks.{InEachTick};
ghost use Rattle.scenario_laws.specs.Controls.{IsControlled};
ghost use Rattle.scenario_laws.specs.Turns.{OfEachScript, HadTurns, GoesOn};

/// The rate of a flow is controlled directly behind each Tick in which that is due and which left the flow past
/// SYN-RECEIVED and not closed; and nowhere else.
pub fn rates_are_controlled()
    // So it is of each flow after each tick of a run,
    ensures ticks { (s : Scenario) (log : RunLog) (run : Run s log) → InEachTick s log run (λ x.
        Each (λ (l : Live). IsControlled l.flow) x.after.flows) }
    // and when the run has ended.
    ensures ended { (s : Scenario) (log : RunLog) → Run s log
        → Each (λ (h : HostRun). Each IsControlled h.flows) log.hosts }
{}

/// In each tick of a run each application has one turn on its own host, and its script becomes what that turn leaves
/// of it: it goes one step on at most.
pub fn scripts_go_step_by_step()
    // There is a right order of the tick in which each script has one turn: on its own host as the deeds before that
    // turn left it. After the tick the script is what the turn left of it.
    ensures asked { (s : Scenario) (log : RunLog) (run : Run s log) → InEachTick s log run (HadTurns s) }
    // It stands at the same step then or at the next one, never further and never back; and where the application is
    // killed in the tick, no step is left.
    ensures steps { (s : Scenario) (log : RunLog) (run : Run s log) → InEachTick s log run (λ x.
        OfEachScript (GoesOn x.tick) x.scripts_before x.scripts_after) }
{}
