//! The laws of runs of scenarios.

ghost use Rattle.tas_model.specs.declared.entry.HostParams.{HostParams};
ghost use Rattle.host_rounds.specs.Logs.{RunLog};
ghost use Rattle.host_rounds.specs.Moves.{AreByMoves};
ghost use Rattle.host_rounds.specs.Cores.{CoresBelow};
ghost use Rattle.scenario_text.specs.declared.scenario.Scenario.{Scenario};
ghost use Rattle.scenario_runs.specs.Worlds.{scripts_of};
ghost use Rattle.scenario_runs.specs.Runs.{Run, serial_run};
ghost use Rattle.scenario_runs.specs.Histories.{AreInRange, AreSound};

/// Whatever the applications of a scenario ask is a row of calls that an application may make, kills among them, so
/// that the laws of every host in a run are those of its hosts.
pub fn scenarios_ask_by_moves()
    ensures { (s : Scenario) (params : HostParams) → AreByMoves (scripts_of s params) }
{}

/// The run in serial order is a run of its scenario.
pub fn serial_order_is_right()
    ensures { (s : Scenario) → Run s (serial_run s) }
{}

/// The run in serial order has one core a host, which is core 0: no other makes an entry.
pub fn serial_order_has_one_core()
    ensures { (s : Scenario) → CoresBelow 1 (serial_run s).hosts }
{}

/// In every run of a scenario, whatever the order of its ticks, each flow is sound: it has a history of the
/// endpoint, it read a prefix of every stream that its peer may have sent, and it acknowledged only what stands in
/// order.
pub fn flows_are_sound()
    ensures { (s : Scenario) (log : RunLog) → AreInRange s.hosts → Run s log → AreSound log.hosts }
{}
