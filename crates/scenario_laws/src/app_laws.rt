//! The laws of ports, kills and sockets.

ghost use Rattle.std.specs.Prelude.{◌≡◌, ℕ, ◌≤◌, ◌<◌, List, [], ◌∷◌, length, true, false, Some};
ghost use Rattle.tas_model.specs.declared.entry.HostParams.{HostParams};
ghost use Rattle.host_rounds.specs.Logs.{HostRun, Flow, RunLog};
ghost use Rattle.host_rounds.specs.Lists.{Each};
ghost use Rattle.host_rounds.specs.Hosts.{Host, Starts, first_port, ports_given, Waiting, Application};
ghost use Rattle.scenario_text.specs.declared.scenario.Scenario.{Scenario};
ghost use Rattle.scenario_ranges.specs.Ranges.{IsInRange};
ghost use Rattle.scenario_runs.specs.Applications.{Script, Turn, connects, refused};
ghost use Rattle.scenario_runs.specs.Runs.{Run};
ghost use Rattle.scenario_laws.specs.Ticks.{InEachTick};
ghost use Rattle.scenario_laws.specs.Ports.{HaveNext, begins_by_connect, connect_ports, ports_from, all_ports};
ghost use Rattle.scenario_laws.specs.Ports.{had_no_port};
ghost use Rattle.scenario_laws.specs.Kills.{IsKilled, CalledBefore, abort_ticks, AbortsByKill, HadKills};
ghost use Rattle.scenario_laws.specs.Sockets.{holder_in, AreByHolder, entries_before};
ghost use Rattle.scenario_laws.specs.Names.{AreOwn, holder_at};
ghost use Rattle.scenario_laws.specs.Turns.{turn_on};

/// The connects of a host get the ports from 49,152 on, one after the other and each once, where the scenario keeps
/// the ranges of its grammar, as each does that is read from a text: there nobody listens on one of these ports.
pub fn connects_have_ports_in_order()
    // Whatever the scenario is, a connect gets the port that comes after as many as the host's flows before it have.
    ensures next { (s : Scenario) (log : RunLog) → Run s log
        → Each (λ (h : HostRun). HaveNext 0 h.flows) log.hosts }
    // In its ranges, the flows that connects of a host opened have these local ports, in the order of their opening.
    ensures ports { (s : Scenario) (log : RunLog) → IsInRange s → Run s log → Each (λ (h : HostRun).
        connect_ports h.flows ≡ ports_from first_port (length (connect_ports h.flows))) log.hosts }
    // A host has 16,384 of them at most,
    ensures most { (s : Scenario) (log : RunLog) → IsInRange s → Run s log → Each (λ (h : HostRun).
        length (connect_ports h.flows) ≤ all_ports) log.hosts }
    // and where so many were given, a connect that finds a free slot is refused for want of a port.
    ensures refused { (starts : Starts) (slot t : ℕ) (socket : List ℕ) (raddr rport : ℕ) (x : Turn)
        → ports_given x.host ≡ all_ports
        → connects starts (Some slot) t socket raddr rport x ≡ refused true t raddr rport x }
    // A connect was refused so only where all of them were given.
    ensures wanting { (s : Scenario) (log : RunLog) → IsInRange s → Run s log → Each (λ (h : HostRun).
        had_no_port h.log ≡ true → length (connect_ports h.flows) ≡ all_ports) log.hosts }
    // Each other flow was opened for a SYN, at a port below these.
    ensures listeners { (s : Scenario) (log : RunLog) → IsInRange s → Run s log → Each (λ (h : HostRun).
        Each (λ (f : Flow). begins_by_connect f.entries ≡ false → f.tuple.lport < first_port) h.flows) log.hosts }
{}

/// An application that is killed makes no call from then on, and the slow path aborts its flows.
pub fn kills_end_applications()
    // Each call that an application made is of a tick before that of its kill.
    ensures calls { (s : Scenario) (log : RunLog) (number at : ℕ) → IsKilled s number at → Run s log
        → Each (λ (h : HostRun). Each (λ (f : Flow). CalledBefore number at f.entries) h.flows) log.hosts }
    // In each tick of a run, each flow that a kill concerns when its turn comes has then one Abort by the slow path,
    // which is of this tick: each that the application holds, and each that waits at its listeners and is not closed.
    ensures aborted { (s : Scenario) (log : RunLog) (run : Run s log) → InEachTick s log run (HadKills s) }
    // No flow of a log has two such Aborts, and each is of the tick of a kill of an application of its host.
    ensures once { (s : Scenario) (log : RunLog) → Run s log
        → Each (λ (h : HostRun). Each (AbortsByKill s h.name) h.flows) log.hosts }
    // Where the run came to the tick of the kill, each flow that the application had before that tick, as its history
    // shows, has one such Abort, which is of this tick,
    ensures held { (s : Scenario) (log : RunLog) (number at : ℕ) → IsKilled s number at → at < log.ticks → Run s log
        → Each (λ (h : HostRun). Each (λ (f : Flow).
        holder_in Waiting (entries_before at f.entries) ≡ Application number → abort_ticks f.entries ≡ at ∷ [])
        h.flows) log.hosts }
    // and the application has no flow in the end.
    ensures left { (s : Scenario) (log : RunLog) (number at : ℕ) → IsKilled s number at → at < log.ticks → Run s log
        → Each (λ (h : HostRun). Each (λ (f : Flow).
        holder_in Waiting f.entries ≡ Application number → ⊥) h.flows) log.hosts }
{}

/// Each call of an application is on a socket that it has, as the history of the flow shows, or gets it one that
/// nobody has; and the slow path aborts the flow of an application in the tick of its kill alone.
pub fn applications_use_their_own_sockets()
    ensures { (s : Scenario) (log : RunLog) → Run s log
        → Each (λ (h : HostRun). Each (λ (f : Flow). AreByHolder s Waiting f.entries) h.flows) log.hosts }
{}

/// The names of each script stand for sockets of its own application, and stay so with each turn of an application.
pub fn names_stand_for_own_sockets()
    // After a turn the names of its own script do,
    ensures own { (s : Scenario) (p : HostParams) (t : ℕ) (host : Host) (x : Script)
        → AreOwn host.flows x.number x.names
        → AreOwn (turn_on s p t host x).host.flows x.number (turn_on s p t host x).script.names }
    // and each other application has the sockets that it had.
    ensures others { (s : Scenario) (p : HostParams) (t : ℕ) (host : Host) (x : Script)
        → AreOwn host.flows x.number x.names → (number : ℕ) → (number ≡ x.number → ⊥) → (flow : ℕ)
        → holder_at host.flows flow ≡ Application number
        → holder_at (turn_on s p t host x).host.flows flow ≡ Application number }
{}
