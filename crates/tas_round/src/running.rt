//! The run of a scenario, in serial order or on cores.

ghost use Rattle.std.specs.Prelude.{◌≡◌, ◌≤◌, length, map, IfOk};
ghost use Rattle.host_rounds.specs.Lists.{Each};
ghost use Rattle.host_rounds.specs.Cores.{CoresBelow};
ghost use Rattle.scenario_ranges.specs.Ranges.{IsInRange};
ghost use Rattle.scenario_runs.specs.Runs.{Run, serial_run};
ghost use Rattle.local_host.specs.Live.{IsLegal};
ghost use Rattle.local_host.specs.declared.host.HostEnd.{HostEnd};
ghost use Rattle.scenario_world.specs.Ends as left;
ghost use Rattle.tas_round.specs.Runs.{host_in, log_in, AreCores, cores_of};
ghost use Rattle.tas_round.specs.declared.replaying.Mode.{Mode};

use crate::logs::{FlowList, HostRun, HostRuns, RunLog};
use crate::replaying::Mode;
use local_host::HostEnd;
use scenario_runs::serial_order_is_right;
use scenario_text::{HostLine, Lines, Scenario};
use scenario_world::{WorldEnd, play_scenario};
use shared_world::play_scenario_on_cores;
use std::alloc::{AllocError, Global};
use std::sync::Wait;
use std::thread::Threads;
use tas_model::Bytes;
use tas_num::Gate;

/// Runs a scenario to its end, tick by tick. The error is want of memory.
pub fn run<R: Threads + Wait + Sync, G: Gate + Sync>(
    rt: &R,
    alloc: Global,
    s: &Scenario,
    mode: Mode,
    gate: &G,
) -> Result<RunLog, AllocError>
    requires ranges { IsInRange s.now }
    requires cores { AreCores mode }
    // Whatever the mode, it is a run of the scenario.
    ensures run { IfOk result (λ log. Run s.now (log_in log)) }
    // On one thread it is the one in serial order.
    ensures serial { mode ≡ Mode.Serial → IfOk result (λ log. serial_run s.now ≡ log_in log) }
    // Each entry that a core made was made by one of its host's, which are so many.
    ensures below { IfOk result (λ log. CoresBelow (cores_of mode) (log_in log).hosts) }
{
    match mode {
        Mode::Serial => run_serially(alloc, s),
        Mode::Cores(count) => run_on_cores(rt, alloc, s, count, gate),
    }
}

/// The same on hosts with so many cores each. The error is want of memory.
fn run_on_cores<R: Threads + Wait + Sync, G: Gate + Sync>(
    rt: &R,
    alloc: Global,
    s: &Scenario,
    count: u32,
    gate: &G,
) -> Result<RunLog, AllocError>
    requires ranges { IsInRange s.now }
    requires cores { (1 ≤ count) × (count ≤ 16) }
    ensures run { IfOk result (λ log. Run s.now (log_in log)) }
    ensures below { IfOk result (λ log. CoresBelow count (log_in log).hosts) }
{
    let end = play_scenario_on_cores(rt, alloc, s, count, gate)?;
    log_of(alloc, s, end)
}

/// The same on one thread: it waits for nobody, and so always returns.
pub fn run_serially(alloc: Global, s: &Scenario) -> Result<RunLog, AllocError>
    requires ranges { IsInRange s.now }
    ensures run { IfOk result (λ log. Run s.now (log_in log)) }
    ensures serial { IfOk result (λ log. serial_run s.now ≡ log_in log) }
    ensures below { IfOk result (λ log. CoresBelow 1 (log_in log).hosts) }
{
    let end = play_scenario(alloc, s)?;
    let log = log_of(alloc, s, end)?;
    // Why the run in serial order is a run.
    serial_order_is_right();
    Ok(log)
}

/// The log of a run that left this. The error is want of memory.
fn log_of(alloc: Global, s: &Scenario, end: WorldEnd) -> Result<RunLog, AllocError>
    requires hosts { length end.hosts.items ≡ length s.now.hosts }
    requires legal { Each (λ (e : HostEnd). Each IsLegal e.flows.items) end.hosts.items }
    ensures { IfOk result (λ log. log_in log ≡ left.log_of s.now end) }
{
    let hosts = host_runs(alloc, &s.hosts, end.hosts)?;
    Ok(RunLog {
        replay: false,
        hosts: HostRuns::of(hosts),
        ticks: end.ticks,
        stalled: end.stalled,
        records: 0,
        frames: 0,
        passed: 0,
        refused: 0,
    })
}

/// What the hosts of these lines leave, in their order. The error is want of memory.
fn host_runs(
    alloc: Global,
    lines: &Lines<HostLine>,
    ends: Vec<HostEnd>,
) -> Result<Vec<HostRun>, AllocError>
    requires hosts { length ends.items ≡ length lines.now }
    requires legal { Each (λ (e : HostEnd). Each IsLegal e.flows.items) ends.items }
    ensures { IfOk result (λ runs. map host_in runs.items ≡ left.host_runs lines.now ends.items) }
{
    let mut runs = Vec::with_capacity(alloc, lines.len())?;
    for end in ends {
        let line = lines.item(runs.len());
        runs.push(host_run(alloc, line, end)?)?;
    }
    Ok(runs)
}

/// What a host leaves, under its name and its address. The error is want of memory.
fn host_run(alloc: Global, line: &HostLine, end: HostEnd) -> Result<HostRun, AllocError>
    requires { Each IsLegal end.flows.items }
    ensures { IfOk result (λ run. host_in run ≡ left.host_run line.now end) }
{
    Ok(HostRun {
        name: Bytes::copy(alloc, line.name.as_slice())?,
        addr: line.params.addr,
        log: end.log,
        flows: FlowList::of(end.flows),
    })
}
