//! The run that was asked for is made.

ghost use Rattle.std.specs.Prelude.{◌≡◌, ◌≤◌, ℕ, Bool, true, List, [], length, Some, None, is_some, Ok, IfOk, IfErr};
ghost use Rattle.std.specs.declared.net.ipv4_addr.Ipv4Addr.{Ipv4Addr};
ghost use Rattle.host_rounds.specs.Cores.{CoresBelow};
ghost use Rattle.scenario_text.specs.Reads.{reads};
ghost use Rattle.scenario_text.specs.Bulk.{bulk_text};
ghost use Rattle.scenario_ranges.specs.Ranges.{IsInRange};
ghost use Rattle.tas_round.specs.Runs.{log_in, Refuses};
ghost use Rattle.program_words.specs.Words as asked;
ghost use Rattle.program_words.specs.Requests.{input_in};
ghost use Rattle.tas_top.specs.Runs.{IsRunOf, IsSerialRun};
ghost use Rattle.tas_top.specs.Stops.{Unrun};
ghost use Rattle.tas_top.specs.Jobs.{IsFit, IsLogOf};
ghost use Rattle.tas_top.specs.declared.stop.Stop.{Stop};

use crate::stop::Stop;
use program_words::{Input, Request};
use scenario_ranges::what_is_read_is_in_range;
use scenario_text::{Scenario, ScenarioFault, bulk_scenario, read_scenario};
use std::alloc::Global;
use std::net::Ipv4Addr;
use std::sync::Wait;
use std::thread::Threads;
use tas_num::Gate;
use tas_round::{Mode, ReplayFault, RunLog, replay, replay_serially, run, run_serially};

/// What the words ask for, and all bytes of its input; of a made scenario there are none.
#[derive(Drop)]
pub struct Job {
    pub asked: Request,
    pub bytes: Vec<u8>,
}

/// The log of the run that is asked for, in serial order; it waits for nobody. The error is that the bytes are none of
/// their kind, or want of memory.
pub fn run_in_order(alloc: Global, job: &Job) -> Result<RunLog, Stop>
    requires fit { IsFit job.now }
    requires serial { job.now.asked.cores ≡ None }
    ensures { IsLogOf job.now result }
{
    serial_run_of(alloc, job.asked.input, &job.bytes)
}

/// The log of the run that is asked for, on the cores that are asked for. The error is that the bytes are none of their
/// kind, or want of memory.
pub fn run_on_cores<R: Threads + Wait + Sync, G: Gate + Sync>(
    rt: &R,
    alloc: Global,
    job: &Job,
    gate: &G,
) -> Result<RunLog, Stop>
    requires fit { IsFit job.now }
    requires cores { is_some job.now.asked.cores ≡ true }
    ensures { IsLogOf job.now result }
{
    match job.asked.cores {
        Some(count) => run_on(rt, alloc, job.asked.input, count, &job.bytes, gate),
        None => unreachable!(),
    }
}

/// The log of the run of this input in serial order.
fn serial_run_of(alloc: Global, input: Input, bytes: &[u8]) -> Result<RunLog, Stop>
    requires short { length bytes.now ≤ 67108864 }
    requires clients { asked.HasClients (input_in input) }
    ensures ok { IfOk result (λ log. IsSerialRun (input_in input) bytes.now (log_in log)) }
    ensures refused { IfErr result (Unrun (input_in input) bytes.now) }
{
    match input {
        Input::Scenario => scenario_run(alloc, bytes),
        Input::Made { clients } => made_run(alloc, clients),
        Input::Capture { local, loose } => capture_replay(alloc, local, loose, bytes),
    }
}

/// The log of a run of this input on so many cores.
fn run_on<R: Threads + Wait + Sync, G: Gate + Sync>(
    rt: &R,
    alloc: Global,
    input: Input,
    count: u32,
    bytes: &[u8],
    gate: &G,
) -> Result<RunLog, Stop>
    requires short { length bytes.now ≤ 67108864 }
    requires clients { asked.HasClients (input_in input) }
    requires cores { asked.HasCores (Some count) }
    ensures ok { IfOk result (λ log. IsRunOf (input_in input) bytes.now (log_in log)) }
    ensures below { IfOk result (λ log. CoresBelow count (log_in log).hosts) }
    ensures refused { IfErr result (Unrun (input_in input) bytes.now) }
{
    match input {
        Input::Scenario => scenario_on_cores(rt, alloc, count, bytes, gate),
        Input::Made { clients } => made_on_cores(rt, alloc, clients, count, gate),
        Input::Capture { local, loose } => {
            capture_on_cores(rt, alloc, local, loose, count, bytes, gate)
        }
    }
}

/// The log of the run of a scenario in serial order.
fn scenario_run(alloc: Global, bytes: &[u8]) -> Result<RunLog, Stop>
    ensures ok { IfOk result (λ log. IsSerialRun asked.Scenario bytes.now (log_in log)) }
    ensures refused { IfErr result (Unrun asked.Scenario bytes.now) }
{
    let scenario = scenario_of(alloc, bytes)?;
    match run_serially(alloc, &scenario) {
        Ok(log) => Ok(log),
        Err(_) => Err(Stop::Memory),
    }
}

/// The log of a run of a scenario on so many cores.
fn scenario_on_cores<R: Threads + Wait + Sync, G: Gate + Sync>(
    rt: &R,
    alloc: Global,
    count: u32,
    bytes: &[u8],
    gate: &G,
) -> Result<RunLog, Stop>
    requires { asked.HasCores (Some count) }
    ensures ok { IfOk result (λ log. IsRunOf asked.Scenario bytes.now (log_in log)) }
    ensures below { IfOk result (λ log. CoresBelow count (log_in log).hosts) }
    ensures refused { IfErr result (Unrun asked.Scenario bytes.now) }
{
    let scenario = scenario_of(alloc, bytes)?;
    match run(rt, alloc, &scenario, Mode::Cores(count), gate) {
        Ok(log) => Ok(log),
        Err(_) => Err(Stop::Memory),
    }
}

/// The log of the run, in serial order, of the scenario that is made for so many clients. The error is want of memory.
fn made_run(alloc: Global, clients: u32) -> Result<RunLog, Stop>
    requires { asked.HasClients (asked.Made clients) }
    ensures ok { IfOk result (λ log. IsSerialRun (asked.Made clients) [] (log_in log)) }
    ensures memory { IfErr result (λ stop. stop ≡ Stop.Memory) }
{
    let scenario = made_scenario(alloc, clients)?;
    match run_serially(alloc, &scenario) {
        Ok(log) => Ok(log),
        Err(_) => Err(Stop::Memory),
    }
}

/// The log of a run, on so many cores, of the scenario that is made for so many clients. The error is want of memory.
fn made_on_cores<R: Threads + Wait + Sync, G: Gate + Sync>(
    rt: &R,
    alloc: Global,
    clients: u32,
    count: u32,
    gate: &G,
) -> Result<RunLog, Stop>
    requires clients { asked.HasClients (asked.Made clients) }
    requires cores { asked.HasCores (Some count) }
    ensures ok { IfOk result (λ log. IsRunOf (asked.Made clients) [] (log_in log)) }
    ensures below { IfOk result (λ log. CoresBelow count (log_in log).hosts) }
    ensures memory { IfErr result (λ stop. stop ≡ Stop.Memory) }
{
    let scenario = made_scenario(alloc, clients)?;
    match run(rt, alloc, &scenario, Mode::Cores(count), gate) {
        Ok(log) => Ok(log),
        Err(_) => Err(Stop::Memory),
    }
}

/// The scenario that these bytes are, which may be run.
fn scenario_of(alloc: Global, bytes: &[u8]) -> Result<Scenario, Stop>
    ensures ok { IfOk result (λ s. reads bytes.now ≡ Ok s) }
    ensures ranges { IfOk result (λ s. IsInRange s) }
    ensures refused { IfErr result (Unrun asked.Scenario bytes.now) }
{
    what_is_read_is_in_range();
    match read_scenario(alloc, bytes) {
        Ok(scenario) => Ok(scenario),
        Err(ScenarioFault::OutOfMemory) => Err(Stop::Memory),
        Err(ScenarioFault::Refused { line, .. }) => Err(Stop::Line { number: line }),
    }
}

/// The scenario that is made for so many clients, which may be run. The error is want of memory.
fn made_scenario(alloc: Global, clients: u32) -> Result<Scenario, Stop>
    requires { asked.HasClients (asked.Made clients) }
    ensures ok { IfOk result (λ s. reads (bulk_text clients) ≡ Ok s) }
    ensures ranges { IfOk result (λ s. IsInRange s) }
    ensures memory { IfErr result (λ stop. stop ≡ Stop.Memory) }
{
    what_is_read_is_in_range();
    match bulk_scenario(alloc, clients) {
        Ok(scenario) => Ok(scenario),
        Err(_) => Err(Stop::Memory),
    }
}

/// The log of the replay, in serial order, of a capture on the host with this address.
fn capture_replay(alloc: Global, local: Ipv4Addr, loose: bool, bytes: &[u8]) -> Result<RunLog, Stop>
    requires { length bytes.now ≤ 67108864 }
    ensures ok { IfOk result (λ log. IsSerialRun (asked.Capture local loose) bytes.now (log_in log)) }
    ensures refused { IfErr result (Unrun (asked.Capture local loose) bytes.now) }
{
    match replay_serially(alloc, local.to_bits(), bytes, loose) {
        Ok(log) => Ok(log),
        Err(fault) => Err(stop_of(fault)),
    }
}

/// The log of a replay, on so many cores, of a capture on the host with this address.
fn capture_on_cores<R: Threads + Wait + Sync, G: Gate + Sync>(
    rt: &R,
    alloc: Global,
    local: Ipv4Addr,
    loose: bool,
    count: u32,
    bytes: &[u8],
    gate: &G,
) -> Result<RunLog, Stop>
    requires short { length bytes.now ≤ 67108864 }
    requires cores { asked.HasCores (Some count) }
    ensures ok { IfOk result (λ log. IsRunOf (asked.Capture local loose) bytes.now (log_in log)) }
    ensures below { IfOk result (λ log. CoresBelow count (log_in log).hosts) }
    ensures refused { IfErr result (Unrun (asked.Capture local loose) bytes.now) }
{
    match replay(
        rt,
        alloc,
        local.to_bits(),
        bytes,
        loose,
        Mode::Cores(count),
        gate,
    ) {
        Ok(log) => Ok(log),
        Err(fault) => Err(stop_of(fault)),
    }
}

/// The stop that tells of this fault of a replay.
fn stop_of(fault: ReplayFault) -> Stop
    ensures { (local : Ipv4Addr) (loose : Bool) (b : List ℕ) → Refuses b fault
        → Unrun (asked.Capture local loose) b result }
{
    match fault {
        ReplayFault::OutOfMemory => Stop::Memory,
        ReplayFault::Pcap(fault) => Stop::Record {
            number: fault.record(),
        },
    }
}
