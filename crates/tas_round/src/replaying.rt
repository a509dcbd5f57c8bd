//! A replay, and what refuses it.

ghost use Rattle.std.specs.Prelude.{◌≡◌, ℕ, ◌≤◌, ◌<◌, ◌^◌, List, length, count_by, codes, Ok, IfOk, IfErr};
ghost use Rattle.tas_runs.specs.Records as model;
ghost use Rattle.tas_runs.specs.Records.{is_damaged};
ghost use Rattle.tas_runs.specs.Batches.{batches_of};
ghost use Rattle.host_rounds.specs.Hosts.{run_of};
ghost use Rattle.host_rounds.specs.Cores.{CoresBelow};
ghost use Rattle.tas_runs.specs.Replays.{replay_log, Replay};
ghost use Rattle.tas_runs.specs.SerialOrder.{serial_replay};
ghost use Rattle.capture_items.specs.Found.{IsFound};
ghost use Rattle.capture_items.specs.Starts.{AreStartsOf};
ghost use Rattle.tas_round.specs.Runs.{host_in, log_in, AreCores, cores_of, Ended, Refuses};
ghost use Rattle.tas_round.specs.declared.replaying.Mode.{Mode};

use crate::logs::{FlowList, HostRun, HostRuns, RunLog};
use crate::on_cores::replay_on_cores;
use capture_items::{BatchReader, FlowStarts, Found, InputFault, ItemReader, Tally, find_items};
use local_host::LocalReplay;
use pcap_frames::PcapRefused;
use std::alloc::{AllocError, Global};
use std::sync::Wait;
use std::thread::Threads;
use tas_model::Bytes;
use tas_num::Gate;

/// Who does the work of a run.
#[derive(Clone, Copy, PartialEq, Eq, Debug)]
pub enum Mode {
    /// One thread, in serial order.
    Serial,
    /// So many cores of each host, from 1 to 16: in each tick they take frames side by side, each on a thread of its
    /// own.
    Cores(u32),
}

/// Why a capture was not replayed.
#[derive(Clone, Copy, PartialEq, Eq, Debug)]
pub enum ReplayFault {
    /// There was no memory.
    OutOfMemory,
    /// The bytes are no capture.
    Pcap(PcapRefused),
}

impl From<AllocError> for ReplayFault {
    ghost use Rattle.tas_round.specs.declared.replaying.ReplayFault.{ReplayFault};

    ghost from_gives = { λ _ fault. fault ≡ ReplayFault.OutOfMemory };

    fn from(_: AllocError) -> ReplayFault {
        ReplayFault::OutOfMemory
    }
}

/// A replay after its last tick, and how many ticks and items there were.
#[derive(Drop)]
pub struct Ending {
    pub replay: LocalReplay,
    pub ticks: u32,
    pub tally: Tally,
}

/// Replays a capture on the host with the address `local`, tick by tick. With `loose` no checksum of a frame is looked
/// at. `OutOfMemory` is want of memory; `Pcap` says why the bytes are no capture.
pub fn replay<R: Threads + Wait + Sync, G: Gate + Sync>(
    rt: &R,
    alloc: Global,
    local: u32,
    capture: &[u8],
    loose: bool,
    mode: Mode,
    gate: &G,
) -> Result<RunLog, ReplayFault>
    requires small { length capture.now ≤ 67108864 }
    requires cores { AreCores mode }
    // Whatever the mode, it is a run of the capture.
    ensures run { IfOk result (λ log. Replay local capture.now loose (log_in log)) }
    // On one thread it is the one in serial order.
    ensures serial { mode ≡ Mode.Serial
        → IfOk result (λ log. serial_replay local capture.now loose ≡ Ok (log_in log)) }
    // Each entry that a core made was made by one of so many.
    ensures below { IfOk result (λ log. CoresBelow (cores_of mode) (log_in log).hosts) }
    ensures refused { IfErr result (Refuses capture.now) }
{
    match mode {
        Mode::Serial => replay_serially(alloc, local, capture, loose),
        Mode::Cores(count) => replay_on_cores(rt, alloc, local, capture, loose, count, gate),
    }
}

/// The same on one thread: it waits for nobody, and so always returns.
pub fn replay_serially(
    alloc: Global,
    local: u32,
    capture: &[u8],
    loose: bool,
) -> Result<RunLog, ReplayFault>
    requires small { length capture.now ≤ 67108864 }
    ensures run { IfOk result (λ log. Replay local capture.now loose (log_in log)) }
    ensures serial { IfOk result (λ log. serial_replay local capture.now loose ≡ Ok (log_in log)) }
    ensures below { IfOk result (λ log. CoresBelow 1 (log_in log).hosts) }
    ensures refused { IfErr result (Refuses capture.now) }
{
    let Found {
        items,
        starts,
        records,
    } = find(alloc, local, capture, loose)?;
    let ending = run_batches(alloc, local, items, &starts)?;
    let log = log_of(alloc, records, ending)?;
    Ok(log)
}

/// What the capture has for the host with the address `local`.
pub(crate) fn find<'a>(
    alloc: Global,
    local: u32,
    capture: &'a [u8],
    loose: bool,
) -> Result<Found<'a>, ReplayFault>
    requires small { length capture.now ≤ 67108864 }
    ensures found { IfOk result (IsFound capture.now local loose) }
    ensures few { IfOk result (λ found. length found.items ≤ found.records) }
    ensures refused { IfErr result (Refuses capture.now) }
{
    match find_items(alloc, capture, local, loose) {
        Ok(found) => Ok(found),
        Err(InputFault::Refused(fault)) => Err(ReplayFault::Pcap(fault)),
        Err(InputFault::OutOfMemory) => Err(ReplayFault::OutOfMemory),
    }
}

/// The replay after all batches of these items, each of which is read where it stands when its tick comes.
fn run_batches(
    alloc: Global,
    local: u32,
    items: ItemReader<'_>,
    starts: &FlowStarts,
) -> Result<Ending, AllocError>
    requires starts { AreStartsOf items starts.now }
    requires few { length items < 2 ^ 32 }
    ensures ended { IfOk result (Ended local items.entry) }
    ensures few { IfOk result (λ ending. ending.tally.refused ≤ ending.tally.items) }
{
    let mut left = BatchReader::of(items);
    let mut replay = LocalReplay::at_start(alloc, local);
    let mut batch = Vec::new(alloc);
    let mut tally = Tally::new();
    let mut ticks = 0;
    loop {
        left.next_batch(&mut batch)?;
        if batch.is_empty() {
            return Ok(Ending {
                replay,
                ticks,
                tally,
            });
        }
        replay.play(ticks, &batch, starts)?;
        tally = tally.with(&batch);
        ticks += 1;
    }
}

/// The log of a replay with this ending, of a capture of so many records. The error is want of memory.
pub(crate) fn log_of(alloc: Global, records: u32, ending: Ending) -> Result<RunLog, AllocError>
    requires items { ending.tally.items ≤ records }
    requires refused { ending.tally.refused ≤ ending.tally.items }
    ensures { (local : ℕ) (items : List model.Item) → ending.ticks ≡ length (batches_of items)
        → ending.tally.items ≡ length items → ending.tally.refused ≡ count_by is_damaged items
        → IfOk result (λ log. log_in log ≡ replay_log local records items ending.replay.host) }
{
    let counts = ending.tally.counts(records);
    let ticks = ending.ticks;
    let host = host_run(alloc, ending.replay)?;
    Ok(RunLog {
        replay: true,
        hosts: HostRuns::of(vec![in alloc; host]?),
        ticks,
        stalled: false,
        records: counts.records,
        frames: counts.frames,
        passed: counts.passed,
        refused: counts.refused,
    })
}

/// What the one host of a replay leaves. The error is want of memory.
fn host_run(alloc: Global, replay: LocalReplay) -> Result<HostRun, AllocError>
    ensures { IfOk result (λ run. host_in run ≡ run_of (codes "local") replay.host) }
{
    let addr = replay.params().addr;
    let end = replay.finish()?;
    Ok(HostRun {
        name: Bytes::copy(alloc, b"local")?,
        addr,
        log: end.log,
        flows: FlowList::of(end.flows),
    })
}
