//! A replay on cores.

ghost use Rattle.std.specs.Prelude.{◌≤◌, ◌<◌, ◌^◌, length, IfOk, IfErr};
ghost use Rattle.host_rounds.specs.Cores.{CoresBelow};
ghost use Rattle.tas_runs.specs.Replays.{Replay};
ghost use Rattle.capture_items.specs.Starts.{AreStartsOf};
ghost use Rattle.tas_round.specs.Runs.{log_in, EndedRight, Refuses};

use crate::logs::RunLog;
use crate::replaying::{Ending, ReplayFault, find, log_of};
use capture_items::{BatchReader, FlowStarts, Found, ItemReader, Tally};
use local_host::{Cores, LocalReplay};
use std::alloc::{AllocError, Global};
use std::sync::Wait;
use std::thread::Threads;
use tas_num::Gate;

/// Replays a capture on a host with so many cores.
pub(crate) fn replay_on_cores<R: Threads + Wait + Sync, G: Gate + Sync>(
    rt: &R,
    alloc: Global,
    local: u32,
    capture: &[u8],
    loose: bool,
    count: u32,
    gate: &G,
) -> Result<RunLog, ReplayFault>
    requires small { length capture.now ≤ 67108864 }
    requires cores { (1 ≤ count) × (count ≤ 16) }
    ensures run { IfOk result (λ log. Replay local capture.now loose (log_in log)) }
    ensures below { IfOk result (λ log. CoresBelow count (log_in log).hosts) }
    ensures refused { IfErr result (Refuses capture.now) }
{
    let Found {
        items,
        starts,
        records,
    } = find(alloc, local, capture, loose)?;
    let mut cores = Cores::new(alloc, 0, count)?;
    let ending = run_batches(rt, alloc, local, items, &starts, &mut cores, gate)?;
    let log = log_of(alloc, records, ending)?;
    Ok(log)
}

/// The replay after all batches of these items, each of which is read where it stands when its tick comes.
fn run_batches<R: Threads + Wait + Sync, G: Gate + Sync>(
    rt: &R,
    alloc: Global,
    local: u32,
    items: ItemReader<'_>,
    starts: &FlowStarts,
    cores: &mut Cores,
    gate: &G,
) -> Result<Ending, AllocError>
    requires starts { AreStartsOf items starts.now }
    requires few { length items < 2 ^ 32 }
    ensures ended { IfOk result (EndedRight local cores.old.count items.entry) }
    ensures few { IfOk result (λ ending. ending.tally.refused ≤ ending.tally.items) }
{
    let mut left = BatchReader::of(items);
    let mut replay = LocalReplay::at_start(alloc, local);
    let mut batch = Vec::new(alloc);
    let mut tally = Tally::new();
    let mut ticks = 0;
    loop {
        left.next_batch(&mut batch)?;
        if batch.is_empty() {
            return Ok(Ending {
                replay,
                ticks,
                tally,
            });
        }
        replay.play_on_cores(rt, ticks, &batch, starts, cores, gate)?;
        tally = tally.with(&batch);
        ticks += 1;
    }
}
