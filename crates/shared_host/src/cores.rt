// The cores of a host, each with its queue and its worker.
ghost use Rattle.std.specs.Prelude.{◌≡◌, ◌<◌, ◌≤◌, ◌+◌, [], true, map, IfOk, OnOk};
ghost use Rattle.shared_host.specs.Cores.{AreCores, first_sender, kicking_on};
ghost use Rattle.shared_host.specs.SlowPaths.{IsNewSlow, with_split};

use context_queue::ContextQueue;
use core_worker::CoreWorker;
use flow_lock::FlowTable;
use flow_state::FlowRecord;
use slow_worker::SlowWorker;
use std::alloc::{AllocError, Global};
use std::sync::Wait;

/// How many notes each queue of a host holds.
pub(crate) const QUEUE_ROOM: u32 = 1024;

/// The cores of a host, the first first.
#[derive(Drop)]
pub(crate) struct Cores {
    pub(crate) kicks: Vec<ContextQueue>,
    pub(crate) workers: Vec<CoreWorker>,
}

/// So many cores of a host, up to 16, with passes that are split off from the slow path's, which has the one sender of
/// each core's queue of kicks. The error is want of memory.
pub(crate) fn make_cores<R: Wait>(
    rt: &R,
    alloc: Global,
    host: u32,
    table: &FlowTable<FlowRecord>,
    slow: &mut SlowWorker,
    cores: u32,
) -> Result<Cores, AllocError>
    requires host { host < 67108863 }
    requires cores { cores ≤ 16 }
    requires slow { IsNewSlow slow.old.path.params table.now 0 cores slow.old }
    requires none { slow.old.kickers.senders ≡ [] }
    ensures made { IfOk result (λ made. AreCores host table.now cores made.kicks.items made.workers.items) }
    ensures slow { OnOk result (IsNewSlow slow.old.path.params table.now cores 0 slow.new) }
    ensures kickers { IfOk result (λ made. slow.new.kickers ≡ kicking_on slow.old.kickers.steer made.kicks.items) }
{
    let mut made = Cores {
        kicks: Vec::new(alloc),
        workers: Vec::new(alloc),
    };
    for core in 0..cores {
        add_core(rt, alloc, host, table, slow, &mut made, core)?;
    }
    Ok(made)
}

/// Adds the next core. The error is want of memory.
fn add_core<R: Wait>(
    rt: &R,
    alloc: Global,
    host: u32,
    table: &FlowTable<FlowRecord>,
    slow: &mut SlowWorker,
    cores: &mut Cores,
    core: u32,
) -> Result<(), AllocError>
    requires host { host < 67108863 }
    requires core { core < 16 }
    requires table { slow.old.pass.table ≡ table.now }
    requires split { (1 < slow.old.pass.view.parts) × (slow.old.pass.view.baton ≡ true) }
    requires made { slow.old.pass.view.made ≡ 1 + core }
    requires reader { 0 < slow.old.index.left }
    requires cores { AreCores host table.now core cores.old.kicks.items cores.old.workers.items }
    requires kickers { slow.old.kickers.senders ≡ map first_sender cores.old.kicks.items }
    ensures cores { OnOk result (AreCores host table.now (core + 1) cores.new.kicks.items cores.new.workers.items) }
    ensures pass { OnOk result (slow.new.pass ≡ with_split slow.old.pass) }
    ensures reader { OnOk result (slow.new.index.left + 1 ≡ slow.old.index.left) }
    ensures index { OnOk result ((slow.new.index.published ≡ slow.old.index.published)
        × (slow.new.index.pending ≡ slow.old.index.pending)) }
    ensures kickers { OnOk result (slow.new.kickers.senders ≡ map first_sender cores.new.kicks.items) }
    ensures steer { slow.new.kickers.steer ≡ slow.old.kickers.steer }
    ensures rest { slow.new
        ≡ record slow.old { pass = slow.new.pass; index = slow.new.index; kickers = slow.new.kickers } }
{
    let (queue, mut kicks) = ContextQueue::new(alloc, QUEUE_ROOM)?;
    let sender = queue.sender(alloc, &mut kicks)?;
    slow.add_kicker(sender)?;
    let pass = table.split(&mut slow.pass);
    let reader = slow.reader(rt)?;
    let worker = CoreWorker::new(alloc, host, core, pass, reader, kicks);
    cores.kicks.push(queue)?;
    cores.workers.push(worker)?;
    Ok(())
}
