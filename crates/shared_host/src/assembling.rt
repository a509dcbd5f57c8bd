//! A host of shared flows is put together.

ghost use Rattle.std.specs.Prelude.{◌≡◌, ◌<◌, ◌≤◌, [], ◌∷◌, length, IfOk};
ghost use Rattle.tas_model.specs.Valid.{InRange};
ghost use Rattle.steering.specs.Tables.{first_table};
ghost use Rattle.host_rounds.specs.Lists.{Each};
ghost use Rattle.core_worker.specs.Workers.{IsFree, HasQueue, HasSenders};
ghost use Rattle.slow_worker.specs.Kicking.{CanKick};
ghost use Rattle.slow_worker.specs.Workers.{sight_of, IsSound};
ghost use Rattle.shared_host.specs.Cores.{AreNumbered, AreTurned, IsNew, HasRoom, HasOneSender, kicking_on};
ghost use Rattle.shared_host.specs.SlowPaths.{IsNewSlow};

use crate::cores::make_cores;
use core_worker::{CoreWorker, Shared};
use flow_index::IndexWriter;
use flow_lock::FlowTable;
use slow_handshake::SlowPath;
use slow_worker::SlowWorker;
use std::alloc::{AllocError, Global};
use std::sync::Wait;
use steering::{SteerPass, Steering};
use tas_model::HostParams;

/// A host put together: what its workers share, and the workers.
///
/// It is no `Drop`, since the slow path's worker is none.
pub struct Assembled {
    pub shared: Shared,
    pub slow: SlowWorker,
    /// The first pass to the steering, by which frames are handed to cores.
    pub steer: SteerPass,
    /// The workers of the cores, that of core 0 first.
    pub cores: Vec<CoreWorker>,
}

/// Puts a host together, by its place in the scenario, with 1 to 16 cores: no flow is open, and no application has been
/// added. The error is want of memory.
pub fn assemble<R: Wait>(
    rt: &R,
    alloc: Global,
    host: u32,
    params: HostParams,
    cores: u32,
) -> Result<Assembled, AllocError>
    requires host { host < 67108863 }
    requires params { InRange params }
    requires cores { (0 < cores) × (cores ≤ 16) }
    ensures count { IfOk result (λ a. length a.cores.items ≡ cores) }
    ensures numbers { IfOk result (λ a. AreNumbered 0 a.cores.items) }
    ensures new { IfOk result (λ a. Each (IsNew host) a.cores.items) }
    ensures free { IfOk result (λ a. Each (IsFree a.shared) a.cores.items) }
    ensures turns { IfOk result (λ a. AreTurned 1 a.cores.items) }
    ensures queues { IfOk result (λ a. Each (HasQueue a.shared) a.cores.items) }
    ensures senders { IfOk result (λ a. Each (HasSenders a.shared) a.cores.items) }
    ensures kicks { IfOk result (λ a. length a.shared.kicks ≡ cores) }
    ensures rooms { IfOk result (λ a. Each HasRoom a.shared.kicks) }
    ensures apps { IfOk result (λ a. a.shared.queues ≡ []) }
    ensures slots { IfOk result (λ a. a.shared.table.slots ≡ params.slots) }
    ensures steering { IfOk result (λ a. a.shared.steering.cores ≡ cores) }
    ensures steer { IfOk result (λ a. a.steer ≡ record {
      place = a.shared.steering;
      tables = first_table cores ∷ [];
    }) }
    ensures slow { IfOk result (λ a. IsNewSlow params a.shared.table cores 0 a.slow) }
    ensures sound { IfOk result (λ a. IsSound a.shared.table (sight_of a.slow)) }
    ensures sole { IfOk result (λ a. Each HasOneSender a.cores.items) }
    ensures kickers { IfOk result (λ a. a.slow.kickers ≡ kicking_on a.steer a.shared.kicks) }
    ensures can { IfOk result (λ a. CanKick a.shared a.slow.kickers) }
{
    let (table, pass) = FlowTable::new(alloc, params.slots)?;
    let (steering, mut steer) = Steering::new(alloc, cores)?;
    let own_steer = steering.pass(alloc, &mut steer)?;
    let path = SlowPath::new(alloc, params)?;
    let index = IndexWriter::new(alloc, cores)?;
    let mut slow = SlowWorker::new(alloc, path, pass, index, own_steer);
    match make_cores(rt, alloc, host, &table, &mut slow, cores) {
        Ok(made) => Ok(Assembled {
            shared: Shared::new(alloc, table, steering, made.kicks),
            slow,
            steer,
            cores: made.workers,
        }),
        Err(error) => {
            drop(slow.end(rt));
            Err(error)
        }
    }
}
