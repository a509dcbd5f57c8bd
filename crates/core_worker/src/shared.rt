//! What the workers of a host share: the queues of its applications and of its cores.

ghost use Rattle.std.specs.Prelude.{◌≡◌, ◌<◌, ◌++◌, ◌∷◌, [], length, slice_get, Some, None, OnOk, OnErr};
ghost use Rattle.std.specs.Prelude.{IfSome, IfNone, position};
ghost use Rattle.core_worker.specs.Telling.{queue_of, is_queue_of};

use app_reaper::NumberList;
use context_queue::ContextQueue;
use flow_lock::FlowTable;
use flow_state::FlowRecord;
use std::alloc::{AllocError, Global};
use std::marker::Model;
use steering::Steering;

/// The queue of an application, by the application's number.
#[derive(Drop)]
pub struct AppQueue {
    pub app: u32,
    pub queue: ContextQueue,
}

/// What the workers of a host share by `&`.
#[derive(Drop)]
pub struct Shared {
    /// The flows of the host.
    pub table: FlowTable<FlowRecord>,
    /// The cores of the groups of flows.
    pub steering: Steering,
    kicks: Vec<ContextQueue>,
    queues: Vec<AppQueue>,
    /// The numbers of the applications of these queues.
    apps: NumberList,
}

impl Model for Shared {
    ghost use Rattle.std.specs.Prelude.{◌≡◌, map};
    ghost use Rattle.core_worker.specs.Telling.{app_with};
    ghost use Rattle.core_worker.specs.Workers.{Common};

    ghost Value = { Common };

    ghost view = { λ s. record {
      table = s.table;
      steering = s.steering;
      kicks = s.kicks.items;
      queues = s.queues.items;
    } };

    ghost invariant = { λ s. s.apps.list ≡ map app_with s.queues.items };
}

impl Shared {
    /// What the workers share: the table, the steering, and for each core its queue of kicks. No application has a
    /// queue yet.
    pub fn new(
        alloc: Global,
        table: FlowTable<FlowRecord>,
        steering: Steering,
        kicks: Vec<ContextQueue>,
    ) -> Shared
        ensures { result ≡ record { table = table; steering = steering; kicks = kicks.items; queues = [] } }
    {
        Shared {
            table,
            steering,
            kicks,
            queues: Vec::new(alloc),
            apps: NumberList::new(alloc),
        }
    }

    /// Adds the queue of an application, which has none yet. The error is want of memory, and then the queue is gone
    /// and all else as it was.
    pub fn add_queue(&mut self, app: u32, queue: ContextQueue) -> Result<(), AllocError>
        requires first { queue_of app self.old.queues ≡ None }
        ensures ok { OnOk result (self.new ≡ record self.old {
          queues = self.old.queues ++ record { app = app; queue = queue } ∷ [];
        }) }
        ensures err { OnErr result (self.new ≡ self.old) }
    {
        self.apps.reserve()?;
        self.queues.push(AppQueue { app, queue })?;
        self.apps.put(app);
        Ok(())
    }

    /// The queue of the application that was added with this number.
    pub fn queue(&self, app: u32) -> Option<&ContextQueue>
        ensures some { IfSome result (λ queue. queue_of app self.now.queues ≡ Some queue.now) }
        ensures none { IfNone result (queue_of app self.now.queues ≡ None) }
    {
        let i = self.place_of(app)?;
        Some(&self.queues[i].queue)
    }

    /// Where that queue stands.
    fn place_of(&self, app: u32) -> Option<usize>
        ensures { result ≡ position (is_queue_of app) self.now.queues }
    {
        self.apps.place_of(app)
    }

    /// A core's queue of kicks.
    pub fn kicks(&self, core: u32) -> &ContextQueue
        requires { core < length self.now.kicks }
        ensures { slice_get self.now.kicks core ≡ Some result.now }
    {
        &self.kicks[core as usize]
    }
}
