//! Applications of a host of shared flows.

ghost use Rattle.std.specs.Prelude.{◌≡◌, ◌<◌, ◌+◌, ℕ, true, Some, None, IsSome, length, IfOk, OnOk, OnErr};
ghost use Rattle.host_rounds.specs.Lists.{Each};
ghost use Rattle.core_worker.specs.Telling.{queue_of};
ghost use Rattle.core_worker.specs.Workers.{IsFree, HasQueue, HasSenders};
ghost use Rattle.slow_worker.specs.Workers as slow_worker;
ghost use Rattle.shared_host.specs.SlowPaths.{with_slow_sender, with_app};
ghost use Rattle.shared_host.specs.Applications.{split_from, new_app, queue_at, new_sender, with_sender, with_queue};
ghost use Rattle.shared_host.specs.Applications.{AreGiven, IsPartAdded};

use crate::cores::QUEUE_ROOM;
use context_queue::{ContextQueue, ReceiverPass};
use core_worker::{CoreWorker, Shared};
use libtas_sockets::App;
use slow_worker::SlowWorker;
use std::alloc::{AllocError, Global};

/// Adds an application: it has a queue of its own and a pass, and each worker a sender for it, that of core k the
/// sender with the number k, and the slow path's the last. The error is want of memory; then the number may be used up,
/// with a queue that nobody takes from, and the first workers may have a sender for it.
pub fn add_app(
    alloc: Global,
    number: u32,
    shared: &mut Shared,
    slow: &mut SlowWorker,
    cores: &mut [CoreWorker],
) -> Result<App, AllocError>
    requires first { queue_of number shared.old.queues ≡ None }
    requires table { slow.old.pass.table ≡ shared.old.table }
    requires split { (1 < slow.old.pass.view.parts) × (slow.old.pass.view.baton ≡ true) }
    requires senders { Each (HasSenders shared.old) cores.old }
    requires slow_senders { slow_worker.HasSenders shared.old slow.old }
    ensures app { IfOk result (λ app. app ≡ new_app number (split_from slow.old.pass) app.notes) }
    ensures queue { IfOk result (λ app. queue_of number shared.new.queues ≡ Some (queue_at app.notes.line)) }
    ensures added { IfOk result (λ app. shared.new ≡ with_queue number app.notes.line shared.old) }
    ensures given { IfOk result (λ app. AreGiven number app.notes.line 0 (length cores.old) cores.old cores.new) }
    ensures slow { IfOk result (λ app. slow.new
        ≡ with_app (new_sender number app.notes.line (length cores.old)) slow.old) }
    ensures err { OnErr result (slow.new ≡ slow.old) }
    ensures part { OnErr result (IsPartAdded number shared.old shared.new cores.old cores.new) }
    ensures shared { shared.new ≡ record shared.old { queues = shared.new.queues } }
    ensures free { Each (IsFree shared.old) cores.old → Each (IsFree shared.new) cores.new }
    ensures queues { Each (HasQueue shared.old) cores.old → Each (HasQueue shared.new) cores.new }
    ensures senders { Each (HasSenders shared.new) cores.new }
    ensures slow_senders { slow_worker.HasSenders shared.new slow.new }
{
    let mut notes = open_queue(alloc, number, shared)?;
    let queue = queue_for(shared, number);
    give_senders(alloc, number, queue, &mut notes, cores)?;
    give_slow(alloc, number, queue, &mut notes, slow)?;
    let pass = shared.table.split(&mut slow.pass);
    App::new(alloc, number, pass, notes)
}

/// Makes the queue of an application, which has none yet. The error is want of memory, and then there is none.
fn open_queue(alloc: Global, number: u32, shared: &mut Shared) -> Result<ReceiverPass, AllocError>
    requires first { queue_of number shared.old.queues ≡ None }
    ensures new { IfOk result (λ notes. notes.senders ≡ 0) }
    ensures added { IfOk result (λ notes. shared.new ≡ with_queue number notes.line shared.old) }
    ensures err { OnErr result (shared.new ≡ shared.old) }
{
    let (queue, notes) = ContextQueue::new(alloc, QUEUE_ROOM)?;
    shared.add_queue(number, queue)?;
    Ok(notes)
}

/// The queue of an application that has one.
fn queue_for<'a>(shared: &'a Shared, number: u32) -> &'a ContextQueue
    requires { IsSome (queue_of number shared.now.queues) }
    ensures { queue_of number shared.now.queues ≡ Some result.now }
{
    match shared.queue(number) {
        Some(queue) => queue,
        None => unreachable!(),
    }
}

/// Gives each worker a sender of an application's queue. The error is want of memory, and then the first ones have it.
fn give_senders(
    alloc: Global,
    number: u32,
    queue: &ContextQueue,
    notes: &mut ReceiverPass,
    cores: &mut [CoreWorker],
) -> Result<(), AllocError>
    requires own { notes.old.line ≡ queue.now.line }
    requires none { notes.old.senders ≡ 0 }
    ensures own { notes.new.line ≡ notes.old.line }
    ensures given { OnOk result (AreGiven number queue.now.line 0 (length cores.old) cores.old cores.new) }
    ensures part { (count : ℕ) × AreGiven number queue.now.line 0 count cores.old cores.new }
    ensures count { OnOk result (notes.new.senders ≡ length cores.old) }
{
    for core in cores.iter_mut() {
        give_sender(alloc, number, queue, notes, core)?;
    }
    Ok(())
}

/// Gives a worker the next sender of an application's queue. The error is want of memory, and then it has none.
fn give_sender(
    alloc: Global,
    number: u32,
    queue: &ContextQueue,
    notes: &mut ReceiverPass,
    core: &mut CoreWorker,
) -> Result<(), AllocError>
    requires own { notes.old.line ≡ queue.now.line }
    ensures own { notes.new.line ≡ notes.old.line }
    ensures counted { OnOk result (notes.new.senders ≡ notes.old.senders + 1) }
    ensures given { OnOk result (core.new
        ≡ with_sender (new_sender number queue.now.line notes.old.senders) core.old) }
    ensures err { OnErr result (core.new ≡ core.old) }
{
    let sender = queue.sender(alloc, notes)?;
    core.add_sender(number, sender)
}

/// Gives the slow path's worker the next sender of an application's queue. The error is want of memory, and then it has
/// none.
fn give_slow(
    alloc: Global,
    number: u32,
    queue: &ContextQueue,
    notes: &mut ReceiverPass,
    slow: &mut SlowWorker,
) -> Result<(), AllocError>
    requires own { notes.old.line ≡ queue.now.line }
    ensures own { notes.new.line ≡ notes.old.line }
    ensures given { OnOk result (slow.new
        ≡ with_slow_sender (new_sender number queue.now.line notes.old.senders) slow.old) }
    ensures err { OnErr result (slow.new ≡ slow.old) }
{
    let sender = queue.sender(alloc, notes)?;
    slow.add_sender(number, sender)
}
