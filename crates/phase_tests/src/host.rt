//! A host of one core and one application.
ghost use Rattle.std.specs.Prelude.{◌≡◌, ◌<◌, ◌∷◌, [], IfOk, IfSome};
ghost use Rattle.std.specs.Arc.{arc_value};
ghost use Rattle.core_phase.specs.Lanes.{IsIdle};
ghost use Rattle.phase_tests.specs.Hosts.{AreReady, IsStarted, IsQueueOf, IsCoreOf, IsAppOf, IsReadyHost};
ghost use Rattle.phase_tests.specs.Resting.{IsOff, IsSettled};

use crate::hosts::{Host, Start};
use crate::peer::{HOST, OWN_PORT, PEER, PORT, frame, hello};
use crate::table::started;
use context_queue::{ContextQueue, ReceiverPass};
use core_phase::{Answered, AppLane, Attempt, CoreLane, Lane};
use core_worker::{CoreWorker, Shared};
use flow_index::{IndexReader, IndexWriter};
use flow_lock::{FlowTable, Pass, Pin, SlowPass};
use flow_state::FlowRecord;
use libtas_sockets::{App, Socket};
use std::alloc::{AllocError, Global};
use std::sync::{Arc, Wait};
use steering::Steering;
use tas_model::{FlowId, FourTuple};

/// The tick of the phase.
pub const TICK: u32 = 2;

/// The host's place in the scenario.
pub const PLACE: u32 = 1;

/// What the application writes.
pub const WORD: &[u8; 4] = b"word";

/// What the workers share, with the one queue of kicks.
fn common(
    alloc: Global,
    table: FlowTable<FlowRecord>,
) -> Result<(Arc<Shared, Global>, ReceiverPass), AllocError>
    ensures table { IfOk result (λ c. (arc_value c.0).table ≡ table) }
    ensures queue { IfOk result (λ c. IsQueueOf (arc_value c.0) c.1) }
{
    let (queue, kicks) = ContextQueue::new(alloc, 4)?;
    let mut queues = Vec::with_capacity(alloc, 1)?;
    queues.push_reserved(queue);
    let (steering, _) = Steering::new(alloc, 1)?;
    let shared = Arc::new(alloc, Shared::new(alloc, table, steering, queues))?;
    Ok((shared, kicks))
}

/// The core's lane, to which a frame with the peer's words was handed. `None` where memory is wanting.
fn core_lane(
    alloc: Global,
    shared: &Arc<Shared, Global>,
    pass: Pass<FlowRecord>,
    reader: IndexReader,
    kicks: ReceiverPass,
) -> Option<CoreLane>
    requires pass { IsOff (arc_value shared.now).table pass }
    requires queue { IsQueueOf (arc_value shared.now) kicks }
    ensures { IfSome result (λ l. IsCoreOf (arc_value shared.now) l) }
{
    let shared = Arc::try_clone(shared).ok()?;
    let mut worker = CoreWorker::new(alloc, PLACE, 0, pass, reader, kicks);
    worker.hand(frame(2), hello(alloc)?).ok()?;
    Some(CoreLane {
        shared,
        worker,
        tick: TICK,
        failed: false,
    })
}

/// The application's lane, which tries to write a word. `None` where memory is wanting.
fn app_lane(
    alloc: Global,
    shared: &Arc<Shared, Global>,
    app: App,
    socket: Socket,
) -> Option<AppLane>
    requires { IsSettled (arc_value shared.now).table socket app }
    ensures { IfSome result (λ l. IsAppOf (arc_value shared.now) l) }
{
    Some(AppLane {
        shared: Arc::try_clone(shared).ok()?,
        app,
        host: PLACE,
        tick: TICK,
        socket,
        attempt: Attempt::Send(Vec::from_array(alloc, *WORD).ok()?),
        answer: Answered::Nothing,
    })
}

/// The lanes of both. `None` where memory is wanting.
fn lanes_of(
    alloc: Global,
    shared: &Arc<Shared, Global>,
    app: AppLane,
    core: CoreLane,
) -> Option<Vec<Lane>>
    requires { IsAppOf (arc_value shared.now) app × IsCoreOf (arc_value shared.now) core }
    ensures { IfSome result (λ lanes. AreReady (arc_value shared.now) lanes.items) }
{
    Vec::from_array(alloc, [Lane::App(app), Lane::Core(core)]).ok()
}

/// Has readers find the flow. Whether there was memory for it.
fn publish<R: Wait>(rt: &R, index: &mut IndexWriter, id: FlowId) -> bool
    ensures { index.new.left ≡ index.old.left }
{
    let tuple = FourTuple {
        laddr: HOST,
        lport: OWN_PORT,
        raddr: PEER,
        rport: PORT,
    };
    index.put(tuple, id).is_ok() && index.publish(rt).is_ok()
}

/// The reader of the index.
fn reader<R: Wait>(rt: &R, index: &mut IndexWriter) -> IndexReader
    requires { 0 < index.old.left }
{
    match index.reader(rt) {
        Ok(reader) => reader,
        Err(_) => unreachable!(),
    }
}

/// Puts the host together.
fn assembled(alloc: Global, start: Start, reader: IndexReader) -> Option<Host>
    requires { IsStarted start }
    ensures { IfSome result IsReadyHost }
{
    let Start {
        table,
        slow,
        pin,
        core,
        app,
        socket,
    } = start;
    let Ok((shared, kicks)) = common(alloc, table) else {
        return None;
    };
    let Some(core) = core_lane(alloc, &shared, core, reader, kicks) else {
        return None;
    };
    let Some(app) = app_lane(alloc, &shared, app, socket) else {
        return None;
    };
    let Some(lanes) = lanes_of(alloc, &shared, app, core) else {
        return None;
    };
    Some(Host {
        shared,
        slow,
        pin,
        lanes,
    })
}

/// A host whose application has connected.
pub fn built<R: Wait>(rt: &R, alloc: Global, index: &mut IndexWriter) -> Option<Host>
    requires { 0 < index.old.left }
    ensures { IfSome result IsReadyHost }
{
    let start = started(alloc)?;
    if !publish(rt, index, start.pin.id()) {
        return None;
    }
    let reader = reader(rt, index);
    assembled(alloc, start, reader)
}
