//! The cores and applications of a new host.
ghost use Rattle.std.specs.Prelude.{◌≡◌, ℕ, ◌<◌, ◌≤◌, ◌+◌, ◌++◌, [], ◌∷◌, None, true, List, length, map, IfOk};
ghost use Rattle.std.specs.Prelude.{OnOk};
ghost use Rattle.std.specs.Arc.{arc_value};
ghost use Rattle.tas_model.specs.declared.entry.HostParams.{HostParams};
ghost use Rattle.host_rounds.specs.Lists.{Each};
ghost use Rattle.core_phase.specs.declared.lane.Lane.{Lane};
ghost use Rattle.core_worker.specs.Telling.{app_with, queue_of};
ghost use Rattle.core_worker.specs.Workers.{Worker, IsFree, HasQueue, HasSenders, with_pass};
ghost use Rattle.flow_lock.specs.Orders.{Order};
ghost use Rattle.flow_lock.specs.Passes.{peeled, with_turns, new_turn};
ghost use Rattle.flow_lock.specs.Plays.{IsOrdered, IsCounted};
ghost use Rattle.flow_lock.specs.Steps.{HasAll, IsAlone};
ghost use Rattle.shared_host.specs.Cores.{AreNumbered, AreTurned, IsNew};
ghost use Rattle.libtas_sockets.specs.Apps.{with_view};
ghost use Rattle.core_host.specs.Staffing.{AreRising, IsUnused, IsNewWorker, turns_of, IsNewCore, AreIdleCores};
ghost use Rattle.core_host.specs.Staffing.{IsNewApp, AreNewApps, AreLanesOf, AreLanesFor, IsAssembled, idle_as};
ghost use Rattle.core_host.specs.Staffing.{IsManned, AreAdded, IsLaneOf, IsLaneFor, IsHired};

use core_phase::{Answered, AppLane, Attempt, CoreLane, Lane};
use core_worker::{CoreWorker, Shared};
use flow_lock::SlowPass;
use flow_state::FlowRecord;
use libtas_sockets::{App, Socket};
use shared_host::add_app;
use slow_worker::SlowWorker;
use std::alloc::{AllocError, Global};
use std::sync::Arc;

/// At most so many bytes are read in one call.
const MOST_READ: usize = 65_536;

/// What works on a host beside the slow path, and what its workers share.
#[derive(Drop)]
pub(crate) struct Staff {
    pub(crate) shared: Arc<Shared, Global>,
    pub(crate) lanes: Vec<Lane>,
    /// The numbers of the applications, in the order of their lanes.
    pub(crate) names: Vec<u32>,
    pub(crate) buffer: Vec<u8>,
}

/// The staff of a host that was just assembled, on the host with this number, with the applications of these numbers:
/// nobody has a turn. The error is want of memory.
pub(crate) fn hire(
    alloc: Global,
    host: u32,
    shared: Shared,
    slow: &mut SlowWorker,
    workers: Vec<CoreWorker>,
    numbers: &[u32],
) -> Result<Staff, AllocError>
    requires host { host < 67108863 }
    requires assembled { (params : HostParams) × (cores : ℕ) × (cores ≤ 16)
        × IsAssembled params cores shared slow.old workers.items }
    requires none { shared.queues ≡ [] }
    requires numbers { AreRising numbers.now × (length numbers.now ≤ 4000) }
    ensures hired { IfOk result (λ s. (params : HostParams) (cores : ℕ)
        → IsAssembled params cores shared slow.old workers.items
        → IsHired params cores numbers.now (arc_value s.shared) slow.new s.lanes.items) }
    ensures names { IfOk result (λ s. s.names.items ≡ numbers.now) }
    ensures room { IfOk result (λ s. length s.buffer.items ≡ 65536) }
    ensures steering { IfOk result (λ s. (arc_value s.shared).steering ≡ shared.steering) }
{
    let mut shared = shared;
    let mut workers = workers;
    rest_cores(&shared, slow, &mut workers);
    let apps = add_apps(alloc, &mut shared, slow, &mut workers, numbers)?;
    let shared = Arc::new(alloc, shared)?;
    let lanes = lanes_of(alloc, &shared, host, workers, apps)?;
    Ok(Staff {
        shared,
        lanes,
        names: copy_of(alloc, numbers)?,
        buffer: Vec::from_elem(alloc, 0, MOST_READ)?,
    })
}

/// The turns of all cores are taken back, so that the slow path is alone.
fn rest_cores(shared: &Shared, slow: &mut SlowWorker, workers: &mut Vec<CoreWorker>)
    requires { (params : HostParams) × (cores : ℕ) × IsAssembled params cores shared.now slow.old workers.old.items }
    ensures { (params : HostParams) (cores : ℕ) → IsAssembled params cores shared.now slow.old workers.old.items
        → IsManned params cores cores shared.now slow.new workers.new.items }
{
    take_turns(shared, &mut slow.pass, workers.as_mut_slice());
}

/// The turns of these cores, which did nothing in them, are taken back, so that the slow path is alone.
fn take_turns(shared: &Shared, slow: &mut SlowPass<FlowRecord>, workers: &mut [CoreWorker])
    requires table { slow.old.table ≡ shared.now.table }
    requires free { Each (IsFree shared.now) workers.old }
    requires turned { AreTurned 1 workers.old }
    requires turns { (slow.old.view.turns ≡ new_turn 0 ∷ []) × (slow.old.view.made ≡ 1 + length workers.old) }
    requires baton { slow.old.view.baton ≡ true }
    ensures table { slow.new.table ≡ slow.old.table }
    ensures unused { (slots passes : ℕ) → IsUnused slots passes slow.old.view → IsUnused slots passes slow.new.view }
    ensures alone { IsAlone slow.new.view }
    ensures cores { workers.new ≡ map idle_as workers.old }
{
    collect_turns(shared, slow, workers);
    shared.table.learn(slow);
}

/// The turns of these cores are taken back.
fn collect_turns(shared: &Shared, slow: &mut SlowPass<FlowRecord>, workers: &mut [CoreWorker])
    requires table { slow.old.table ≡ shared.now.table }
    requires free { Each (IsFree shared.now) workers.old }
    ensures slow { slow.new ≡ record slow.old {
      view = record slow.old.view { turns = slow.old.view.turns ++ turns_of workers.old };
    } }
    ensures cores { workers.new ≡ map idle_as workers.old }
{
    if let Some((worker, rest)) = workers.split_first_mut() {
        shared.table.collect(slow, &mut worker.pass);
        collect_turns(shared, slow, rest);
    }
}

/// The turn of an application, which did nothing in it, is taken back, so that the slow path is alone.
fn take_turn(shared: &Shared, slow: &mut SlowPass<FlowRecord>, app: &mut App)
    requires table { (slow.old.table ≡ shared.now.table) × (app.old.pass.table ≡ shared.now.table) }
    requires turns { (slow.old.view.turns ≡ []) × (slow.old.view.made ≡ 1)
        × (app.old.pass.view.turns ≡ new_turn 0 ∷ []) }
    requires baton { slow.old.view.baton ≡ true }
    ensures table { slow.new.table ≡ slow.old.table }
    ensures unused { (slots passes : ℕ) → IsUnused slots passes slow.old.view → IsUnused slots passes slow.new.view }
    ensures alone { IsAlone slow.new.view }
    ensures app { app.new ≡ with_view (peeled app.old.pass.view) app.old }
{
    app.collect(&shared.table, slow);
    shared.table.learn(slow);
}

/// Adds the applications of these numbers, of which none has a turn then. The error is want of memory.
fn add_apps(
    alloc: Global,
    shared: &mut Shared,
    slow: &mut SlowWorker,
    workers: &mut Vec<CoreWorker>,
    numbers: &[u32],
) -> Result<Vec<App>, AllocError>
    requires manned { (params : HostParams) × (cores : ℕ) × (cores ≤ 16)
        × IsManned params cores cores shared.old slow.old workers.old.items }
    requires none { shared.old.queues ≡ [] }
    requires numbers { AreRising numbers.now × (length numbers.now ≤ 4000) }
    ensures added { IfOk result (λ apps. (params : HostParams) (cores : ℕ)
        → IsManned params cores cores shared.old slow.old workers.old.items
        → AreAdded params cores numbers.now shared.new slow.new workers.new.items apps.items) }
    ensures same { shared.new ≡ record shared.old { queues = shared.new.queues } }
{
    let mut apps = Vec::new(alloc);
    for number in numbers {
        let app = add_one(alloc, *number, shared, slow, workers)?;
        apps.push(app)?;
    }
    Ok(apps)
}

/// Adds an application, which has no turn then. The error is want of memory.
fn add_one(
    alloc: Global,
    number: u32,
    shared: &mut Shared,
    slow: &mut SlowWorker,
    workers: &mut Vec<CoreWorker>,
) -> Result<App, AllocError>
    requires manned { (params : HostParams) × (cores : ℕ) × (passes : ℕ) × (passes < 4096)
        × IsManned params cores passes shared.old slow.old workers.old.items }
    requires none { queue_of number shared.old.queues ≡ None }
    ensures manned { OnOk result ((params : HostParams) (cores passes : ℕ)
        → IsManned params cores passes shared.old slow.old workers.old.items
        → IsManned params cores (1 + passes) shared.new slow.new workers.new.items) }
    ensures app { IfOk result (λ app. IsNewApp shared.new.table number app) }
    ensures queues { OnOk result (map app_with shared.new.queues ≡ map app_with shared.old.queues ++ number ∷ []) }
    ensures same { shared.new ≡ record shared.old { queues = shared.new.queues } }
{
    let mut app = add_app(alloc, number, shared, slow, workers.as_mut_slice())?;
    take_turn(shared, &mut slow.pass, &mut app);
    Ok(app)
}

/// The lanes of these cores, and behind them those of these applications. The error is want of memory.
fn lanes_of(
    alloc: Global,
    shared: &Arc<Shared, Global>,
    host: u32,
    workers: Vec<CoreWorker>,
    apps: Vec<App>,
) -> Result<Vec<Lane>, AllocError>
    requires { host < 67108863 }
    ensures { IfOk result (λ lanes. (first : List Lane) × (second : List Lane) × (lanes.items ≡ first ++ second)
        × AreLanesOf (arc_value shared.now) workers.items first
        × AreLanesFor (arc_value shared.now) apps.items second) }
{
    let mut lanes = Vec::with_capacity(alloc, workers.len() + apps.len())?;
    put_cores(&mut lanes, shared, workers)?;
    put_apps(&mut lanes, shared, host, apps)?;
    Ok(lanes)
}

/// The lanes of these cores stand behind the others. The error is want of memory.
fn put_cores(
    lanes: &mut Vec<Lane>,
    shared: &Arc<Shared, Global>,
    workers: Vec<CoreWorker>,
) -> Result<(), AllocError>
    requires { lanes.old.items ≡ [] }
    ensures { OnOk result (AreLanesOf (arc_value shared.now) workers.items lanes.new.items) }
{
    for worker in workers {
        lanes.push(core_lane(shared, worker)?)?;
    }
    Ok(())
}

/// The lanes of these applications stand behind the others. The error is want of memory.
fn put_apps(
    lanes: &mut Vec<Lane>,
    shared: &Arc<Shared, Global>,
    host: u32,
    apps: Vec<App>,
) -> Result<(), AllocError>
    requires { host < 67108863 }
    ensures { OnOk result ((ls : List Lane) × (lanes.new.items ≡ lanes.old.items ++ ls)
        × AreLanesFor (arc_value shared.now) apps.items ls) }
{
    for app in apps {
        lanes.push(app_lane(shared, host, app)?)?;
    }
    Ok(())
}

fn core_lane(shared: &Arc<Shared, Global>, worker: CoreWorker) -> Result<Lane, AllocError>
    ensures { IfOk result (λ lane. IsLaneOf (arc_value shared.now) worker lane) }
{
    Ok(Lane::Core(CoreLane {
        shared: Arc::try_clone(shared)?,
        worker,
        tick: 0,
        failed: false,
    }))
}

fn app_lane(shared: &Arc<Shared, Global>, host: u32, app: App) -> Result<Lane, AllocError>
    requires { host < 67108863 }
    ensures { IfOk result (λ lane. IsLaneFor (arc_value shared.now) app lane) }
{
    Ok(Lane::App(AppLane {
        shared: Arc::try_clone(shared)?,
        app,
        host,
        tick: 0,
        socket: Socket(0),
        attempt: Attempt::Nothing,
        answer: Answered::Nothing,
    }))
}

fn copy_of(alloc: Global, numbers: &[u32]) -> Result<Vec<u32>, AllocError>
    ensures { IfOk result (λ copy. copy.items ≡ numbers.now) }
{
    let mut copy = Vec::with_capacity(alloc, numbers.len())?;
    copy.extend_from_slice(numbers)?;
    Ok(copy)
}
