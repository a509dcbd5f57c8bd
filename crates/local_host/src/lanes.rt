//! What one worker does in a tick.

ghost use Rattle.std.specs.Prelude.{◌≡◌, ℕ, ◌<◌, ◌+◌, ◌*◌, ◌^◌, ◌++◌, All, false, [], map, length};
ghost use Rattle.std.specs.Prelude.{slice_index_or, OnOk, IfOk};
ghost use Rattle.local_host.specs.Arriving.{arrival_in};
ghost use Rattle.local_host.specs.Lanes.{worked_flow, worked_frame, is_taken, more_unless};
ghost use Rattle.local_host.specs.Lanes.{left_of, left_by, worked_job, IsWorked};
ghost use Rattle.local_host.specs.Trying.{CanTry};

use crate::arrival::Arrival;
use crate::attempts::{Trial, make_all};
use crate::live::LiveFlow;
use std::alloc::AllocError;
use std::thread;
use std::thread::Threads;
use tas_num::Gate;

/// A frame that was handed to a core, with its place among those that came.
#[derive(Clone, Copy)]
pub struct Handed<'a> {
    pub index: usize,
    pub arrival: Arrival<'a>,
}

/// A flow that a core has for a tick, and the frames that come to it.
#[derive(Drop)]
pub struct Job<'a> {
    pub core: u32,
    /// The flow's place among those of the host.
    pub place: usize,
    pub flow: LiveFlow,
    pub frames: Vec<Handed<'a>>,
}

/// What one worker has for a tick: a core its jobs and strays, or an application its trials.
#[derive(Drop)]
pub struct Lane<'a> {
    pub core: u32,
    pub jobs: Vec<Job<'a>>,
    /// Frames of no flow that the core may take.
    pub strays: Vec<Handed<'a>>,
    pub trials: Vec<Trial<'a>>,
    /// Frames that are none for the fast path.
    pub left: Vec<Handed<'a>>,
    /// Memory was wanting.
    pub failed: bool,
}

/// The lanes work side by side, each on a thread of its own.
pub fn work_all<R: Threads + Sync, G: Gate + Sync>(
    rt: &R,
    lanes: &mut Vec<Lane<'_>>,
    host: u32,
    tick: u32,
    gate: &G,
)
    requires host { host < 67108863 }
    requires cores { All (λ (lane : Lane). lane.core < 16) lanes.old.items }
    requires tries { All (λ (lane : Lane). All CanTry lane.trials.items) lanes.old.items }
    ensures len { length lanes.new.items ≡ length lanes.old.items }
    ensures worked { (i : ℕ) (d : Lane) → i < length lanes.old.items
        → (slice_index_or lanes.new.items i d).failed ≡ false
        → IsWorked tick (slice_index_or lanes.old.items i d) (slice_index_or lanes.new.items i d) }
{
    work_each(rt, lanes, host, tick, gate);
}

fn work_each<R: Threads + Sync, G: Gate + Sync>(
    rt: &R,
    lanes: &mut [Lane<'_>],
    host: u32,
    tick: u32,
    gate: &G,
)
    requires host { host < 67108863 }
    requires cores { All (λ (lane : Lane). lane.core < 16) lanes.old }
    requires tries { All (λ (lane : Lane). All CanTry lane.trials.items) lanes.old }
    ensures len { length lanes.new ≡ length lanes.old }
    ensures worked { (i : ℕ) (d : Lane) → i < length lanes.old → (slice_index_or lanes.new i d).failed ≡ false
        → IsWorked tick (slice_index_or lanes.old i d) (slice_index_or lanes.new i d) }
{
    let threads = lanes.len().max(1);
    let part = move |_: usize, lane: &mut Lane<'_>|
        requires { (host < 67108863) × (lane.now.core < 16) × All CanTry lane.now.trials.items }
        ensures { lane.exit.now.failed ≡ false → IsWorked tick lane.entry.now lane.exit.now }
    { work(lane, host, tick, gate) };
    thread::for_each_mut(rt, lanes, threads, &part);
}

/// A lane does its work.
fn work<G: Gate>(lane: &mut Lane<'_>, host: u32, tick: u32, gate: &G)
    requires host { host < 67108863 }
    requires core { lane.old.core < 16 }
    requires tries { All CanTry lane.old.trials.items }
    ensures { lane.new.failed ≡ false → IsWorked tick lane.old lane.new }
{
    let done = work_lane(lane, host, tick, gate);
    lane.failed = done.is_err();
}

/// The error is want of memory.
fn work_lane<G: Gate>(lane: &mut Lane<'_>, host: u32, tick: u32, gate: &G) -> Result<(), AllocError>
    requires host { host < 67108863 }
    requires core { lane.old.core < 16 }
    requires tries { All CanTry lane.old.trials.items }
    ensures { OnOk result (IsWorked tick lane.old lane.new) }
{
    let point = 64 * host + 2 * lane.core;
    work_jobs(&mut lane.jobs, &mut lane.left, point, tick, gate)?;
    pass_on(&lane.strays, &mut lane.left, point, gate)?;
    make_all(&mut lane.trials, 64 * host + 62, tick, gate)
}

/// A core passes frames on that are of no flow. The error is want of memory.
fn pass_on<'a, G: Gate>(
    strays: &[Handed<'a>],
    left: &mut Vec<Handed<'a>>,
    point: u32,
    gate: &G,
) -> Result<(), AllocError>
    requires { point + 1 < 2 ^ 32 }
    ensures { OnOk result (left.new.items ≡ left.old.items ++ strays.now) }
{
    for handed in strays {
        gate.pass(point);
        left.push(*handed)?;
        gate.pass(point + 1);
    }
    Ok(())
}

fn work_jobs<'a, G: Gate>(
    jobs: &mut [Job<'a>],
    left: &mut Vec<Handed<'a>>,
    point: u32,
    tick: u32,
    gate: &G,
) -> Result<(), AllocError>
    requires { point + 1 < 2 ^ 32 }
    ensures jobs { OnOk result (jobs.new ≡ map (worked_job tick) jobs.old) }
    ensures left { OnOk result (left.new.items ≡ left.old.items ++ left_by tick jobs.old) }
{
    for k in 0..jobs.len() {
        work_job(&mut jobs[k], left, point, tick, gate)?;
    }
    Ok(())
}

fn work_job<'a, G: Gate>(
    job: &mut Job<'a>,
    left: &mut Vec<Handed<'a>>,
    point: u32,
    tick: u32,
    gate: &G,
) -> Result<(), AllocError>
    requires { point + 1 < 2 ^ 32 }
    ensures job { OnOk result (job.new ≡ worked_job tick job.old) }
    ensures left { OnOk result (left.new.items
        ≡ left.old.items ++ left_of job.old.core tick job.old.frames.items job.old.flow) }
{
    work_flow(
        &mut job.flow,
        job.core,
        &job.frames,
        left,
        point,
        tick,
        gate,
    )
}

/// A core takes the frames of a flow that are for the fast path, and leaves the others. The gate's points are `point`
/// before each frame and one more after it. The error is want of memory.
fn work_flow<'a, G: Gate>(
    flow: &mut LiveFlow,
    core: u32,
    frames: &[Handed<'a>],
    left: &mut Vec<Handed<'a>>,
    point: u32,
    tick: u32,
    gate: &G,
) -> Result<(), AllocError>
    requires { point + 1 < 2 ^ 32 }
    ensures flow { OnOk result (flow.new ≡ worked_flow core tick frames.now flow.old) }
    ensures left { OnOk result (left.new.items ≡ left.old.items ++ left_of core tick frames.now flow.old) }
{
    for handed in frames {
        gate.pass(point);
        work_frame(flow, core, handed, left, tick)?;
        gate.pass(point + 1);
    }
    Ok(())
}

fn work_frame<'a>(
    flow: &mut LiveFlow,
    core: u32,
    handed: &Handed<'a>,
    left: &mut Vec<Handed<'a>>,
    tick: u32,
) -> Result<(), AllocError>
    ensures flow { OnOk result (flow.new ≡ worked_frame core tick (arrival_in handed.now.arrival) flow.old) }
    ensures left { OnOk result (left.new.items ≡ left.old.items
        ++ more_unless (is_taken (arrival_in handed.now.arrival).packet flow.old) handed.now []) }
{
    if !flow.take(core, tick, &handed.arrival)? {
        left.push(*handed)?;
    }
    Ok(())
}
