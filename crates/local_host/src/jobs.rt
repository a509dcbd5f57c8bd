//! Frames and attempts are handed out: each flow goes to one worker, and comes back.

ghost use Rattle.std.specs.Prelude.{◌≡◌, ℕ, ◌<◌, ◌++◌, ◌∷◌, [], All, List, false, length, set, map, get_or};
ghost use Rattle.std.specs.Prelude.{OnOk, IfOk, IfSome};
ghost use Rattle.host_rounds.specs.Hosts.{Live};
ghost use Rattle.host_rounds.specs.Deliveries.{Arrival as ModelArrival};
ghost use Rattle.local_host.specs.Arriving.{arrival_in};
ghost use Rattle.local_host.specs.Index.{passes_at};
ghost use Rattle.local_host.specs.Handing.{is_in_index};
ghost use Rattle.local_host.specs.Handing.{AreHanded, AreLanes, IsEmptyLane, IsLendingOut, HasMore, place_in};
ghost use Rattle.local_host.specs.Handing.{put_jobs, jobs_in, left_in, trials_in};
ghost use Rattle.local_host.specs.Trying.{attempt_of, put_trials};

use crate::arrival::Arrival;
use crate::attempts::{Attempt, Trial, lend, put_tried};
use crate::lanes::{Handed, Job, Lane};
use crate::live::LiveFlow;
use std::alloc::{AllocError, Global};
use std::collections::HashMap;
use std::mem;

/// So many workers make the attempts of applications at most, each on a thread of its own beside those of cores.
const MOST_WORKERS: usize = 16;

/// Frames that were handed out.
#[derive(Drop)]
pub struct Handing<'a> {
    /// Flows that cores have, with their frames.
    pub jobs: Vec<Job<'a>>,
    /// Frames of no flow, and those that come to a flow by another core than its first frame.
    pub left: Vec<Handed<'a>>,
    /// Which job has a flow, by the flow's place.
    known: HashMap<usize, usize>,
}

impl<'a> Handing<'a> {
    /// Nothing was handed out yet. It takes no memory.
    fn new(alloc: Global) -> Handing<'a>
        ensures jobs { result.jobs.items ≡ [] }
        ensures left { result.left.items ≡ [] }
    {
        Handing {
            jobs: Vec::new(alloc),
            left: Vec::new(alloc),
            known: HashMap::new(alloc),
        }
    }

    /// Its jobs, which leave it.
    pub fn take_jobs(&mut self, alloc: Global) -> Vec<Job<'a>>
        ensures jobs { result.items ≡ self.old.jobs.items }
        ensures left { self.new.left.items ≡ self.old.left.items }
    {
        mem::replace(&mut self.jobs, Vec::new(alloc))
    }

    /// The job that has the flow at this place, where this core has it.
    fn job_of(&self, place: usize, core: u32) -> Option<usize>
        ensures low { IfSome result (λ k. k < length self.now.jobs.items) }
        ensures place { IfSome result (λ k. (d : Job) → (get_or self.now.jobs.items k d).place ≡ place) }
        ensures core { IfSome result (λ k. (d : Job) → (get_or self.now.jobs.items k d).core ≡ core) }
    {
        let k = *self.known.get(&place)?;
        let job = self.jobs.get(k)?;
        if job.place == place && job.core == core {
            Some(k)
        } else {
            None
        }
    }
}

/// Frames are handed out: each frame of a flow of the index goes to a job of the core that it was steered to, and the
/// others are left. The flows of jobs leave their places, where others stand in for them, `spare` ones as long as there
/// are some. The error is want of memory.
pub fn hand_out<'a>(
    alloc: Global,
    flows: &mut Vec<LiveFlow>,
    spare: &mut Vec<LiveFlow>,
    places: &[Option<usize>],
    arrivals: &[Arrival<'a>],
    steered: &[u32],
) -> Result<Handing<'a>, AllocError>
    requires places { places.now ≡ map (λ x. place_in flows.old.items (arrival_in x).packet) arrivals.now }
    requires steered { length steered.now ≡ length arrivals.now }
    requires cores { All (λ core. core < 16) steered.now }
    ensures { IfOk result (λ handing. AreHanded flows.old.items flows.new.items handing.jobs.items handing.left.items
        steered.now (map arrival_in arrivals.now)) }
{
    let mut handing = Handing::new(alloc);
    for k in 0..arrivals.len() {
        let handed = Handed {
            index: k,
            arrival: arrivals[k],
        };
        hand(
            alloc,
            flows,
            spare,
            &mut handing,
            places[k],
            steered[k],
            handed,
        )?;
    }
    Ok(handing)
}

/// One frame is handed out, whose flow stands at this place. The error is want of memory.
fn hand<'a>(
    alloc: Global,
    flows: &mut Vec<LiveFlow>,
    spare: &mut Vec<LiveFlow>,
    handing: &mut Handing<'a>,
    place: Option<usize>,
    core: u32,
    handed: Handed<'a>,
) -> Result<(), AllocError>
    requires { core < 16 }
    ensures { (old : List Live) (cores : List ℕ) (frames : List ModelArrival)
        → AreHanded old flows.old.items handing.old.jobs.items handing.old.left.items cores frames
        → place_in old (arrival_in handed.entry.arrival).packet ≡ place
        → OnOk result (AreHanded old flows.new.items handing.new.jobs.items handing.new.left.items
        (cores ++ core ∷ []) (frames ++ arrival_in handed.entry.arrival ∷ [])) }
{
    let Some(place) = place else {
        handing.left.push(handed)?;
        return Ok(());
    };
    if let Some(k) = handing.job_of(place, core) {
        return add(&mut handing.jobs[k], handed);
    }
    if !is_indexed(flows, place) {
        handing.left.push(handed)?;
        return Ok(());
    }
    let stand_in = next_stand_in(alloc, spare)?;
    let flow = mem::replace(&mut flows[place], stand_in);
    let mut frames = Vec::new(alloc);
    frames.push(handed)?;
    handing.known.insert(place, handing.jobs.len())?;
    handing.jobs.push(Job {
        core,
        place,
        flow,
        frames,
    })?;
    Ok(())
}

/// A flow that stands in for one that a core has. One that did so before takes no memory. The error is want of memory.
pub fn next_stand_in(alloc: Global, spare: &mut Vec<LiveFlow>) -> Result<LiveFlow, AllocError>
    ensures { IfOk result (λ l. l.indexed ≡ false) }
{
    match spare.pop() {
        Some(flow) => Ok(out_of_index(flow)),
        None => LiveFlow::stand_in(alloc),
    }
}

/// The flow, which the index has under no four-tuple.
fn out_of_index(flow: LiveFlow) -> LiveFlow
    ensures { result.indexed ≡ false }
{
    let mut flow = flow;
    flow.leave_index();
    flow
}

/// Whether a flow stands at this place that the index has under its four-tuple.
pub fn is_indexed(flows: &[LiveFlow], place: usize) -> bool
    ensures { result ≡ passes_at is_in_index flows.now place }
{
    match flows.get(place) {
        Some(flow) => flow.is_indexed(),
        None => false,
    }
}

/// The job has one frame more. The error is want of memory.
fn add<'a>(job: &mut Job<'a>, handed: Handed<'a>) -> Result<(), AllocError>
    ensures { OnOk result (HasMore handed.entry job.old job.new) }
{
    job.frames.push(handed)?;
    Ok(())
}

/// Each job goes to the lane of its core. The error is want of memory.
pub fn lanes_of<'a>(alloc: Global, jobs: Vec<Job<'a>>) -> Result<Vec<Lane<'a>>, AllocError>
    requires { All (λ (j : Job). j.core < 16) jobs.items }
    ensures { IfOk result (λ lanes. AreLanes jobs.entry.items [] [] lanes.items) }
{
    let mut lanes = Vec::new(alloc);
    for job in jobs {
        give(alloc, &mut lanes, job)?;
    }
    Ok(lanes)
}

/// One job more. The error is want of memory.
fn give<'a>(alloc: Global, lanes: &mut Vec<Lane<'a>>, job: Job<'a>) -> Result<(), AllocError>
    requires { job.core < 16 }
    ensures { (jobs : List Job) (strays : List Handed) (trials : List Trial)
        → AreLanes jobs strays trials lanes.old.items
        → OnOk result (AreLanes (jobs ++ job.entry ∷ []) strays trials lanes.new.items) }
{
    let core = job.core;
    let i = lane_of(alloc, lanes, core)?;
    lanes[i].jobs.push(job)?;
    Ok(())
}

/// Each of these frames goes to the lane of the core that it was steered to, which passes it on. The error is want of
/// memory.
pub fn give_strays<'a>(
    alloc: Global,
    lanes: &mut Vec<Lane<'a>>,
    strays: &[Handed<'a>],
    steered: &[u32],
) -> Result<(), AllocError>
    requires { All (λ core. core < 16) steered.now }
    ensures { (jobs : List Job) → AreLanes jobs [] [] lanes.old.items
        → OnOk result (AreLanes jobs strays.now [] lanes.new.items) }
{
    for handed in strays {
        let core = core_at(steered, handed.index);
        let i = lane_of(alloc, lanes, core)?;
        lanes[i].strays.push(*handed)?;
    }
    Ok(())
}

/// The core at this place of those to which frames were steered; core 0 where there is none.
fn core_at(steered: &[u32], place: usize) -> u32
    requires { All (λ core. core < 16) steered.now }
    ensures { result < 16 }
{
    match steered.get(place) {
        Some(core) => *core,
        None => 0,
    }
}

/// The place of the lane of a core, which is a new one where there was none. The error is want of memory.
fn lane_of<'a>(alloc: Global, lanes: &mut Vec<Lane<'a>>, core: u32) -> Result<usize, AllocError>
    requires { core < 16 }
    ensures low { IfOk result (λ i. i < length lanes.new.items) }
    ensures core { IfOk result (λ i. (d : Lane) → (get_or lanes.new.items i d).core ≡ core) }
    ensures lanes { (jobs : List Job) (strays : List Handed) (trials : List Trial)
        → AreLanes jobs strays trials lanes.old.items → OnOk result (AreLanes jobs strays trials lanes.new.items) }
{
    if let Some(i) = lanes.iter().position(|lane| lane.core == core) {
        return Ok(i);
    }
    lanes.push(empty_lane(alloc, core))?;
    Ok(lanes.len() - 1)
}

/// A lane that has nothing yet. It takes no memory.
fn empty_lane<'a>(alloc: Global, core: u32) -> Lane<'a>
    ensures { IsEmptyLane core result }
{
    Lane {
        core,
        jobs: Vec::new(alloc),
        strays: Vec::new(alloc),
        trials: Vec::new(alloc),
        left: Vec::new(alloc),
        failed: false,
    }
}

/// Attempts become trials in lanes of their own, in their order. The error is want of memory.
pub fn lend_all<'a>(
    alloc: Global,
    flows: &mut Vec<LiveFlow>,
    spare: &mut Vec<LiveFlow>,
    lanes: &mut Vec<Lane<'a>>,
    attempts: Vec<Option<Attempt<'a>>>,
) -> Result<(), AllocError>
    ensures { (jobs : List Job) (strays : List Handed) → AreLanes jobs strays [] lanes.old.items
        → OnOk result (IsLendingOut flows.old.items flows.new.items attempts.entry.items jobs strays lanes.new.items) }
{
    let cores = lanes.len();
    let size = attempts.len().div_ceil(MOST_WORKERS).max(1);
    for attempt in attempts {
        let trial = lend(alloc, flows, spare, attempt)?;
        seat(alloc, lanes, trial, cores, size)?;
    }
    Ok(())
}

/// The trial goes to the last lane behind those of so many cores, where it has fewer than so many, and else to a new
/// one. The error is want of memory.
fn seat<'a>(
    alloc: Global,
    lanes: &mut Vec<Lane<'a>>,
    trial: Trial<'a>,
    cores: usize,
    size: usize,
) -> Result<(), AllocError>
    ensures { (jobs : List Job) (strays : List Handed) (trials : List Trial)
        → AreLanes jobs strays trials lanes.old.items
        → OnOk result (AreLanes jobs strays (trials ++ trial.entry ∷ []) lanes.new.items) }
{
    let count = lanes.len();
    if count > cores && lanes[count - 1].trials.len() < size {
        return seat_last(lanes, trial);
    }
    lanes.push(empty_lane(alloc, 0))?;
    seat_last(lanes, trial)
}

/// The trial goes to the last lane. The error is want of memory.
fn seat_last<'a>(lanes: &mut Vec<Lane<'a>>, trial: Trial<'a>) -> Result<(), AllocError>
    requires { 0 < length lanes.old.items }
    ensures { (jobs : List Job) (strays : List Handed) (trials : List Trial)
        → AreLanes jobs strays trials lanes.old.items
        → OnOk result (AreLanes jobs strays (trials ++ trial.entry ∷ []) lanes.new.items) }
{
    let last = lanes.len() - 1;
    lanes[last].trials.push(trial)?;
    Ok(())
}

/// The flows go back to their places, and the frames that cores left are gathered. The error is want of memory, also in
/// a lane.
pub fn put_back<'a>(
    flows: &mut Vec<LiveFlow>,
    left: &mut Vec<Handed<'a>>,
    lanes: &mut Vec<Lane<'a>>,
) -> Result<(), AllocError>
    ensures flows { OnOk result (flows.new.items ≡ put_jobs (jobs_in lanes.old.items) flows.old.items) }
    ensures left { OnOk result (left.new.items ≡ left.old.items ++ left_in lanes.old.items) }
    ensures done { OnOk result (All (λ (lane : Lane). lane.failed ≡ false) lanes.old.items) }
    ensures trials { OnOk result (trials_in lanes.new.items ≡ trials_in lanes.old.items) }
{
    put_lanes(flows, left, lanes)
}

fn put_lanes<'a>(
    flows: &mut Vec<LiveFlow>,
    left: &mut Vec<Handed<'a>>,
    lanes: &mut [Lane<'a>],
) -> Result<(), AllocError>
    ensures flows { OnOk result (flows.new.items ≡ put_jobs (jobs_in lanes.old) flows.old.items) }
    ensures left { OnOk result (left.new.items ≡ left.old.items ++ left_in lanes.old) }
    ensures done { OnOk result (All (λ (lane : Lane). lane.failed ≡ false) lanes.old) }
    ensures trials { OnOk result (trials_in lanes.new ≡ trials_in lanes.old) }
{
    for k in 0..lanes.len() {
        put_lane(flows, left, &mut lanes[k])?;
    }
    Ok(())
}

fn put_lane<'a>(
    flows: &mut Vec<LiveFlow>,
    left: &mut Vec<Handed<'a>>,
    lane: &mut Lane<'a>,
) -> Result<(), AllocError>
    ensures flows { OnOk result (flows.new.items ≡ put_jobs lane.old.jobs.items flows.old.items) }
    ensures left { OnOk result (left.new.items ≡ left.old.items ++ lane.old.left.items) }
    ensures done { OnOk result (lane.old.failed ≡ false) }
    ensures trials { OnOk result (lane.new.trials ≡ lane.old.trials) }
{
    if lane.failed {
        return Err(AllocError);
    }
    left.extend_from_slice(&lane.left)?;
    put_all(flows, &mut lane.jobs);
    Ok(())
}

fn put_all(flows: &mut Vec<LiveFlow>, jobs: &mut Vec<Job<'_>>)
    ensures { flows.new.items ≡ put_jobs jobs.old.items flows.old.items }
{
    for k in 0..jobs.len() {
        put(flows, &mut jobs[k]);
    }
}

/// The job's flow goes back to its place.
fn put(flows: &mut Vec<LiveFlow>, job: &mut Job<'_>)
    ensures { flows.new.items ≡ set flows.old.items job.old.place job.old.flow }
{
    if job.place < flows.len() {
        mem::swap(&mut flows[job.place], &mut job.flow);
    }
}

/// The flows of trials go back to their places, and all that stood in for others is kept. The answer are the attempts.
/// The error is want of memory.
pub fn end_lanes<'a>(
    alloc: Global,
    flows: &mut Vec<LiveFlow>,
    spare: &mut Vec<LiveFlow>,
    lanes: Vec<Lane<'a>>,
) -> Result<Vec<Option<Attempt<'a>>>, AllocError>
    ensures flows { OnOk result (flows.new.items ≡ put_trials (trials_in lanes.entry.items) flows.old.items) }
    ensures attempts { IfOk result (λ attempts. attempts.items ≡ map attempt_of (trials_in lanes.entry.items)) }
{
    let mut attempts = Vec::new(alloc);
    for lane in lanes {
        put_tried(flows, spare, &mut attempts, lane.trials)?;
        keep_each(spare, lane.jobs)?;
    }
    Ok(attempts)
}

/// Keeps the flows that stood in for those of jobs, whose flows went back. The error is want of memory.
fn keep_each(spare: &mut Vec<LiveFlow>, jobs: Vec<Job<'_>>) -> Result<(), AllocError> {
    for job in jobs {
        spare.push(job.flow)?;
    }
    Ok(())
}
