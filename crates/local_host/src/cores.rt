//! A tick's frames on several cores, each by a thread of its own.

ghost use Rattle.std.specs.Prelude.{◌≡◌, ℕ, ◌<◌, ◌++◌, ◌∷◌, [], List, All, length, map, IfOk, OnOk};
ghost use Rattle.host_rounds.specs.Hosts.{Live};
ghost use Rattle.host_rounds.specs.Deliveries.{Arrival as ModelArrival};
ghost use Rattle.local_host.specs.Arriving.{arrival_in};
ghost use Rattle.local_host.specs.Handing.{AreDistinct, AreFilled, AreGathered, TookSome, place_in};
ghost use Rattle.local_host.specs.SideWork.{IsSideWork};
ghost use Rattle.local_host.specs.Trying.{AreAnswered, CanTryIt};

use crate::arrival::Arrival;
use crate::attempts::Attempt;
use crate::jobs::{end_lanes, give_strays, hand_out, lanes_of, lend_all, put_back};
use crate::lanes::{Handed, Lane, work_all};
use crate::live::LiveFlow;
use std::alloc::{AllocError, Global};
use std::thread::Threads;
use tas_num::Gate;

/// Fewer frames than these are one thread's work where nobody watches: to hand flows out costs more than threads gain.
const FRAMES_FOR_THREADS: usize = 4096;

/// Whether so many frames of a tick, and with them what applications try, are handed out to threads.
pub fn are_handed_out<G: Gate>(frames: usize, gate: &G) -> bool {
    frames >= FRAMES_FOR_THREADS || gate.is_watched()
}

/// What cores and applications left that worked side by side.
#[derive(Drop)]
pub struct SideWork<'a> {
    /// The frames that cores left, in the order in which they came.
    pub rest: Vec<Arrival<'a>>,
    /// The attempts of applications, with the answers of those that were made.
    pub attempts: Vec<Option<Attempt<'a>>>,
}

/// Cores take the frames of flows that stand at these places, each the core that it was steered to, and applications
/// make attempts, side by side where these are many or someone watches. `spare` has flows that stand in for those that
/// others have. The error is want of memory.
pub fn take_on_cores<'a, R: Threads + Sync, G: Gate + Sync>(
    rt: &R,
    alloc: Global,
    flows: &mut Vec<LiveFlow>,
    spare: &mut Vec<LiveFlow>,
    places: &[Option<usize>],
    tick: u32,
    arrivals: &[Arrival<'a>],
    steered: &[u32],
    host: u32,
    gate: &G,
    attempts: Vec<Option<Attempt<'a>>>,
) -> Result<SideWork<'a>, AllocError>
    requires places { places.now ≡ map (λ x. place_in flows.old.items (arrival_in x).packet) arrivals.now }
    requires steered { length steered.now ≡ length arrivals.now }
    requires cores { All (λ core. core < 16) steered.now }
    requires host { host < 67108863 }
    requires distinct { AreDistinct (map arrival_in arrivals.now) }
    requires fresh { AreAnswered attempts.items attempts.items }
    requires tries { All CanTryIt attempts.items }
    ensures { IfOk result (λ side. IsSideWork tick flows.old.items steered.now (map arrival_in arrivals.now)
        (map arrival_in side.rest.items) attempts.entry.items side.attempts.items flows.new.items) }
{
    if !are_handed_out(arrivals.len(), gate) {
        let rest = take_in_turn(alloc, flows, places, tick, arrivals, steered)?;
        return Ok(SideWork { rest, attempts });
    }
    let mut lanes = fill_lanes(alloc, flows, spare, places, arrivals, steered, attempts)?;
    work_all(rt, &mut lanes, host, tick, gate);
    gather(alloc, flows, spare, lanes)
}

/// Frames are handed out, and flows are lent for attempts. The answer are the lanes that have them. The error is want
/// of memory.
fn fill_lanes<'a>(
    alloc: Global,
    flows: &mut Vec<LiveFlow>,
    spare: &mut Vec<LiveFlow>,
    places: &[Option<usize>],
    arrivals: &[Arrival<'a>],
    steered: &[u32],
    attempts: Vec<Option<Attempt<'a>>>,
) -> Result<Vec<Lane<'a>>, AllocError>
    requires places { places.now ≡ map (λ x. place_in flows.old.items (arrival_in x).packet) arrivals.now }
    requires steered { length steered.now ≡ length arrivals.now }
    requires cores { All (λ core. core < 16) steered.now }
    ensures { IfOk result (λ lanes. AreFilled flows.old.items flows.new.items attempts.entry.items steered.now
        (map arrival_in arrivals.now) lanes.items) }
{
    let mut handing = hand_out(alloc, flows, spare, places, arrivals, steered)?;
    let mut lanes = lanes_of(alloc, handing.take_jobs(alloc))?;
    give_strays(alloc, &mut lanes, &handing.left, steered)?;
    lend_all(alloc, flows, spare, &mut lanes, attempts)?;
    Ok(lanes)
}

/// What lanes made is gathered: the flows go back to their places, and the frames that cores left are put in the order
/// in which they came. The error is want of memory, also in a lane.
fn gather<'a>(
    alloc: Global,
    flows: &mut Vec<LiveFlow>,
    spare: &mut Vec<LiveFlow>,
    lanes: Vec<Lane<'a>>,
) -> Result<SideWork<'a>, AllocError>
    ensures { IfOk result (λ side. AreGathered flows.old.items lanes.entry.items (map arrival_in side.rest.items)
        side.attempts.items flows.new.items) }
{
    let mut lanes = lanes;
    let mut left = Vec::new(alloc);
    put_back(flows, &mut left, &mut lanes)?;
    let attempts = end_lanes(alloc, flows, spare, lanes)?;
    left.sort_by_key(|handed| handed.index)?;
    let rest = arrivals_of_handed(alloc, &left)?;
    Ok(SideWork { rest, attempts })
}

/// The same by one thread, frame by frame, each by its own core.
fn take_in_turn<'a>(
    alloc: Global,
    flows: &mut [LiveFlow],
    places: &[Option<usize>],
    tick: u32,
    arrivals: &[Arrival<'a>],
    steered: &[u32],
) -> Result<Vec<Arrival<'a>>, AllocError>
    requires places { places.now ≡ map (λ x. place_in flows.old (arrival_in x).packet) arrivals.now }
    requires steered { length steered.now ≡ length arrivals.now }
    ensures took { IfOk result (λ rest. TookSome tick flows.old steered.now (map arrival_in arrivals.now)
        (map arrival_in rest.items) flows.new) }
    ensures len { length flows.new ≡ length flows.old }
{
    let mut rest = Vec::new(alloc);
    for k in 0..arrivals.len() {
        take_next(flows, &mut rest, places[k], steered[k], tick, arrivals[k])?;
    }
    Ok(rest)
}

/// This core takes the frame of a flow that stands at this place, where it is for the fast path. Else it is left. The
/// error is want of memory.
fn take_next<'a>(
    flows: &mut [LiveFlow],
    rest: &mut Vec<Arrival<'a>>,
    place: Option<usize>,
    core: u32,
    tick: u32,
    arrival: Arrival<'a>,
) -> Result<(), AllocError>
    requires { place_in flows.old (arrival_in arrival).packet ≡ place }
    ensures took { (old : List Live) (cores : List ℕ) (frames : List ModelArrival)
        → TookSome tick old cores frames (map arrival_in rest.old.items) flows.old
        → OnOk result (TookSome tick old (cores ++ core ∷ []) (frames ++ arrival_in arrival.entry ∷ [])
        (map arrival_in rest.new.items) flows.new) }
    ensures len { length flows.new ≡ length flows.old }
{
    if let Some(place) = place {
        if flows[place].take(core, tick, &arrival)? {
            return Ok(());
        }
    }
    rest.push(arrival)?;
    Ok(())
}

/// The frames alone. The error is want of memory.
fn arrivals_of_handed<'a>(
    alloc: Global,
    left: &[Handed<'a>],
) -> Result<Vec<Arrival<'a>>, AllocError>
    ensures { IfOk result (λ rest. rest.items ≡ map (λ h. h.arrival) left.now) }
{
    let mut rest = Vec::with_capacity(alloc, left.len())?;
    for handed in left {
        rest.push(handed.arrival)?;
    }
    Ok(rest)
}
