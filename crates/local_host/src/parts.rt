//! What a host does to each of its flows, in parts that go side by side.

ghost use Rattle.std.specs.Prelude.{◌≡◌, map, OnOk};
ghost use denote.Param.Send.{IsSync};

use crate::live::LiveFlow;
use std::alloc::AllocError;
use std::thread::{Threads, join_mut};

/// Fewer flows than these are no two parts: a thread would cost more than it gains.
pub const FLOWS_FOR_THREADS: usize = 4096;

/// What a host does to each of its flows in a phase of a tick.
pub trait Chore {
    ghost use Rattle.host_rounds.specs.Hosts.{Live};

    ghost change: { Self → Live → Live };

    /// Does it to a flow. The error is want of memory.
    fn work(&self, flow: &mut LiveFlow) -> Result<(), AllocError>
        ensures { OnOk result (flow.new ≡ change self.now flow.old) };
}

/// A tick passes.
#[derive(Clone, Copy)]
pub struct Timing {
    pub tick: u32,
}

impl Chore for Timing {
    ghost use Rattle.tas_model.specs.declared.entry.Caller.TheVariants.{Slow};
    ghost use Rattle.host_rounds.specs.Upkeep.{timed};

    ghost change = { λ chore. timed Slow chore.tick };

    fn work(&self, flow: &mut LiveFlow) -> Result<(), AllocError> {
        flow.tick(self.tick)
    }
}

/// All that may go is sent.
#[derive(Clone, Copy)]
pub struct Sending {
    pub tick: u32,
}

impl Chore for Sending {
    ghost use Rattle.host_rounds.specs.Upkeep.{quieted};

    ghost change = { λ chore. quieted chore.tick };

    fn work(&self, flow: &mut LiveFlow) -> Result<(), AllocError> {
        flow.send_all(self.tick)
    }
}

/// Does the chore to all flows, in at most so many parts side by side, each on a thread of its own where one can be
/// made. The error is want of memory.
pub fn work_all<R: Threads + Sync, C: Chore + Sync>(
    rt: &R,
    chore: &C,
    threads: u32,
    flows: &mut Vec<LiveFlow>,
) -> Result<(), AllocError>
    ensures { OnOk result (flows.new.items ≡ map (C.change chore.now) flows.old.items) }
{
    work_parts(rt, chore, threads, flows)
}

/// The same of some flows, which are halved as long as there are threads and flows enough for it.
#[cycle(parts)]
fn work_parts<R: Threads + Sync, C: Chore + Sync>(
    rt: &R,
    chore: &C,
    threads: u32,
    flows: &mut [LiveFlow],
) -> Result<(), AllocError>
    ensures { OnOk result (flows.new ≡ map (C.change chore.now) flows.old) }
{
    if threads < 2 || flows.len() < FLOWS_FOR_THREADS {
        return work_each(chore, flows);
    }
    let (low, high) = flows.split_at_mut(flows.len() / 2);
    work_halves(rt, chore, threads / 2, low, high)
}

/// The same of two halves side by side, with so many threads for each.
#[cycle(parts)]
fn work_halves<R: Threads + Sync, C: Chore + Sync>(
    rt: &R,
    chore: &C,
    threads: u32,
    low: &mut [LiveFlow],
    high: &mut [LiveFlow],
) -> Result<(), AllocError>
    ensures low { OnOk result (low.new ≡ map (C.change chore.now) low.old) }
    ensures high { OnOk result (high.new ≡ map (C.change chore.now) high.old) }
{
    let mut front = || -> Result<(), AllocError>
        requires { IsSync R.row × IsSync C.row }
        ensures { OnOk result (low.exit.now ≡ map (C.change chore.entry.now) low.entry.now) }
    { work_parts(rt, chore, threads, low) };
    let mut back = || -> Result<(), AllocError>
        requires { IsSync R.row × IsSync C.row }
        ensures { OnOk result (high.exit.now ≡ map (C.change chore.entry.now) high.entry.now) }
    { work_parts(rt, chore, threads, high) };
    let (first, second) = join_mut(rt, &mut front, &mut back);
    first?;
    second
}

/// The same of each flow in order.
fn work_each<C: Chore>(chore: &C, flows: &mut [LiveFlow]) -> Result<(), AllocError>
    ensures { OnOk result (flows.new ≡ map (C.change chore.now) flows.old) }
{
    for k in 0..flows.len() {
        chore.work(&mut flows[k])?;
    }
    Ok(())
}
