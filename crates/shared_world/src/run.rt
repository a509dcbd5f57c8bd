//! A run of a scenario on shared flows, from its start to its end.
ghost use Rattle.std.specs.Prelude.{◌≡◌, ◌<◌, ◌≤◌, ℕ, length, IfOk};
ghost use Rattle.host_rounds.specs.Cores.{CoresBelow};
ghost use Rattle.host_rounds.specs.Lists.{Each};
ghost use Rattle.local_host.specs.Live.{IsLegal};
ghost use Rattle.local_host.specs.declared.host.HostEnd.{HostEnd};
ghost use Rattle.scenario_ranges.specs.Ranges.{IsInRange};
ghost use Rattle.scenario_runs.specs.Runs.{Run as IsRunOf};
ghost use Rattle.scenario_world.specs.Ends.{log_of};
ghost use Rattle.shared_world.specs.Sites.{IsReady, IsStart};
ghost use Rattle.shared_world.specs.Wholes.{IsOver, IsRun};

use crate::ending::{end_hosts, finish_all};
use crate::resting::{have_ended, is_at_rest};
use crate::starting::at_start;
use crate::ticks::play_tick;
use crate::world::SharedWorld;
use core_phase::{Lane, with_lanes};
use crew::{Crew, Run};
use scenario_text::Scenario;
use scenario_world::WorldEnd;
use std::alloc::{AllocError, Global};
use std::sync::Wait;
use std::thread;
use std::thread::Threads;
use tas_num::Gate;

/// Plays a scenario to its end on hosts with so many cores each, from 1 to 16, whose cores and applications share their
/// flows: the first tick after which all scripts have ended, all flows are closed and no frame is on the link, or its
/// limit. The threads of the run end before this returns. The error is want of memory.
pub fn play_scenario_on_cores<R: Threads + Wait + Sync, G: Gate + Sync>(
    rt: &R,
    alloc: Global,
    s: &Scenario,
    cores: u32,
    gate: &G,
) -> Result<WorldEnd, AllocError>
    requires ranges { IsInRange s.now }
    requires cores { (0 < cores) × (cores ≤ 16) }
    ensures run { IfOk result (λ end. IsRunOf s.now (log_of s.now end)) }
    ensures below { IfOk result (λ end. CoresBelow cores (log_of s.now end).hosts) }
    ensures hosts { IfOk result (λ end. length end.hosts.items ≡ length s.now.hosts) }
    ensures legal { IfOk result (λ end. Each (λ (e : HostEnd). Each IsLegal e.flows.items) end.hosts.items) }
{
    let threads = threads_for(rt, gate, s, cores);
    with_lanes(rt, gate, alloc, threads, WholeRun { alloc, s, cores })?
}

/// How many threads work beside the caller's on the lanes of such a run: one a lane where somebody watches it, and else
/// no more than there are processors.
fn threads_for<R: Threads, G: Gate>(rt: &R, gate: &G, s: &Scenario, cores: u32) -> usize {
    let lanes = s
        .hosts
        .len()
        .saturating_mul(cores as usize)
        .saturating_add(s.apps.len());
    let workers = if gate.is_watched() {
        lanes
    } else {
        lanes.min(processors(rt))
    };
    workers.saturating_sub(1)
}

/// How many processors there are; 1 where it isn't known.
fn processors<R: Threads>(rt: &R) -> usize {
    match thread::available_parallelism(rt) {
        Ok(count) => count.get(),
        Err(_) => 1,
    }
}

/// A run that the threads of a crew work on.
#[derive(Drop)]
struct WholeRun<'a> {
    alloc: Global,
    s: &'a Scenario,
    cores: u32,
}

impl<'a> Run<Lane> for WholeRun<'a> {
    ghost use Rattle.std.specs.Prelude.{ℕ, Result, IfOk};
    ghost use Rattle.scenario_world.specs.declared.world.WorldEnd.{WorldEnd as End};
    ghost use Rattle.shared_world.specs.Wholes.{CanRun, IsRun};

    type Answer = Result<WorldEnd, AllocError>;

    ghost can = { CanRun };

    ghost gives = { λ w threads answer. IfOk answer (λ end. IsRun w.s.now w.cores end) };

    fn run<R: Threads + Wait + Sync, G: Gate + Sync>(
        self,
        rt: &R,
        gate: &G,
        crew: &mut Crew<Lane>,
    ) -> Result<WorldEnd, AllocError> {
        run_on(rt, gate, crew, self.alloc, self.s, self.cores)
    }
}

/// The whole run on the threads of this crew. The error is want of memory.
fn run_on<R: Wait, G: Gate>(
    rt: &R,
    gate: &G,
    crew: &mut Crew<Lane>,
    alloc: Global,
    s: &Scenario,
    cores: u32,
) -> Result<WorldEnd, AllocError>
    requires ranges { IsInRange s.now }
    requires cores { (0 < cores) × (cores ≤ 16) }
    ensures run { IfOk result (λ end. IsRun s.now cores end) }
    ensures crew { crew.new ≡ crew.old }
{
    let mut world = at_start(rt, alloc, s, cores)?;
    match play_all(rt, gate, crew, alloc, s, &mut world) {
        Ok(rest) => finish(rt, alloc, s, world, rest),
        Err(error) => {
            end(rt, world);
            Err(error)
        }
    }
}

/// Ends a run of which nothing is wanted.
fn end<R: Wait>(rt: &R, world: SharedWorld<'_>) {
    let SharedWorld {
        hosts,
        scripts: _,
        traffic: _,
    } = world;
    end_hosts(rt, hosts);
}

/// How a run ended: after how many ticks, and whether a script has not ended.
#[derive(Clone, Copy)]
struct Rest {
    ticks: u32,
    stalled: bool,
}

/// The ticks of the whole run. The error is want of memory.
fn play_all<R: Wait, G: Gate>(
    rt: &R,
    gate: &G,
    crew: &mut Crew<Lane>,
    alloc: Global,
    s: &Scenario,
    world: &mut SharedWorld<'_>,
) -> Result<Rest, AllocError>
    requires ranges { IsInRange s.now }
    requires start { (cores : ℕ) × IsStart s.now cores world.old }
    ensures over { (cores : ℕ) → IsStart s.now cores world.old
        → IfOk result (λ rest. IsOver s.now cores rest world.new) }
    ensures crew { crew.new ≡ crew.old }
{
    let mut lanes = Vec::new(alloc);
    for tick in 0..s.limit {
        play_tick(rt, gate, crew, alloc, s, tick, world, &mut lanes)?;
        if is_at_rest(tick, world) {
            return Ok(Rest {
                ticks: tick + 1,
                stalled: false,
            });
        }
    }
    Ok(Rest {
        ticks: s.limit,
        stalled: !have_ended(&world.scripts),
    })
}

/// What the run leaves that ended so. The error is want of memory.
fn finish<R: Wait>(
    rt: &R,
    alloc: Global,
    s: &Scenario,
    world: SharedWorld<'_>,
    rest: Rest,
) -> Result<WorldEnd, AllocError>
    requires { (cores : ℕ) × IsOver s.now cores rest world }
    ensures { (cores : ℕ) → IsOver s.now cores rest world.entry → IfOk result (λ end. IsRun s.now cores end) }
{
    let SharedWorld {
        hosts,
        scripts: _,
        traffic: _,
    } = world;
    let ends = finish_all(rt, alloc, hosts)?;
    Ok(WorldEnd {
        hosts: ends,
        ticks: rest.ticks,
        stalled: rest.stalled,
    })
}
