//! A scenario in the middle of its run: its hosts and the link between them.

ghost use Rattle.std.specs.Prelude.{◌≡◌, length, IfOk};
ghost use Rattle.host_rounds.specs.Lists.{Each};
ghost use Rattle.scenario_ranges.specs.Ranges.{IsInRange};
ghost use Rattle.scenario_runs.specs.Runs.{serial_run};
ghost use Rattle.local_host.specs.declared.host.HostEnd.{HostEnd};
ghost use Rattle.local_host.specs.Live.{IsLegal};
ghost use Rattle.scenario_world.specs.Ends.{log_of, AreEnds};

use crate::playing::{at_start, is_at_rest, play_tick};
use crate::resting::have_ended;
use local_host::HostEnd;
use scenario_host::ScenarioHost;
use scenario_text::Scenario;
use std::alloc::{AllocError, Global};

/// What the run of a scenario leaves.
#[derive(Drop)]
pub struct WorldEnd {
    /// What its hosts leave, in the order of the scenario.
    pub hosts: Vec<HostEnd>,
    /// How many ticks it had.
    pub ticks: u32,
    /// Whether a script has not ended after the last of them.
    pub stalled: bool,
}

/// Plays a scenario in serial order to its end: the first tick after which all scripts have ended, all flows are closed
/// and no frame is on the link, or its limit. The error is want of memory.
pub fn play_scenario(alloc: Global, s: &Scenario) -> Result<WorldEnd, AllocError>
    requires ranges { IsInRange s.now }
    ensures run { IfOk result (λ end. serial_run s.now ≡ log_of s.now end) }
    ensures hosts { IfOk result (λ end. length end.hosts.items ≡ length s.now.hosts) }
    ensures legal { IfOk result (λ end. Each (λ (e : HostEnd). Each IsLegal e.flows.items) end.hosts.items) }
{
    let mut playing = at_start(alloc, s)?;
    for tick in 0..s.limit {
        play_tick(alloc, s, tick, &mut playing)?;
        if is_at_rest(tick, &playing) {
            return end_of(alloc, playing.hosts, tick + 1, false);
        }
    }
    let stalled = !have_ended(&playing.hosts);
    end_of(alloc, playing.hosts, s.limit, stalled)
}

/// What these hosts leave after so many ticks. The error is want of memory.
pub(crate) fn end_of(
    alloc: Global,
    hosts: Vec<ScenarioHost<'_>>,
    ticks: u32,
    stalled: bool,
) -> Result<WorldEnd, AllocError>
    ensures ends { IfOk result (λ end. AreEnds hosts.entry.items end.hosts.items) }
    ensures legal { IfOk result (λ end. Each (λ (e : HostEnd). Each IsLegal e.flows.items) end.hosts.items) }
    ensures ticks { IfOk result (λ end. end.ticks ≡ ticks) }
    ensures stalled { IfOk result (λ end. end.stalled ≡ stalled) }
{
    let mut ends = Vec::new(alloc);
    for host in hosts {
        ends.push(host.finish()?)?;
    }
    Ok(WorldEnd {
        hosts: ends,
        ticks,
        stalled,
    })
}
