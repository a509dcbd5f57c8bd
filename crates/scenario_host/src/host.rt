//! A host of a scenario with its applications: a tick in serial order.

ghost use Rattle.std.specs.Prelude.{◌≡◌, ◌≤◌, ◌<◌, ◌+◌, ◌++◌, ℕ, false, [], map, fold, length, IfOk, OnOk};
ghost use Rattle.std.specs.List.{list_all};
ghost use Rattle.host_rounds.specs.Lists.{Each};
ghost use Rattle.host_rounds.specs.Hosts.{flows_of};
ghost use Rattle.host_rounds.specs.Deliveries.{received_serially, delivered};
ghost use Rattle.host_rounds.specs.SerialOrder.{ask_phase, serial_tick};
ghost use Rattle.local_host.specs.Arriving.{arrival_in};
ghost use Rattle.local_host.specs.Live.{flow_left, IsLegal};
ghost use Rattle.scenario_ranges.specs.Ranges.{IsInRange, IsHostInRange};
ghost use Rattle.scenario_runs.specs.Applications.{Script, has_ended, turn};
ghost use Rattle.scenario_runs.specs.Worlds.{site_of, scripts_of, starts_of, address_in};
ghost use Rattle.scenario_host.specs.Resting.{scripts_in, seen, AreKept};
ghost use Rattle.scenario_host.specs.Sound.{IsFit, IsSound};
ghost use Rattle.scenario_host.specs.Turns.{turn_of, site_with};

use crate::filling::FillBytes;
use crate::resting::{AppScripts, LEAST_REST};
use crate::script::AppScript;
use crate::start::scripts_on;
use crate::starts::HostStarts;
use local_host::{Arrival, HostEnd, LocalHost};
use scenario_text::{HostLine, Scenario};
use std::alloc::{AllocError, Global};
use std::marker::Model;

/// A host of a scenario and its applications, seen as both in the middle of a run.
#[derive(Drop)]
pub struct ScenarioHost<'a> {
    alloc: Global,
    host: LocalHost,
    starts: HostStarts,
    filling: FillBytes,
    scripts: AppScripts<'a>,
}

impl<'a> Model for ScenarioHost<'a> {
    ghost use Rattle.std.specs.Prelude.{List};
    ghost use Rattle.host_rounds.specs.Scripts.{Site};
    ghost use Rattle.scenario_runs.specs.Applications.{Script};
    ghost use Rattle.scenario_host.specs.Resting.{scripts_in, IsReady};
    ghost use Rattle.scenario_host.specs.Turns.{site_with};

    ghost Value = { Site (List Script) };

    ghost view = { λ h. site_with h.host (scripts_in h.scripts) };

    ghost invariant = { λ h. IsReady h.starts.params h.host h.scripts };
}

impl<'a> ScenarioHost<'a> {
    /// The host of a line of a scenario, with its applications at their first steps. The error is want of memory.
    pub fn at_start(
        alloc: Global,
        s: &'a Scenario,
        line: &'a HostLine,
    ) -> Result<ScenarioHost<'a>, AllocError>
        requires ranges { IsInRange s.now }
        requires host { IsHostInRange line.now }
        ensures { IfOk result (λ h. h ≡ site_of s.now line.now) }
    {
        let filling = FillBytes::new(alloc)?;
        let scripts = scripts_on(alloc, s, line.name.as_slice())?;
        Ok(ScenarioHost {
            alloc,
            host: LocalHost::new(alloc, line.params),
            starts: HostStarts {
                params: line.params,
            },
            filling,
            scripts: AppScripts::new(alloc, scripts),
        })
    }

    /// One tick, in serial order: the slow path, the frames that come, the call of each application, and what may go.
    /// The error is want of memory, and leaves a host without flows and applications.
    pub fn play(
        &mut self,
        tick: u32,
        arrivals: &[Arrival<'_>],
        s: &Scenario,
    ) -> Result<(), AllocError>
        ensures { OnOk result (self.new ≡ serial_tick (scripts_of s.now self.old.host.params) tick self.old
            (record { frames = map arrival_in arrivals.now; asks = map (λ (x : Script). x.number) self.old.scripts })) }
    {
        match play_tick(
            &mut self.host,
            &mut self.scripts,
            tick,
            arrivals,
            s,
            &self.starts,
            &self.filling,
        ) {
            Ok(()) => Ok(()),
            Err(error) => {
                self.host = LocalHost::new(self.alloc, self.starts.params);
                self.scripts = AppScripts::new(self.alloc, Vec::new(self.alloc));
                Err(error)
            }
        }
    }

    /// Whether all scripts have ended.
    pub fn have_ended(&self) -> bool
        ensures { result ≡ list_all has_ended self.now.scripts }
    {
        have_ended(self.scripts.items.as_slice())
    }

    /// The host alone.
    pub fn host(&self) -> &LocalHost
        ensures { result.now ≡ self.now.host }
    {
        &self.host
    }

    /// What the host leaves after its last tick. The error is want of memory.
    pub fn finish(self) -> Result<HostEnd, AllocError>
        ensures log { IfOk result (λ end. end.log ≡ self.entry.host.log) }
        ensures flows { IfOk result (λ end. map flow_left end.flows.items ≡ flows_of self.entry.host.flows) }
        ensures legal { IfOk result (λ end. Each IsLegal end.flows.items) }
    {
        self.host.finish()
    }
}

fn have_ended(scripts: &[AppScript<'_>]) -> bool
    ensures { result ≡ list_all has_ended scripts.now }
{
    for script in scripts {
        if !script.has_ended() {
            return false;
        }
    }
    true
}

/// A tick of a host and its scripts. The error is want of memory.
fn play_tick(
    host: &mut LocalHost,
    scripts: &mut AppScripts<'_>,
    tick: u32,
    arrivals: &[Arrival<'_>],
    s: &Scenario,
    starts: &HostStarts,
    filling: &FillBytes,
) -> Result<(), AllocError>
    requires params { starts.now.params ≡ host.old.params }
    requires sound { IsSound (site_with host.old (scripts_in scripts.old)) }
    requires kept { AreKept scripts.old }
    ensures made { OnOk result (site_with host.new (scripts_in scripts.new)
        ≡ serial_tick (scripts_of s.now starts.now.params) tick (site_with host.old (scripts_in scripts.old)) (record {
          frames = map arrival_in arrivals.now;
          asks = map (λ (x : Script). x.number) (scripts_in scripts.old);
        })) }
    ensures params { OnOk result (host.new.params ≡ host.old.params) }
    ensures sound { OnOk result (IsSound (site_with host.new (scripts_in scripts.new))) }
    ensures kept { OnOk result (AreKept scripts.new) }
{
    host.pass_time(tick)?;
    deliver_all(host, tick, arrivals, starts)?;
    ask_all(host, scripts, tick, s, starts, filling)?;
    host.send_all(tick)
}

/// All frames that come to the host in a tick. The error is want of memory.
fn deliver_all(
    host: &mut LocalHost,
    tick: u32,
    arrivals: &[Arrival<'_>],
    starts: &HostStarts,
) -> Result<(), AllocError>
    ensures { OnOk result (host.new ≡ fold (delivered received_serially (starts_of starts.now.params) tick)
        host.old (map arrival_in arrivals.now)) }
{
    for arrival in arrivals {
        host.deliver(tick, arrival, starts)?;
    }
    Ok(())
}

/// The turns of all applications, in their order. The error is want of memory.
fn ask_all(
    host: &mut LocalHost,
    scripts: &mut AppScripts<'_>,
    tick: u32,
    s: &Scenario,
    starts: &HostStarts,
    filling: &FillBytes,
) -> Result<(), AllocError>
    requires sound { IsSound (site_with host.old (scripts_in scripts.old)) }
    requires kept { AreKept scripts.old }
    ensures made { OnOk result (site_with host.new (scripts_in scripts.new)
        ≡ ask_phase (scripts_of s.now starts.now.params) tick (site_with host.old (scripts_in scripts.old))
        (map (λ (x : Script). x.number) (scripts_in scripts.old))) }
    ensures params { OnOk result (host.new.params ≡ host.old.params) }
    ensures sound { OnOk result (IsSound (site_with host.new (scripts_in scripts.new))) }
    ensures kept { OnOk result (AreKept scripts.new) }
{
    scripts.look_where_due()?;
    let one_rests = ask_awake(host, scripts, tick, s, starts, filling)?;
    scripts.end_turn(one_rests);
    Ok(())
}

/// The turns of those that are awake, in their order; those of sleepers are counted alone. The answer is whether one
/// may fall asleep. The error is want of memory.
fn ask_awake(
    host: &mut LocalHost,
    scripts: &mut AppScripts<'_>,
    tick: u32,
    s: &Scenario,
    starts: &HostStarts,
    filling: &FillBytes,
) -> Result<bool, AllocError>
    requires sound { IsSound (site_with host.old (scripts_in scripts.old)) }
    requires kept { AreKept scripts.old }
    requires left { scripts.old.passed < scripts.old.turns }
    ensures made { OnOk result (site_with host.new
        (seen (scripts.new.passed + 1) scripts.new.asleep.items scripts.new.items.items)
        ≡ ask_phase (scripts_of s.now starts.now.params) tick (site_with host.old (scripts_in scripts.old))
        (map (λ (x : Script). x.number) (scripts_in scripts.old))) }
    ensures params { OnOk result (host.new.params ≡ host.old.params) }
    ensures sound { OnOk result (IsSound (site_with host.new
        (seen (scripts.new.passed + 1) scripts.new.asleep.items scripts.new.items.items))) }
    ensures kept { OnOk result (AreKept scripts.new) }
    ensures left { OnOk result (scripts.new.passed < scripts.new.turns) }
{
    let mut one_rests = false;
    for k in 0..scripts.awake.len() {
        let place = scripts.awake[k];
        one_rests |= ask_one(host, &mut scripts.items[place], tick, s, starts, filling)?;
    }
    Ok(one_rests)
}

/// The turn of one. The answer is whether it may fall asleep. The error is want of memory.
fn ask_one(
    host: &mut LocalHost,
    script: &mut AppScript<'_>,
    tick: u32,
    s: &Scenario,
    starts: &HostStarts,
    filling: &FillBytes,
) -> Result<bool, AllocError>
    requires listens { host.old.params.fixed ≡ false }
    requires fit { IsFit (length host.old.flows) script.old }
    ensures { OnOk result (turn_of host.new script.new
        ≡ turn (starts_of starts.now.params) (address_in s.now.hosts) tick (turn_of host.old script.old)) }
{
    script.take_turn(&(), host, tick, s.hosts.as_slice(), starts, filling)?;
    Ok(script.rest() >= LEAST_REST)
}
