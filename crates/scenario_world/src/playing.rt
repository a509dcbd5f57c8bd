//! A run of a scenario, tick by tick.

ghost use Rattle.std.specs.Prelude.{◌≡◌, ℕ, ◌+◌, ◌<◌, ◌^◌, length, IfOk, OnOk};
ghost use Rattle.link_script.specs.DueFrames as frames;
ghost use Rattle.scenario_text.specs.declared.scenario.Scenario.{Scenario};
ghost use Rattle.scenario_ranges.specs.Ranges.{IsInRange};
ghost use Rattle.scenario_runs.specs.Worlds.{World, at_start as model_start, sent_in, is_at_rest as model_rest};
ghost use Rattle.scenario_runs.specs.Runs.{serial_sites, serial_world};
ghost use Rattle.scenario_world.specs.Playing.{IsWorld, IsPlayed, AreRecent};

use crate::arriving::arrivals_at;
use crate::collecting::collect_all;
use crate::resting::{are_closed, have_ended};
use crate::traffic::Traffic;
use link_script::{DueList, SentList, due};
use scenario_host::ScenarioHost;
use scenario_text::Scenario;
use sent_frames::SentCounts;
use std::alloc::{AllocError, Global};

/// The hosts of a scenario between two ticks, and what is kept of the frames that they sent.
#[derive(Drop)]
pub struct Playing<'a> {
    pub hosts: Vec<ScenarioHost<'a>>,
    pub traffic: Traffic,
}

/// The hosts of a scenario before the first tick. The error is want of memory.
pub fn at_start<'a>(alloc: Global, s: &'a Scenario) -> Result<Playing<'a>, AllocError>
    requires { IsInRange s.now }
    ensures hosts { IfOk result (λ p. p.hosts.items ≡ model_start s.now) }
    ensures world { IfOk result (λ p. IsWorld s.now 0 p) }
{
    let mut hosts = Vec::new(alloc);
    let mut addresses = Vec::new(alloc);
    let mut counts = Vec::new(alloc);
    for line in s.hosts.as_slice() {
        hosts.push(ScenarioHost::at_start(alloc, s, line)?)?;
        addresses.push(line.params.addr)?;
        counts.push(SentCounts::new(alloc))?;
    }
    Ok(Playing {
        hosts,
        traffic: Traffic {
            addresses,
            counts,
            sent: SentList::new(alloc),
            last: 0,
        },
    })
}

/// Plays a tick of all hosts, in serial order. The error is want of memory.
pub fn play_tick(
    alloc: Global,
    s: &Scenario,
    tick: u32,
    p: &mut Playing<'_>,
) -> Result<(), AllocError>
    requires ranges { IsInRange s.now }
    requires world { IsWorld s.now tick p.old }
    ensures hosts { OnOk result (p.new.hosts.items ≡ serial_world s.now tick p.old.hosts.items) }
    ensures world { OnOk result (IsWorld s.now (tick + 1) p.new) }
    ensures recent { OnOk result (AreRecent s.now.link tick p.new.traffic.sent) }
{
    let due = due(alloc, &s.link, &p.traffic.sent, tick)?;
    play_hosts(alloc, s, tick, &due, &mut p.hosts)?;
    drop(due);
    end_tick(alloc, s, tick, p)
}

/// Ends a tick that the hosts played: what they sent goes to the link, and what is too old to come goes from it. The
/// error is want of memory.
pub fn end_tick(
    alloc: Global,
    s: &Scenario,
    tick: u32,
    p: &mut Playing<'_>,
) -> Result<(), AllocError>
    requires ranges { IsInRange s.now }
    requires played { IsPlayed s.now tick p.old }
    ensures hosts { p.new.hosts.items ≡ p.old.hosts.items }
    ensures world { OnOk result (IsWorld s.now (tick + 1) p.new) }
    ensures recent { OnOk result (AreRecent s.now.link tick p.new.traffic.sent) }
{
    send_on(alloc, s, tick, p)?;
    p.traffic.forget(s, tick);
    Ok(())
}

/// What the hosts sent in a tick goes to the link. The error is want of memory.
fn send_on(alloc: Global, s: &Scenario, tick: u32, p: &mut Playing<'_>) -> Result<(), AllocError>
    requires ranges { IsInRange s.now }
    requires played { IsPlayed s.now tick p.old }
    ensures hosts { p.new.hosts.items ≡ p.old.hosts.items }
    ensures world { OnOk result (IsWorld s.now (tick + 1) p.new) }
{
    collect_all(
        alloc,
        tick,
        &p.hosts,
        &p.traffic.addresses,
        &mut p.traffic.counts,
        &mut p.traffic.sent,
    )?;
    p.traffic.note_last(&s.link, tick);
    Ok(())
}

/// Each host plays a tick, in which these frames are due. The error is want of memory.
fn play_hosts(
    alloc: Global,
    s: &Scenario,
    tick: u32,
    due: &DueList<'_>,
    hosts: &mut [ScenarioHost<'_>],
) -> Result<(), AllocError>
    ensures { (whole : World) → due.now ≡ frames.due s.now.link (sent_in whole) tick
        → OnOk result (hosts.new ≡ serial_sites s.now whole tick 0 hosts.old) }
{
    for (number, host) in hosts.iter_mut().enumerate() {
        let arrivals = arrivals_at(alloc, &*due, number)?;
        host.play(tick, &arrivals, s)?;
    }
    Ok(())
}

/// Whether all is at rest after a tick: all scripts have ended, all flows are closed, and no frame is on the link.
pub fn is_at_rest(tick: u32, p: &Playing<'_>) -> bool
    ensures { (s : Scenario) → IsWorld s (tick + 1) p.now → result ≡ model_rest s tick p.now.hosts.items }
{
    have_ended(&p.hosts) && are_closed(&p.hosts) && p.traffic.last <= u64::from(tick)
}
