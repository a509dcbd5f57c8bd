//! The hosts of a scenario before the first tick of a run on shared flows.
ghost use Rattle.std.specs.Prelude.{◌≡◌, ◌<◌, ◌≤◌, [], length, slice_get, Some, IfOk, OnOk, vec_capacity};
ghost use Rattle.scenario_ranges.specs.Ranges.{IsInRange};
ghost use Rattle.scenario_runs.specs.Worlds.{at_start as model_start, site_of};
ghost use Rattle.scenario_text.specs.declared.scenario.HostLine.{HostLine};
ghost use Rattle.scenario_world.specs.Playing.{IsWorldOf};
ghost use Rattle.shared_world.specs.Sites.{AreNew, IsNew, IsStart, scripts_at};

use crate::ending::end_hosts;
use crate::world::SharedWorld;
use core_host::CoreHost;
use link_script::SentList;
use scenario_text::Scenario;
use scenario_world::Traffic;
use sent_frames::SentCounts;
use shared_scripts::HostScripts;
use std::alloc::{AllocError, Global};
use std::sync::Wait;

/// The hosts of a scenario, with so many cores each, before the first tick. The error is want of memory.
pub(crate) fn at_start<'a, R: Wait>(
    rt: &R,
    alloc: Global,
    s: &'a Scenario,
    cores: u32,
) -> Result<SharedWorld<'a>, AllocError>
    requires ranges { IsInRange s.now }
    requires cores { (0 < cores) × (cores ≤ 16) }
    ensures { IfOk result (λ w. IsStart s.now cores w) }
{
    let scripts = new_scripts(alloc, s)?;
    let traffic = new_traffic(alloc, s)?;
    let hosts = new_hosts(rt, alloc, s, cores, scripts.as_slice())?;
    Ok(SharedWorld {
        hosts,
        scripts,
        traffic,
    })
}

/// The scripts of all applications, by their hosts. The error is want of memory.
fn new_scripts(alloc: Global, s: &Scenario) -> Result<Vec<HostScripts<'_>>, AllocError>
    requires { IsInRange s.now }
    ensures { IfOk result (λ xs. xs.items ≡ scripts_at s.now s.now.hosts) }
{
    let mut scripts = Vec::new(alloc);
    for line in s.hosts.as_slice() {
        scripts.push(HostScripts::at_start(alloc, s, line)?)?;
    }
    Ok(scripts)
}

/// What is kept of frames where none was sent. The error is want of memory.
fn new_traffic(alloc: Global, s: &Scenario) -> Result<Traffic, AllocError>
    ensures { IfOk result (λ k. IsWorldOf s.now 0 (model_start s.now) k) }
{
    let mut addresses = Vec::new(alloc);
    let mut counts = Vec::new(alloc);
    for line in s.hosts.as_slice() {
        addresses.push(line.params.addr)?;
        counts.push(SentCounts::new(alloc))?;
    }
    Ok(Traffic {
        addresses,
        counts,
        sent: SentList::new(alloc),
        last: 0,
    })
}

/// The hosts of all lines, with so many cores each, on which the applications of these scripts run. The error is want
/// of memory.
fn new_hosts<R: Wait>(
    rt: &R,
    alloc: Global,
    s: &Scenario,
    cores: u32,
    scripts: &[HostScripts<'_>],
) -> Result<Vec<CoreHost>, AllocError>
    requires ranges { IsInRange s.now }
    requires cores { (0 < cores) × (cores ≤ 16) }
    requires scripts { scripts.now ≡ scripts_at s.now s.now.hosts }
    ensures { IfOk result (λ hosts. AreNew s.now cores s.now.hosts hosts.items) }
{
    let mut hosts = Vec::with_capacity(alloc, s.hosts.len())?;
    match push_hosts(rt, alloc, s, cores, scripts, &mut hosts) {
        Ok(()) => Ok(hosts),
        Err(error) => {
            end_hosts(rt, hosts);
            Err(error)
        }
    }
}

/// The hosts of all lines stand in the list. The error is want of memory.
fn push_hosts<R: Wait>(
    rt: &R,
    alloc: Global,
    s: &Scenario,
    cores: u32,
    scripts: &[HostScripts<'_>],
    hosts: &mut Vec<CoreHost>,
) -> Result<(), AllocError>
    requires ranges { IsInRange s.now }
    requires cores { (0 < cores) × (cores ≤ 16) }
    requires scripts { scripts.now ≡ scripts_at s.now s.now.hosts }
    requires none { hosts.old.items ≡ [] }
    requires room { length s.now.hosts ≤ vec_capacity hosts.old }
    ensures { OnOk result (AreNew s.now cores s.now.hosts hosts.new.items) }
{
    for number in 0..s.hosts.len() {
        let host = new_host(rt, alloc, s, cores, number, &scripts[number])?;
        hosts.push_reserved(host);
    }
    Ok(())
}

/// The host of this number, with so many cores, on which the applications of these scripts run. The error is want of
/// memory.
fn new_host<R: Wait>(
    rt: &R,
    alloc: Global,
    s: &Scenario,
    cores: u32,
    number: usize,
    scripts: &HostScripts<'_>,
) -> Result<CoreHost, AllocError>
    requires ranges { IsInRange s.now }
    requires cores { (0 < cores) × (cores ≤ 16) }
    requires number { number < length s.now.hosts }
    requires scripts { (line : HostLine) → slice_get s.now.hosts number ≡ Some line
        → scripts.now ≡ (site_of s.now line).scripts }
    ensures { (line : HostLine) → slice_get s.now.hosts number ≡ Some line
        → IfOk result (λ h. IsNew s.now cores line h) }
{
    let line = s.hosts.item(number);
    let apps = scripts.numbers()?;
    CoreHost::new(
        rt,
        alloc,
        number as u32,
        line.params,
        cores,
        apps.as_slice(),
    )
}
