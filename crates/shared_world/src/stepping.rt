//! The steps of a tick, host by host.
ghost use Rattle.std.specs.Prelude.{◌≡◌, ◌+◌, ◌<◌, ℕ, [], List, length, OnOk};
ghost use Rattle.std.specs.List.{AllZip};
ghost use Rattle.core_host.specs.Sound.{IsStaffSound};
ghost use Rattle.host_rounds.specs.Lists.{Each};
ghost use Rattle.shared_scripts.specs.Begun.{IsBegun};
ghost use Rattle.shared_scripts.specs.Ended.{IsEnded};
ghost use Rattle.shared_scripts.specs.Playing.{IsPlayable};
ghost use Rattle.shared_world.specs.Sites.{ArePlayable};
ghost use Rattle.shared_world.specs.Stepping.{frames_to, HaveBegun, WereBegun, HaveGoneOn, AreMade};

use crate::arriving::comings_at;
use core_host::{CoreHost, play_hosts};
use core_phase::Lane;
use crew::Crew;
use link_script::DueList;
use scenario_text::Scenario;
use shared_scripts::{HostScripts, end_tick};
use std::alloc::{AllocError, Global};
use std::sync::Wait;
use tas_num::Gate;

/// The hosts play a tick in which these frames are due, the lanes of all side by side. The error is want of memory.
pub(crate) fn play_steps<R: Wait, G: Gate>(
    rt: &R,
    gate: &G,
    crew: &mut Crew<Lane>,
    alloc: Global,
    s: &Scenario,
    tick: u32,
    due: &DueList<'_>,
    hosts: &mut [CoreHost],
    scripts: &mut [HostScripts<'_>],
    lanes: &mut Vec<Lane>,
) -> Result<(), AllocError>
    requires count { length hosts.old ≡ length s.now.hosts }
    requires playable { ArePlayable tick hosts.old scripts.old }
    requires empty { lanes.old.items ≡ [] }
    ensures made { OnOk result (AreMade s.now tick due.now 0 scripts.old scripts.new hosts.old hosts.new) }
    ensures empty { OnOk result (lanes.new.items ≡ []) }
    ensures crew { crew.new ≡ crew.old }
{
    begin_all(rt, alloc, s, tick, due, 0, hosts, &*scripts)?;
    play_hosts(rt, gate, crew, hosts, lanes, tick)?;
    go_on_all(rt, s, tick, hosts, scripts)?;
    play_hosts(rt, gate, crew, hosts, lanes, tick)?;
    end_all(hosts, tick)
}

/// These hosts, the first of which has this number, begin a tick with the frames that come to them. The error is want
/// of memory.
fn begin_all<R: Wait>(
    rt: &R,
    alloc: Global,
    s: &Scenario,
    tick: u32,
    due: &DueList<'_>,
    number: usize,
    hosts: &mut [CoreHost],
    scripts: &[HostScripts<'_>],
) -> Result<(), AllocError>
    requires count { number + length hosts.old ≡ length s.now.hosts }
    requires playable { ArePlayable tick hosts.old scripts.now }
    ensures { OnOk result (HaveBegun s.now tick due.now number scripts.now hosts.old hosts.new) }
{
    let _count = s.hosts.len();
    if let Some((host, rest)) = hosts.split_first_mut() {
        if let Some((own, others)) = scripts.split_first() {
            begin(rt, alloc, s, tick, due, number, host, own)?;
            begin_all(rt, alloc, s, tick, due, number + 1, rest, others)?;
        }
    }
    Ok(())
}

/// The host of this number begins a tick with the frames that come to it. The error is want of memory.
fn begin<R: Wait>(
    rt: &R,
    alloc: Global,
    s: &Scenario,
    tick: u32,
    due: &DueList<'_>,
    number: usize,
    host: &mut CoreHost,
    scripts: &HostScripts<'_>,
) -> Result<(), AllocError>
    requires number { number < length s.now.hosts }
    requires playable { IsPlayable tick host.old scripts.now }
    ensures { OnOk result ((name : List ℕ) × IsBegun s.now tick name (frames_to number due.now) scripts.now host.old
        host.new) }
{
    let frames = comings_at(alloc, due, number)?;
    let name = s.hosts.item(number).name.as_slice();
    scripts.begin_tick(rt, host, tick, frames.as_slice(), s, name)
}

/// The scripts of these hosts, whose lanes have played, go on. The error is want of memory.
fn go_on_all<R: Wait>(
    rt: &R,
    s: &Scenario,
    tick: u32,
    hosts: &mut [CoreHost],
    scripts: &mut [HostScripts<'_>],
) -> Result<(), AllocError>
    requires { WereBegun s.now tick scripts.old hosts.old }
    ensures { OnOk result (HaveGoneOn s.now tick scripts.old scripts.new hosts.old hosts.new) }
{
    for (k, own) in scripts.iter_mut().enumerate() {
        own.go_on(rt, &mut hosts[k], tick, s)?;
    }
    Ok(())
}

/// The tick ends on these hosts. The error is want of memory.
fn end_all(hosts: &mut [CoreHost], tick: u32) -> Result<(), AllocError>
    requires { Each IsStaffSound hosts.old }
    ensures { OnOk result (AllZip (IsEnded tick) hosts.old hosts.new) }
{
    if let Some((host, rest)) = hosts.split_first_mut() {
        end_tick(host, tick)?;
        end_all(rest, tick)?;
    }
    Ok(())
}
