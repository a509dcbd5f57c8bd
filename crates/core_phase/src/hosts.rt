//! One phase of several hosts: the lanes of all work at once, and each host's deeds have their own order.
ghost use Rattle.std.specs.Prelude.{◌≡◌, ◌<◌, ℕ, false, All, length, OnOk};
ghost use Rattle.core_phase.specs.Lanes.{MayPlay};
ghost use Rattle.core_phase.specs.Hosts.{ByHosts, BetweenHosts, IsIdleHost, IsLentHost, IsReadyHost, IsLearnedHost};
ghost use Rattle.core_phase.specs.Hosts.{IsHostPhase};

use crate::lane::Lane;
use crate::phase::{collect_all, lanes_failed, lend_all};
use core_worker::Shared;
use crew::Crew;
use flow_lock::SlowPass;
use flow_state::FlowRecord;
use std::alloc::{AllocError, Global};
use std::sync::{Arc, Wait};
use tas_num::Gate;

/// A host's part in a phase.
#[derive(Drop)]
pub struct HostPart {
    /// What its lanes share.
    pub shared: Arc<Shared, Global>,
    pub slow: SlowPass<FlowRecord>,
    /// How many lanes it has.
    pub lanes: usize,
}

/// Each lane of the host is given a turn.
fn lend_host(host: &mut HostPart, own: &mut [Lane])
    requires { IsIdleHost host.old own.old }
    ensures lent { IsLentHost host.old host.new own.old own.new }
    ensures len { length own.new ≡ length own.old }
{
    lend_all(&*host.shared, &mut host.slow, own);
}

/// Each lane is given a turn by its host.
fn lend_hosts(hosts: &mut [HostPart], lanes: &mut [Lane])
    requires { ByHosts IsIdleHost hosts.old lanes.old }
    ensures lent { BetweenHosts IsLentHost hosts.old hosts.new lanes.old lanes.new }
    ensures len { length lanes.new ≡ length lanes.old }
{
    if let Some((host, rest)) = hosts.split_first_mut() {
        let (own, others) = lanes.split_at_mut(host.lanes);
        lend_host(host, own);
        lend_hosts(rest, others);
    }
}

/// Each lane is given a turn by its host.
fn lend_parts(hosts: &mut [HostPart], lanes: &mut Vec<Lane>)
    requires { ByHosts IsIdleHost hosts.old lanes.old.items }
    ensures lent { BetweenHosts IsLentHost hosts.old hosts.new lanes.old.items lanes.new.items }
    ensures len { length lanes.new.items ≡ length lanes.old.items }
{
    lend_hosts(hosts, lanes.as_mut_slice());
}

/// The turns of the host's lanes are given back, and it learns what was done in them.
fn collect_host(host: &mut HostPart, own: &mut [Lane])
    requires { IsReadyHost host.old own.old }
    ensures learned { IsLearnedHost host.old host.new own.old own.new }
    ensures len { length own.new ≡ length own.old }
{
    collect_all(&*host.shared, &mut host.slow, own);
    host.shared.table.learn(&mut host.slow);
}

/// All turns are given back, and each host learns what was done in its own.
fn collect_hosts(hosts: &mut [HostPart], lanes: &mut [Lane])
    requires { ByHosts IsReadyHost hosts.old lanes.old }
    ensures learned { BetweenHosts IsLearnedHost hosts.old hosts.new lanes.old lanes.new }
    ensures len { length lanes.new ≡ length lanes.old }
{
    if let Some((host, rest)) = hosts.split_first_mut() {
        let (own, others) = lanes.split_at_mut(host.lanes);
        collect_host(host, own);
        collect_hosts(rest, others);
    }
}

/// All turns are given back, and each host learns what was done in its own.
fn collect_parts(hosts: &mut [HostPart], lanes: &mut Vec<Lane>)
    requires { ByHosts IsReadyHost hosts.old lanes.old.items }
    ensures learned { BetweenHosts IsLearnedHost hosts.old hosts.new lanes.old.items lanes.new.items }
    ensures len { length lanes.new.items ≡ length lanes.old.items }
{
    collect_hosts(hosts, lanes.as_mut_slice());
}

/// The lanes of all hosts, those of the first first, work side by side. What each host's lanes did has one order, which
/// leads from its histories before to those after. The error is want of memory in a core's turn.
pub fn play_phases<R: Wait, G: Gate>(
    rt: &R,
    gate: &G,
    crew: &mut Crew<Lane>,
    hosts: &mut [HostPart],
    lanes: &mut Vec<Lane>,
) -> Result<(), AllocError>
    requires idle { ByHosts IsIdleHost hosts.old lanes.old.items }
    requires may { All MayPlay lanes.old.items }
    ensures idle { OnOk result (ByHosts IsIdleHost hosts.new lanes.new.items) }
    ensures phases { OnOk result (BetweenHosts IsHostPhase hosts.old hosts.new lanes.old.items lanes.new.items) }
    ensures crew { crew.new ≡ crew.old }
{
    lend_parts(hosts, lanes);
    crew.phase(rt, gate, lanes);
    if lanes_failed(lanes) {
        return Err(AllocError);
    }
    collect_parts(hosts, lanes);
    Ok(())
}
