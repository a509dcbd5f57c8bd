//! Frames that hosts sent in a tick go onto the link.

ghost use Rattle.std.specs.Prelude.{◌≡◌, ◌≤◌, ◌<◌, ◌^◌, ◌++◌, length, map, OnOk, vec_len};
ghost use Rattle.host_rounds.specs.Hosts.{Live};
ghost use Rattle.scenario_runs.specs.Worlds.{World, frames_of_flows, frames_of_log, frames_of_hosts};
ghost use Rattle.sent_frames.specs.Sending.{addresses_of, of_tick, AreUpTo, sent_by, sent_before};
ghost use Rattle.scenario_world.specs.Playing.{IsCounted, IsCountedBefore, AreCounted, AreCountedBefore};

use link_script::SentList;
use local_host::LocalHost;
use scenario_host::ScenarioHost;
use sent_frames::{Sender, SentCounts};
use std::alloc::{AllocError, Global};

/// Collects the frames that the hosts with these addresses sent in a tick, behind those that they sent before, and
/// counts them. The error is want of memory.
pub fn collect_all(
    alloc: Global,
    tick: u32,
    hosts: &[ScenarioHost<'_>],
    addresses: &[u32],
    counts: &mut [SentCounts],
    sent: &mut SentList,
) -> Result<(), AllocError>
    requires hosts { length hosts.now < 2 ^ 32 }
    requires addresses { length addresses.now < 2 ^ 32 }
    requires counted { AreCountedBefore tick hosts.now counts.old }
    requires last { AreUpTo tick sent.old }
    ensures frames { (world : World) → addresses.now ≡ addresses_of world → OnOk result (sent.new
        ≡ sent.old ++ of_tick tick (frames_of_hosts world 0 hosts.now)) }
    ensures counted { OnOk result (AreCounted hosts.now counts.new) }
    ensures last { OnOk result (AreUpTo tick sent.new) }
{
    for (number, host) in hosts.iter().enumerate() {
        let sender = Sender {
            host: number as u32,
            addresses,
        };
        collect_host(alloc, &sender, tick, host.host(), &mut counts[number], sent)?;
    }
    Ok(())
}

/// The same of one host.
fn collect_host(
    alloc: Global,
    sender: &Sender<'_>,
    tick: u32,
    host: &LocalHost,
    counts: &mut SentCounts,
    sent: &mut SentList,
) -> Result<(), AllocError>
    requires addresses { length sender.now.addresses.now < 2 ^ 32 }
    requires counted { IsCountedBefore tick host.now counts.old }
    requires last { AreUpTo tick sent.old }
    ensures frames { (world : World) → sender.now.addresses.now ≡ addresses_of world → OnOk result (sent.new
        ≡ sent.old ++ of_tick tick (frames_of_flows world sender.now.host 0 host.now.flows
        ++ frames_of_log world sender.now.host 0 host.now.log)) }
    ensures counted { OnOk result (IsCounted host.now counts.new) }
    ensures last { OnOk result (AreUpTo tick sent.new) }
{
    counts.open_to(host.flow_count())?;
    collect_flows(alloc, sender, tick, host, counts, sent)?;
    counts.collect_answers(alloc, sender, tick, host.log(), sent)
}

/// The same of its flows.
fn collect_flows(
    alloc: Global,
    sender: &Sender<'_>,
    tick: u32,
    host: &LocalHost,
    counts: &mut SentCounts,
    sent: &mut SentList,
) -> Result<(), AllocError>
    requires addresses { length sender.now.addresses.now < 2 ^ 32 }
    requires counted { counts.old.flows.items ≡ map (λ (l : Live). sent_before tick l.flow.entries) host.now.flows }
    requires last { AreUpTo tick sent.old }
    ensures frames { (world : World) → sender.now.addresses.now ≡ addresses_of world → OnOk result (sent.new
        ≡ sent.old ++ of_tick tick (frames_of_flows world sender.now.host 0 host.now.flows)) }
    ensures flows { OnOk result (counts.new.flows.items
        ≡ map (λ (l : Live). sent_by l.flow.entries) host.now.flows) }
    ensures answers { OnOk result (counts.new.answers ≡ counts.old.answers) }
    ensures lines { OnOk result (counts.new.lines ≡ counts.old.lines) }
    ensures last { OnOk result (AreUpTo tick sent.new) }
{
    for place in 0..host.flow_count() {
        let number = host.flow_number(place);
        counts.collect_flow(alloc, sender, number, tick, host.flow(place).record(), sent)?;
    }
    Ok(())
}
