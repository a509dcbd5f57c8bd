//! Frames that hosts of shared flows sent in a tick go onto the link.
ghost use Rattle.std.specs.Prelude.{◌≡◌, ◌<◌, ◌+◌, ◌^◌, ◌++◌, List, length, map, slice_get, slice_set, Some, OnOk};
ghost use Rattle.host_rounds.specs.Hosts.{Live};
ghost use Rattle.host_rounds.specs.Lists.{Each};
ghost use Rattle.scenario_runs.specs.Worlds.{World, frames_of_entries, frames_of_flows, frames_of_log, frames_of_hosts};
ghost use Rattle.scenario_runs.specs.Worlds.{host_at};
ghost use Rattle.scenario_runs.specs.Applications.{Script};
ghost use Rattle.sent_frames.specs.Sending.{addresses_of, of_tick, AreUpTo, sent_by, sent_before};
ghost use Rattle.scenario_world.specs.Playing.{IsCounted, IsCountedBefore, AreCounted, AreCountedBefore};
ghost use Rattle.core_host.specs.Emission.{IsIndexedAt};
ghost use Rattle.core_host.specs.Sound.{IsStaffSound};
ghost use Rattle.core_host.specs.Views.{seen_by};
ghost use Rattle.shared_world.specs.Looking.{AreLookedAt, AreSilentBut, IsLookedAt, IsSilentBut};
ghost use Rattle.shared_world.specs.Sites.{sites_in};

use core_host::CoreHost;
use link_script::SentList;
use sent_frames::{Sender, SentCounts};
use std::alloc::{AllocError, Global};

/// Collects the frames that these hosts sent in a tick, the first of which has this number, behind those that were sent
/// before, and counts them. The error is want of memory.
pub(crate) fn collect_all(
    alloc: Global,
    tick: u32,
    number: u32,
    hosts: &mut [CoreHost],
    addresses: &[u32],
    counts: &mut [SentCounts],
    sent: &mut SentList,
) -> Result<(), AllocError>
    requires hosts { number + length hosts.old < 2 ^ 32 }
    requires addresses { length addresses.now < 2 ^ 32 }
    requires sound { Each IsStaffSound hosts.old }
    requires silent { AreSilentBut tick hosts.old }
    requires few { Each (λ h. length (seen_by h).flows < 2 ^ 32) hosts.old }
    requires counted { (scripts : List (List Script)) × (length scripts ≡ length hosts.old)
        × AreCountedBefore tick (sites_in hosts.old scripts) counts.old }
    requires last { AreUpTo tick sent.old }
    ensures looked { OnOk result (AreLookedAt hosts.old hosts.new) }
    ensures frames { (world : World) (scripts : List (List Script)) → addresses.now ≡ addresses_of world
        → length scripts ≡ length hosts.old → OnOk result (sent.new
        ≡ sent.old ++ of_tick tick (frames_of_hosts world number (sites_in hosts.old scripts))) }
    ensures counted { (scripts : List (List Script)) → length scripts ≡ length hosts.old
        → OnOk result (AreCounted (sites_in hosts.old scripts) counts.new) }
    ensures last { OnOk result (AreUpTo tick sent.new) }
{
    let Some((host, rest)) = hosts.split_first_mut() else {
        return Ok(());
    };
    let Some((own, others)) = counts.split_first_mut() else {
        unreachable!();
    };
    let sender = Sender {
        host: number,
        addresses,
    };
    collect_host(alloc, &sender, tick, host, own, sent)?;
    collect_all(alloc, tick, number + 1, rest, addresses, others, sent)
}

/// The same of one host.
fn collect_host(
    alloc: Global,
    sender: &Sender<'_>,
    tick: u32,
    host: &mut CoreHost,
    counts: &mut SentCounts,
    sent: &mut SentList,
) -> Result<(), AllocError>
    requires addresses { length sender.now.addresses.now < 2 ^ 32 }
    requires sound { IsStaffSound host.old }
    requires silent { IsSilentBut tick (seen_by host.old).flows }
    requires few { length (seen_by host.old).flows < 2 ^ 32 }
    requires counted { IsCountedBefore tick (seen_by host.old) counts.old }
    requires last { AreUpTo tick sent.old }
    ensures looked { OnOk result (IsLookedAt host.old host.new) }
    ensures frames { (world : World) → sender.now.addresses.now ≡ addresses_of world → OnOk result (sent.new
        ≡ sent.old ++ of_tick tick (frames_of_flows world sender.now.host 0 (seen_by host.old).flows
        ++ frames_of_log world sender.now.host 0 (seen_by host.old).log)) }
    ensures counted { OnOk result (IsCounted (seen_by host.old) counts.new) }
    ensures last { OnOk result (AreUpTo tick sent.new) }
{
    counts.open_to(host.flow_count())?;
    collect_flows(alloc, sender, tick, host, counts, sent)?;
    counts.collect_answers(alloc, sender, tick, host.log(), sent)
}

/// The same of its flows. One that the index hasn't sent nothing in the tick.
fn collect_flows(
    alloc: Global,
    sender: &Sender<'_>,
    tick: u32,
    host: &mut CoreHost,
    counts: &mut SentCounts,
    sent: &mut SentList,
) -> Result<(), AllocError>
    requires addresses { length sender.now.addresses.now < 2 ^ 32 }
    requires sound { IsStaffSound host.old }
    requires silent { IsSilentBut tick (seen_by host.old).flows }
    requires few { length (seen_by host.old).flows < 2 ^ 32 }
    requires counted { counts.old.flows.items
        ≡ map (λ (l : Live). sent_before tick l.flow.entries) (seen_by host.old).flows }
    requires last { AreUpTo tick sent.old }
    ensures looked { OnOk result (IsLookedAt host.old host.new) }
    ensures frames { (world : World) → sender.now.addresses.now ≡ addresses_of world → OnOk result (sent.new
        ≡ sent.old ++ of_tick tick (frames_of_flows world sender.now.host 0 (seen_by host.old).flows)) }
    ensures flows { OnOk result (counts.new.flows.items
        ≡ map (λ (l : Live). sent_by l.flow.entries) (seen_by host.old).flows) }
    ensures answers { OnOk result (counts.new.answers ≡ counts.old.answers) }
    ensures lines { OnOk result (counts.new.lines ≡ counts.old.lines) }
    ensures last { OnOk result (AreUpTo tick sent.new) }
{
    let mut at = 0;
    for place in 0..host.flow_count() {
        if host.is_indexed(place) {
            collect_at(alloc, sender, tick, host, place, at, counts, sent)?;
            at += 1;
        }
    }
    Ok(())
}

/// The same of the flow at this place, which is in the index, behind so many others.
fn collect_at(
    alloc: Global,
    sender: &Sender<'_>,
    tick: u32,
    host: &mut CoreHost,
    place: usize,
    at: usize,
    counts: &mut SentCounts,
    sent: &mut SentList,
) -> Result<(), AllocError>
    requires addresses { length sender.now.addresses.now < 2 ^ 32 }
    requires sound { IsStaffSound host.old }
    requires there { IsIndexedAt place at (seen_by host.old) }
    requires place { (place < 2 ^ 32) × (place < length counts.old.flows.items) }
    requires counted { (l : Live) → slice_get (seen_by host.old).flows place ≡ Some l
        → slice_get counts.old.flows.items place ≡ Some (sent_before tick l.flow.entries) }
    requires last { AreUpTo tick sent.old }
    ensures looked { OnOk result (IsLookedAt host.old host.new) }
    ensures frames { (world : World) (l : Live) → sender.now.addresses.now ≡ addresses_of world
        → slice_get (seen_by host.old).flows place ≡ Some l
        → OnOk result (sent.new ≡ sent.old ++ of_tick tick (frames_of_entries sender.now.host place 0
        (host_at world l.flow.tuple.raddr) l.flow.tuple l.flow.entries)) }
    ensures flows { (l : Live) → slice_get (seen_by host.old).flows place ≡ Some l
        → OnOk result (counts.new.flows.items ≡ slice_set counts.old.flows.items place (sent_by l.flow.entries)) }
    ensures answers { counts.new.answers ≡ counts.old.answers }
    ensures lines { counts.new.lines ≡ counts.old.lines }
    ensures last { OnOk result (AreUpTo tick sent.new) }
{
    let flow = host.take_record(at);
    let done = counts.collect_flow(alloc, sender, place as u32, tick, &flow, sent);
    host.give_record(at, flow);
    done
}
