//! Two cores and two applications share four flows, each on a thread of its own.
ghost use Rattle.std.specs.Prelude.{◌≡◌, All, IfSome};
ghost use Rattle.host_tests.specs.Hosts.{AreCores, AreReady, AreTalking, IsHost};

use crate::clients::{accept_two, both_talk, side_by_side};
use crate::flows::Summary;
use crate::host::{deliver_all, end, look, settle, work_in_turn};
use crate::hosts::{Cores, Host};
use crate::packets::{LAST, PIECES};
use crate::starting::{listen_both, started};
use core_worker::Shared;
use slow_worker::SlowWorker;
use std::alloc::Global;
use std::sync::Wait;
use std::test::*;
use std::thread::Threads;
use tas_model::FlowId;
use tas_num::NoGate;

/// How often all pieces of the streams are handed to the cores: in each round one more of each flow is entered at
/// least.
const ROUNDS: u32 = PIECES;

/// The frames with this number come to their cores, which have their turns, and what they pass on to the slow path.
fn exchange<R: Threads + Wait + Sync>(
    rt: &R,
    alloc: Global,
    shared: &Shared,
    slow: &mut SlowWorker,
    cores: &mut Cores,
    number: u32,
) -> bool
    requires { AreReady shared.now slow.old cores.old }
    ensures { AreReady shared.now slow.new cores.new }
{
    if !deliver_all(rt, alloc, shared, cores, number) {
        return false;
    }
    work_in_turn(rt, shared, cores);
    let is_settled = settle(rt, shared, slow, cores);
    // What the slow path had them look at.
    work_in_turn(rt, shared, cores);
    is_settled
}

/// All peers open their connections.
fn open_all<R: Threads + Wait + Sync>(
    rt: &R,
    alloc: Global,
    shared: &Shared,
    slow: &mut SlowWorker,
    cores: &mut Cores,
) -> bool
    requires { AreReady shared.now slow.old cores.old }
    ensures { AreReady shared.now slow.new cores.new }
{
    // The first turn of the slow path is for the time alone.
    if !settle(rt, shared, slow, cores) {
        return false;
    }
    if !exchange(rt, alloc, shared, slow, cores, 0) {
        return false;
    }
    exchange(rt, alloc, shared, slow, cores, 1)
}

/// The applications listen, all peers open their connections, and the applications accept them.
pub fn connect_all<R: Threads + Wait + Sync>(
    rt: &R,
    alloc: Global,
    shared: &Shared,
    host: &mut Host,
) -> Option<()>
    requires { IsHost shared.now host.old }
    ensures ready { IfSome result (λ _. AreReady shared.now host.new.slow host.new.cores) }
    ensures cores { AreCores shared.now host.new.cores }
    ensures clients { IfSome result (λ _. AreTalking shared.now host.new.clients) }
{
    if !listen_both(shared, &mut host.slow, &mut host.clients) {
        return None;
    }
    if !open_all(rt, alloc, shared, &mut host.slow, &mut host.cores) {
        return None;
    }
    accept_two(shared, &mut host.slow, &mut host.clients.first, 0, 80)?;
    accept_two(shared, &mut host.slow, &mut host.clients.second, 1, 81)?;
    Some(())
}

/// All pieces of all streams are handed to the cores.
fn deliver_pieces<R: Wait>(rt: &R, alloc: Global, shared: &Shared, cores: &mut Cores) -> bool
    requires { AreCores shared.now cores.old }
    ensures { AreCores shared.now cores.new }
{
    for number in 2..LAST {
        if !deliver_all(rt, alloc, shared, cores, number) {
            return false;
        }
    }
    true
}

/// One round: pieces, turns and talk side by side, and what is left to the slow path.
fn round<R: Threads + Wait + Sync>(
    rt: &R,
    alloc: Global,
    shared: &Shared,
    host: &mut Host,
    tick: u32,
) -> bool
    requires ready { AreReady shared.now host.old.slow host.old.cores }
    requires clients { AreTalking shared.now host.old.clients }
    ensures ready { AreReady shared.now host.new.slow host.new.cores }
    ensures clients { AreTalking shared.now host.new.clients }
{
    if !deliver_pieces(rt, alloc, shared, &mut host.cores) {
        return false;
    }
    side_by_side(
        rt,
        shared,
        &mut host.cores,
        &mut host.clients,
        tick,
        &NoGate,
    );
    settle(rt, shared, &mut host.slow, &mut host.cores)
}

/// All rounds.
fn rounds<R: Threads + Wait + Sync>(rt: &R, alloc: Global, shared: &Shared, host: &mut Host) -> bool
    requires ready { AreReady shared.now host.old.slow host.old.cores }
    requires clients { AreTalking shared.now host.old.clients }
    ensures ready { AreReady shared.now host.new.slow host.new.cores }
    ensures clients { AreTalking shared.now host.new.clients }
{
    for tick in 0..ROUNDS {
        if !round(rt, alloc, shared, host, tick) {
            return false;
        }
    }
    true
}

/// All that happens: the last frames of the peers end their streams, so that the slow path has the cores send what the
/// applications wrote; then these read what is left.
fn run<R: Threads + Wait + Sync>(
    rt: &R,
    alloc: Global,
    shared: &Shared,
    host: &mut Host,
) -> Option<()>
    requires { IsHost shared.now host.old }
    ensures cores { AreCores shared.now host.new.cores }
{
    connect_all(rt, alloc, shared, host)?;
    if !rounds(rt, alloc, shared, host) {
        return None;
    }
    if !exchange(rt, alloc, shared, &mut host.slow, &mut host.cores, LAST) {
        return None;
    }
    both_talk(
        rt,
        shared,
        &mut host.clients.first,
        &mut host.clients.second,
        ROUNDS,
        &NoGate,
    );
    Some(())
}

/// What the history of the flow in this slot is.
pub fn look_at(shared: &Shared, cores: &mut Cores, slot: u32) -> Option<Summary>
    requires { AreCores shared.now cores.old }
    ensures { AreCores shared.now cores.new }
{
    let id = FlowId {
        slot,
        generation: 1,
    };
    look(shared, cores, id)
}

/// What all histories are.
fn look_at_all(shared: &Shared, cores: &mut Cores) -> Option<[Summary; 4]>
    requires { AreCores shared.now cores.old }
{
    let first = look_at(shared, cores, 0)?;
    let second = look_at(shared, cores, 1)?;
    let third = look_at(shared, cores, 2)?;
    let fourth = look_at(shared, cores, 3)?;
    Some([first, second, third, fourth])
}

/// The four histories of a host of its own.
fn histories<R: Threads + Wait + Sync>(rt: &R, alloc: Global) -> Option<[Summary; 4]> {
    let (shared, mut host) = started(rt, alloc)?;
    let done = run(rt, alloc, &shared, &mut host);
    let seen = look_at_all(&shared, &mut host.cores);
    end(rt, host);
    match done {
        Some(()) => seen,
        None => None,
    }
}

#[test]
fn cores_and_applications_share_four_flows(rt: HostRuntime) -> Result<(), Fail> {
    let Some(flows) = histories(&rt, rt.alloc()) else {
        panic!(rt; "a step of the host failed")
    };
    for flow in flows {
        assert!(rt; flow.is_in_order);
        assert!(rt; flow.received == u64::from(ROUNDS * PIECES + 2));
        assert!(rt;
            flow.read == u64::from(PIECES * 4) && flow.written == flow.sent.saturating_add(4)
        );
    }
    Ok(())
}
