//! Many frames wait at once.
ghost use Rattle.std.specs.Prelude.{◌≡◌};
ghost use Rattle.host_tests.specs.Hosts.{AreCores, AreReady, IsHost};

use crate::host::{deliver, end, settle, work_in_turn};
use crate::hosts::{Client, Clients, Cores, Host};
use crate::opening::{PEER, accepted};
use crate::packets::{frame_of, packet};
use crate::starting::started;
use core_worker::Shared;
use segment_fields::Flags;
use slow_worker::SlowWorker;
use std::alloc::Global;
use std::sync::Wait;
use std::test::*;
use std::thread::Threads;

/// How many frames come.
const FRAMES: u32 = 20;

/// The frames come to their core. Whether there was memory for them.
fn are_delivered<R: Wait>(rt: &R, alloc: Global, shared: &Shared, cores: &mut Cores) -> bool
    requires { AreCores shared.now cores.old }
    ensures { AreCores shared.now cores.new }
{
    for number in 0..FRAMES {
        let Some(packet) = packet(alloc, PEER, 1, Flags::ACK, b"hello") else {
            return false;
        };
        if deliver(rt, shared, cores, frame_of(PEER, number), packet).is_none() {
            return false;
        }
    }
    true
}

/// The core has its turn, and then the slow path. Whether there was memory for all.
fn are_passed_on<R: Threads + Wait + Sync>(
    rt: &R,
    alloc: Global,
    shared: &Shared,
    slow: &mut SlowWorker,
    cores: &mut Cores,
) -> bool
    requires { AreReady shared.now slow.old cores.old }
{
    if !are_delivered(rt, alloc, shared, cores) {
        return false;
    }
    work_in_turn(rt, shared, cores);
    settle(rt, shared, slow, cores)
}

/// How many frames wait at the slow path, where the application that accepted the connection ended while it held the
/// record.
fn waiting<R: Threads + Wait + Sync>(rt: &R, alloc: Global) -> Option<usize> {
    let (shared, mut host) = started(rt, alloc)?;
    let Some(_) = accepted(rt, alloc, &shared, &mut host) else {
        end(rt, host);
        return None;
    };
    let Host {
        mut slow,
        mut cores,
        clients,
    } = host;
    let Clients { first, second: _ } = clients;
    let Client { app, sockets: _ } = first;
    let ended = app.end(true, &shared.table);
    let done = are_passed_on(rt, alloc, &shared, &mut slow, &mut cores);
    drop(ended);
    let remains = slow.end(rt);
    if done {
        Some(remains.deferred.len())
    } else {
        None
    }
}

/// A core passes on each of twenty frames of a flow whose record is held, and the slow path keeps them all.
#[test]
fn twenty_frames_wait_for_a_record_that_is_held(rt: HostRuntime) -> Result<(), Fail> {
    assert_eq!(rt; waiting(&rt, rt.alloc()), Some(20));
    Ok(())
}
