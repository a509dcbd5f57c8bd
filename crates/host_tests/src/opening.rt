//! A peer opens a connection, and its bytes come to the application that accepted it.
ghost use Rattle.std.specs.Prelude.{◌≤◌, length, IfSome};
ghost use Rattle.libtas_sockets.specs.Apps.{IsSocket};
ghost use Rattle.host_tests.specs.Hosts.{AreCores, AreReady, IsApp, IsHost};

use crate::flows::{Act, Summary};
use crate::host::{deliver, end, look, passed_by, settle, work_in_turn};
use crate::hosts::{Cores, Host};
use crate::packets::{Peer, frame_of, packet, packet_of};
use crate::starting::{listen_both, started};
use crate::workers::{accept, is_open, next_note};
use context_queue::Note;
use core_worker::{Passed, Shared};
use libtas_sockets::Socket;
use segment_fields::Flags;
use slow_worker::SlowWorker;
use std::alloc::Global;
use std::sync::Wait;
use std::test::*;
use std::thread::Threads;
use tas_model::{Caller, FlowId};

pub const PEER: Peer = Peer {
    port: 49152,
    to: 80,
    iss: 5000,
};

/// The first flow.
pub const FLOW: FlowId = FlowId {
    slot: 0,
    generation: 1,
};

/// The SYN comes to its core, whose turn passes it on: to which core it went, and why it was passed on. It is handed to
/// the core once more.
fn greet<R: Threads + Wait + Sync>(
    rt: &R,
    alloc: Global,
    shared: &Shared,
    cores: &mut Cores,
) -> Option<(u32, Passed)>
    requires { AreCores shared.now cores.old }
    ensures { AreCores shared.now cores.new }
{
    let core = deliver(
        rt,
        shared,
        cores,
        frame_of(PEER, 0),
        packet_of(alloc, PEER, 0)?,
    )?;
    work_in_turn(rt, shared, cores);
    let passed = passed_by(shared, cores, core)?;
    let again = deliver(rt, shared, cores, passed.frame.id, passed.frame.packet)?;
    if core == again {
        Some((core, passed.passed))
    } else {
        None
    }
}

/// Both cores have a turn, and then the slow path. Whether the flow is open then.
fn is_open_after_turns<R: Threads + Wait + Sync>(
    rt: &R,
    shared: &Shared,
    slow: &mut SlowWorker,
    cores: &mut Cores,
) -> Option<bool>
    requires { AreReady shared.now slow.old cores.old }
    ensures { AreReady shared.now slow.new cores.new }
{
    work_in_turn(rt, shared, cores);
    if settle(rt, shared, slow, cores) {
        Some(is_open(shared, slow, FLOW))
    } else {
        None
    }
}

/// The peer's bytes come to their core, which has a turn. The core, and the flow's history then.
pub fn receive<R: Threads + Wait + Sync>(
    rt: &R,
    alloc: Global,
    shared: &Shared,
    cores: &mut Cores,
    number: u32,
    payload: &[u8],
) -> Option<(u32, Summary)>
    requires payload { length payload.now ≤ 100 }
    requires cores { AreCores shared.now cores.old }
    ensures cores { AreCores shared.now cores.new }
{
    let packet = packet(alloc, PEER, 1, Flags::ACK, payload)?;
    let core = deliver(rt, shared, cores, frame_of(PEER, number), packet)?;
    work_in_turn(rt, shared, cores);
    Some((core, look(shared, cores, FLOW)?))
}

/// What was seen while a connection was opened.
#[derive(Clone, Copy, Drop)]
pub struct Connecting {
    syn: (u32, Passed),
    is_open: [bool; 2],
    syn_ack: Summary,
    ack: (u32, Summary),
}

/// What was seen once it was open.
#[derive(Clone, Copy, Drop)]
struct Hearing {
    socket: Socket,
    hello: (u32, Summary),
    notes: [Option<Note>; 2],
}

/// The connection is opened.
pub fn connect<R: Threads + Wait + Sync>(
    rt: &R,
    alloc: Global,
    shared: &Shared,
    slow: &mut SlowWorker,
    cores: &mut Cores,
) -> Option<Connecting>
    requires { AreReady shared.now slow.old cores.old }
    ensures { AreReady shared.now slow.new cores.new }
{
    let syn = greet(rt, alloc, shared, cores)?;
    let is_open_first = is_open_after_turns(rt, shared, slow, cores)?;
    let is_open_then = is_open_after_turns(rt, shared, slow, cores)?;
    work_in_turn(rt, shared, cores);
    let syn_ack = look(shared, cores, FLOW)?;
    let ack = receive(rt, alloc, shared, cores, 1, b"")?;
    if !settle(rt, shared, slow, cores) {
        return None;
    }
    Some(Connecting {
        syn,
        is_open: [is_open_first, is_open_then],
        syn_ack,
        ack,
    })
}

/// The application accepts the connection, and the peer says hello.
fn greet_application<R: Threads + Wait + Sync>(
    rt: &R,
    alloc: Global,
    shared: &Shared,
    host: &mut Host,
) -> Option<Hearing>
    requires { IsHost shared.now host.old }
{
    let socket = accept(
        shared,
        &mut host.slow,
        &mut host.clients.first.app,
        0,
        PEER.to,
    )?;
    let hello = receive(rt, alloc, shared, &mut host.cores, 2, b"hello")?;
    let first = next_note(rt, shared, &mut host.clients.first.app, 0);
    let then = next_note(rt, shared, &mut host.clients.first.app, 0);
    Some(Hearing {
        socket,
        hello,
        notes: [first, then],
    })
}

/// The peer opens a connection, and application 0 accepts it: its socket.
pub fn accepted<R: Threads + Wait + Sync>(
    rt: &R,
    alloc: Global,
    shared: &Shared,
    host: &mut Host,
) -> Option<Socket>
    requires { IsHost shared.now host.old }
    ensures ready { IfSome result (λ _. AreReady shared.now host.new.slow host.new.cores) }
    ensures app { IfSome result (λ _. IsApp shared.now 0 host.new.clients.first.app) }
    ensures socket { IfSome result (IsSocket host.new.clients.first.app) }
{
    if !listen_both(shared, &mut host.slow, &mut host.clients) {
        return None;
    }
    connect(rt, alloc, shared, &mut host.slow, &mut host.cores)?;
    let app = &mut host.clients.first.app;
    accept(shared, &mut host.slow, app, 0, PEER.to)
}

/// All that was seen.
fn open<R: Threads + Wait + Sync>(
    rt: &R,
    alloc: Global,
    shared: &Shared,
    host: &mut Host,
) -> Option<(Connecting, Hearing)>
    requires { IsHost shared.now host.old }
{
    if !listen_both(shared, &mut host.slow, &mut host.clients) {
        return None;
    }
    let connecting = connect(rt, alloc, shared, &mut host.slow, &mut host.cores)?;
    let hearing = greet_application(rt, alloc, shared, host)?;
    Some((connecting, hearing))
}

/// What was seen on a host of its own.
fn opened<R: Threads + Wait + Sync>(rt: &R, alloc: Global) -> Option<(Connecting, Hearing)> {
    let (shared, mut host) = started(rt, alloc)?;
    let opening = open(rt, alloc, &shared, &mut host);
    end(rt, host);
    opening
}

#[test]
fn a_host_opens_a_flow_and_hands_its_bytes_on(rt: HostRuntime) -> Result<(), Fail> {
    let Some(seen) = opened(&rt, rt.alloc()) else {
        panic!(rt; "a step of the host failed")
    };
    let (connecting, hearing) = seen;
    assert_eq!(rt; connecting.syn, (1, Passed::Absent));
    assert_eq!(rt; connecting.is_open, [false, true]);
    assert!(rt; matches!(connecting.syn_ack.last, Act::Emitted(Caller::Core(1))));
    assert_eq!(rt; hearing.socket, Socket(0));
    assert_eq!(rt; (connecting.ack.0, hearing.hello.0), (1, 1));
    assert!(rt; matches!(hearing.hello.1.last, Act::Received(Caller::Core(1))));
    let note = Note {
        kind: 1,
        slot: 0,
        generation: 1,
    };
    assert_eq!(rt; hearing.notes, [Some(note), None]);
    Ok(())
}
