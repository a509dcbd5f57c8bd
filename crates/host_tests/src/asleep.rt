//! A task sleeps until a core, on a thread of its own, has entered the bytes that it waits for.
ghost use Rattle.host_tests.specs.Hosts.{AreWorking, IsHost, IsReading};

use crate::gates::{CORE, Hold, TURNS};
use crate::host::{deliver, end, work_all, work_in_turn};
use crate::hosts::Host;
use crate::opening::{PEER, accepted};
use crate::packets::{frame_of, packet};
use crate::polls::{Polled, Reader};
use crate::starting::started;
use crate::workers::{TICK, next_note};
use core_worker::{CoreWorker, Shared};
use futures::task::Poll;
use libtas_sockets::{App, Received, Socket};
use segment_fields::Flags;
use std::alloc::AllocGlobal;
use std::hint::spin_loop;
use std::random::RandomSource;
use std::sync::Wait;
use std::test::*;
use std::thread::{Threads, join_mut};
use tas_num::Gate;

/// The point that the task's thread passes once the task sleeps.
const ASLEEP: u32 = 0;

/// What came of a task.
#[derive(Drop)]
struct Story {
    /// How often it was polled.
    polls: u32,
    /// What the last poll was.
    last: Option<Polled>,
}

/// Polls the task each time that it was woken, until it is ready, and wakes it by the notes that come meanwhile. Its
/// thread passes the gate each time that the task goes to sleep.
fn run_task<R: Wait, G: Gate>(
    rt: &R,
    shared: &Shared,
    app: &mut App,
    socket: Socket,
    reader: &mut Reader,
    story: &mut Story,
    gate: &G,
)
    requires { IsReading shared.now socket app.old }
{
    for _ in 0..TURNS {
        if reader.is_woken() {
            let polled = reader.poll(shared, app, socket);
            story.polls = story.polls.saturating_add(1);
            let is_over = matches!(polled.answer, Poll::Ready(_));
            story.last = Some(polled);
            if is_over {
                return;
            }
            gate.pass(ASLEEP);
        }
        if let Some(note) = next_note(rt, shared, app, 0) {
            reader.waiters.notify(note);
        }
        spin_loop();
    }
}

/// Each core has its turns.
fn take_turns<R: Threads + Wait + Sync, G: Gate + Sync>(
    rt: &R,
    shared: &Shared,
    workers: &mut [CoreWorker],
    gate: &G,
)
    requires { AreWorking shared.now workers.old }
    ensures { AreWorking shared.now workers.new }
{
    work_all(rt, shared, workers, 1, TICK, gate);
}

/// The task runs on one thread, and the cores on another, where they wait until the task sleeps.
fn run_beside<R: Threads + Wait + Sync, G: Gate + Sync>(
    rt: &R,
    shared: &Shared,
    workers: &mut [CoreWorker],
    app: &mut App,
    socket: Socket,
    reader: &mut Reader,
    gate: &G,
) -> Story
    requires cores { AreWorking shared.now workers.old }
    requires app { IsReading shared.now socket app.old }
{
    let mut story = Story {
        polls: 0,
        last: None,
    };
    let told = &mut story;
    let mut turns = ||
        requires { AreWorking shared.now workers.now }
    { take_turns(rt, shared, workers, gate) };
    let mut task = ||
        requires { IsReading shared.now socket app.now }
    { run_task(rt, shared, app, socket, reader, told, gate) };
    join_mut(rt, &mut turns, &mut task);
    story
}

/// The peer opens a connection, which application 0 accepts, and its bytes are with their core, whose turn waits until
/// the task sleeps.
fn run<R, G>(rt: &R, shared: &Shared, host: &mut Host, gate: &G) -> Option<Story>
where
    R: Threads + Wait + Sync + RandomSource + AllocGlobal,
    G: Gate + Sync,
    requires { IsHost shared.now host.old }
{
    let socket = accepted(rt, rt.alloc(), shared, host)?;
    let mut reader = Reader::new(rt)?;
    work_in_turn(rt, shared, &mut host.cores);
    let packet = packet(rt.alloc(), PEER, 1, Flags::ACK, b"hello")?;
    deliver(rt, shared, &mut host.cores, frame_of(PEER, 2), packet)?;
    let (workers, app) = (&mut host.cores.workers, &mut host.clients.first.app);
    Some(run_beside(rt, shared, workers, app, socket, &mut reader, gate))
}

/// The same on a host of its own.
fn told<R, G>(rt: &R, gate: &G) -> Option<Story>
where
    R: Threads + Wait + Sync + RandomSource + AllocGlobal,
    G: Gate + Sync,
{
    let (shared, mut host) = started(rt, rt.alloc())?;
    let story = run(rt, &shared, &mut host, gate);
    end(rt, host);
    story
}

/// The task is polled before the bytes come and after them, and not once between.
#[test]
fn a_task_sleeps_until_a_core_wakes_it(rt: HostRuntime) -> Result<(), Fail> {
    let gate = Hold::new(CORE[0], ASLEEP);
    let Some(story) = told(&rt, &gate) else {
        panic!(rt; "a step of the host failed")
    };
    assert!(rt; gate.has_held());
    assert_eq!(rt; story.polls, 2);
    let Some(last) = story.last else {
        panic!(rt; "no poll was made")
    };
    assert!(rt; matches!(last.answer, Poll::Ready(Ok(Received::Bytes(5)))));
    assert_eq!(rt; last.heard, *b"hello");
    Ok(())
}
