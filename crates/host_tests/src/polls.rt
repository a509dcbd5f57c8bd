//! A task of an application reads from a socket: what its polls are answered, and what wakes it.
ghost use Rattle.host_tests.specs.Hosts.{AreCores, IsCore, IsHost, IsReading};

use crate::flows::{Act, Summary, hold_by, look_by};
use crate::host::{end, look};
use crate::hosts::Host;
use crate::opening::{FLOW, accepted, receive};
use crate::starting::started;
use crate::workers::{TICK, next_note};
use context_queue::Note;
use core_worker::{CoreWorker, Shared};
use flow_state::FlowRecord;
use futures::Future;
use futures::task::{Doorbell, Poll, Solo};
use libtas_sockets::{App, Received, Socket, SocketError};
use std::alloc::{AllocGlobal, Global};
use std::random::RandomSource;
use std::sync::Wait;
use std::test::*;
use std::thread::Threads;
use tas_futures::{Io, Waiters, recv_future};
use tas_model::Caller;

/// A task that reads from a socket, and where it waits meanwhile.
#[derive(Drop)]
pub struct Reader {
    solo: Solo,
    pub waiters: Waiters,
}

/// What a poll was answered, what its future keeps of it where it was pending, and what its buffer holds then.
#[derive(Drop)]
pub struct Polled {
    pub answer: Poll<Result<Received, SocketError>>,
    last: Option<SocketError>,
    pub heard: [u8; 5],
}

impl Reader {
    /// A task that was woken at first. `None` where memory is wanting.
    pub fn new<R: RandomSource + AllocGlobal>(rt: &R) -> Option<Reader> {
        let Ok(solo) = Solo::new(rt, Doorbell::spinning()) else {
            return None;
        };
        Some(Reader {
            solo,
            waiters: Waiters::new(rt.alloc()),
        })
    }

    /// Whether the task was woken since its last poll began.
    pub fn is_woken(&self) -> bool {
        match self.solo.sleep() {
            Some(asleep) => {
                asleep.end();
                false
            }
            None => true,
        }
    }

    /// Polls the task once: it asks for five bytes.
    pub fn poll(&mut self, shared: &Shared, app: &mut App, socket: Socket) -> Polled
        requires { IsReading shared.now socket app.old }
        ensures { IsReading shared.now socket app.new }
    {
        let mut heard = [0; 5];
        let mut cx = self.solo.begin();
        let io = Io {
            app,
            table: &shared.table,
            waiters: &mut self.waiters,
            tick: TICK,
        };
        let mut future = recv_future(io, socket, &mut heard);
        let answer = future.poll(&mut cx);
        let last = future.last().copied();
        drop(future);
        cx.end(&answer);
        Polled {
            answer,
            last,
            heard,
        }
    }
}

/// What was seen of a task that waits for bytes.
#[derive(Drop)]
struct Waited {
    first: Polled,
    /// The flow's history then.
    history: Summary,
    /// Whether the task was woken: by its poll, by a note of the side that is written, and by that of the bytes.
    wakes: [bool; 3],
    second: Polled,
}

/// The task is polled where there is nothing to read, and once more when the peer's bytes have come.
fn wait_for_bytes<R: Threads + Wait + Sync>(
    rt: &R,
    alloc: Global,
    shared: &Shared,
    host: &mut Host,
    socket: Socket,
    reader: &mut Reader,
) -> Option<Waited>
    requires cores { AreCores shared.now host.old.cores }
    requires app { IsReading shared.now socket host.old.clients.first.app }
{
    let app = &mut host.clients.first.app;
    let first = reader.poll(shared, app, socket);
    let history = look(shared, &mut host.cores, FLOW)?;
    let by_poll = reader.is_woken();
    reader.waiters.notify(Note {
        kind: 2,
        slot: FLOW.slot,
        generation: FLOW.generation,
    });
    let by_room = reader.is_woken();
    receive(rt, alloc, shared, &mut host.cores, 2, b"hello")?;
    let note = next_note(rt, shared, app, 0)?;
    reader.waiters.notify(note);
    let by_bytes = reader.is_woken();
    let second = reader.poll(shared, app, socket);
    Some(Waited {
        first,
        history,
        wakes: [by_poll, by_room, by_bytes],
        second,
    })
}

/// The peer opens a connection, which application 0 accepts, and its task waits for bytes.
fn accept_and_wait<R>(rt: &R, shared: &Shared, host: &mut Host) -> Option<Waited>
where
    R: Threads + Wait + Sync + RandomSource + AllocGlobal,
    requires { IsHost shared.now host.old }
{
    let socket = accepted(rt, rt.alloc(), shared, host)?;
    let mut reader = Reader::new(rt)?;
    wait_for_bytes(rt, rt.alloc(), shared, host, socket, &mut reader)
}

/// The same on a host of its own.
fn see_waiting<R>(rt: &R) -> Option<Waited>
where
    R: Threads + Wait + Sync + RandomSource + AllocGlobal,
{
    let (shared, mut host) = started(rt, rt.alloc())?;
    let waited = accept_and_wait(rt, &shared, &mut host);
    end(rt, host);
    waited
}

/// The poll that finds nothing leaves its one entry and no byte. A note of the other side leaves the task asleep, and
/// the core's note wakes it.
#[test]
fn a_task_waits_until_bytes_come(rt: HostRuntime) -> Result<(), Fail> {
    let Some(waited) = see_waiting(&rt) else {
        panic!(rt; "a step of the host failed")
    };
    assert!(rt; matches!(waited.first.answer, Poll::Pending));
    assert_eq!(rt; waited.first.last, Some(SocketError::NotYet));
    assert_eq!(rt; waited.first.heard, [0; 5]);
    assert!(rt; matches!(waited.history.last, Act::Read(Caller::App(0))));
    assert_eq!(rt; waited.history.read, 0);
    assert_eq!(rt; waited.wakes, [false, false, true]);
    assert!(rt; matches!(waited.second.answer, Poll::Ready(Ok(Received::Bytes(5)))));
    assert_eq!(rt; waited.second.heard, *b"hello");
    Ok(())
}

/// What was seen of a task that is polled while a core holds the flow's record.
#[derive(Drop)]
struct Held {
    polled: Polled,
    /// How many entries the history has before the poll and in the end.
    entries: [usize; 2],
    /// Whether the poll woke its task.
    is_woken: bool,
}

/// The task is polled while the core holds the record, which is looked at once more when it was given back.
fn poll_beside(
    shared: &Shared,
    core: &mut CoreWorker,
    app: &mut App,
    socket: Socket,
    reader: &mut Reader,
) -> Option<Held>
    requires core { IsCore shared.now core.old }
    requires app { IsReading shared.now socket app.old }
{
    let poll = |flow: &FlowRecord|
        requires { IsReading shared.now socket app.now }
    { (flow.entries(), reader.poll(shared, app, socket)) };
    let (before, polled) = hold_by(shared, core, FLOW, poll)?;
    let after = look_by(shared, core, FLOW)?;
    Some(Held {
        polled,
        entries: [before, after.entries],
        is_woken: reader.is_woken(),
    })
}

/// The peer opens a connection, which application 0 accepts, and its task is polled beside core 0.
fn accept_and_hold<R>(rt: &R, shared: &Shared, host: &mut Host) -> Option<Held>
where
    R: Threads + Wait + Sync + RandomSource + AllocGlobal,
    requires { IsHost shared.now host.old }
{
    let socket = accepted(rt, rt.alloc(), shared, host)?;
    let mut reader = Reader::new(rt)?;
    if host.cores.workers.is_empty() {
        return None;
    }
    let core = &mut host.cores.workers[0];
    let app = &mut host.clients.first.app;
    poll_beside(shared, core, app, socket, &mut reader)
}

/// The same on a host of its own.
fn see_held<R>(rt: &R) -> Option<Held>
where
    R: Threads + Wait + Sync + RandomSource + AllocGlobal,
{
    let (shared, mut host) = started(rt, rt.alloc())?;
    let held = accept_and_hold(rt, &shared, &mut host);
    end(rt, host);
    held
}

/// A poll that finds the record with a core leaves no entry, keeps the word that it found, and asks for another poll.
#[test]
fn a_task_asks_again_where_a_core_holds_the_record(rt: HostRuntime) -> Result<(), Fail> {
    let Some(held) = see_held(&rt) else {
        panic!(rt; "a step of the host failed")
    };
    let is_same = held.entries[1] == held.entries[0];
    assert!(rt; is_same);
    assert!(rt; matches!(held.polled.answer, Poll::Pending));
    assert!(rt; matches!(held.polled.last, Some(SocketError::Busy(word)) if word.busy));
    assert!(rt; held.is_woken);
    Ok(())
}
