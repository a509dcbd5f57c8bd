//! A host with two cores and two applications, and its steps.
ghost use Rattle.std.specs.Prelude.{◌≡◌, ◌<◌, All};
ghost use Rattle.host_tests.specs.Hosts.{AreCores, AreReady, IsCore, IsSlow};

use crate::flows::{Summary, look_by};
use crate::hosts::{Cores, Host};
use crate::packets::{PEERS, frame_of, packet_of};
use crate::workers::{TICK, collect, hand, passed_on, serve, work};
use core_worker::{CoreWorker, PassedFrame, Shared, core_for};
use slow_worker::SlowWorker;
use std::alloc::Global;
use std::sync::Wait;
use std::thread;
use std::thread::Threads;
use tas_model::{Bytes, FlowId, FrameId};
use tas_num::{Gate, NoGate};

/// Ends the host.
pub fn end<R: Wait>(rt: &R, host: Host) {
    let Host {
        slow,
        cores: _,
        clients: _,
    } = host;
    drop(slow.end(rt));
}

/// Hands a frame to the core of its flow, and answers which that is. `None` where memory is wanting.
pub fn deliver<R: Wait>(
    rt: &R,
    shared: &Shared,
    cores: &mut Cores,
    id: FrameId,
    packet: Bytes,
) -> Option<u32>
    requires { AreCores shared.now cores.old }
    ensures { AreCores shared.now cores.new }
{
    let core = core_for(rt, &shared.steering, &mut cores.steer, packet.as_slice());
    if hand_to(shared, &mut cores.workers, core as usize, id, packet) {
        Some(core)
    } else {
        None
    }
}

/// Hands a frame to the core with this number. Whether there is one, and memory for it.
fn hand_to(
    shared: &Shared,
    workers: &mut [CoreWorker],
    core: usize,
    id: FrameId,
    packet: Bytes,
) -> bool
    requires { All (IsCore shared.now) workers.old }
    ensures { All (IsCore shared.now) workers.new }
{
    if core >= workers.len() {
        return false;
    }
    hand(shared, &mut workers[core], id, packet)
}

/// Hands the frame with this number of each peer to its core. Whether there was memory for them.
pub fn deliver_all<R: Wait>(
    rt: &R,
    alloc: Global,
    shared: &Shared,
    cores: &mut Cores,
    number: u32,
) -> bool
    requires { AreCores shared.now cores.old }
    ensures { AreCores shared.now cores.new }
{
    for peer in PEERS {
        let Some(packet) = packet_of(alloc, peer, number) else {
            return false;
        };
        if deliver(rt, shared, cores, frame_of(peer, number), packet).is_none() {
            return false;
        }
    }
    true
}

/// All cores have their turns, in so many threads.
pub fn work_all<R: Threads + Wait + Sync, G: Gate + Sync>(
    rt: &R,
    shared: &Shared,
    workers: &mut [CoreWorker],
    threads: usize,
    tick: u32,
    gate: &G,
)
    requires threads { 0 < threads }
    requires cores { All (IsCore shared.now) workers.old }
    ensures { All (IsCore shared.now) workers.new }
{
    let part = move |_: usize, worker: &mut CoreWorker|
        requires { IsCore shared.now worker.now }
        ensures { IsCore shared.entry.now worker.exit.now }
    { work(rt, shared, worker, tick, gate) };
    thread::for_each_mut(rt, workers, threads, &part);
}

/// All cores have their turns, one after the other.
pub fn work_in_turn<R: Threads + Wait + Sync>(rt: &R, shared: &Shared, cores: &mut Cores)
    requires { AreCores shared.now cores.old }
    ensures { AreCores shared.now cores.new }
{
    work_all(rt, shared, &mut cores.workers, 1, TICK, &NoGate);
}

/// The slow path collects what all cores passed on. Whether there was memory for it.
fn collect_all(shared: &Shared, slow: &mut SlowWorker, workers: &mut [CoreWorker]) -> bool
    requires slow { IsSlow shared.now slow.old }
    requires cores { All (IsCore shared.now) workers.old }
    ensures slow { IsSlow shared.now slow.new }
    ensures cores { All (IsCore shared.now) workers.new }
{
    for core in 0..workers.len() {
        if !collect(shared, slow, &mut workers[core]) {
            return false;
        }
    }
    true
}

/// The slow path collects what all cores passed on, and has its turn. Whether there was memory for it.
pub fn settle<R: Wait>(rt: &R, shared: &Shared, slow: &mut SlowWorker, cores: &mut Cores) -> bool
    requires { AreReady shared.now slow.old cores.old }
    ensures { AreReady shared.now slow.new cores.new }
{
    collect_all(shared, slow, &mut cores.workers) && serve(rt, shared, slow)
}

/// What the history of the flow is, by the pass of core 0.
pub fn look(shared: &Shared, cores: &mut Cores, id: FlowId) -> Option<Summary>
    requires { AreCores shared.now cores.old }
    ensures { AreCores shared.now cores.new }
{
    if cores.workers.is_empty() {
        return None;
    }
    look_by(shared, &mut cores.workers[0], id)
}

/// Takes the frame out that a core passed on, as the only one. `None` where it passed on another number of frames.
pub fn passed_by(shared: &Shared, cores: &mut Cores, core: u32) -> Option<PassedFrame>
    requires { AreCores shared.now cores.old }
    ensures { AreCores shared.now cores.new }
{
    passed_from(shared, &mut cores.workers, core as usize)
}

fn passed_from(shared: &Shared, workers: &mut [CoreWorker], core: usize) -> Option<PassedFrame>
    requires { All (IsCore shared.now) workers.old }
    ensures { All (IsCore shared.now) workers.new }
{
    if core >= workers.len() {
        return None;
    }
    passed_on(shared, &mut workers[core])
}
