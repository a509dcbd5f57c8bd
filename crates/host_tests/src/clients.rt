//! Applications that write and read on two sockets each, beside cores that have their turns.
ghost use Rattle.std.specs.Prelude.{◌≡◌, IfSome};
ghost use Rattle.host_tests.specs.Hosts.{AreCores, AreTalking, AreWorking, IsApp, IsClient, IsSlow, IsTalking};

use crate::host::work_all;
use crate::hosts::{Client, Clients, Cores};
use crate::workers::{SocketCall, accept, call};
use core_worker::{CoreWorker, Shared};
use libtas_sockets::{App, Socket};
use slow_worker::SlowWorker;
use std::sync::Wait;
use std::thread::{Threads, join_mut};
use tas_num::Gate;

/// How often an application reads from each of its sockets in one go.
const READS: u32 = 16;

/// The application accepts two flows of a port. Whether it has.
pub fn accept_two(
    shared: &Shared,
    slow: &mut SlowWorker,
    client: &mut Client,
    number: u32,
    port: u16,
) -> Option<()>
    requires { IsSlow shared.now slow.old × IsApp shared.now number client.old.app }
    ensures slow { IfSome result (λ _. IsSlow shared.now slow.new) }
    ensures client { IfSome result (λ _. IsTalking shared.now number client.new) }
{
    let one = accept(shared, slow, &mut client.app, number, port)?;
    let two = accept(shared, slow, &mut client.app, number, port)?;
    client.sockets = (one, two);
    Some(())
}

/// The application makes the same call on both sockets.
fn call_both(
    shared: &Shared,
    app: &mut App,
    number: u32,
    sockets: (Socket, Socket),
    tick: u32,
    what: SocketCall,
)
    requires { IsClient shared.now number app.old sockets }
    ensures { IsClient shared.now number app.new sockets }
{
    call(shared, app, number, sockets.0, tick, what);
    call(shared, app, number, sockets.1, tick, what);
}

/// The application reads from both sockets, so often from each.
fn read_often(shared: &Shared, app: &mut App, number: u32, sockets: (Socket, Socket), tick: u32)
    requires { IsClient shared.now number app.old sockets }
    ensures { IsClient shared.now number app.new sockets }
{
    for _ in 0..READS {
        call_both(shared, app, number, sockets, tick, SocketCall::Read);
    }
}

/// The application passes the point that is twice its number, writes on both sockets and reads from them, and passes
/// the next point.
fn talk<G: Gate>(shared: &Shared, client: &mut Client, number: u32, tick: u32, gate: &G)
    requires { IsTalking shared.now number client.old }
    ensures { IsTalking shared.now number client.new }
{
    let point = number.saturating_mul(2);
    gate.pass(point);
    call_both(
        shared,
        &mut client.app,
        number,
        client.sockets,
        tick,
        SocketCall::Write,
    );
    read_often(shared, &mut client.app, number, client.sockets, tick);
    gate.pass(point.saturating_add(1));
}

/// Both applications talk side by side.
pub fn both_talk<R: Threads + Sync, G: Gate + Sync>(
    rt: &R,
    shared: &Shared,
    first: &mut Client,
    second: &mut Client,
    tick: u32,
    gate: &G,
)
    requires first { IsTalking shared.now 0 first.old }
    requires second { IsTalking shared.now 1 second.old }
    ensures first { IsTalking shared.now 0 first.new }
    ensures second { IsTalking shared.now 1 second.new }
{
    let mut one = ||
        requires { IsTalking shared.now 0 first.now }
        ensures { IsTalking shared.entry.now 0 first.exit.now }
    { talk(shared, first, 0, tick, gate) };
    let mut two = ||
        requires { IsTalking shared.now 1 second.now }
        ensures { IsTalking shared.entry.now 1 second.exit.now }
    { talk(shared, second, 1, tick, gate) };
    join_mut(rt, &mut one, &mut two);
}

/// Each core has its turns.
fn take_turns<R: Threads + Wait + Sync, G: Gate + Sync>(
    rt: &R,
    shared: &Shared,
    workers: &mut [CoreWorker],
    tick: u32,
    gate: &G,
)
    requires { AreWorking shared.now workers.old }
    ensures { AreWorking shared.now workers.new }
{
    work_all(rt, shared, workers, 2, tick, gate);
}

/// The cores have their turns while the applications talk in the next tick, each on a thread of its own.
fn beside<R: Threads + Wait + Sync, G: Gate + Sync>(
    rt: &R,
    shared: &Shared,
    workers: &mut [CoreWorker],
    first: &mut Client,
    second: &mut Client,
    tick: u32,
    gate: &G,
)
    requires cores { AreWorking shared.now workers.old }
    requires first { IsTalking shared.now 0 first.old }
    requires second { IsTalking shared.now 1 second.old }
    ensures cores { AreWorking shared.now workers.new }
    ensures first { IsTalking shared.now 0 first.new }
    ensures second { IsTalking shared.now 1 second.new }
{
    let next = tick.saturating_add(1);
    let mut turns = ||
        requires { AreWorking shared.now workers.now }
        ensures { AreWorking shared.entry.now workers.exit.now }
    { take_turns(rt, shared, workers, tick, gate) };
    let mut talks = ||
        requires { IsTalking shared.now 0 first.now × IsTalking shared.now 1 second.now }
        ensures { IsTalking shared.entry.now 0 first.exit.now × IsTalking shared.entry.now 1 second.exit.now }
    { both_talk(rt, shared, first, second, next, gate) };
    join_mut(rt, &mut turns, &mut talks);
}

/// All cores and both applications are about at once.
pub fn side_by_side<R: Threads + Wait + Sync, G: Gate + Sync>(
    rt: &R,
    shared: &Shared,
    cores: &mut Cores,
    clients: &mut Clients,
    tick: u32,
    gate: &G,
)
    requires cores { AreCores shared.now cores.old }
    requires clients { AreTalking shared.now clients.old }
    ensures cores { AreCores shared.now cores.new }
    ensures clients { AreTalking shared.now clients.new }
{
    beside(
        rt,
        shared,
        &mut cores.workers,
        &mut clients.first,
        &mut clients.second,
        tick,
        gate,
    );
}
