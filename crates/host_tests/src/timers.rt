//! An application writes, and time passes: the slow path has the flow's core send, and send again as no ACK comes.
ghost use Rattle.std.specs.Prelude.{◌≡◌, suc, IfSome};
ghost use Rattle.host_tests.specs.Hosts.{AreCores, IsHost, MayTurn};

use crate::host::{end, work_all};
use crate::hosts::{Cores, Host};
use crate::starting::started;
use crate::threads::{connect_all, look_at};
use crate::workers::{TICK, serve_in, write};
use core_worker::Shared;
use slow_worker::SlowWorker;
use std::alloc::Global;
use std::sync::Wait;
use std::test::*;
use std::thread::Threads;
use tas_num::NoGate;

/// The first tick behind that in which the application wrote. A timer runs for three ticks.
const NEXT: u32 = TICK + 1;

/// How many bytes were sent on each of the two flows of core 0: on that of application 0, and on that of application 1,
/// which writes nothing.
type Sent = [u64; 2];

fn sent_so_far(shared: &Shared, cores: &mut Cores) -> Option<Sent>
    requires { AreCores shared.now cores.old }
    ensures { AreCores shared.now cores.new }
{
    let first = look_at(shared, cores, 0)?;
    let second = look_at(shared, cores, 1)?;
    Some([first.sent, second.sent])
}

/// All cores have their turns. What was sent then.
fn sent_by_turns<R: Threads + Wait + Sync>(
    rt: &R,
    shared: &Shared,
    cores: &mut Cores,
    tick: u32,
) -> Option<Sent>
    requires { AreCores shared.now cores.old }
    ensures { AreCores shared.now cores.new }
{
    work_all(rt, shared, &mut cores.workers, 1, tick, &NoGate);
    sent_so_far(shared, cores)
}

/// In one tick the cores have their turns before the slow path has its own and after it: what was sent then, and in the
/// end.
fn pass_tick<R: Threads + Wait + Sync>(
    rt: &R,
    shared: &Shared,
    slow: &mut SlowWorker,
    cores: &mut Cores,
    tick: u32,
) -> Option<[Sent; 2]>
    requires slow { MayTurn shared.now tick slow.old }
    requires cores { AreCores shared.now cores.old }
    ensures slow { IfSome result (λ _. MayTurn shared.now (suc tick) slow.new) }
    ensures cores { AreCores shared.now cores.new }
{
    let before = sent_by_turns(rt, shared, cores, tick)?;
    serve_in(rt, shared, slow, tick)?;
    let after = sent_by_turns(rt, shared, cores, tick)?;
    Some([before, after])
}

/// Four ticks pass.
fn pass_ticks<R: Threads + Wait + Sync>(
    rt: &R,
    shared: &Shared,
    slow: &mut SlowWorker,
    cores: &mut Cores,
) -> Option<[[Sent; 2]; 4]>
    requires slow { MayTurn shared.now 2 slow.old }
    requires cores { AreCores shared.now cores.old }
{
    let first = pass_tick(rt, shared, slow, cores, NEXT)?;
    let second = pass_tick(rt, shared, slow, cores, NEXT + 1)?;
    let third = pass_tick(rt, shared, slow, cores, NEXT + 2)?;
    let fourth = pass_tick(rt, shared, slow, cores, NEXT + 3)?;
    Some([first, second, third, fourth])
}

/// All flows are opened, application 0 writes on its first one, and four ticks pass.
fn write_and_wait<R: Threads + Wait + Sync>(
    rt: &R,
    alloc: Global,
    shared: &Shared,
    host: &mut Host,
) -> Option<[[Sent; 2]; 4]>
    requires { IsHost shared.now host.old }
{
    connect_all(rt, alloc, shared, host)?;
    let socket = host.clients.first.sockets.0;
    write(shared, &mut host.clients.first.app, 0, socket, TICK);
    pass_ticks(rt, shared, &mut host.slow, &mut host.cores)
}

/// What was sent on a host of its own.
fn sent_in_time<R: Threads + Wait + Sync>(rt: &R, alloc: Global) -> Option<[[Sent; 2]; 4]> {
    let (shared, mut host) = started(rt, alloc)?;
    let sent = write_and_wait(rt, alloc, &shared, &mut host);
    end(rt, host);
    sent
}

/// What was written goes after the slow path's first turn in which time passes, and again after that in which the
/// flow's timer runs out: no core sends before it was kicked. The other flow has nothing to send at any time.
#[test]
fn a_flow_whose_timer_runs_out_is_sent_again_by_its_core(rt: HostRuntime) -> Result<(), Fail> {
    let Some(ticks) = sent_in_time(&rt, rt.alloc()) else {
        panic!(rt; "a step of the host failed")
    };
    assert_eq!(rt; ticks[0], [[0, 0], [4, 0]]);
    assert_eq!(rt; ticks[1], [[4, 0], [4, 0]]);
    assert_eq!(rt; ticks[2], [[4, 0], [4, 0]]);
    assert_eq!(rt; ticks[3], [[4, 0], [8, 0]]);
    Ok(())
}
