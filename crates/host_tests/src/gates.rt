//! A core is in the middle of its turn while an application calls, and the other way round.
ghost use Rattle.std.specs.Prelude.{◌≡◌, IfSome};
ghost use Rattle.host_tests.specs.Hosts.{IsHost};

use crate::clients::side_by_side;
use crate::host::{deliver_all, end};
use crate::hosts::Host;
use crate::starting::started;
use crate::threads::connect_all;
use crate::workers::TICK;
use core_worker::Shared;
use std::alloc::Global;
use std::hint::spin_loop;
use std::sync::Wait;
use std::sync::atomic::{AtomicBool, Ordering};
use std::test::*;
use std::thread::Threads;
use tas_num::Gate;

/// How many turns a worker waits at most.
pub const TURNS: u32 = 10_000_000;

/// The points of core 1 on host 1, before its first frame and after it.
pub const CORE: [u32; 2] = [66, 67];

/// The points of application 0, before its calls and after them.
const APPLICATION: [u32; 2] = [0, 1];

/// Holds the first who comes to one point until another point was passed, or for so many turns.
#[derive(Drop)]
pub struct Hold {
    held: u32,
    until: u32,
    was_held: AtomicBool,
    was_passed: AtomicBool,
    ran_out: AtomicBool,
}

impl Hold {
    pub fn new(held: u32, until: u32) -> Hold {
        Hold {
            held,
            until,
            was_held: AtomicBool::new(false),
            was_passed: AtomicBool::new(false),
            ran_out: AtomicBool::new(false),
        }
    }

    /// Whether somebody was held until the other point was passed.
    pub fn has_held(&self) -> bool {
        self.was_held.load(Ordering::SeqCst) && !self.ran_out.load(Ordering::SeqCst)
    }

    fn wait(&self) {
        for _ in 0..TURNS {
            if self.was_passed.load(Ordering::SeqCst) {
                return;
            }
            // A turn takes longer so, and the other thread has more time to start on a busy machine.
            spin_loop();
        }
        self.ran_out.store(true, Ordering::SeqCst);
    }
}

impl Gate for Hold {
    fn pass(&self, point: u32) {
        if point == self.until {
            self.was_passed.store(true, Ordering::SeqCst);
        }
        if point == self.held && !self.was_held.swap(true, Ordering::SeqCst) {
            self.wait();
        }
    }
}

/// All peers open connections, and one piece of each is handled while the applications talk. `None` where it didn't
/// come to that.
fn run_gated<R: Threads + Wait + Sync, G: Gate + Sync>(
    rt: &R,
    alloc: Global,
    shared: &Shared,
    host: &mut Host,
    gate: &G,
) -> Option<()>
    requires { IsHost shared.now host.old }
{
    connect_all(rt, alloc, shared, host)?;
    if !deliver_all(rt, alloc, shared, &mut host.cores, 2) {
        return None;
    }
    side_by_side(rt, shared, &mut host.cores, &mut host.clients, TICK, gate);
    Some(())
}

/// The same on a host of its own.
fn is_run<R: Threads + Wait + Sync, G: Gate + Sync>(rt: &R, alloc: Global, gate: &G) -> bool {
    let Some((shared, mut host)) = started(rt, alloc) else {
        return false;
    };
    let done = run_gated(rt, alloc, &shared, &mut host, gate);
    end(rt, host);
    done.is_some()
}

/// Whether somebody was held at the one point until another had passed the other one.
fn meets<R: Threads + Wait + Sync>(rt: &R, alloc: Global, held: u32, until: u32) -> bool {
    let gate = Hold::new(held, until);
    is_run(rt, alloc, &gate) && gate.has_held()
}

/// The core is before a frame while the application calls, and the other way round.
#[test]
fn cores_and_applications_are_about_at_once(rt: HostRuntime) -> Result<(), Fail> {
    assert!(rt; meets(&rt, rt.alloc(), CORE[0], APPLICATION[1]));
    assert!(rt; meets(&rt, rt.alloc(), APPLICATION[0], CORE[1]));
    Ok(())
}
