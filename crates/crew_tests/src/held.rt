//! A thread that found its job, and is held before it begins it, does not hold up the phase.
ghost use Rattle.std.specs.Prelude.{⊤, ◌≡◌};

use crate::task::{Task, begins};
use crew::{BEFORE_JOB, Crew, Run, with_crew};
use std::alloc::{AllocError, Global};
use std::hint::spin_loop;
use std::process::Abort;
use std::sync::Wait;
use std::sync::atomic::{AtomicBool, Ordering};
use std::test::*;
use std::thread::Threads;
use tas_num::Gate;

/// How many turns who is held waits at most.
const WAIT: u32 = 1_000_000;

/// How many phases are tried: the crew's thread may begin after the first ones.
const TRIES: u32 = 200;

/// Holds a thread that found its job until the phase is over, and the first job until a thread is held, each for so
/// many turns.
#[derive(Drop)]
struct Hold {
    held: AtomicBool,
    over: AtomicBool,
    ran_out: AtomicBool,
}

impl Hold {
    fn new() -> Hold {
        Hold {
            held: AtomicBool::new(false),
            over: AtomicBool::new(false),
            ran_out: AtomicBool::new(false),
        }
    }

    /// As before the first phase.
    fn reset(&self) {
        self.held.store(false, Ordering::SeqCst);
        self.over.store(false, Ordering::SeqCst);
        self.ran_out.store(false, Ordering::SeqCst);
    }

    /// Says that the phase is over. The answer is whether a thread was held all the while.
    fn is_held_to_the_end(&self) -> bool {
        let held = self.held.load(Ordering::SeqCst) && !self.ran_out.load(Ordering::SeqCst);
        self.over.store(true, Ordering::SeqCst);
        held
    }

    fn wait(&self, sign: &AtomicBool) {
        for _ in 0..WAIT {
            if sign.load(Ordering::SeqCst) {
                return;
            }
            spin_loop();
        }
        self.ran_out.store(true, Ordering::SeqCst);
    }
}

impl Gate for Hold {
    fn pass(&self, point: u32) {
        if point == BEFORE_JOB {
            self.held.store(true, Ordering::SeqCst);
            self.wait(&self.over);
        }
        if point == begins(0) {
            self.wait(&self.held);
        }
    }
}

/// Phases of two jobs until one ended while the thread was held, or too many. The answer is whether one did, and how
/// often each job was worked on beside how many phases there were.
#[derive(Drop)]
struct Holding<'a> {
    alloc: Global,
    hold: &'a Hold,
}

/// What came of it.
#[derive(Drop)]
struct Came {
    held: bool,
    phases: u32,
    jobs: Vec<Task>,
}

impl<'a> Run<Task> for Holding<'a> {
    type Answer = Result<Came, AllocError>;

    ghost can = { λ _. ⊤ };

    ghost gives = { λ _ _ _. ⊤ };

    fn run<R: Threads + Wait + Sync, G: Gate + Sync>(
        self,
        rt: &R,
        gate: &G,
        crew: &mut Crew<Task>,
    ) -> Result<Came, AllocError> {
        let mut jobs = Vec::new(self.alloc);
        jobs.push(Task::new(0, 100))?;
        jobs.push(Task::new(1, 100))?;
        let mut phases = 0u32;
        let mut held = false;
        for _ in 0..TRIES {
            self.hold.reset();
            crew.phase(rt, gate, &mut jobs);
            phases = phases.wrapping_add(1);
            held = self.hold.is_held_to_the_end();
            if held {
                break;
            }
        }
        Ok(Came { held, phases, jobs })
    }
}

fn held<R: Threads + Wait + Sync>(rt: &R, alloc: Global) -> Result<Came, AllocError> {
    let hold = Hold::new();
    with_crew(rt, &hold, alloc, 1, Holding { alloc, hold: &hold })?
}

/// The second job's thread is held before it begins until the phase is over, so the caller works on the job, once.
#[test]
fn a_thread_that_does_not_begin_holds_up_nobody(rt: HostRuntime) -> Result<(), Fail> {
    let came = held(&rt, rt.alloc())?;
    assert!(rt; came.held);
    for job in came.jobs.iter() {
        assert_eq!(rt; job.worked, came.phases);
    }
    Ok(())
}
