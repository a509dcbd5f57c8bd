//! Jobs of one phase are worked on at once: one waits for the other.
ghost use Rattle.std.specs.Prelude.{⊤, ◌≡◌};

use crate::task::{Task, begins, ends};
use crew::{Crew, Run, with_crew};
use std::alloc::{AllocError, Global};
use std::hint::spin_loop;
use std::process::Abort;
use std::sync::Wait;
use std::sync::atomic::{AtomicBool, Ordering};
use std::test::*;
use std::thread::Threads;
use tas_num::Gate;

/// How many turns a job waits at most.
const WAIT: u32 = 1_000_000;

/// How many phases are tried: the crew's thread may begin after the first ones.
const TRIES: u32 = 200;

/// Holds who passes one point until another was passed, and whoever passes that until the first was reached, each for
/// so many turns. Both are passed only by jobs that are worked on at once.
#[derive(Drop)]
struct Hold {
    held: u32,
    until: u32,
    reached: AtomicBool,
    passed: AtomicBool,
    ran_out: AtomicBool,
}

impl Hold {
    fn new(held: u32, until: u32) -> Hold {
        Hold {
            held,
            until,
            reached: AtomicBool::new(false),
            passed: AtomicBool::new(false),
            ran_out: AtomicBool::new(false),
        }
    }

    /// As before the first phase.
    fn reset(&self) {
        self.reached.store(false, Ordering::SeqCst);
        self.passed.store(false, Ordering::SeqCst);
        self.ran_out.store(false, Ordering::SeqCst);
    }

    /// Whether both points were passed, and no turns ran out.
    fn is_met(&self) -> bool {
        self.passed.load(Ordering::SeqCst) && !self.ran_out.load(Ordering::SeqCst)
    }

    fn wait(&self, sign: &AtomicBool) {
        for _ in 0..WAIT {
            if sign.load(Ordering::SeqCst) {
                return;
            }
            spin_loop();
        }
        self.ran_out.store(true, Ordering::SeqCst);
    }
}

impl Gate for Hold {
    fn pass(&self, point: u32) {
        if point == self.held {
            self.reached.store(true, Ordering::SeqCst);
            self.wait(&self.passed);
        }
        if point == self.until {
            self.wait(&self.reached);
            self.passed.store(true, Ordering::SeqCst);
        }
    }
}

/// Phases of two jobs until both passed their points, or too many. The answer is whether they did.
#[derive(Drop)]
struct Meeting<'a> {
    alloc: Global,
    hold: &'a Hold,
}

impl<'a> Run<Task> for Meeting<'a> {
    type Answer = Result<bool, AllocError>;

    ghost can = { λ _. ⊤ };

    ghost gives = { λ _ _ _. ⊤ };

    fn run<R: Threads + Wait + Sync, G: Gate + Sync>(
        self,
        rt: &R,
        gate: &G,
        crew: &mut Crew<Task>,
    ) -> Result<bool, AllocError> {
        let mut jobs = Vec::new(self.alloc);
        jobs.push(Task::new(0, 100))?;
        jobs.push(Task::new(1, 100))?;
        for _ in 0..TRIES {
            self.hold.reset();
            crew.phase(rt, gate, &mut jobs);
            if self.hold.is_met() {
                return Ok(true);
            }
        }
        Ok(false)
    }
}

/// Whether, with one thread beside the caller's, one job is held at a point until the other passes its own.
fn is_met<R: Threads + Wait + Sync>(
    rt: &R,
    alloc: Global,
    held: u32,
    until: u32,
) -> Result<bool, AllocError> {
    let hold = Hold::new(held, until);
    with_crew(rt, &hold, alloc, 1, Meeting { alloc, hold: &hold })?
}

/// The first job waits at its beginning until the second is at its end, and the other way round.
#[test]
fn a_job_waits_for_another_of_its_phase(rt: HostRuntime) -> Result<(), Fail> {
    assert!(rt; is_met(&rt, rt.alloc(), begins(0), ends(1))?);
    assert!(rt; is_met(&rt, rt.alloc(), begins(1), ends(0))?);
    Ok(())
}
