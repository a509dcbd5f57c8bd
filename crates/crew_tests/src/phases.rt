//! Phases on crews of several sizes.
ghost use Rattle.std.specs.Prelude.{⊤, ◌≡◌};

use crate::task::{Task, tasks};
use crew::{Crew, Run, with_crew};
use std::alloc::{AllocError, Global};
use std::process::Abort;
use std::sync::Wait;
use std::test::*;
use std::thread::Threads;
use tas_num::{Gate, NoGate};

/// Jobs of different length, more than any crew here has threads.
const JOBS: u32 = 20;

const STEP: u32 = 16;

/// So many phases of jobs.
#[derive(Drop)]
struct Phases {
    alloc: Global,
    count: u32,
}

impl Run<Task> for Phases {
    type Answer = Result<Vec<Task>, AllocError>;

    ghost can = { λ _. ⊤ };

    ghost gives = { λ _ _ _. ⊤ };

    fn run<R: Threads + Wait + Sync, G: Gate + Sync>(
        self,
        rt: &R,
        gate: &G,
        crew: &mut Crew<Task>,
    ) -> Result<Vec<Task>, AllocError> {
        let mut jobs = tasks(self.alloc, JOBS, STEP)?;
        for _ in 0..self.count {
            crew.phase(rt, gate, &mut jobs);
        }
        Ok(jobs)
    }
}

/// The sum of a job that was worked on so often, by itself.
fn sum_alone(place: u32, count: u32) -> u64 {
    let mut job = Task::new(place, place.wrapping_mul(STEP));
    for _ in 0..count {
        job.turn();
    }
    job.sum
}

/// Plays phases on so many threads, and wants each job in its place, worked on once a phase and by itself.
fn plays<R: Threads + Wait + Sync + Abort>(
    rt: &R,
    alloc: Global,
    threads: usize,
    count: u32,
) -> Result<(), Fail> {
    let jobs = with_crew(rt, &NoGate, alloc, threads, Phases { alloc, count })??;
    assert_eq!(rt; jobs.len(), JOBS as usize);
    let mut place = 0;
    for job in jobs.iter() {
        assert_eq!(rt; job.place, place);
        assert_eq!(rt; job.worked, count);
        assert_eq!(rt; job.sum, sum_alone(place, count));
        place = place.wrapping_add(1);
    }
    Ok(())
}

/// Ten thousand phases on crews of a few threads.
#[test]
fn each_job_is_worked_on_once_a_phase(rt: HostRuntime) -> Result<(), Fail> {
    for threads in [1, 2, 4] {
        plays(&rt, rt.alloc(), threads, 10_000)?;
    }
    Ok(())
}

/// Ten thousand phases on more threads than there are processors.
#[test]
fn each_job_is_worked_on_once_by_many_threads(rt: HostRuntime) -> Result<(), Fail> {
    plays(&rt, rt.alloc(), 16, 10_000)
}

/// A crew of no threads.
#[test]
fn jobs_are_worked_on_by_the_caller_alone(rt: HostRuntime) -> Result<(), Fail> {
    plays(&rt, rt.alloc(), 0, 100)
}

/// A run that has no phase, so that it may answer before its threads began.
#[test]
fn a_run_that_answers_early_ends_its_threads(rt: HostRuntime) -> Result<(), Fail> {
    for _ in 0..200u32 {
        plays(&rt, rt.alloc(), 4, 0)?;
    }
    Ok(())
}
