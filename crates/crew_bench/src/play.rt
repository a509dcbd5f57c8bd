//! Short phases on crews of several sizes, told.
ghost use Rattle.std.specs.Prelude.{⊤, ◌≡◌};

use crate::count::{Count, counts};
use crew::{Crew, Run, with_crew};
use std::alloc::{AllocError, Global};
use std::io;
use std::sync::Wait;
use std::thread::Threads;
use tas_num::{Gate, NoGate};

const JOBS: usize = 20;

const PHASES: u32 = 500;

/// Phases of jobs. The answer is how often each was worked on.
#[derive(Drop)]
struct Phases {
    alloc: Global,
}

impl Run<Count> for Phases {
    type Answer = Result<Vec<u64>, AllocError>;

    ghost can = { λ _. ⊤ };

    ghost gives = { λ _ _ _. ⊤ };

    fn run<R: Threads + Wait + Sync, G: Gate + Sync>(
        self,
        rt: &R,
        gate: &G,
        crew: &mut Crew<Count>,
    ) -> Result<Vec<u64>, AllocError> {
        let mut jobs = counts(self.alloc, JOBS, 100)?;
        for _ in 0..PHASES {
            crew.phase(rt, gate, &mut jobs);
        }
        let mut worked = Vec::new(self.alloc);
        for job in jobs.iter() {
            worked.push(job.worked)?;
        }
        Ok(worked)
    }
}

/// Plays them on crews of 0 to 16 threads, and prints the least and the most that a job was worked on.
pub fn play_all<R: Threads + Wait + Sync + Print>(rt: &R, alloc: Global) -> io::Result<()> {
    for threads in [0usize, 1, 2, 4, 16] {
        let worked = with_crew(rt, &NoGate, alloc, threads, Phases { alloc })??;
        let least = worked.iter().min().copied().unwrap_or(0);
        let most = worked.iter().max().copied().unwrap_or(0);
        let jobs = worked.len();
        println!(rt;
            "{threads} threads: {PHASES} phases of {jobs} jobs, each worked on {least} to {most} times"
        )?;
    }
    Ok(())
}
