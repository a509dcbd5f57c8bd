//! Phases, measured: medians by the clock.
ghost use Rattle.std.specs.Prelude.{⊤, ◌≡◌};

use crate::count::{Count, counts, waste};
use crew::{Crew, Run, with_crew};
use std::alloc::{AllocError, Global};
use std::rt::Clock;
use std::sync::Wait;
use std::thread::Threads;
use std::time::{Duration, Instant};
use std::{io, thread};
use tas_num::{Gate, NoGate};

const ROUNDS: u32 = 400;

/// How long jobs are, in microseconds.
const LENGTHS: [u32; 4] = [0, 2, 16, 64];

/// How long the caller does other work where the threads are to sleep, in microseconds.
const OTHER: u32 = 1_300;

/// Phases with a crew, measured and told.
#[derive(Drop)]
struct Bench<'a, C: Clock + Print> {
    alloc: Global,
    clock: &'a C,
    workers: usize,
    /// How many turns take a microsecond.
    speed: u32,
}

impl<'a, C: Clock + Print> Run<Count> for Bench<'a, C> {
    type Answer = io::Result<()>;

    ghost can = { λ _. ⊤ };

    ghost gives = { λ _ _ _. ⊤ };

    fn run<R: Threads + Wait + Sync, G: Gate + Sync>(
        self,
        rt: &R,
        gate: &G,
        crew: &mut Crew<Count>,
    ) -> io::Result<()> {
        let workers = self.workers;
        let other = OTHER.wrapping_mul(self.speed);
        for length in LENGTHS {
            let mut jobs = counts(self.alloc, workers, length.wrapping_mul(self.speed))?;
            // The first ones also give the threads time to begin.
            let sleeping = phases(rt, gate, self.alloc, self.clock, crew, &mut jobs, other)?;
            let looking = phases(rt, gate, self.alloc, self.clock, crew, &mut jobs, 0)?;
            println!(self.clock;
                "{workers} workers, jobs of {length} us: {looking} ns where threads look"
            )?;
            println!(self.clock;
                "{workers} workers, jobs of {length} us: {sleeping} ns where they slept"
            )?;
        }
        Ok(())
    }
}

/// The median of phases, in nanoseconds, each after so many turns of other work.
fn phases<R: Wait, G: Gate, C: Clock>(
    rt: &R,
    gate: &G,
    alloc: Global,
    clock: &C,
    crew: &mut Crew<Count>,
    jobs: &mut Vec<Count>,
    other: u32,
) -> io::Result<u128>
    ensures { crew.new ≡ crew.old }
{
    let mut sum = 1;
    let mut times: Vec<Duration> = Vec::new(alloc);
    for _ in 0..ROUNDS {
        sum = waste(other, sum);
        let start = Instant::now(clock)?;
        crew.phase(rt, gate, jobs);
        times.push(start.elapsed(clock)?)?;
    }
    Ok(middle(&mut times, sum)?)
}

/// The middle one, in nanoseconds. The sum is only asked for so that it is reckoned.
fn middle(times: &mut Vec<Duration>, sum: u64) -> Result<u128, AllocError> {
    times.sort()?;
    let at = if sum == 0 { 0 } else { times.len() / 2 };
    Ok(times.get(at).map(|time| time.as_nanos()).unwrap_or(0))
}

/// The same jobs by threads that are started for each round, and by the caller alone.
fn rounds<R: Threads + Sync + Clock + Print>(
    rt: &R,
    alloc: Global,
    workers: usize,
    speed: u32,
) -> io::Result<()> {
    for length in LENGTHS {
        let mut jobs = counts(alloc, workers, length.wrapping_mul(speed))?;
        let started = started(rt, alloc, &mut jobs, workers)?;
        let alone = worked_alone(rt, alloc, &mut jobs)?;
        println!(rt;
            "{workers} workers, jobs of {length} us: {started} ns where they are started each time"
        )?;
        println!(rt; "one thread, {workers} jobs of {length} us: {alone} ns")?;
    }
    Ok(())
}

/// The median of rounds in which so many threads are started, in nanoseconds.
fn started<R: Threads + Sync + Clock>(
    rt: &R,
    alloc: Global,
    jobs: &mut Vec<Count>,
    workers: usize,
) -> io::Result<u128> {
    let mut times: Vec<Duration> = Vec::new(alloc);
    for _ in 0..ROUNDS {
        let start = Instant::now(rt)?;
        start_each(rt, jobs.as_mut_slice(), workers);
        times.push(start.elapsed(rt)?)?;
    }
    Ok(middle(&mut times, 1)?)
}

fn start_each<R: Threads + Sync>(rt: &R, jobs: &mut [Count], workers: usize) {
    if workers > 0 {
        thread::for_each_mut(rt, jobs, workers, &|_, job: &mut Count| job.work_on());
    }
}

/// The median of rounds by the caller, in nanoseconds.
fn worked_alone<R: Clock>(rt: &R, alloc: Global, jobs: &mut Vec<Count>) -> io::Result<u128> {
    let mut times: Vec<Duration> = Vec::new(alloc);
    for _ in 0..ROUNDS {
        let start = Instant::now(rt)?;
        for job in jobs.iter_mut() {
            job.work_on();
        }
        times.push(start.elapsed(rt)?)?;
    }
    Ok(middle(&mut times, 1)?)
}

/// How many turns take a microsecond.
fn speed_of<C: Clock>(clock: &C) -> io::Result<u32> {
    let start = Instant::now(clock)?;
    let sum = waste(20_000_000, 1);
    let took = start.elapsed(clock)?.as_micros();
    if sum == 0 || took == 0 {
        return Ok(1);
    }
    Ok((20_000_000 / took) as u32)
}

/// Measures phases of so many workers, of which one is the caller, with one job for each.
pub fn measure_all<R: Threads + Wait + Sync + Clock + Print>(
    rt: &R,
    alloc: Global,
    workers: usize,
) -> io::Result<()> {
    let speed = speed_of(rt)?;
    let bench = Bench {
        alloc,
        clock: rt,
        workers,
        speed,
    };
    with_crew(rt, &NoGate, alloc, workers.saturating_sub(1), bench)??;
    rounds(rt, alloc, workers, speed)
}
