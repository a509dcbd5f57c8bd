//! What a thread is handed: jobs that stand side by side.
ghost use Rattle.std.specs.Prelude.{◌≡◌, ◌≤◌, ◌+◌, All, length};
ghost use Rattle.std.specs.List.{AllZip};

use crate::job::{Job, Weighed};
use std::sync::Wait;
use tas_num::Gate;

/// Jobs that one thread works on, one after the other.
#[derive(Drop)]
pub(crate) struct Batch<W: Job + Drop> {
    pub(crate) jobs: Vec<W>,
}

impl<W: Job + Drop> Job for Batch<W> {
    ghost use Rattle.std.specs.Prelude.{All};
    ghost use Rattle.std.specs.List.{AllZip};

    ghost can = { λ b. All W.can b.jobs.items };

    ghost made = { λ b c. AllZip W.made b.jobs.items c.jobs.items };

    fn work<R: Wait, G: Gate>(&mut self, rt: &R, gate: &G) {
        work_each(rt, gate, self.jobs.as_mut_slice());
    }
}

/// Works on the jobs one after the other, on the caller's thread.
pub fn work_each<R: Wait, G: Gate, W: Job>(rt: &R, gate: &G, jobs: &mut [W])
    requires can { All W.can jobs.old }
    ensures made { AllZip W.made jobs.old jobs.new }
{
    if let Some((job, rest)) = jobs.split_first_mut() {
        job.work(rt, gate);
        work_each(rt, gate, rest);
    }
}

/// This, and how much there is to do in these jobs.
pub(crate) fn weight_of<W: Weighed>(jobs: &[W], before: usize) -> usize {
    match jobs.split_first() {
        Some((job, rest)) => weight_of(rest, before.saturating_add(job.weight())),
        None => before,
    }
}

/// Where a list of jobs is cut.
#[derive(Clone, Copy)]
pub(crate) struct Parting {
    /// How many stay.
    pub(crate) at: usize,
    /// How much there is to do in those that don't.
    pub(crate) weight: usize,
}

/// Where these jobs are cut for a thread that gets the last of them, of which all together have this weight, and which
/// so many workers share. Where there are no more jobs than workers it gets one, so that none waits behind another.
pub(crate) fn cut<W: Weighed>(jobs: &[W], weight: usize, workers: usize) -> Parting
    requires some { 1 ≤ length jobs.now }
    requires workers { 1 ≤ workers }
    ensures at { result.at ≤ length jobs.now }
    ensures one { length jobs.now ≤ workers → result.at + 1 ≡ length jobs.now }
{
    if jobs.len() <= workers {
        return cut_at(jobs, 0, 0);
    }
    let found = cut_at(jobs, weight / workers, 0);
    Parting {
        at: found.at.max(1),
        weight: found.weight,
    }
}

/// Where the last jobs, with what came behind them, have this weight.
fn cut_at<W: Weighed>(jobs: &[W], wanted: usize, behind: usize) -> Parting
    ensures at { result.at ≤ length jobs.now }
    ensures one { wanted ≤ behind → 1 ≤ length jobs.now → result.at + 1 ≡ length jobs.now }
{
    let Some((job, rest)) = jobs.split_last() else {
        return Parting {
            at: 0,
            weight: behind,
        };
    };
    let weight = behind.saturating_add(job.weight());
    if weight >= wanted {
        return Parting {
            at: rest.len(),
            weight,
        };
    }
    cut_at(rest, wanted, weight)
}
