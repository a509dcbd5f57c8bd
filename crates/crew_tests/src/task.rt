//! A job of the tests: it counts how often it was worked on, and passes a point at its beginning and one at its end.
ghost use Rattle.std.specs.Prelude.{⊤, ◌≡◌, IfOk};

use crew::{Job, Weighed};
use std::alloc::{AllocError, Global};
use std::sync::Wait;
use tas_num::Gate;

/// A job of so many turns.
#[derive(Drop)]
pub struct Task {
    pub place: u32,
    pub turns: u32,
    pub worked: u32,
    pub sum: u64,
}

/// The points that a job passes: at its beginning and at its end.
pub fn begins(place: u32) -> u32 {
    place.wrapping_mul(2)
}

pub fn ends(place: u32) -> u32 {
    begins(place).wrapping_add(1)
}

impl Task {
    pub fn new(place: u32, turns: u32) -> Task {
        Task {
            place,
            turns,
            worked: 0,
            sum: place as u64,
        }
    }

    /// What each work does to the sum.
    pub fn turn(&mut self) {
        let mut sum = self.sum;
        for i in 0..self.turns {
            sum = sum
                .wrapping_mul(6_364_136_223_846_793_005)
                .wrapping_add(i as u64);
        }
        self.sum = sum;
    }
}

impl Job for Task {
    ghost can = { λ _. ⊤ };

    ghost made = { λ _ _. ⊤ };

    fn work<R: Wait, G: Gate>(&mut self, _rt: &R, gate: &G) {
        gate.pass(begins(self.place));
        self.turn();
        self.worked = self.worked.wrapping_add(1);
        gate.pass(ends(self.place));
    }
}

impl Weighed for Task {
    fn weight(&self) -> usize {
        self.turns as usize
    }
}

/// So many jobs, each longer than the one before.
pub fn tasks(alloc: Global, count: u32, step: u32) -> Result<Vec<Task>, AllocError> {
    let mut jobs = Vec::new(alloc);
    for place in 0..count {
        jobs.push(Task::new(place, place.wrapping_mul(step)))?;
    }
    Ok(jobs)
}
