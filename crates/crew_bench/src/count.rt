//! A job that counts: so many turns of arithmetic, on about 500 bytes.
ghost use Rattle.std.specs.Prelude.{⊤};

use crew::{Job, Weighed};
use std::alloc::{AllocError, Global};
use std::sync::Wait;
use tas_num::Gate;

/// A job of so many turns, and how often it was worked on.
#[derive(Drop)]
pub struct Count {
    pub turns: u32,
    pub worked: u64,
    sum: u64,
    pad: [u64; 60],
}

impl Count {
    pub fn work_on(&mut self) {
        let mut sum = self.sum;
        for i in 0..self.turns {
            sum = sum
                .wrapping_mul(6_364_136_223_846_793_005)
                .wrapping_add(i as u64);
        }
        self.sum = sum;
        self.worked = self.worked.wrapping_add(1);
    }
}

impl Job for Count {
    ghost can = { λ _. ⊤ };

    ghost made = { λ _ _. ⊤ };

    fn work<R: Wait, G: Gate>(&mut self, _rt: &R, _gate: &G) {
        self.work_on();
    }
}

impl Weighed for Count {
    fn weight(&self) -> usize {
        self.turns as usize
    }
}

/// So many jobs.
pub fn counts(alloc: Global, jobs: usize, turns: u32) -> Result<Vec<Count>, AllocError> {
    let mut all = Vec::new(alloc);
    for i in 0..jobs {
        all.push(Count {
            turns,
            worked: 0,
            sum: i as u64,
            pad: [0; 60],
        })?;
    }
    Ok(all)
}

/// Other work, of so many turns. The answer keeps it from being left out.
pub fn waste(turns: u32, from: u64) -> u64 {
    let mut sum = from;
    for i in 0..turns {
        sum = sum
            .wrapping_mul(6_364_136_223_846_793_005)
            .wrapping_add(i as u64);
    }
    sum
}
