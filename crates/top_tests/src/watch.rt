//! A gate that counts the points that are passed.

use std::hint::spin_loop;
use std::sync::atomic::{AtomicBool, AtomicUsize, Ordering};
use tas_num::Gate;

/// How many turns a worker waits at most.
const TURNS: u32 = 10_000_000;

/// How many points a host has; two for each core, and the last two for what applications try.
const POINTS: u32 = 64;

/// Counts the points that two cores pass, of whatever host, and holds the first worker that passes one point until
/// another worker has passed another one, or for so many turns.
#[derive(Drop)]
pub struct Watch {
    held: u32,
    until: u32,
    came: AtomicBool,
    passed: AtomicBool,
    ran_out: AtomicBool,
    by_first: AtomicUsize,
    by_second: AtomicUsize,
    by_others: AtomicUsize,
}

/// How often each was passed, and whether a worker was held, and until its turns ran out.
#[derive(Clone, Copy, PartialEq, Eq, Debug, Drop)]
pub struct Counts {
    pub by_first: usize,
    pub by_second: usize,
    pub by_others: usize,
    pub was_held: bool,
    pub ran_out: bool,
}

impl Watch {
    /// Holds `held` until `until` was passed.
    pub fn new(held: u32, until: u32) -> Watch {
        Watch {
            held,
            until,
            came: AtomicBool::new(false),
            passed: AtomicBool::new(false),
            ran_out: AtomicBool::new(false),
            by_first: AtomicUsize::new(0),
            by_second: AtomicUsize::new(0),
            by_others: AtomicUsize::new(0),
        }
    }

    /// What it counted.
    pub fn counts(&self) -> Counts {
        Counts {
            by_first: self.by_first.load(Ordering::SeqCst),
            by_second: self.by_second.load(Ordering::SeqCst),
            by_others: self.by_others.load(Ordering::SeqCst),
            was_held: self.came.load(Ordering::SeqCst),
            ran_out: self.ran_out.load(Ordering::SeqCst),
        }
    }

    fn count(&self, point: u32) {
        let counter = match point % POINTS {
            0 | 1 => &self.by_first,
            2 | 3 => &self.by_second,
            _ => &self.by_others,
        };
        counter.fetch_add(1, Ordering::SeqCst);
    }

    fn wait(&self) {
        for _ in 0..TURNS {
            if self.passed.load(Ordering::SeqCst) {
                return;
            }
            // A turn takes longer so, and the other worker's thread has more time to start on a busy machine.
            spin_loop();
        }
        self.ran_out.store(true, Ordering::SeqCst);
    }
}

impl Gate for Watch {
    fn pass(&self, point: u32) {
        self.count(point);
        if point == self.until {
            self.passed.store(true, Ordering::SeqCst);
        }
        if point == self.held && !self.came.swap(true, Ordering::SeqCst) {
            self.wait();
        }
    }
}
