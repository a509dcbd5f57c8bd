//! The cores that are live, and when there is one more or one less.
ghost use Rattle.std.specs.Prelude.{◌≡◌, ◌≤◌, ◌<◌};
ghost use Rattle.core_scaling.specs.Scaling.{change_by, live_after};

use std::marker::Model;

/// What a tick's load asks for.
#[derive(Clone, Copy, PartialEq, Eq, Debug)]
pub enum Change {
    Keep,
    /// One core more is live: the one with the lowest number that wasn't.
    Add,
    /// One less: the one with the highest number isn't any more.
    Remove,
}

/// How many cores of a host are live: those with the lowest numbers.
#[derive(Drop)]
pub struct Scaler {
    max: u32,
    low: u32,
    high: u32,
    live: u32,
}

impl Model for Scaler {
    ghost use Rattle.core_scaling.specs.Scaling.{Scale, IsScale};

    ghost Value = { Scale };

    ghost view = { λ s. record { max = s.max; low = s.low; high = s.high; live = s.live } };

    ghost invariant = { λ s. IsScale (record { max = s.max; low = s.low; high = s.high; live = s.live }) };
}

impl Scaler {
    /// One core is live, of so many, from 1 to 16. Below `low` frames for each live core in a tick one is removed, and
    /// above `high` one is added; `low` is 1 or more and below `high`.
    pub fn new(max: u32, low: u32, high: u32) -> Scaler
        requires cores { (1 ≤ max) × (max ≤ 16) }
        requires bounds { (1 ≤ low) × (low < high) }
        ensures { result ≡ record { max = max; low = low; high = high; live = 1 } }
    {
        Scaler {
            max,
            low,
            high,
            live: 1,
        }
    }

    /// How many cores are live.
    pub fn live(&self) -> u32
        ensures live { result ≡ self.now.live }
        ensures some { 1 ≤ result }
        ensures most { result ≤ self.now.max }
    {
        self.live
    }

    /// What so many frames in a tick ask for, which is done.
    pub fn decide(&mut self, frames: u32) -> Change
        ensures change { result ≡ change_by frames self.old }
        ensures live { self.new ≡ record self.old { live = live_after result self.old.live } }
    {
        let (frames, live) = (u64::from(frames), u64::from(self.live));
        if frames > u64::from(self.high) * live && self.live < self.max {
            self.live += 1;
            return Change::Add;
        }
        if frames < u64::from(self.low) * live && self.live > 1 {
            self.live -= 1;
            return Change::Remove;
        }
        Change::Keep
    }
}
