// How far time has passed for the flows.
ghost use Rattle.std.specs.Prelude.{◌≡◌, true, Some};
ghost use Rattle.slow_worker.specs.Clocks.{has_passed_in, served_in, last_tick};

/// How far time has passed for the flows. A tick's time begins once, and passes once for each flow.
#[derive(Clone, Copy, PartialEq, Eq, Debug)]
pub enum Clock {
    /// No tick has begun.
    New,
    /// Memory was wanting in the midst of this tick. Its time has passed for so many of the first pins.
    Passing { tick: u32, served: usize },
    /// The time of this tick has passed for all flows.
    Passed { tick: u32 },
}

impl Clock {
    /// Whether the time of this tick has passed for all flows.
    pub(crate) fn has_passed(&self, tick: u32) -> bool
        ensures passed { result ≡ has_passed_in tick self.now }
        ensures last { result ≡ true → last_tick self.now ≡ Some tick }
    {
        match *self {
            Clock::Passed { tick: last } => last == tick,
            _ => false,
        }
    }

    /// For how many of the first pins the time of this tick has passed, where it hasn't for all.
    pub(crate) fn served(&self, tick: u32) -> usize
        ensures { result ≡ served_in tick self.now }
    {
        match *self {
            Clock::Passing { tick: last, served } if last == tick => served,
            _ => 0,
        }
    }
}
