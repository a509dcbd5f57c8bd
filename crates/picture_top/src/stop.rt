//! Why the program ends with another status than 0.

ghost use Rattle.std.specs.Prelude.{◌≡◌};
ghost use Rattle.picture_top.specs.Stops.{status_of};

/// Why the program ends with another status than 0.
#[derive(Clone, Copy, PartialEq, Eq, Debug)]
pub enum Stop {
    /// The words are of no form.
    Words,
    /// The line of this number, counted from 1, is the earliest that is at fault, or the one past the last of a report
    /// that has not the flow that is asked for.
    Line { number: u64 },
    /// The source failed.
    Read,
    /// The sink failed.
    Write,
    /// There was no memory.
    Memory,
    /// The source gave more than a report may have.
    TooLong,
}

impl Stop {
    /// The status that the program ends with.
    pub fn status(self) -> u8
        ensures { result ≡ status_of self }
    {
        match self {
            Stop::Words => 2,
            Stop::Line { .. } => 3,
            Stop::Read => 4,
            Stop::Write => 5,
            Stop::Memory => 6,
            Stop::TooLong => 7,
        }
    }
}
