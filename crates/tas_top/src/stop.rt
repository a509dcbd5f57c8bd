//! Why the program ends with another status than 0.

ghost use Rattle.std.specs.Prelude.{◌≡◌};
ghost use Rattle.tas_top.specs.Stops.{status_of};

/// Why the program ends with another status than 0.
#[derive(Clone, Copy, PartialEq, Eq, Debug)]
pub enum Stop {
    /// All was written, and a script of the scenario has not ended after its last tick.
    Stalled,
    /// The words are of none of the program's forms.
    Words,
    /// The input is no scenario; the first line that is refused, counted from 1.
    Line { number: u64 },
    /// The input is no capture; the record at fault, or 0 for the file header.
    Record { number: u32 },
    /// The source failed.
    Read,
    /// The sink failed.
    Write,
    /// There was no memory.
    Memory,
    /// The source gave more than an input of its kind may have.
    TooLong,
}

impl Stop {
    /// The status that the program ends with.
    pub fn status(self) -> u8
        ensures { result ≡ status_of self }
    {
        match self {
            Stop::Stalled => 1,
            Stop::Words => 2,
            Stop::Line { .. } | Stop::Record { .. } => 3,
            Stop::Read => 4,
            Stop::Write => 5,
            Stop::Memory => 6,
            Stop::TooLong => 7,
        }
    }
}
