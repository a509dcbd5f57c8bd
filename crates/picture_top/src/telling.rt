//! A fault line is written.

ghost use Rattle.std.specs.Prelude.{◌++◌, []};
ghost use Rattle.tas_num.specs.Streams.{Wrote};
ghost use Rattle.picture_top.specs.Telling.{fault_line, numbered, IsTold};

use crate::stop::Stop;
use itoa::Buffer;
use tas_num::{IoFault, Sink, write_all};

/// Tells of a stop by its fault line. Where that can't be written, the status alone tells. It takes no memory but what
/// the sink takes.
pub fn tell<F: Sink>(faults: &mut F, stop: Stop)
    ensures { IsTold stop (F.state faults.old) (F.state faults.new) }
{
    let _ = put_line(faults, stop);
}

/// Writes the fault line of a stop.
fn put_line<F: Sink>(faults: &mut F, stop: Stop) -> Result<(), IoFault>
    ensures { Wrote (F.state faults.old) result (F.state faults.new) (fault_line stop) [] }
{
    match stop {
        Stop::Words => put(faults, "picture: words\n"),
        Stop::Line { number } => put_numbered(faults, "picture: input line ", number),
        Stop::Read => put(faults, "picture: read\n"),
        Stop::Write => put(faults, "picture: write\n"),
        Stop::Memory => put(faults, "picture: memory\n"),
        Stop::TooLong => put(faults, "picture: too long\n"),
    }
}

/// Writes the fault line that names a part of the input by its number.
fn put_numbered<F: Sink>(faults: &mut F, part: &str, number: u64) -> Result<(), IoFault>
    ensures { Wrote (F.state faults.old) result (F.state faults.new) (part.now ++ numbered number) [] }
{
    put(faults, part)?;
    put_end(faults, number)
}

/// Writes a number and the end of the line.
fn put_end<F: Sink>(faults: &mut F, number: u64) -> Result<(), IoFault>
    ensures { Wrote (F.state faults.old) result (F.state faults.new) (numbered number) [] }
{
    let mut digits = Buffer::new();
    put(faults, digits.format(number))?;
    put(faults, "\n")
}

/// Writes a text.
fn put<F: Sink>(faults: &mut F, text: &str) -> Result<(), IoFault>
    ensures { Wrote (F.state faults.old) result (F.state faults.new) text.now [] }
{
    write_all(faults, text.as_bytes())
}
