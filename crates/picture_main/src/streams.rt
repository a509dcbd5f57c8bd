//! The standard streams as sources and sinks.

ghost use Rattle.std.specs.Prelude.{◌≡◌, ◌≤◌};
ghost use Rattle.tas_num.specs.Causes.{Rose};
ghost use Rattle.tas_num.specs.declared.outside.IoFault.{IoFault};

use std::io::{Read, Stderr, Stdin, Stdout, Write};
use tas_num::{IoFault, Sink, Source};

/// A stream that is read, as standard input. It tells no content.
#[derive(Drop)]
pub struct StreamSource<R> {
    stream: R,
    faults: u64,
}

/// Standard input.
pub type StdinSource = StreamSource<Stdin>;

/// A stream that is written, as standard output and standard error. It tells no content, and does not grow.
#[derive(Drop)]
pub struct StreamSink<W> {
    stream: W,
    faults: u64,
}

/// Standard output.
pub type StdoutSink = StreamSink<Stdout>;

/// Standard error.
pub type StderrSink = StreamSink<Stderr>;

impl<R: Read> StreamSource<R> {
    pub fn new(stream: R) -> StreamSource<R> {
        StreamSource { stream, faults: 0 }
    }
}

impl<W: Write> StreamSink<W> {
    pub fn new(stream: W) -> StreamSink<W> {
        StreamSink { stream, faults: 0 }
    }
}

impl<R: Read> Source for StreamSource<R> {
    ghost use Rattle.std.specs.Prelude.{None};

    ghost state = { λ s. record { left = None; faults = s.faults } };

    fn read(&mut self, buf: &mut [u8]) -> Result<usize, IoFault> {
        match self.stream.read(buf) {
            Ok(count) => Ok(count),
            Err(_) => Err(failed(&mut self.faults)),
        }
    }
}

impl<W: Write> Sink for StreamSink<W> {
    ghost use Rattle.std.specs.Prelude.{None, false};

    ghost state = { λ s. record { held = None; faults = s.faults; grows = false } };

    fn write(&mut self, bytes: &[u8]) -> Result<usize, IoFault> {
        match self.stream.write(bytes) {
            Ok(count) if count > 0 || bytes.is_empty() => Ok(count),
            _ => Err(failed(&mut self.faults)),
        }
    }
}

/// Counts a fault.
fn failed(faults: &mut u64) -> IoFault
    ensures rose { Rose faults.old faults.new }
    ensures later { faults.old ≤ faults.new }
    ensures failed { result ≡ IoFault.Failed }
{
    *faults = faults.saturating_add(1);
    IoFault::Failed
}
