//! Sources and sinks that never fail.

ghost use Rattle.std.specs.Prelude.{◌≡◌, ◌≢◌, ◌<◌, ◌≤◌, Some, length, min, IfOk, Ok, vec_len};
ghost use Rattle.std.specs.Io.{ReadsAtMost, WritesAtMost};
ghost use Rattle.std.specs.Io.KnownBytes.{ReadConsumes, WriteAppends};

use crate::memory::copy_front;
use crate::outside::{IoFault, Sink, Source};
use std::alloc::{AllocError, Global};

/// Bytes in memory that never fail to be read.
#[derive(Drop)]
pub struct SureSource {
    bytes: Vec<u8>,
    at: usize,
    ghost inside: { at ≤ vec_len bytes },
}

impl SureSource {
    ghost use Rattle.std.specs.Prelude.{◌≡◌, IfOk, ℕ};
    ghost use Rattle.tas_num.specs.Memory.{surely_left};

    /// A source of a copy of these bytes.
    pub fn new(alloc: Global, bytes: &[u8]) -> Result<SureSource, AllocError>
        ensures left { IfOk result (λ s. surely_left s ≡ bytes.now) }
    {
        Ok(SureSource {
            bytes: Vec::from_slice(alloc, bytes)?,
            at: 0,
        })
    }
}

impl Source for SureSource {
    ghost use Rattle.std.specs.Prelude.{Some};
    ghost use Rattle.tas_num.specs.Memory.{surely_left};

    ghost state = { λ s. record { left = Some (surely_left s); faults = 0 } };

    fn read(&mut self, buf: &mut [u8]) -> Result<usize, IoFault>
        ensures bound { ReadsAtMost result buf.new }
        ensures bytes { ReadConsumes (Some (surely_left self.old)) (Some (surely_left self.new)) result buf.new }
        // As much as fits.
        ensures count { result ≡ Ok (min (length (surely_left self.old)) (length buf.new)) }
    {
        let count = copy_front(&self.bytes[self.at..], buf);
        self.at += count;
        Ok(count)
    }
}

/// Memory that grows as bytes are written, and never fails but for want of more.
#[derive(Drop)]
pub struct SureSink {
    bytes: Vec<u8>,
}

impl SureSink {
    ghost use Rattle.std.specs.Prelude.{◌≡◌, []};
    ghost use Rattle.tas_num.specs.Memory.{surely_held};

    /// A sink that holds nothing yet.
    pub fn new(alloc: Global) -> SureSink
        ensures { surely_held result ≡ [] }
    {
        SureSink {
            bytes: Vec::new(alloc),
        }
    }

    /// All that was written.
    pub fn written(&self) -> &[u8]
        ensures { result.now ≡ surely_held self.now }
    {
        self.bytes.as_slice()
    }
}

impl Sink for SureSink {
    ghost use Rattle.std.specs.Prelude.{Some, true};
    ghost use Rattle.tas_num.specs.Memory.{surely_held};

    ghost state = { λ s. record { held = Some (surely_held s); faults = 0; grows = true } };

    fn write(&mut self, bytes: &[u8]) -> Result<usize, IoFault>
        ensures bound { WritesAtMost result bytes.now }
        ensures some { IfOk result (λ n. 0 < length bytes.now → 0 < n) }
        ensures bytes { WriteAppends (Some (surely_held self.old)) (Some (surely_held self.new)) result bytes.now }
        // All of them, or none for want of memory.
        ensures count { IfOk result (λ n. n ≡ length bytes.now) }
        ensures no_failure { result ≢ Err IoFault.Failed }
    {
        match self.bytes.extend_from_slice(bytes) {
            Ok(()) => Ok(bytes.len()),
            Err(_) => Err(IoFault::OutOfMemory),
        }
    }
}
