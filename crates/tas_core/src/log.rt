//! A host's log, line after line.

ghost use Rattle.std.specs.Prelude.{◌≡◌, ◌≤◌, ◌++◌, ◌∷◌, [], length, OnOk, OnErr};
ghost use Rattle.tas_core.specs.Stretches.{lines_of, ComeAfter};

use crate::stretch::{LogStretch, add};
use host_rounds::LogLine;
use std::alloc::{AllocError, Global};
use std::marker::Model;

/// The log of a host, seen as the list of its lines in the order in which they came. It keeps lines that differ in the
/// number of their frame alone as runs, so a flood of such frames takes no memory.
#[derive(Drop)]
pub struct HostLog {
    stretches: Vec<LogStretch>,
    lines: usize,
}

impl Model for HostLog {
    ghost use Rattle.std.specs.Prelude.{◌≡◌, List, length};
    ghost use Rattle.host_rounds.specs.declared.log.LogLine.{LogLine};
    ghost use Rattle.tas_core.specs.Stretches.{lines_of};

    ghost Value = { List LogLine };

    ghost view = { λ log. lines_of log.stretches.items };

    ghost invariant = { λ log. log.lines ≡ length (lines_of log.stretches.items) };
}

impl HostLog {
    /// A log without lines. It takes no memory.
    pub fn new(alloc: Global) -> HostLog
        ensures { result ≡ [] }
    {
        HostLog {
            stretches: Vec::new(alloc),
            lines: 0,
        }
    }

    /// Appends a line. The error is want of memory, and leaves the log as it was.
    #[inline(always)]
    pub fn add(&mut self, line: LogLine) -> Result<(), AllocError>
        ensures ok { OnOk result (self.new ≡ self.old ++ line ∷ []) }
        ensures err { OnErr result (self.new ≡ self.old) }
    {
        let lines = self.lines.checked_add(1).ok_or(AllocError)?;
        add(&mut self.stretches, line)?;
        self.lines = lines;
        Ok(())
    }

    /// Moves all lines of another log behind its own. The error is want of memory, and leaves both as they were.
    pub fn append(&mut self, other: &mut HostLog) -> Result<(), AllocError>
        ensures ok { OnOk result ((self.new ≡ self.old ++ other.old) × (other.new ≡ [])) }
        ensures err { OnErr result ((self.new ≡ self.old) × (other.new ≡ other.old)) }
    {
        let lines = self.lines.checked_add(other.lines).ok_or(AllocError)?;
        self.stretches.append(&mut other.stretches)?;
        self.lines = lines;
        other.lines = 0;
        Ok(())
    }

    /// How many lines it has.
    pub fn len(&self) -> usize
        ensures { result ≡ length self.now }
    {
        self.lines
    }

    /// All lines in stretches, the oldest first.
    pub fn stretches(&self) -> &[LogStretch]
        ensures { lines_of result.now ≡ self.now }
    {
        self.stretches.as_slice()
    }

    /// The stretches that begin behind the first so many lines, the oldest first. It looks for them from the last on.
    pub fn stretches_after(&self, lines: usize) -> &[LogStretch]
        requires { lines ≤ length self.now }
        ensures { ComeAfter lines self.now result.now }
    {
        let mut left = self.lines - lines;
        let mut i = self.stretches.len();
        while left > 0 {
            let more = self.stretches[i - 1].more();
            if more >= left as u64 {
                return &self.stretches[i..];
            }
            left -= more as usize + 1;
            i -= 1;
        }
        &self.stretches[i..]
    }
}
