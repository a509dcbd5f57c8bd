//! The lines of records that follow on each other.

ghost use Rattle.std.specs.Prelude.{◌≡◌, ◌+◌, ◌≤◌, ◌++◌, length};
ghost use Rattle.run_texts.specs.Records.{word_of, end_of};

use crate::buffer::Buffer;
use crate::counted_lines::{CountedLines, Digits};
use crate::text::{add, add_number};
use tas_core::{LogRun, RunKind};

/// The lines of a run of records of a capture. The number of the record rises.
impl CountedLines for LogRun {
    ghost use Rattle.std.specs.Prelude.{◌+◌, ◌-◌, ⊤};
    ghost use Rattle.run_texts.specs.Records.{record_line};

    ghost line = { λ r j. record_line r.tick r.kind (r.first.number + j) };

    ghost more = { λ r. r.last - r.first.number };

    ghost is_run = { λ r. ⊤ };

    fn followers(&self) -> u64 {
        self.more()
    }

    fn add_line(&self, j: u64, waiting: &mut Buffer) -> Digits {
        // That the number fits comes of the last one's range.
        let _last = self.last;
        let from = waiting.len();
        add_number(waiting, self.tick);
        add(waiting, word(self.kind));
        add_number(waiting, self.first.number + j);
        let place = waiting.len() - from - 1;
        add_end(waiting, self.kind);
        Digits {
            first: place,
            second: place,
        }
    }
}

/// What stands between the tick and the number of a record.
fn word(kind: RunKind) -> &'static [u8]
    ensures text { result.now ≡ word_of kind }
    ensures short { length result.now ≤ 11 }
{
    match kind {
        RunKind::Dropped { .. } => b" dropped r:",
        RunKind::Refused { .. } => b" refused r:",
    }
}

/// Puts what stands behind the number of a record behind the bytes that wait.
fn add_end(waiting: &mut Buffer, kind: RunKind)
    requires room { length waiting.old + 16 ≤ 32768 }
    ensures text { waiting.new ≡ waiting.old ++ end_of kind }
    ensures short { length waiting.new ≤ length waiting.old + 16 }
{
    match kind {
        RunKind::Dropped { backlog } => {
            if backlog {
                add(waiting, b" = backlogfull\n");
            } else {
                add(waiting, b" = noflowslot\n");
            }
        }
        RunKind::Refused { number } => {
            add(waiting, b" = ");
            add_number(waiting, number);
            add(waiting, b"\n");
        }
    }
}
