//! The lines of quiet ticks, whose tick and number rise.

ghost use Rattle.std.specs.Prelude.{◌≡◌, ◌+◌, ◌≤◌, ◌++◌, length, codes};
ghost use Rattle.tas_runs.specs.Report.{caller_text};

use crate::buffer::Buffer;
use crate::counted_lines::{CountedLines, Digits};
use crate::text::{Text, add, add_number};
use crate::texts::CallerText;
use flow_state::QuietRun;
use tas_model::Caller;

/// What stands behind the number in the line of a quiet tick.
const TAIL: &[u8; 14] = b" tick = quiet\n";

/// The lines of quiet ticks that follow on each other. The tick and the number rise.
impl CountedLines for QuietRun {
    ghost use Rattle.std.specs.Prelude.{◌+◌, []};
    ghost use Rattle.tas_runs.specs.Report.{entry_text};
    ghost use Rattle.flow_state.specs.Stretches.{quiet_tick, IsRun};

    ghost line = { λ r j. entry_text [] (quiet_tick r.caller (r.number + j) (r.tick + j)) };

    ghost more = { λ r. r.more };

    ghost is_run = { λ r. IsRun r };

    fn followers(&self) -> u64 {
        u64::from(self.more)
    }

    fn add_line(&self, j: u64, waiting: &mut Buffer) -> Digits {
        let from = waiting.len();
        add_number(waiting, self.tick + j as u32);
        let first = waiting.len() - from - 1;
        add_caller(waiting, self.caller);
        add_number(waiting, self.number + j);
        let second = waiting.len() - from - 1;
        add(waiting, TAIL);
        Digits { first, second }
    }
}

/// Puts a caller between a tick and a number. Mostly it is the slow path.
#[inline(always)]
fn add_caller(waiting: &mut Buffer, caller: Caller)
    requires room { length waiting.old + 13 ≤ 32768 }
    ensures text { waiting.new ≡ waiting.old ++ (codes " " ++ caller_text caller ++ codes ".") }
    ensures short { length waiting.new ≤ length waiting.old + 13 }
{
    match caller {
        Caller::Slow => add(waiting, b" s."),
        _ => {
            add(waiting, b" ");
            CallerText(caller).add_to(waiting);
            add(waiting, b".");
        }
    }
}
