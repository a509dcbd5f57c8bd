//! Lines of a log that follow on each other, as one stretch.

ghost use Rattle.std.specs.Prelude.{◌≡◌, ◌+◌, ◌-◌, ◌^◌, ◌<◌, ◌++◌, ◌∷◌, [], length, true, false, suc, OnOk, OnErr};
ghost use Rattle.tas_core.specs.Stretches.{lines_in, lines_of, line_by, ComesNext};

use host_rounds::{LogEvent, LogLine};
use std::alloc::AllocError;
use tas_model::FrameId;

/// What a run of lines tells of its frames.
#[derive(Clone, Copy, Debug)]
pub enum RunKind {
    /// Each was a SYN that was dropped: for a full backlog where `backlog` is true, and else for want of a slot.
    Dropped { backlog: bool },
    /// Each breaks the rule of reading with this number.
    Refused { number: u8 },
}

/// Lines of one tick that differ in the number of their frame alone, which rises by one from line to line.
#[derive(Clone, Copy, Debug)]
pub struct LogRun {
    pub tick: u32,
    pub kind: RunKind,
    /// The frame of the first line.
    pub first: FrameId,
    /// The number of the last line's frame.
    pub last: u64,
}

/// Lines that stand together in a log.
#[derive(Drop)]
pub enum LogStretch {
    /// One line.
    One(LogLine),
    /// Lines of frames that follow on each other. There is one at least.
    Run(LogRun),
}

impl LogRun {
    /// How many lines follow on the first. So far the number of its frame can be raised.
    #[inline(always)]
    pub fn more(&self) -> u64
        ensures count { result ≡ self.now.last - self.now.first.number }
        ensures fits { self.now.first.number + result < 2 ^ 64 }
    {
        self.last.saturating_sub(self.first.number)
    }

    /// Whether a line of this tick and kind with this frame is the next one.
    #[inline(always)]
    fn goes_on_by(&self, tick: u32, kind: RunKind, frame: FrameId) -> bool
        ensures { result ≡ true → ComesNext self.now tick kind frame }
    {
        if self.last >= frame.number || frame.number - self.last != 1 {
            return false;
        }
        if self.tick != tick || !is_same(self.kind, kind) {
            return false;
        }
        if self.first.host != frame.host || self.first.flow != frame.flow {
            return false;
        }
        self.first.copy == frame.copy && self.first.number <= self.last
    }
}

/// Whether both tell the same.
#[inline(always)]
fn is_same(one: RunKind, other: RunKind) -> bool
    ensures { result ≡ true → one ≡ other }
{
    match (one, other) {
        (RunKind::Dropped { backlog: a }, RunKind::Dropped { backlog: b }) => a == b,
        (RunKind::Refused { number: a }, RunKind::Refused { number: b }) => a == b,
        _ => false,
    }
}

impl LogStretch {
    /// How many lines follow on the first.
    #[inline(always)]
    pub fn more(&self) -> u64
        ensures { suc result ≡ length (lines_in self.now) }
    {
        match self {
            LogStretch::One(_) => 0,
            LogStretch::Run(run) => run.more(),
        }
    }
}

/// Lengthens the last run by a line, where it is its next one, and tells whether it is.
#[inline(always)]
fn lengthen(stretches: &mut Vec<LogStretch>, tick: u32, kind: RunKind, frame: FrameId) -> bool
    ensures made { result ≡ true → lines_of stretches.new.items
        ≡ lines_of stretches.old.items ++ line_by tick kind frame ∷ [] }
    ensures unmade { result ≡ false → stretches.new ≡ stretches.old }
{
    let n = stretches.len();
    if n == 0 {
        return false;
    }
    let LogStretch::Run(run) = stretches[n - 1] else {
        return false;
    };
    if !run.goes_on_by(tick, kind, frame) {
        return false;
    }
    stretches[n - 1] = LogStretch::Run(LogRun {
        last: frame.number,
        ..run
    });
    true
}

/// Adds a line of a frame behind the others: to the run before it, where it is the next of that. The error is want of
/// memory.
#[inline(always)]
fn add_frame(
    stretches: &mut Vec<LogStretch>,
    tick: u32,
    kind: RunKind,
    frame: FrameId,
) -> Result<(), AllocError>
    ensures ok { OnOk result (lines_of stretches.new.items
        ≡ lines_of stretches.old.items ++ line_by tick kind frame ∷ []) }
    ensures err { OnErr result (stretches.new.items ≡ stretches.old.items) }
{
    if lengthen(stretches, tick, kind, frame) {
        return Ok(());
    }
    let run = LogRun {
        tick,
        kind,
        first: frame,
        last: frame.number,
    };
    stretches.push(LogStretch::Run(run))?;
    Ok(())
}

/// Adds a line behind the others. The error is want of memory.
#[inline(always)]
pub fn add(stretches: &mut Vec<LogStretch>, line: LogLine) -> Result<(), AllocError>
    ensures ok { OnOk result (lines_of stretches.new.items ≡ lines_of stretches.old.items ++ line ∷ []) }
    ensures err { OnErr result (stretches.new.items ≡ stretches.old.items) }
{
    match &line.event {
        LogEvent::Dropped { frame, backlog } => add_frame(
            stretches,
            line.tick,
            RunKind::Dropped { backlog: *backlog },
            *frame,
        ),
        LogEvent::Refused { frame, number } => add_frame(
            stretches,
            line.tick,
            RunKind::Refused { number: *number },
            *frame,
        ),
        _ => {
            stretches.push(LogStretch::One(line))?;
            Ok(())
        }
    }
}
