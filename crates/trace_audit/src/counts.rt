//! How many lines, flows and entries were read.

ghost use Rattle.std.specs.Prelude.{◌≡◌, ◌<◌, ◌≤◌, ◌+◌, ◌^◌, ◌-◌, ◌++◌, ◌∷◌, [], List, if◌then◌else◌};
ghost use Rattle.report_lines.specs.Lines.{Line};
ghost use Rattle.report_lines.specs.Views.{seen_line};
ghost use Rattle.trace_audit.specs.Verdicts.{begins_flow as model_begins_flow, is_entry as model_is_entry};
ghost use Rattle.trace_audit.specs.Watching.{AreCounted};

use report_lines::ReportLine;

/// How many lines there are, how many of them begin a flow, and how many are entries.
#[derive(Clone, Copy)]
pub struct Counts {
    pub lines: usize,
    pub flows: usize,
    pub entries: usize,
}

/// Whether a flow begins with a line.
fn begins_flow(line: &ReportLine<'_>) -> bool
    ensures { result ≡ model_begins_flow (seen_line line.now) }
{
    matches!(line, ReportLine::Begins { .. })
}

/// Whether a line is an entry's.
fn is_entry(line: &ReportLine<'_>) -> bool
    ensures { result ≡ model_is_entry (seen_line line.now) }
{
    matches!(line, ReportLine::Made(_))
}

/// A number, and one more where this is so.
fn counted(number: usize, more: bool) -> usize
    requires { number < 2 ^ 64 - 1 }
    ensures { result ≡ number + (if more then 1 else 0) }
{
    if more { number + 1 } else { number }
}

/// The counts of no lines.
pub fn no_counts() -> Counts
    ensures counted { AreCounted result [] }
    ensures lines { result.lines ≡ 0 }
    ensures flows { result.flows ≡ 0 }
    ensures entries { result.entries ≡ 0 }
{
    Counts {
        lines: 0,
        flows: 0,
        entries: 0,
    }
}

/// The counts with one line more.
pub fn with_line(counts: &Counts, line: &ReportLine<'_>) -> Counts
    requires few { counts.now.lines < 2 ^ 64 - 1 }
    requires flows { counts.now.flows ≤ counts.now.lines }
    requires entries { counts.now.entries ≤ counts.now.lines }
    ensures counted { (earlier : List Line) → AreCounted counts.now earlier
        → AreCounted result (earlier ++ seen_line line.now ∷ []) }
    ensures lines { result.lines ≡ counts.now.lines + 1 }
    ensures flows { result.flows ≤ result.lines }
    ensures entries { result.entries ≤ result.lines }
{
    Counts {
        lines: counts.lines + 1,
        flows: counted(counts.flows, begins_flow(line)),
        entries: counted(counts.entries, is_entry(line)),
    }
}
