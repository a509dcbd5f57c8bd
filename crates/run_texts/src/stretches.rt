//! The lines of a stretch of a history.

ghost use Rattle.std.specs.Prelude.{◌≡◌, ℕ, ◌+◌, List, map};
ghost use Rattle.tas_runs.specs.Report.{entries_text};
ghost use Rattle.flow_state.specs.Stretches.{paced_entries, first_paced, IsPacedRun};
ghost use Rattle.flow_state.specs.Views.{seen_stretch, IsFit};
ghost use Rattle.run_texts.specs.Writes.{Writes};

use crate::entries::write_entry;
use crate::line_texts::ControlLine;
use crate::texts::{EntryStart, WindowText};
use crate::writer::Writer;
use flow_state::{PacedRun, StretchView};
use tas_num::{IoFault, Sink};

/// Writes the lines of the entries of a stretch.
pub fn write_stretch<K: Sink>(
    writer: &mut Writer,
    sink: &mut K,
    names: &[&[u8]],
    stretch: &StretchView<'_>,
) -> Result<(), IoFault>
    requires { IsFit stretch.now }
    ensures { Writes (K.state sink.old) writer.old result (K.state sink.new) writer.new
        (entries_text (map (λ n. n.now) names.now) (seen_stretch stretch.now)) }
{
    match stretch {
        StretchView::One(entry) => write_entry(writer, sink, names, entry),
        StretchView::Quiet(run) => writer.put_lines(sink, run),
        StretchView::Paced(runs) => write_paced(writer, sink, runs),
    }
}

/// Writes the lines of runs of quiet ticks and of the Control behind each.
fn write_paced<K: Sink>(writer: &mut Writer, sink: &mut K, runs: &PacedRun) -> Result<(), IoFault>
    requires { IsPacedRun runs.now }
    ensures { (names : List (List ℕ)) → Writes (K.state sink.old) writer.old result (K.state sink.new) writer.new
        (entries_text names (paced_entries runs.now)) }
{
    let mut left = *runs;
    loop {
        write_first(writer, sink, &left)?;
        match left.rest() {
            Some(rest) => left = rest,
            None => return Ok(()),
        }
    }
}

/// Writes the lines of the first of these runs and of the Control behind it.
fn write_first<K: Sink>(writer: &mut Writer, sink: &mut K, runs: &PacedRun) -> Result<(), IoFault>
    requires { IsPacedRun runs.now }
    ensures { (names : List (List ℕ)) → Writes (K.state sink.old) writer.old result (K.state sink.new) writer.new
        (entries_text names (first_paced runs.now)) }
{
    writer.put_lines(sink, &runs.run)?;
    writer.put_text(sink, &control_line(runs))
}

/// The line of the Control behind the first of these runs.
fn control_line(runs: &PacedRun) -> ControlLine
    requires { IsPacedRun runs.now }
    ensures { result ≡ record {
      start = record {
        tick = runs.now.run.tick + runs.now.run.more;
        caller = runs.now.run.caller;
        number = runs.now.run.number + runs.now.run.more + 1;
      };
      window = record { cwnd = runs.now.cwnd; ssthresh = runs.now.ssthresh };
    } }
{
    let control = runs.control();
    ControlLine {
        start: EntryStart {
            tick: control.tick,
            caller: control.caller,
            number: control.number,
        },
        window: WindowText {
            cwnd: runs.cwnd,
            ssthresh: runs.ssthresh,
        },
    }
}
