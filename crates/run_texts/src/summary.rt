//! The summary of a run of many clients.

ghost use Rattle.tas_runs.specs.Summary.{summary_lines};
ghost use Rattle.run_texts.specs.Writes.{Writes};

use crate::buffer::Buffer;
use crate::text::{Text, add, add_number, add_wide};
use crate::writer::Writer;
use tas_num::{IoFault, Sink};

/// What the summary of a run counts.
#[derive(Clone, Copy, PartialEq, Eq, Debug)]
pub struct Summary {
    /// How many clients were asked for.
    pub clients: u32,
    /// How many bytes were read.
    pub read: u128,
    /// How many flows were closed by both of their ends.
    pub closed: u64,
}

/// The lines of a summary.
#[derive(Clone, Copy)]
pub struct SummaryLines(pub Summary);

impl Text for SummaryLines {
    ghost use Rattle.tas_runs.specs.Summary.{summary_lines};

    ghost text = { λ t. summary_lines t.0.clients t.0.read t.0.closed };

    ghost most = { 89 };

    fn add_to(&self, waiting: &mut Buffer) {
        let summary = self.0;
        add(waiting, b"bulk ");
        add_number(waiting, summary.clients);
        add(waiting, b"\nread ");
        add_wide(waiting, summary.read);
        add(waiting, b"\nclosed ");
        add_number(waiting, summary.closed);
        add(waiting, b"\n");
    }
}

/// Writes the lines of a summary.
pub fn write_summary_lines<K: Sink>(
    writer: &mut Writer,
    sink: &mut K,
    summary: Summary,
) -> Result<(), IoFault>
    ensures { Writes (K.state sink.old) writer.old result (K.state sink.new) writer.new
        (summary_lines summary.clients summary.read summary.closed) }
{
    writer.put_text(sink, &SummaryLines(summary))
}
