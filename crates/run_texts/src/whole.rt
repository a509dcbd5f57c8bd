//! The first and the last lines of a report, and those of its hosts.

ghost use Rattle.std.specs.Prelude.{◌≡◌, ℕ, ◌++◌, ◌∷◌, [], List, map, codes, decimal, if◌then◌else◌};
ghost use Rattle.tas_runs.specs.Report.{line, addr_text};
ghost use Rattle.run_texts.specs.Writes.{Writes};

use crate::line_texts::{CountsLine, EndLine, HostEnd};
use crate::writer::Writer;
use tas_num::{IoFault, Sink};

/// What became of the records of a capture: how many there were, and how many of them were frames, were passed over,
/// and were refused.
#[derive(Clone, Copy, PartialEq, Eq, Debug)]
pub struct Counts {
    pub records: u64,
    pub frames: u64,
    pub passed: u64,
    pub refused: u64,
}

/// Writes the first line of a report: whether it is of a replay or of a run of scripts.
pub fn write_title<K: Sink>(writer: &mut Writer, sink: &mut K, replay: bool) -> Result<(), IoFault>
    ensures { Writes (K.state sink.old) writer.old result (K.state sink.new) writer.new
        (line (codes "tas " ++ (if replay then codes "replay" else codes "run"))) }
{
    if replay {
        writer.put(sink, b"tas replay\n")
    } else {
        writer.put(sink, b"tas run\n")
    }
}

/// Writes the first line of a host: the bytes of its name, and its address.
pub fn write_host<K: Sink>(
    writer: &mut Writer,
    sink: &mut K,
    name: &[u8],
    addr: u32,
) -> Result<(), IoFault>
    ensures { Writes (K.state sink.old) writer.old result (K.state sink.new) writer.new
        (line (codes "host " ++ name.now ++ codes " " ++ addr_text addr)) }
{
    writer.put(sink, b"host ")?;
    writer.put(sink, name)?;
    writer.put_text(sink, &HostEnd(addr))
}

/// Writes the counts of a replay.
pub fn write_counts<K: Sink>(
    writer: &mut Writer,
    sink: &mut K,
    counts: Counts,
) -> Result<(), IoFault>
    ensures { Writes (K.state sink.old) writer.old result (K.state sink.new) writer.new
        (line (codes "records " ++ decimal counts.records ++ codes " frames " ++ decimal counts.frames
        ++ codes " passed " ++ decimal counts.passed ++ codes " refused " ++ decimal counts.refused)) }
{
    writer.put_text(sink, &CountsLine(counts))
}

/// Writes the last line of a report: how many ticks there were.
pub fn write_end<K: Sink>(writer: &mut Writer, sink: &mut K, ticks: u32) -> Result<(), IoFault>
    ensures { Writes (K.state sink.old) writer.old result (K.state sink.new) writer.new
        (line (codes "end " ++ decimal ticks ++ codes " ticks")) }
{
    writer.put_text(sink, &EndLine(ticks))
}
