//! The lines of a flow.

ghost use Rattle.std.specs.Prelude.{◌≡◌, ℕ, ◌+◌, ◌*◌, ◌^◌, ◌<◌, ◌≤◌, ◌++◌, ◌∷◌, [], List, length, map, take, flat_map};
ghost use Rattle.std.specs.Prelude.{codes, decimal, OnOk};
ghost use Rattle.tas_model.specs.Endpoint.{Endpoint, phase as phase_of};
ghost use Rattle.tas_model.specs.LegalHistory.{replay};
ghost use Rattle.tas_model.specs.Outputs.{bytes_read};
ghost use Rattle.host_rounds.specs.Lists.{Each};
ghost use Rattle.host_rounds.specs.Logs.{Flow};
ghost use Rattle.tas_runs.specs.Report.{line, hex, hex_bytes, read_text, state_text, tuple_text, entries_text};
ghost use Rattle.tas_runs.specs.Report.{flow_lines};
ghost use Rattle.flow_state.specs.Views.{seen_stretch};
ghost use Rattle.log_ranges.specs.Ranges.{EntryFits, FlowFits};
ghost use Rattle.run_texts.specs.Frames.{history_of};
ghost use Rattle.run_texts.specs.Writes.{Writes};

use crate::line_texts::{ClosedLine, FlowLine, ReadText, StateLine};
use crate::stretches::write_stretch;
use crate::texts::FlowName;
use crate::writer::Writer;
use flow_state::{FlowHistory, StretchView};
use log_ranges::{ends_fit, stretch_fits};
use tas_num::{IoFault, Sink};

/// Writes the lines of a flow: its ends, its entries, its state and the bytes that were read. `number` is its opening
/// number, from 0 on.
pub fn write_flow<K: Sink>(
    writer: &mut Writer,
    sink: &mut K,
    names: &[&[u8]],
    number: u64,
    flow: &FlowHistory,
) -> Result<(), IoFault>
    ensures writes { Writes (K.state sink.old) writer.old result (K.state sink.new) writer.new
        (flow_lines (map (λ n. n.now) names.now) number (history_of flow.now)) }
    // All numbers that were written are in the ranges of their fields.
    ensures fits { OnOk result (FlowFits (history_of flow.now)) }
{
    ends_fit(flow.id(), flow.tuple());
    write_ends(writer, sink, number, flow)?;
    write_entries(writer, sink, names, flow)?;
    write_state(writer, sink, flow)?;
    write_read(writer, sink, flow)
}

/// Writes which flow it is, and its ends.
fn write_ends<K: Sink>(
    writer: &mut Writer,
    sink: &mut K,
    number: u64,
    flow: &FlowHistory,
) -> Result<(), IoFault>
    ensures { Writes (K.state sink.old) writer.old result (K.state sink.new) writer.new
        (line (codes "flow " ++ decimal number ++ codes " slot " ++ decimal flow.now.id.slot ++ codes "."
        ++ decimal flow.now.id.generation ++ codes " " ++ tuple_text flow.now.tuple)) }
{
    let id = flow.id();
    writer.put_text(
        sink,
        &FlowLine {
            name: FlowName { number, id },
            tuple: flow.tuple(),
        },
    )
}

/// Writes the lines of all entries.
fn write_entries<K: Sink>(
    writer: &mut Writer,
    sink: &mut K,
    names: &[&[u8]],
    flow: &FlowHistory,
) -> Result<(), IoFault>
    ensures writes { Writes (K.state sink.old) writer.old result (K.state sink.new) writer.new
        (entries_text (map (λ n. n.now) names.now) flow.now.entries) }
    ensures fits { OnOk result (Each EntryFits flow.now.entries) }
{
    let stretches = flow.stretches();
    for i in 0..stretches.len() {
        let stretch = stretches.get(i);
        stretch_fits(&stretch);
        write_stretch(writer, sink, names, &stretch)?;
    }
    Ok(())
}

/// Writes the state that the entries lead to, and after CLOSED the reason.
fn write_state<K: Sink>(
    writer: &mut Writer,
    sink: &mut K,
    flow: &FlowHistory,
) -> Result<(), IoFault>
    ensures { Writes (K.state sink.old) writer.old result (K.state sink.new) writer.new
        (line (codes "state " ++ state_text (replay flow.now.params flow.now.entries))) }
{
    let phase = flow.phase();
    match flow.reason() {
        Some(reason) => writer.put_text(sink, &ClosedLine { phase, reason }),
        None => writer.put_text(sink, &StateLine(phase)),
    }
}

/// Writes how many bytes were read, and which.
fn write_read<K: Sink>(writer: &mut Writer, sink: &mut K, flow: &FlowHistory) -> Result<(), IoFault>
    ensures { Writes (K.state sink.old) writer.old result (K.state sink.new) writer.new
        (line (read_text (bytes_read flow.now.entries))) }
{
    write_counted(writer, sink, flow, flow.read_count())
}

/// Writes the bytes that were read, of which there are so many, behind their count.
fn write_counted<K: Sink>(
    writer: &mut Writer,
    sink: &mut K,
    flow: &FlowHistory,
    count: u128,
) -> Result<(), IoFault>
    requires { count ≡ length (bytes_read flow.now.entries) }
    ensures { Writes (K.state sink.old) writer.old result (K.state sink.new) writer.new
        (line (codes "read " ++ decimal count ++ codes " " ++ hex (bytes_read flow.now.entries))) }
{
    writer.put_text(sink, &ReadText(count))?;
    write_bytes_read(writer, sink, flow, count)?;
    writer.put(sink, b"\n")
}

/// Writes the bytes that were read, of which there are so many.
fn write_bytes_read<K: Sink>(
    writer: &mut Writer,
    sink: &mut K,
    flow: &FlowHistory,
    count: u128,
) -> Result<(), IoFault>
    requires { count ≡ length (bytes_read flow.now.entries) }
    ensures { Writes (K.state sink.old) writer.old result (K.state sink.new) writer.new
        (hex (bytes_read flow.now.entries)) }
{
    if count == 0 {
        writer.put(sink, b"-")
    } else {
        write_digits_read(writer, sink, flow)
    }
}

/// Writes the digits of the bytes that were read.
fn write_digits_read<K: Sink>(
    writer: &mut Writer,
    sink: &mut K,
    flow: &FlowHistory,
) -> Result<(), IoFault>
    ensures { Writes (K.state sink.old) writer.old result (K.state sink.new) writer.new
        (hex_bytes (bytes_read flow.now.entries)) }
{
    let stretches = flow.stretches();
    for i in 0..stretches.len() {
        writer.put_hex(sink, given_in(stretches.get(i)))?;
    }
    Ok(())
}

/// The bytes that the replies of a stretch gave to the application.
fn given_in<'a>(stretch: StretchView<'a>) -> &'a [u8]
    ensures { result.now ≡ bytes_read (seen_stretch stretch.entry) }
{
    match stretch {
        StretchView::One(entry) => entry.given(),
        StretchView::Quiet(_) => &[],
        StretchView::Paced(_) => &[],
    }
}
