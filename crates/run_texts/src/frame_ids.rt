//! The name of a frame.

ghost use Rattle.std.specs.Prelude.{◌≡◌, ℕ, ◌++◌, List, map, codes, decimal};
ghost use Rattle.tas_runs.specs.Report.{name_at, flow_text, copy_text, frame_text};
ghost use Rattle.run_texts.specs.Writes.{Writes};

use crate::texts::{PlaceText, RecordText};
use crate::writer::Writer;
use tas_model::{CAPTURE, FrameId};
use tas_num::{IoFault, Sink};

/// Writes which frame it was: a record of a capture, or one of a host by its flow and number.
#[inline(always)]
pub fn write_frame_id<K: Sink>(
    writer: &mut Writer,
    sink: &mut K,
    names: &[&[u8]],
    frame: FrameId,
) -> Result<(), IoFault>
    ensures { Writes (K.state sink.old) writer.old result (K.state sink.new) writer.new
        (frame_text (map (λ n. n.now) names.now) frame) }
{
    if frame.host == CAPTURE {
        return writer.put_text(sink, &RecordText(frame.number));
    }
    write_named(writer, sink, names, frame)
}

/// Writes which frame of a host it was.
fn write_named<K: Sink>(
    writer: &mut Writer,
    sink: &mut K,
    names: &[&[u8]],
    frame: FrameId,
) -> Result<(), IoFault>
    ensures { Writes (K.state sink.old) writer.old result (K.state sink.new) writer.new
        (name_at (map (λ n. n.now) names.now) frame.host ++ codes ":" ++ flow_text frame.flow ++ codes "."
        ++ decimal frame.number ++ copy_text frame.copy) }
{
    writer.put(sink, name(names, frame.host))?;
    writer.put_text(sink, &PlaceText(frame))
}

/// The name of a host by its number, or `-` where there is no such host.
fn name<'a>(names: &'a [&'a [u8]], host: u32) -> &'a [u8]
    ensures { result.now ≡ name_at (map (λ n. n.now) names.now) host }
{
    match names.get(host as usize) {
        Some(name) => name,
        None => b"-",
    }
}
