//! The line of an entry.

ghost use Rattle.std.specs.Prelude.{◌≡◌, ℕ, ◌++◌, ◌∷◌, [], List, map, codes, decimal};
ghost use Rattle.tas_runs.specs.Report.{line, hex, data_text, seg_text, call_text, reply_text, entry_text, update_text};
ghost use Rattle.tas_runs.specs.Report.{frame_text};
ghost use Rattle.tas_model.specs.declared.entry.Call.TheVariants as calls;
ghost use Rattle.tas_model.specs.declared.entry.Reply.TheVariants as replies;
ghost use Rattle.flow_state.specs.Views.{seen_seg, seen_call, seen_reply};
ghost use Rattle.run_texts.specs.Writes.{Writes};

use crate::frame_ids::write_frame_id;
use crate::line_texts::{ClosedText, ConnectText, IssText, RecvText, SendText};
use crate::texts::{EntryStart, HeadText, UpdateText, WindowText};
use crate::writer::Writer;
use flow_state::{CallView, EntryAt, ReplyView, SegView};
use tas_model::{FrameId, Head};
use tas_num::{IoFault, Seq, Sink};

/// Writes the line of an entry. Each part is read just where it is written.
pub fn write_entry<K: Sink>(
    writer: &mut Writer,
    sink: &mut K,
    names: &[&[u8]],
    entry: &EntryAt<'_>,
) -> Result<(), IoFault>
    ensures { Writes (K.state sink.old) writer.old result (K.state sink.new) writer.new
        (entry_text (map (λ n. n.now) names.now) entry.now) }
{
    writer.put_text(sink, &start_of(entry))?;
    write_call(writer, sink, names, &entry.call())?;
    writer.put(sink, b" = ")?;
    write_reply(writer, sink, &entry.reply())?;
    writer.put(sink, b"\n")
}

/// What the line of an entry begins with.
#[inline(always)]
fn start_of(entry: &EntryAt<'_>) -> EntryStart
    ensures { result ≡ record { tick = entry.now.tick; caller = entry.now.caller; number = entry.now.number } }
{
    EntryStart {
        tick: entry.tick(),
        caller: entry.caller(),
        number: entry.number(),
    }
}

/// Writes what was asked.
#[inline(always)]
fn write_call<K: Sink>(
    writer: &mut Writer,
    sink: &mut K,
    names: &[&[u8]],
    call: &CallView<'_>,
) -> Result<(), IoFault>
    ensures { Writes (K.state sink.old) writer.old result (K.state sink.new) writer.new
        (call_text (map (λ n. n.now) names.now) (seen_call call.now)) }
{
    match call {
        CallView::Connect { iss } => writer.put_text(sink, &ConnectText(iss.0)),
        CallView::Passive { frame, iss, seg } => write_passive(
            writer, sink, names, *frame, *iss, seg,
        ),
        CallView::Rx { frame, seg } => write_rx(writer, sink, names, *frame, seg),
        CallView::Emit => writer.put(sink, b"emit"),
        CallView::Tick => writer.put(sink, b"tick"),
        CallView::Control => writer.put(sink, b"control"),
        CallView::Accept => writer.put(sink, b"accept"),
        CallView::Ready => writer.put(sink, b"ready"),
        CallView::Send { offered } => writer.put_text(sink, &SendText(*offered)),
        CallView::Recv { most } => writer.put_text(sink, &RecvText(*most)),
        CallView::Shut => writer.put(sink, b"shut"),
        CallView::Close => writer.put(sink, b"close"),
        CallView::Abort => writer.put(sink, b"abort"),
    }
}

/// Writes the SYN that a listener took, and the number that it answered with.
fn write_passive<K: Sink>(
    writer: &mut Writer,
    sink: &mut K,
    names: &[&[u8]],
    frame: FrameId,
    iss: Seq,
    seg: &SegView<'_>,
) -> Result<(), IoFault>
    ensures { Writes (K.state sink.old) writer.old result (K.state sink.new) writer.new
        (call_text (map (λ n. n.now) names.now) (calls.Passive frame iss (seen_seg seg.now))) }
{
    writer.put(sink, b"passive ")?;
    write_frame_id(writer, sink, names, frame)?;
    writer.put_text(sink, &IssText(iss.0))?;
    write_seg(writer, sink, seg)
}

/// Writes a received segment and which frame it came in.
fn write_rx<K: Sink>(
    writer: &mut Writer,
    sink: &mut K,
    names: &[&[u8]],
    frame: FrameId,
    seg: &SegView<'_>,
) -> Result<(), IoFault>
    ensures { Writes (K.state sink.old) writer.old result (K.state sink.new) writer.new
        (call_text (map (λ n. n.now) names.now) (calls.Rx frame (seen_seg seg.now))) }
{
    writer.put(sink, b"rx ")?;
    write_frame_id(writer, sink, names, frame)?;
    writer.put(sink, b" ")?;
    write_seg(writer, sink, seg)
}

/// Writes what was answered.
#[inline(always)]
fn write_reply<K: Sink>(
    writer: &mut Writer,
    sink: &mut K,
    reply: &ReplyView<'_>,
) -> Result<(), IoFault>
    ensures { Writes (K.state sink.old) writer.old result (K.state sink.new) writer.new
        (reply_text (seen_reply reply.now)) }
{
    match reply {
        ReplyView::Ok => writer.put(sink, b"ok"),
        ReplyView::Nothing => writer.put(sink, b"none"),
        ReplyView::Sent { seg } => write_seg(writer, sink, seg),
        ReplyView::Took { bytes } => write_took(writer, sink, bytes),
        ReplyView::Got { bytes, update } => write_got(writer, sink, bytes, *update),
        ReplyView::End => writer.put(sink, b"end"),
        ReplyView::NotYet => writer.put(sink, b"notyet"),
        ReplyView::NotOpen => writer.put(sink, b"notopen"),
        ReplyView::Shut => writer.put(sink, b"shut"),
        ReplyView::Closed { reason } => writer.put_text(sink, &ClosedText(*reason)),
        ReplyView::Quiet => writer.put(sink, b"quiet"),
        ReplyView::Resend => writer.put(sink, b"resend"),
        ReplyView::Probe => writer.put(sink, b"probe"),
        ReplyView::Expired => writer.put(sink, b"done"),
        ReplyView::TimedOut => writer.put(sink, b"timedout"),
        ReplyView::Window { cwnd, ssthresh } => writer.put_text(
            sink,
            &WindowText {
                cwnd: *cwnd,
                ssthresh: *ssthresh,
            },
        ),
    }
}

/// Writes the bytes that a Send took.
fn write_took<K: Sink>(writer: &mut Writer, sink: &mut K, bytes: &[u8]) -> Result<(), IoFault>
    ensures { Writes (K.state sink.old) writer.old result (K.state sink.new) writer.new
        (reply_text (replies.Took bytes.now)) }
{
    writer.put(sink, b"took ")?;
    write_hex(writer, sink, bytes)
}

/// Writes the bytes that a Recv gave, and the update that it sent.
fn write_got<K: Sink>(
    writer: &mut Writer,
    sink: &mut K,
    bytes: &[u8],
    update: Option<Head>,
) -> Result<(), IoFault>
    ensures { Writes (K.state sink.old) writer.old result (K.state sink.new) writer.new
        (reply_text (replies.Got bytes.now update)) }
{
    writer.put(sink, b"got ")?;
    write_hex(writer, sink, bytes)?;
    writer.put_text(sink, &UpdateText(update))
}

/// Writes a segment.
fn write_seg<K: Sink>(writer: &mut Writer, sink: &mut K, seg: &SegView<'_>) -> Result<(), IoFault>
    ensures { Writes (K.state sink.old) writer.old result (K.state sink.new) writer.new (seg_text (seen_seg seg.now)) }
{
    write_segment(writer, sink, seg.head, seg.bytes)
}

/// Writes a segment's header and its payload.
pub fn write_segment<K: Sink>(
    writer: &mut Writer,
    sink: &mut K,
    head: Head,
    bytes: &[u8],
) -> Result<(), IoFault>
    ensures { Writes (K.state sink.old) writer.old result (K.state sink.new) writer.new
        (seg_text (record { head = head; bytes = bytes.now })) }
{
    writer.put_text(sink, &HeadText(head))?;
    write_data(writer, sink, bytes)
}

/// Writes the payload of a segment, where it has one.
fn write_data<K: Sink>(writer: &mut Writer, sink: &mut K, bytes: &[u8]) -> Result<(), IoFault>
    ensures { Writes (K.state sink.old) writer.old result (K.state sink.new) writer.new (data_text bytes.now) }
{
    if bytes.is_empty() {
        return Ok(());
    }
    writer.put(sink, b" data ")?;
    writer.put_hex(sink, bytes)
}

/// Writes bytes, or `-` for none.
#[inline(always)]
fn write_hex<K: Sink>(writer: &mut Writer, sink: &mut K, bytes: &[u8]) -> Result<(), IoFault>
    ensures { Writes (K.state sink.old) writer.old result (K.state sink.new) writer.new (hex bytes.now) }
{
    if bytes.is_empty() {
        writer.put(sink, b"-")
    } else {
        writer.put_hex(sink, bytes)
    }
}
