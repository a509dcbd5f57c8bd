//! The capture of all frames that were sent.

ghost use Rattle.std.specs.Prelude.{◌≡◌, ℕ, ◌≤◌, ◌++◌, ◌∷◌, [], List, length, map, flat_map, option_to_list, IfOk};
ghost use Rattle.std.specs.Prelude.{OnOk};
ghost use Rattle.tas_num.specs.Captures.{file_header, record_head, record_bytes};
ghost use Rattle.tas_runs.specs.SentFrames.{ticks_from};
ghost use Rattle.host_rounds.specs.Logs.{HostRun};
ghost use Rattle.tas_model.specs.Segments.{bare as bare_of};
ghost use Rattle.tas_model.specs.Outputs.{segments_in};
ghost use Rattle.flow_state.specs.Views.{seen_seg, seen_reply, seen_stretch};
ghost use Rattle.tas_core.specs.Stretches.{lines_in, lines_of};
ghost use Rattle.run_texts.specs.Frames.{frame_before, Adds, seen_frame, segments_of, frames_in, entry_frames};
ghost use Rattle.run_texts.specs.Frames.{flow_frames, answer_frames, host_frames, all_frames, history_of, seen_host};
ghost use Rattle.run_texts.specs.Frames.{AreShort, IsInOrder};
ghost use Rattle.run_texts.specs.Writes.{Writes};

use crate::writer::Writer;
use flow_state::{EntryAt, FlowHistory, ReplyView, SegView, StretchView};
use host_rounds::{LogEvent, LogLine};
use pcap_frames::{write_header, write_record_head};
use segment_fields::{Flags, Segment, write};
use std::alloc::{AllocError, Global};
use std::marker::Model;
use tas_core::LogStretch;
use tas_model::{FourTuple, Head};
use tas_num::{IoFault, Sink};

/// How many bytes of payload a packet has room for: 65,535 less its headers with both options.
const MOST_PAYLOAD: usize = 65487;

/// A segment that was sent: in which tick, and between which ends.
#[derive(Clone, Copy, Debug)]
pub struct Frame<'a> {
    pub tick: u32,
    pub tuple: FourTuple,
    pub seg: SegView<'a>,
}

/// What a host sent: by its flows, in the order of their opening, and by its answers to segments of no flow.
#[derive(Clone, Copy)]
pub struct HostFrames<'a> {
    pub flows: &'a [FlowHistory],
    pub log: &'a [LogStretch],
}

/// Writes the header of a capture.
pub fn write_capture_header<K: Sink>(writer: &mut Writer, sink: &mut K) -> Result<(), IoFault>
    ensures { Writes (K.state sink.old) writer.old result (K.state sink.new) writer.new file_header }
{
    let mut header = [0; 24];
    write_header(&mut header);
    writer.put(sink, &header)
}

/// The frames that were sent by their tick, and room for a packet: all the memory that it takes to write them.
#[derive(Drop)]
pub struct SentFrames<'a> {
    frames: Vec<Frame<'a>>,
    packet: Vec<u8>,
}

impl<'a> Model for SentFrames<'a> {
    ghost use Rattle.std.specs.Prelude.{◌≡◌, List, vec_len};
    ghost use Rattle.run_texts.specs.declared.frames.Frame.{Frame};

    ghost Value = { List Frame };

    ghost view = { λ s. s.frames.items };

    ghost invariant = { λ s. vec_len s.packet ≡ 65535 };
}

impl<'a> SentFrames<'a> {
    /// What the hosts sent: tick by tick and host by host, of each host the frames of the flows in their order, then
    /// the answers to segments of no flow. The error is want of memory.
    pub fn of_hosts(alloc: Global, hosts: &[HostFrames<'a>]) -> Result<SentFrames<'a>, AllocError>
        ensures { IfOk result (λ frames. IsInOrder (all_frames (map seen_host hosts.now)) frames) }
    {
        Ok(SentFrames {
            frames: sent_frames(alloc, hosts)?,
            packet: Vec::from_elem(alloc, 0, 65535)?,
        })
    }
}

/// Writes the frames that were sent in the first `ticks` ticks, as records of a capture.
pub fn write_frames<K: Sink>(
    writer: &mut Writer,
    sink: &mut K,
    ticks: u32,
    sent: &mut SentFrames<'_>,
) -> Result<(), IoFault>
    ensures exact { (hosts : List HostRun) → IsInOrder (all_frames hosts) sent.old → AreShort hosts
        → Writes (K.state sink.old) writer.old result (K.state sink.new) writer.new
        (ticks_from ticks 0 hosts) }
    // Whatever was sent, only records of frames are written.
    ensures records { Writes (K.state sink.old) writer.old result (K.state sink.new) writer.new
        (flat_map (frame_before ticks) sent.old) }
{
    write_records(writer, sink, &mut sent.packet, ticks, &sent.frames)
}

/// The frames that were sent, by their tick.
fn sent_frames<'a>(alloc: Global, hosts: &[HostFrames<'a>]) -> Result<Vec<Frame<'a>>, AllocError>
    ensures { IfOk result (λ frames. IsInOrder (all_frames (map seen_host hosts.now)) frames.items) }
{
    let mut frames = Vec::new(alloc);
    add_hosts(&mut frames, hosts)?;
    frames.sort_by_key(|frame| frame.tick)?;
    Ok(frames)
}

/// Adds the segments that the hosts sent.
fn add_hosts<'a>(frames: &mut Vec<Frame<'a>>, hosts: &[HostFrames<'a>]) -> Result<(), AllocError>
    ensures { OnOk result (Adds frames.old.items frames.new.items (all_frames (map seen_host hosts.now))) }
{
    for host in hosts {
        add_host(frames, host)?;
    }
    Ok(())
}

/// Adds the segments that a host sent.
fn add_host<'a>(frames: &mut Vec<Frame<'a>>, host: &HostFrames<'a>) -> Result<(), AllocError>
    ensures { OnOk result (Adds frames.old.items frames.new.items (host_frames (seen_host host.now))) }
{
    add_flows(frames, host.flows)?;
    add_answers(frames, host.log)
}

/// Adds the segments that the flows sent.
fn add_flows<'a>(frames: &mut Vec<Frame<'a>>, flows: &'a [FlowHistory]) -> Result<(), AllocError>
    ensures { OnOk result (Adds frames.old.items frames.new.items (flat_map flow_frames (map history_of flows.now))) }
{
    for flow in flows {
        add_flow(frames, flow)?;
    }
    Ok(())
}

/// Adds the segments that a flow sent.
fn add_flow<'a>(frames: &mut Vec<Frame<'a>>, flow: &'a FlowHistory) -> Result<(), AllocError>
    ensures { OnOk result (Adds frames.old.items frames.new.items (flow_frames (history_of flow.now))) }
{
    let stretches = flow.stretches();
    for i in 0..stretches.len() {
        add_stretch(frames, flow.tuple(), stretches.get(i))?;
    }
    Ok(())
}

/// Adds the segments of the entries of a stretch. Quiet ticks and Controls have none.
fn add_stretch<'a>(
    frames: &mut Vec<Frame<'a>>,
    tuple: FourTuple,
    stretch: StretchView<'a>,
) -> Result<(), AllocError>
    ensures { OnOk result (map seen_frame frames.new.items ≡ map seen_frame frames.old.items
        ++ flat_map (entry_frames tuple) (seen_stretch stretch.entry)) }
{
    match stretch {
        StretchView::One(entry) => add_entry(frames, tuple, entry),
        StretchView::Quiet(_) => Ok(()),
        StretchView::Paced(_) => Ok(()),
    }
}

/// Adds the segment of an entry, where it has one.
fn add_entry<'a>(
    frames: &mut Vec<Frame<'a>>,
    tuple: FourTuple,
    entry: EntryAt<'a>,
) -> Result<(), AllocError>
    ensures { OnOk result (Adds frames.old.items frames.new.items (entry_frames tuple entry.entry)) }
{
    add_segment(frames, entry.tick(), tuple, segment_in(entry.reply()))
}

/// Adds the answers that segments of no flow got.
fn add_answers<'a>(frames: &mut Vec<Frame<'a>>, log: &'a [LogStretch]) -> Result<(), AllocError>
    ensures { OnOk result (Adds frames.old.items frames.new.items (flat_map answer_frames (lines_of log.now))) }
{
    for stretch in log {
        add_answers_in(frames, stretch)?;
    }
    Ok(())
}

/// Adds the answers that the lines of a stretch show. A run shows none.
fn add_answers_in<'a>(frames: &mut Vec<Frame<'a>>, stretch: &LogStretch) -> Result<(), AllocError>
    ensures { OnOk result (Adds frames.old.items frames.new.items (flat_map answer_frames (lines_in stretch.now))) }
{
    match stretch {
        LogStretch::One(line) => add_answer(frames, line),
        LogStretch::Run(_) => Ok(()),
    }
}

/// Adds the answer that a segment of no flow got, where the line is of one.
fn add_answer<'a>(frames: &mut Vec<Frame<'a>>, entry: &LogLine) -> Result<(), AllocError>
    ensures { OnOk result (Adds frames.old.items frames.new.items (answer_frames entry.now)) }
{
    match &entry.event {
        LogEvent::Stray { tuple, answer, .. } => add_segment(
            frames,
            entry.tick,
            *tuple,
            answer_in(*answer),
        ),
        _ => Ok(()),
    }
}

/// Adds a segment, where there is one.
fn add_segment<'a>(
    frames: &mut Vec<Frame<'a>>,
    tick: u32,
    tuple: FourTuple,
    seg: Option<SegView<'a>>,
) -> Result<(), AllocError>
    ensures { OnOk result (Adds frames.old.items frames.new.items (frames_in tick tuple (segments_of seg.entry))) }
{
    match seg {
        Some(seg) => match frames.push(Frame { tick, tuple, seg }) {
            Ok(()) => Ok(()),
            Err(_) => Err(AllocError),
        },
        None => Ok(()),
    }
}

/// The segment of a reply: the one that is sent, or the update of a Recv.
pub fn segment_in<'a>(reply: ReplyView<'a>) -> Option<SegView<'a>>
    ensures { segments_of result ≡ segments_in (seen_reply reply.entry) }
{
    match reply {
        ReplyView::Sent { seg } => Some(seg),
        ReplyView::Got {
            update: Some(head),
            ..
        } => Some(bare(head)),
        _ => None,
    }
}

/// An answer as a segment.
pub fn answer_in(answer: Option<Head>) -> Option<SegView<'static>>
    ensures { segments_of result ≡ map bare_of (option_to_list answer) }
{
    match answer {
        Some(head) => Some(bare(head)),
        None => None,
    }
}

/// A segment with no payload.
fn bare(head: Head) -> SegView<'static>
    ensures { seen_seg result ≡ bare_of head }
{
    SegView { head, bytes: &[] }
}

/// Writes a record for each frame.
fn write_records<K: Sink>(
    writer: &mut Writer,
    sink: &mut K,
    packet: &mut [u8],
    ticks: u32,
    frames: &[Frame<'_>],
) -> Result<(), IoFault>
    requires { length packet.old ≡ 65535 }
    ensures { Writes (K.state sink.old) writer.old result (K.state sink.new) writer.new
        (flat_map (frame_before ticks) frames.now) }
{
    for frame in frames {
        write_record(writer, sink, packet, ticks, frame)?;
    }
    Ok(())
}

/// Writes a frame as a record.
fn write_record<K: Sink>(
    writer: &mut Writer,
    sink: &mut K,
    packet: &mut [u8],
    ticks: u32,
    frame: &Frame<'_>,
) -> Result<(), IoFault>
    requires { length packet.old ≡ 65535 }
    ensures { Writes (K.state sink.old) writer.old result (K.state sink.new) writer.new (frame_before ticks frame.now) }
{
    let seg = Segment {
        src: frame.tuple.laddr,
        dst: frame.tuple.raddr,
        sport: frame.tuple.lport,
        dport: frame.tuple.rport,
        seq: frame.seg.head.seq,
        ack: frame.seg.head.ack,
        flags: Flags(frame.seg.head.flags),
        window: frame.seg.head.window,
        mss: frame.seg.head.mss,
        scale: frame.seg.head.scale,
        payload: frame.seg.bytes,
    };
    if frame.tick >= ticks || seg.payload.len() > MOST_PAYLOAD {
        return Ok(());
    }
    match write(&seg, packet) {
        Ok(len) => write_packet(writer, sink, frame.tick, &packet[..len]),
        Err(_) => unreachable!(),
    }
}

/// Writes a packet as a record.
fn write_packet<K: Sink>(
    writer: &mut Writer,
    sink: &mut K,
    tick: u32,
    packet: &[u8],
) -> Result<(), IoFault>
    requires { length packet.now ≤ 65535 }
    ensures { Writes (K.state sink.old) writer.old result (K.state sink.new) writer.new (record_bytes tick packet.now) }
{
    write_head(writer, sink, tick, packet.len() as u32)?;
    writer.put(sink, packet)
}

/// Writes what stands before a packet of so many bytes.
fn write_head<K: Sink>(
    writer: &mut Writer,
    sink: &mut K,
    tick: u32,
    len: u32,
) -> Result<(), IoFault>
    ensures { Writes (K.state sink.old) writer.old result (K.state sink.new) writer.new (record_head tick len) }
{
    let mut head = [0; 16];
    write_record_head(tick, len, &mut head);
    writer.put(sink, &head)
}
