//! The lines of a host's log.

ghost use Rattle.std.specs.Prelude.{◌≡◌, ◌≤◌, ℕ, ◌++◌, ◌∷◌, [], List, map, flat_map, codes, decimal, OnOk};
ghost use Rattle.host_rounds.specs.declared.log.LogEvent.TheVariants as events;
ghost use Rattle.tas_runs.specs.Report.{line, event_text, log_text, frame_text, seg_text, answer_text};
ghost use Rattle.host_rounds.specs.Lists.{Each};
ghost use Rattle.log_ranges.specs.Ranges.{LineFits};
ghost use Rattle.tas_core.specs.Stretches.{lines_in, lines_of, run_lines, numbered_line};
ghost use Rattle.run_texts.specs.Writes.{Writes};

use crate::entries::write_segment;
use crate::frame_ids::write_frame_id;
use crate::line_texts::{AcceptText, ListenText, RefusedConnect, RuleText, TickText, WantText};
use crate::text::Text;
use crate::texts::{AnswerText, PortText};
use crate::writer::Writer;
use host_rounds::{LogEvent, LogLine};
use log_ranges::lines_fit;
use tas_core::{LogRun, LogStretch, RunKind};
use tas_model::{CAPTURE, FrameId, Head, Seg};
use tas_num::{IoFault, Sink};

/// Writes the lines of a host's log.
pub fn write_log<K: Sink>(
    writer: &mut Writer,
    sink: &mut K,
    names: &[&[u8]],
    log: &[LogStretch],
) -> Result<(), IoFault>
    ensures writes { Writes (K.state sink.old) writer.old result (K.state sink.new) writer.new
        (log_text (map (λ n. n.now) names.now) (lines_of log.now)) }
    // All numbers that were written are in the ranges of their fields.
    ensures fits { OnOk result (Each LineFits (lines_of log.now)) }
{
    for stretch in log {
        lines_fit(stretch);
        write_stretch(writer, sink, names, stretch)?;
    }
    Ok(())
}

/// Writes the lines of a stretch of the log.
fn write_stretch<K: Sink>(
    writer: &mut Writer,
    sink: &mut K,
    names: &[&[u8]],
    stretch: &LogStretch,
) -> Result<(), IoFault>
    ensures { Writes (K.state sink.old) writer.old result (K.state sink.new) writer.new
        (log_text (map (λ n. n.now) names.now) (lines_in stretch.now)) }
{
    match stretch {
        LogStretch::One(line) => write_line(writer, sink, names, line),
        LogStretch::Run(run) => write_run(writer, sink, names, run),
    }
}

/// Writes the lines of a run. In a replay they are of records.
fn write_run<K: Sink>(
    writer: &mut Writer,
    sink: &mut K,
    names: &[&[u8]],
    run: &LogRun,
) -> Result<(), IoFault>
    ensures { Writes (K.state sink.old) writer.old result (K.state sink.new) writer.new
        (log_text (map (λ n. n.now) names.now) (run_lines run.now)) }
{
    if run.first.host == CAPTURE {
        return writer.put_lines(sink, run);
    }
    write_host_frames(writer, sink, names, run)
}

/// Writes the lines of a run of frames of a host.
fn write_host_frames<K: Sink>(
    writer: &mut Writer,
    sink: &mut K,
    names: &[&[u8]],
    run: &LogRun,
) -> Result<(), IoFault>
    ensures { Writes (K.state sink.old) writer.old result (K.state sink.new) writer.new
        (log_text (map (λ n. n.now) names.now) (run_lines run.now)) }
{
    let first = run.first.number;
    write_line(writer, sink, names, &run_line(run, first))?;
    for j in 0..run.more() {
        write_line(writer, sink, names, &run_line(run, first + j + 1))?;
    }
    Ok(())
}

/// The line of a run whose frame has this number.
fn run_line(run: &LogRun, number: u64) -> LogLine
    ensures { result ≡ numbered_line run.now number }
{
    let frame = FrameId {
        number,
        ..run.first
    };
    let event = match run.kind {
        RunKind::Dropped { backlog } => LogEvent::Dropped { frame, backlog },
        RunKind::Refused { number } => LogEvent::Refused { frame, number },
    };
    LogLine {
        tick: run.tick,
        event,
    }
}

/// Writes a line of the log.
fn write_line<K: Sink>(
    writer: &mut Writer,
    sink: &mut K,
    names: &[&[u8]],
    entry: &LogLine,
) -> Result<(), IoFault>
    ensures { Writes (K.state sink.old) writer.old result (K.state sink.new) writer.new
        (line (decimal entry.now.tick ++ codes " " ++ event_text (map (λ n. n.now) names.now) entry.now.event)) }
{
    writer.put_text(sink, &TickText(entry.tick))?;
    write_event(writer, sink, names, &entry.event)?;
    writer.put(sink, b"\n")
}

/// Writes what happened outside of every flow.
fn write_event<K: Sink>(
    writer: &mut Writer,
    sink: &mut K,
    names: &[&[u8]],
    event: &LogEvent,
) -> Result<(), IoFault>
    ensures { Writes (K.state sink.old) writer.old result (K.state sink.new) writer.new
        (event_text (map (λ n. n.now) names.now) event.now) }
{
    match event {
        LogEvent::Listen { app, port, ok } => write_listen(writer, sink, *app, *port, *ok),
        LogEvent::AcceptNotYet { app, port } => write_accept(writer, sink, *app, *port),
        LogEvent::ConnectRefused {
            app,
            raddr,
            rport,
            no_port,
        } => { write_connect(writer, sink, *app, *raddr, *rport, *no_port) }
        LogEvent::Stray {
            frame,
            tuple: _,
            seg,
            answer,
        } => { write_stray(writer, sink, names, *frame, seg.get(), *answer) }
        LogEvent::Dropped { frame, backlog } => write_fate(
            writer,
            sink,
            names,
            b"dropped ",
            *frame,
            &WantText(*backlog),
        ),
        LogEvent::Refused { frame, number } => write_fate(
            writer,
            sink,
            names,
            b"refused ",
            *frame,
            &RuleText(*number),
        ),
    }
}

/// Writes what an application's asking to listen got.
fn write_listen<K: Sink>(
    writer: &mut Writer,
    sink: &mut K,
    app: u32,
    port: u16,
    ok: bool,
) -> Result<(), IoFault>
    ensures { Writes (K.state sink.old) writer.old result (K.state sink.new) writer.new
        (event_text [] (events.Listen app port ok)) }
{
    writer.put_text(sink, &ListenText { app, port, ok })
}

/// Writes that an application found no connection at its listener.
fn write_accept<K: Sink>(
    writer: &mut Writer,
    sink: &mut K,
    app: u32,
    port: u16,
) -> Result<(), IoFault>
    ensures { Writes (K.state sink.old) writer.old result (K.state sink.new) writer.new
        (event_text [] (events.AcceptNotYet app port)) }
{
    writer.put_text(sink, &AcceptText { app, port })
}

/// Writes why an application's connect was refused.
fn write_connect<K: Sink>(
    writer: &mut Writer,
    sink: &mut K,
    app: u32,
    raddr: u32,
    rport: u16,
    no_port: bool,
) -> Result<(), IoFault>
    ensures { Writes (K.state sink.old) writer.old result (K.state sink.new) writer.new
        (event_text [] (events.ConnectRefused app raddr rport no_port)) }
{
    let remote = PortText {
        addr: raddr,
        port: rport,
    };
    writer.put_text(
        sink,
        &RefusedConnect {
            app,
            remote,
            no_port,
        },
    )
}

/// Writes a segment of no flow, and what it was answered.
fn write_stray<K: Sink>(
    writer: &mut Writer,
    sink: &mut K,
    names: &[&[u8]],
    frame: FrameId,
    seg: &Seg,
    answer: Option<Head>,
) -> Result<(), IoFault>
    ensures { Writes (K.state sink.old) writer.old result (K.state sink.new) writer.new
        (codes "stray " ++ frame_text (map (λ n. n.now) names.now) frame ++ codes " " ++ seg_text seg.now ++ codes " = "
        ++ answer_text answer) }
{
    writer.put(sink, b"stray ")?;
    write_frame_id(writer, sink, names, frame)?;
    writer.put(sink, b" ")?;
    write_seg(writer, sink, seg)?;
    writer.put(sink, b" = ")?;
    writer.put_text(sink, &AnswerText(answer))
}

/// Writes a segment.
fn write_seg<K: Sink>(writer: &mut Writer, sink: &mut K, seg: &Seg) -> Result<(), IoFault>
    ensures { Writes (K.state sink.old) writer.old result (K.state sink.new) writer.new (seg_text seg.now) }
{
    write_segment(writer, sink, seg.head, seg.bytes.as_slice())
}

/// Writes what became of a frame, and why.
fn write_fate<K: Sink, T: Text>(
    writer: &mut Writer,
    sink: &mut K,
    names: &[&[u8]],
    fate: &[u8],
    frame: FrameId,
    why: &T,
) -> Result<(), IoFault>
    requires { T.most ≤ 570 }
    ensures { Writes (K.state sink.old) writer.old result (K.state sink.new) writer.new
        (fate.now ++ frame_text (map (λ n. n.now) names.now) frame ++ T.text why.now) }
{
    writer.put(sink, fate)?;
    write_frame_id(writer, sink, names, frame)?;
    writer.put_text(sink, why)
}
