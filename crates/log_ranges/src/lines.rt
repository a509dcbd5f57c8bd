//! Lines of a host's log that are held.

ghost use Rattle.host_rounds.specs.Lists.{Each};
ghost use Rattle.tas_core.specs.Stretches.{lines_in, run_lines};
ghost use Rattle.log_ranges.specs.Ranges.{EventFits, LineFits};

use crate::segments::{frame_fits, seg_fits, some_head_fits};
use tas_core::{LogEvent, LogLine, LogRun, LogStretch, RunKind};

/// The numbers of the lines of a stretch are in the ranges of their fields.
pub fn lines_fit(stretch: &LogStretch)
    ensures { Each LineFits (lines_in stretch.now) }
{
    match stretch {
        LogStretch::One(line) => line_fits(line),
        LogStretch::Run(run) => log_run_fits(run),
    }
}

/// Those of one line.
fn line_fits(line: &LogLine)
    ensures { LineFits line.now }
{
    let _tick = line.tick;
    event_fits(&line.event);
}

/// Those of what happened.
fn event_fits(event: &LogEvent)
    ensures { EventFits event.now }
{
    match event {
        LogEvent::Listen { app, port, ok: _ } | LogEvent::AcceptNotYet { app, port } => {
            let _app = *app;
            let _port = *port;
        }
        LogEvent::ConnectRefused {
            app,
            raddr,
            rport,
            no_port: _,
        } => {
            let _app = *app;
            let _raddr = *raddr;
            let _rport = *rport;
        }
        LogEvent::Stray {
            frame,
            tuple: _,
            seg,
            answer,
        } => {
            frame_fits(*frame);
            seg_fits(seg.get());
            some_head_fits(*answer);
        }
        LogEvent::Dropped { frame, backlog: _ } => frame_fits(*frame),
        LogEvent::Refused { frame, number } => {
            frame_fits(*frame);
            let _number = *number;
        }
    }
}

/// Those of the lines of a run.
fn log_run_fits(run: &LogRun)
    ensures { Each LineFits (run_lines run.now) }
{
    let _tick = run.tick;
    let _last = run.last;
    frame_fits(run.first);
    if let RunKind::Refused { number } = run.kind {
        let _number = number;
    }
}
