//! Entries of a flow that are held, and the flow's ends.

ghost use Rattle.host_rounds.specs.Lists.{Each};
ghost use Rattle.flow_state.specs.Stretches.{run_entries, paced_entries, IsRun, IsPacedRun};
ghost use Rattle.flow_state.specs.Views.{seen_call, seen_reply, seen_stretch, IsFit};
ghost use Rattle.log_ranges.specs.Ranges.{CallerFits, CallFits, ReplyFits, EntryFits, EndsFit};

use crate::segments::{bytes_fit, frame_fits, seen_seg_fits, seq_fits, some_head_fits};
use flow_state::{CallView, EntryAt, PacedRun, QuietRun, ReplyView, StretchView};
use tas_model::{Caller, FlowId, FourTuple};

/// The numbers of a flow's name and of its two ends are in the ranges of their fields.
pub fn ends_fit(id: FlowId, tuple: FourTuple)
    ensures { EndsFit id tuple }
{}

/// The numbers of the entries of a stretch are in the ranges of their fields.
pub fn stretch_fits(stretch: &StretchView<'_>)
    requires { IsFit stretch.now }
    ensures { Each EntryFits (seen_stretch stretch.now) }
{
    match stretch {
        StretchView::One(entry) => entry_fits(entry),
        StretchView::Quiet(run) => run_fits(run),
        StretchView::Paced(runs) => paced_run_fits(runs),
    }
}

/// Those of one entry.
fn entry_fits(entry: &EntryAt<'_>)
    ensures { EntryFits entry.now }
{
    let _tick = entry.tick();
    let _number = entry.number();
    caller_fits(entry.caller());
    call_fits(&entry.call());
    reply_fits(&entry.reply());
}

/// That of a caller.
fn caller_fits(caller: Caller)
    ensures { CallerFits caller }
{}

/// Those of a call.
fn call_fits(call: &CallView<'_>)
    ensures { CallFits (seen_call call.now) }
{
    match call {
        CallView::Connect { iss } => seq_fits(*iss),
        CallView::Passive { frame, iss, seg } => {
            seq_fits(*iss);
            frame_fits(*frame);
            seen_seg_fits(seg);
        }
        CallView::Rx { frame, seg } => {
            frame_fits(*frame);
            seen_seg_fits(seg);
        }
        CallView::Send { offered } => {
            let _offered = *offered;
        }
        CallView::Recv { most } => {
            let _most = *most;
        }
        _ => {}
    }
}

/// Those of a reply.
fn reply_fits(reply: &ReplyView<'_>)
    ensures { ReplyFits (seen_reply reply.now) }
{
    match reply {
        ReplyView::Sent { seg } => seen_seg_fits(seg),
        ReplyView::Took { bytes } => bytes_fit(bytes),
        ReplyView::Got { bytes, update } => {
            bytes_fit(bytes);
            some_head_fits(*update);
        }
        ReplyView::Window { cwnd, ssthresh } => {
            let _cwnd = *cwnd;
            let _ssthresh = *ssthresh;
        }
        _ => {}
    }
}

/// Those of a run of quiet ticks.
fn run_fits(run: &QuietRun)
    requires { IsRun run.now }
    ensures { Each EntryFits (run_entries run.now) }
{
    caller_fits(run.caller);
}

/// Those of runs of quiet ticks with Controls between them.
fn paced_run_fits(runs: &PacedRun)
    requires { IsPacedRun runs.now }
    ensures { Each EntryFits (paced_entries runs.now) }
{
    caller_fits(runs.run.caller);
    let _cwnd = runs.cwnd;
    let _ssthresh = runs.ssthresh;
}
