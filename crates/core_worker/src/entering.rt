// A segment at a flow's record that was taken for it.
ghost use Rattle.std.specs.Prelude.{◌≡◌, ℕ, IfOk, OnErr};
ghost use Rattle.tas_model.specs.LegalHistory.{replay};
ghost use Rattle.flow_lock.specs.Histories.{IsLonger};
ghost use Rattle.app_reaper.specs.OneCall.{history};
ghost use Rattle.flow_index.specs.Changes.{is_same};
ghost use Rattle.fast_rx.specs.Exceptions.{exception};
ghost use Rattle.core_worker.specs.Frames.{tuple_of as model_tuple, answer_at, history_by};
ghost use Rattle.core_worker.specs.News.{progress_of as model_progress};
ghost use Rattle.core_worker.specs.Telling.{news_in};

use crate::frames::{Handled, Passed};
use crate::news::{News, Progress};
use app_reaper::act_on;
use fast_rx::{FastRx, Why};
use flow_state::{CallIn, FlowRecord};
use segment_fields::Segment;
use std::alloc::AllocError;
use tas_model::{Caller, FourTuple, FrameId, Phase};

/// The connection's ends, as the host has them that the segment comes to.
pub fn tuple_of(seg: &Segment<'_>) -> FourTuple
    ensures { result ≡ model_tuple seg.now }
{
    FourTuple {
        laddr: seg.dst,
        lport: seg.dport,
        raddr: seg.src,
        rport: seg.sport,
    }
}

fn is_same_tuple(a: FourTuple, b: FourTuple) -> bool
    ensures { result ≡ is_same a b }
{
    a.laddr == b.laddr && a.lport == b.lport && a.raddr == b.raddr && a.rport == b.rport
}

/// Why the fast path leaves the segment to the slow path in this state, where it does.
fn why_not(phase: Phase, seg: &Segment<'_>) -> Option<Why>
    ensures { result ≡ exception phase seg.now }
{
    let flags = seg.flags;
    if flags.is_syn() || flags.is_fin() || flags.is_rst() || flags.is_urg() {
        return Some(Why::Control);
    }
    if !flags.is_ack() {
        return Some(Why::NoAck);
    }
    match phase {
        Phase::Established | Phase::FinWait1 | Phase::FinWait2 | Phase::CloseWait => None,
        _ => Some(Why::Phase),
    }
}

/// Receives the segment by the fast path, where it is of this flow and the fast path takes it, and tells what it
/// brought. The error is want of memory.
pub(crate) fn enter_for_news(
    flow: &mut FlowRecord,
    core: u32,
    tick: u32,
    frame: FrameId,
    seg: &Segment<'_>,
) -> Result<(Handled, News), AllocError>
    ensures id { flow.new.id ≡ flow.old.id }
    ensures longer { IsLonger (history flow.old) (history flow.new) }
    ensures answer { IfOk result (λ x. x.0 ≡ answer_at flow.old seg.now) }
    ensures grown { IfOk result (λ x. history flow.new ≡ history_by core tick frame seg.now flow.old x.0) }
    ensures news { IfOk result (λ x. x.1 ≡ news_in (history flow.old) (history flow.new)) }
    ensures full { OnErr result (history flow.new ≡ history flow.old) }
{
    let before = progress_of(flow);
    let handled = enter(flow, core, tick, frame, seg)?;
    Ok((handled, News::between(before, progress_of(flow))))
}

/// How far a flow is.
pub fn progress_of(flow: &FlowRecord) -> Progress
    ensures { result ≡ model_progress (replay flow.now.params flow.now.entries) }
{
    Progress::of(flow.parts())
}

/// Receives the segment by the fast path, where it is of this flow and the fast path takes it.
/// The error is want of memory.
fn enter(
    flow: &mut FlowRecord,
    core: u32,
    tick: u32,
    frame: FrameId,
    seg: &Segment<'_>,
) -> Result<Handled, AllocError>
    ensures id { flow.new.id ≡ flow.old.id }
    ensures longer { IsLonger (history flow.old) (history flow.new) }
    ensures answer { IfOk result (λ h. h ≡ answer_at flow.old seg.now) }
    ensures grown { IfOk result (λ h. history flow.new ≡ history_by core tick frame seg.now flow.old h) }
    ensures full { OnErr result (history flow.new ≡ history flow.old) }
{
    if !is_same_tuple(flow.tuple(), tuple_of(seg)) {
        return Ok(Handled::Passed(Passed::Absent));
    }
    if let Some(why) = why_not(flow.parts().phase, seg) {
        return Ok(Handled::Passed(Passed::Fast(why)));
    }
    let call = CallIn::Rx { frame, seg: *seg };
    match act_on(flow, Caller::Core(core), tick, &call, &FastRx) {
        Ok(Some(_)) => Ok(Handled::Entered(flow.id())),
        Ok(None) => unreachable!(),
        Err(_) => Err(AllocError),
    }
}
