//! One entry is tried: its call is made again, and the reply compared.

ghost use Rattle.std.specs.Prelude.{◌≡◌, ◌≤◌, ◌<◌, length, IfOk, OnOk, true, false};
ghost use Rattle.tas_model.specs.LegalHistory.{taken_bytes};
ghost use Rattle.flow_state.specs.Calls.{call_of, offer_of, seg_of, IsSmall};
ghost use Rattle.tas_model.specs.declared.entry.Reply.{Reply};
ghost use Rattle.tas_model.specs.declared.entry.Call.TheVariants as calls;
ghost use Rattle.flow_judge.specs.Making.{IsTried, Confirms, Denies};
ghost use Rattle.flow_judge.specs.Trials.{trial, offer, offer_by, IsWithin};
ghost use Rattle.report_lines.specs.Views.{seen_entry, seen_seg};

use crate::making::make;
use crate::replies::{decoded, is_reply, taken};
use flow_state::{Answer, CallIn, FlowRecord};
use report_lines::{CallLine, EntryLine, SegLine};
use segment_fields::{Flags, Segment};
use std::alloc::{AllocError, Global};
use tas_model::FrameId;

/// A segment with this payload. Of what comes to a flow no address or port is read.
pub fn segment_with<'a>(line: &SegLine<'_>, payload: &'a [u8]) -> Segment<'a>
    ensures { seg_of result ≡ record { head = line.now.head; bytes = payload.now } }
{
    Segment {
        src: 0,
        dst: 0,
        sport: 0,
        dport: 0,
        seq: line.head.seq,
        ack: line.head.ack,
        flags: Flags(line.head.flags),
        window: line.head.window,
        mss: line.head.mss,
        scale: line.head.scale,
        payload,
    }
}

/// Tries an entry by this call. The error is want of memory.
fn try_by(
    flow: &mut FlowRecord,
    entry: &EntryLine<'_>,
    call: &CallIn<'_>,
) -> Result<Option<Answer>, AllocError>
    requires small { IsSmall call.now }
    requires call { call_of call.now ≡ trial (seen_entry entry.now) }
    requires offer { offer_of call.now ≡ offer (seen_entry entry.now) }
    requires within { IsWithin (seen_entry entry.now).call (seen_entry entry.now).reply }
    ensures tried { IfOk result (λ r. IsTried r flow.old flow.new (seen_entry entry.now)) }
    ensures params { flow.new.params ≡ flow.old.params }
{
    let answer = make(flow, entry.caller, entry.tick, call)?;
    Ok(answer)
}

/// Tries the entry of a segment that came. The error is want of memory.
fn try_segment(
    alloc: Global,
    flow: &mut FlowRecord,
    entry: &EntryLine<'_>,
    frame: FrameId,
    seg: &SegLine<'_>,
) -> Result<Option<Answer>, AllocError>
    requires { (seen_entry entry.now).call ≡ calls.Rx frame (seen_seg seg.now) }
    ensures tried { IfOk result (λ r. IsTried r flow.old flow.new (seen_entry entry.now)) }
    ensures params { flow.new.params ≡ flow.old.params }
{
    let payload = decoded(alloc, &seg.bytes)?;
    let seg = segment_with(seg, &payload);
    try_by(flow, entry, &CallIn::Rx { frame, seg })
}

/// Whether there are more bytes than so many.
fn are_above(bytes: &Vec<u8>, most: u32) -> bool
    ensures above { result ≡ true → most < length bytes.now.items }
    ensures within { result ≡ false → length bytes.now.items ≤ most }
{
    bytes.len() > most as usize
}

/// One byte more, where more were offered. The error is want of memory.
fn offer_more(bytes: &mut Vec<u8>, offered: u32) -> Result<(), AllocError>
    requires { length bytes.old.items ≤ offered }
    ensures offer { OnOk result ((reply : Reply) → bytes.old.items ≡ taken_bytes reply
        → bytes.new.items ≡ offer_by (calls.Send offered) reply) }
    ensures within { OnOk result (length bytes.new.items ≤ offered) }
{
    if bytes.len() < offered as usize {
        bytes.push(0)?;
    }
    Ok(())
}

/// Tries the entry of a Send: it offers what was taken, and one byte more where more were offered. The error is want
/// of memory.
fn try_send(
    alloc: Global,
    flow: &mut FlowRecord,
    entry: &EntryLine<'_>,
    offered: u32,
) -> Result<Option<Answer>, AllocError>
    requires { (seen_entry entry.now).call ≡ calls.Send offered }
    ensures tried { IfOk result (λ r. IsTried r flow.old flow.new (seen_entry entry.now)) }
    ensures params { flow.new.params ≡ flow.old.params }
{
    let mut bytes = taken(alloc, &entry.reply)?;
    if are_above(&bytes, offered) {
        return Ok(None);
    }
    offer_more(&mut bytes, offered)?;
    try_by(flow, entry, &CallIn::Send { bytes: &bytes })
}

/// Tries an entry: makes its call. `None`: the endpoint does not answer so. The error is want of memory.
#[tactic(auto, unfolding(tas_model::specs::LegalHistory::step))]
pub fn try_entry(
    alloc: Global,
    flow: &mut FlowRecord,
    entry: &EntryLine<'_>,
) -> Result<Option<Answer>, AllocError>
    ensures tried { IfOk result (λ r. IsTried r flow.old flow.new (seen_entry entry.now)) }
    ensures params { flow.new.params ≡ flow.old.params }
{
    match &entry.call {
        CallLine::Connect { .. } | CallLine::Passive { .. } => Ok(None),
        CallLine::Rx { frame, seg } => try_segment(alloc, flow, entry, *frame, seg),
        CallLine::Send { offered } => try_send(alloc, flow, entry, *offered),
        CallLine::Emit => try_by(flow, entry, &CallIn::Emit),
        CallLine::Tick => try_by(flow, entry, &CallIn::Tick),
        CallLine::Control => try_by(flow, entry, &CallIn::Control),
        CallLine::Accept => try_by(flow, entry, &CallIn::Accept),
        CallLine::Ready => try_by(flow, entry, &CallIn::Ready),
        CallLine::Recv { most } => try_by(flow, entry, &CallIn::Recv { most: *most }),
        CallLine::Shut => try_by(flow, entry, &CallIn::Shut),
        CallLine::Close => try_by(flow, entry, &CallIn::Close),
        CallLine::Abort => try_by(flow, entry, &CallIn::Abort),
    }
}

/// Whether the endpoint answers an entry as it shows, which makes the record's next entry. The error is want of memory.
pub fn confirms(
    alloc: Global,
    flow: &mut FlowRecord,
    entry: &EntryLine<'_>,
) -> Result<bool, AllocError>
    ensures right { IfOk result (λ same. same ≡ true → Confirms flow.old flow.new (seen_entry entry.now)) }
    ensures wrong { IfOk result (λ same. same ≡ false → Denies flow.old (seen_entry entry.now)) }
    ensures params { flow.new.params ≡ flow.old.params }
{
    // A record's history is legal.
    let _before = flow.entries();
    let Some(answer) = try_entry(alloc, flow, entry)? else {
        return Ok(false);
    };
    let _after = flow.entries();
    Ok(is_reply(&answer, flow.last_bytes(), &entry.reply))
}
