//! The judge of one flow's history, entry by entry.

ghost use Rattle.std.specs.Prelude.{◌≡◌, ◌++◌, ◌∷◌, [], ◌↔◌, List, length, IfOk, IfSome, IfNone, IsTrue, true, false};
ghost use Rattle.tas_model.specs.declared.entry.Entry.{Entry};
ghost use Rattle.tas_model.specs.Endpoint.{phase as model_phase};
ghost use Rattle.tas_model.specs.LegalHistory.{Legal, MayFollow, replay};
ghost use Rattle.tas_model.specs.Outputs.{bytes_read};
ghost use Rattle.tas_model.specs.Valid.{InRange};
ghost use Rattle.tas_model.specs.declared.entry.Reply.TheVariants as replies;
ghost use Rattle.report_lines.specs.Views.{seen_entry, seen_reply};
ghost use Rattle.flow_judge.specs.Judging.{HasJudged, IsOpened};

use crate::replies::{decoded, keep};
use crate::trial::{confirms, segment_with};
use flow_state::{CallerCounts, FlowRecord};
use report_lines::{CallLine, EntryLine, HexText, ReplyLine};
use std::alloc::{AllocError, Global};
use std::marker::Model;
use tas_model::{FlowId, FourTuple, HostParams, Phase, Reason};

/// Judges the history of one flow, entry by entry: it makes each call again, and compares the replies.
#[derive(Drop)]
pub struct FlowJudge {
    record: FlowRecord,
    /// The tick of the last entry.
    last: u32,
    /// How many entries each caller made.
    counts: CallerCounts,
    /// What was read.
    read: Vec<u8>,
}

impl Model for FlowJudge {
    ghost use Rattle.flow_judge.specs.Judging.{Judge};

    ghost Value = { Judge };

    ghost view = { λ j. record {
      params = j.record.params;
      kept = j.record.entries;
      last = j.last;
      counts = j.counts.counts;
      read = j.read.items;
    } };
}

/// The record of a flow that begins with this entry; `None` where no flow does. The error is want of memory.
fn opened(
    alloc: Global,
    id: FlowId,
    tuple: FourTuple,
    params: &HostParams,
    entry: &EntryLine<'_>,
) -> Result<Option<FlowRecord>, AllocError>
    requires ranges { InRange params.now }
    ensures opened { IfOk result (λ r. IsOpened r params.now (seen_entry entry.now)) }
{
    match &entry.call {
        CallLine::Connect { iss } => {
            let record = FlowRecord::connect(
                alloc,
                id,
                tuple,
                params,
                *iss,
                entry.caller,
                entry.tick,
            )?;
            Ok(Some(record))
        }
        CallLine::Passive { frame, iss, seg } => {
            let payload = decoded(alloc, &seg.bytes)?;
            let seg = segment_with(seg, &payload);
            let record = FlowRecord::passive(
                alloc, id, tuple, params, *iss, *frame, &seg, entry.tick,
            )?;
            Ok(Some(record))
        }
        CallLine::Rx { .. }
        | CallLine::Emit
        | CallLine::Tick
        | CallLine::Control
        | CallLine::Accept
        | CallLine::Ready
        | CallLine::Send { .. }
        | CallLine::Recv { .. }
        | CallLine::Shut
        | CallLine::Close
        | CallLine::Abort => Ok(None),
    }
}

/// Whether a reply is Ok, as the first entry's is.
fn is_ok(reply: &ReplyLine<'_>) -> bool
    ensures { result ≡ true ↔ seen_reply reply.now ≡ replies.Ok }
{
    matches!(reply, ReplyLine::Ok)
}

impl FlowJudge {
    /// Begins with a flow's first entry; `None` where no legal history begins so. The error is want of memory.
    pub fn open(
        alloc: Global,
        id: FlowId,
        tuple: FourTuple,
        params: &HostParams,
        entry: &EntryLine<'_>,
    ) -> Result<Option<FlowJudge>, AllocError>
        requires ranges { InRange params.now }
        ensures params { IfOk result (λ r. IfSome r (λ j. j.params ≡ params.now)) }
        ensures right { IfOk result (λ r. IfSome r (λ j. HasJudged j (seen_entry entry.now ∷ []))) }
        ensures wrong { IfOk result (λ r. IfNone r (Legal params.now (seen_entry entry.now ∷ []) → ⊥)) }
    {
        if entry.number != 0 {
            return Ok(None);
        }
        if !is_ok(&entry.reply) {
            return Ok(None);
        }
        let Some(record) = opened(alloc, id, tuple, params, entry)? else {
            return Ok(None);
        };
        let counts = CallerCounts::of_first(alloc, entry.caller)?;
        Ok(Some(FlowJudge {
            record,
            last: entry.tick,
            counts,
            read: Vec::new(alloc),
        }))
    }

    /// Whether an entry may come next. It is judged once, and nothing after one that may not. The error is want of
    /// memory.
    pub fn take(&mut self, alloc: Global, entry: &EntryLine<'_>) -> Result<bool, AllocError>
        ensures params { self.new.params ≡ self.old.params }
        ensures right { IfOk result (λ may. may ≡ true → (h : List Entry) → HasJudged self.old h
            → MayFollow self.old.params h (seen_entry entry.now)
            × HasJudged self.new (h ++ seen_entry entry.now ∷ [])) }
        ensures wrong { IfOk result (λ may. may ≡ false → (h : List Entry) → HasJudged self.old h
            → MayFollow self.old.params h (seen_entry entry.now) → ⊥) }
    {
        if entry.tick < self.last {
            return Ok(false);
        }
        if entry.number != self.counts.number_of(entry.caller) {
            return Ok(false);
        }
        if !confirms(alloc, &mut self.record, entry)? {
            return Ok(false);
        }
        // A record has room for fewer entries.
        if entry.number == u64::MAX {
            return Ok(false);
        }
        self.last = entry.tick;
        self.counts.reserve(1)?;
        self.counts.count_one(entry.caller);
        keep(&mut self.read, &entry.reply)?;
        Ok(true)
    }

    /// Whether the flow is in this state, and closed for this reason.
    pub fn is_in(&self, phase: Phase, reason: Option<Reason>) -> bool
        ensures { (h : List Entry) → HasJudged self.now h
            → (IsTrue result ↔ (phase ≡ model_phase (replay self.now.params h))
            × (reason ≡ (replay self.now.params h).reason)) }
    {
        let parts = self.record.parts();
        parts.phase == phase && parts.reason == reason
    }

    /// Whether these bytes were read, and so many.
    pub fn has_read(&self, count: u64, bytes: &HexText<'_>) -> bool
        ensures { (h : List Entry) → HasJudged self.now h
            → (IsTrue result ↔ (count ≡ length (bytes_read h)) × (bytes.now ≡ bytes_read h)) }
    {
        count == self.read.len() as u64 && bytes.is_of(&self.read)
    }
}
