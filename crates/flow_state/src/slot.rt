//! An entry as it is kept, without its bytes.

ghost use Rattle.std.specs.Prelude.{◌≡◌, ℕ, ◌+◌, ◌≤◌, List, take, drop, length, ◌<◌, ◌^◌, ◌∷◌, []};
ghost use Rattle.tas_num.specs.declared.seq.Seq.{Seq};
ghost use Rattle.tas_model.specs.declared.entry.FrameId.{FrameId};
ghost use Rattle.flow_state.specs.declared.slot.CameSlot.{CameSlot};
ghost use Rattle.flow_state.specs.Arena.{Memory, memory_of};
ghost use Rattle.flow_state.specs.Calls.{call_of, seg_of, reply_of, payload_of, answer_len};
ghost use Rattle.flow_state.specs.Calls.{IsSmall};
ghost use Rattle.flow_state.specs.Flow.{first_passive, first_connect};
ghost use Rattle.flow_state.specs.Slots.{Holds, call_in, reply_part, reply_in, bytes_at, SpanWithin, IsWithin, IsBare};
ghost use Rattle.flow_state.specs.Slots.{entry_of, head_in, frame_in, came_of, HasCame, CameWithin};
ghost use Rattle.flow_state.specs.Stretches.{IsTickSlot};

use crate::call::{Answer, CallIn};
use segment_fields::Segment;
use tas_model::{Caller, FrameId, Head, Reason};
use tas_num::Seq;

/// Where bytes stand in the record's memory.
#[derive(Clone, Copy)]
pub struct Span {
    pub from: usize,
    pub len: usize,
}

/// The header of a segment, its fields in the order that leaves little room between them.
#[derive(Clone, Copy)]
pub struct HeadSlot {
    pub seq: Seq,
    pub ack: Seq,
    pub window: u16,
    pub mss: Option<u16>,
    pub flags: u8,
    pub scale: Option<u8>,
}

/// A segment that came, but for its payload. Few entries have one, so that it stands in a list of its own.
///
/// The fields of its frame stand in it one by one, so that there is no room between them.
#[derive(Clone, Copy)]
pub struct CameSlot {
    pub number: u64,
    pub host: u32,
    pub flow: u32,
    pub copy: u32,
    /// The own first number of the flow that it opens; 0 where it opens none.
    pub iss: Seq,
    pub head: HeadSlot,
}

/// A call of an entry. `at` is the place of its segment in the record's list of those that came.
#[derive(Clone, Copy)]
pub enum CallSlot {
    Connect { iss: Seq },
    Passive { at: u32 },
    Rx { at: u32 },
    Emit,
    Tick,
    Control,
    Accept,
    Ready,
    Send { offered: u32 },
    Recv { most: u32 },
    Shut,
    Close,
    Abort,
}

/// A reply of an entry. The fields of a header stand in it one by one: so the first of them need no room beside the
/// reply's kind.
#[derive(Clone, Copy)]
pub enum ReplySlot {
    Ok,
    Nothing,
    Sent {
        flags: u8,
        window: u16,
        seq: Seq,
        ack: Seq,
        mss: Option<u16>,
        scale: Option<u8>,
    },
    Took,
    Got,
    /// Bytes are got, and the window is told anew.
    Update {
        flags: u8,
        window: u16,
        seq: Seq,
        ack: Seq,
        mss: Option<u16>,
        scale: Option<u8>,
    },
    End,
    NotYet,
    NotOpen,
    Shut,
    Closed {
        reason: Reason,
    },
    Quiet,
    Resend,
    Probe,
    Expired,
    TimedOut,
    Window {
        cwnd: u32,
        ssthresh: u32,
    },
}

/// An entry but for its tick. Its bytes stand in the record's memory: those of a segment that its call brings, else of
/// its reply.
///
/// The fields stand in this order so that there is little room between them.
#[derive(Clone, Copy)]
pub struct Slot {
    pub caller: Caller,
    pub number: u64,
    pub bytes: Span,
    pub reply: ReplySlot,
    pub call: CallSlot,
}

impl CameSlot {
    /// The frame that it came in.
    #[inline(always)]
    pub fn frame(&self) -> FrameId
        ensures { result ≡ frame_in self.now }
    {
        FrameId {
            host: self.host,
            flow: self.flow,
            number: self.number,
            copy: self.copy,
        }
    }
}

impl HeadSlot {
    /// The header as it is seen.
    pub fn head(&self) -> Head
        ensures { result ≡ head_in self.now }
    {
        Head {
            flags: self.flags,
            seq: self.seq,
            ack: self.ack,
            window: self.window,
            mss: self.mss,
            scale: self.scale,
        }
    }
}

/// A segment that came in this frame, with the own first number of the flow that it opens.
pub fn came_slot(frame: FrameId, iss: Seq, seg: &Segment<'_>) -> CameSlot
    ensures { result ≡ came_of frame iss seg.now }
{
    CameSlot {
        number: frame.number,
        host: frame.host,
        flow: frame.flow,
        copy: frame.copy,
        iss,
        head: HeadSlot {
            seq: seg.seq,
            ack: seg.ack,
            window: seg.window,
            mss: seg.mss,
            flags: seg.flags.0,
            scale: seg.scale,
        },
    }
}

/// The call, and where the bytes of its entry stand: the payload that it brings at `end`, or the `n` bytes of its reply
/// at `start`. The segment that it brings is the one at `at` of those that came.
pub fn call_slot(call: &CallIn<'_>, at: u32, start: usize, n: usize, end: usize) -> (CallSlot, Span)
    requires small { IsSmall call.now }
    requires bare { IsBare call.now n }
    ensures means { (memory : Memory) → Holds memory.bytes end (payload_of call.now) → HasCame memory.came at call.now
        → call_in memory.came (bytes_at memory.bytes result.1) result.0 ≡ call_of call.now }
    ensures came { (came : List CameSlot) → HasCame came at call.now → CameWithin (length came) result.0 }
    ensures reply { (arena : List ℕ) → reply_part result.0 (bytes_at arena result.1) ≡ take n (drop start arena) }
    ensures within { (m : ℕ) → start + n ≤ m → end + length (payload_of call.now) ≤ m → SpanWithin m result.1 }
{
    let reply = Span {
        from: start,
        len: n,
    };
    match call {
        CallIn::Connect { iss } => (CallSlot::Connect { iss: *iss }, reply),
        CallIn::Passive { seg, .. } => (CallSlot::Passive { at }, payload_at(seg, end)),
        CallIn::Rx { seg, .. } => (CallSlot::Rx { at }, payload_at(seg, end)),
        CallIn::Emit => (CallSlot::Emit, reply),
        CallIn::Tick => (CallSlot::Tick, reply),
        CallIn::Control => (CallSlot::Control, reply),
        CallIn::Accept => (CallSlot::Accept, reply),
        CallIn::Ready => (CallSlot::Ready, reply),
        CallIn::Send { bytes } => (
            CallSlot::Send {
                offered: bytes.len() as u32,
            },
            reply,
        ),
        CallIn::Recv { most } => (CallSlot::Recv { most: *most }, reply),
        CallIn::Shut => (CallSlot::Shut, reply),
        CallIn::Close => (CallSlot::Close, reply),
        CallIn::Abort => (CallSlot::Abort, reply),
    }
}

/// Where a segment's payload stands.
fn payload_at(seg: &Segment<'_>, from: usize) -> Span
    ensures { result ≡ record { from = from; len = length seg.now.payload.now } }
{
    Span {
        from,
        len: seg.payload.len(),
    }
}

/// The reply.
pub fn reply_slot(answer: &Answer) -> ReplySlot
    ensures { (bytes out : List ℕ) → bytes ≡ take (answer_len answer.now) out
        → reply_in bytes result ≡ reply_of answer.now out }
{
    match *answer {
        Answer::Ok => ReplySlot::Ok,
        Answer::Nothing => ReplySlot::Nothing,
        Answer::Sent { head, .. } => ReplySlot::Sent {
            flags: head.flags,
            window: head.window,
            seq: head.seq,
            ack: head.ack,
            mss: head.mss,
            scale: head.scale,
        },
        Answer::Took { .. } => ReplySlot::Took,
        Answer::Got { update: None, .. } => ReplySlot::Got,
        Answer::Got {
            update: Some(head),
            ..
        } => ReplySlot::Update {
            flags: head.flags,
            window: head.window,
            seq: head.seq,
            ack: head.ack,
            mss: head.mss,
            scale: head.scale,
        },
        Answer::End => ReplySlot::End,
        Answer::NotYet => ReplySlot::NotYet,
        Answer::NotOpen => ReplySlot::NotOpen,
        Answer::Shut => ReplySlot::Shut,
        Answer::Closed { reason } => ReplySlot::Closed { reason },
        Answer::Quiet => ReplySlot::Quiet,
        Answer::Resend => ReplySlot::Resend,
        Answer::Probe => ReplySlot::Probe,
        Answer::Expired => ReplySlot::Expired,
        Answer::TimedOut => ReplySlot::TimedOut,
        Answer::Window { cwnd, ssthresh } => ReplySlot::Window { cwnd, ssthresh },
    }
}

/// The slot of a Tick that was answered so, without bytes.
pub fn tick_slot(caller: Caller, number: u64, answer: &Answer) -> Slot
    requires { answer_len answer.now ≡ 0 }
    ensures { (tick : ℕ) → IsTickSlot caller number tick answer.now result }
{
    Slot {
        caller,
        number,
        call: CallSlot::Tick,
        bytes: Span { from: 0, len: 0 },
        reply: reply_slot(answer),
    }
}

/// The slot of the first entry of a passive flow, whose segment is all that stands in memory.
pub fn passive_slot(seg: &Segment<'_>) -> Slot
    ensures entry { (frame : FrameId) (iss : Seq) (tick : ℕ)
        → entry_of (memory_of seg.now.payload.now (came_of frame iss seg.now ∷ [])) tick result
        ≡ first_passive tick frame iss (seg_of seg.now) }
    ensures within { IsWithin (length seg.now.payload.now) 1 result }
{
    Slot {
        caller: Caller::Slow,
        number: 0,
        call: CallSlot::Passive { at: 0 },
        bytes: payload_at(seg, 0),
        reply: ReplySlot::Ok,
    }
}

/// The slot of the first entry of a flow that its own host opens.
pub fn connect_slot(caller: Caller, iss: Seq) -> Slot
    ensures entry { (memory : Memory) (tick : ℕ) → entry_of memory tick result ≡ first_connect caller tick iss }
    ensures within { (n k : ℕ) → IsWithin n k result }
{
    Slot {
        caller,
        number: 0,
        call: CallSlot::Connect { iss },
        bytes: Span { from: 0, len: 0 },
        reply: ReplySlot::Ok,
    }
}
