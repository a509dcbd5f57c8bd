//! Entries as they are shown to whoever reads a history.

ghost use Rattle.std.specs.Prelude.{◌≡◌, ℕ, ◌+◌, ◌≤◌, List, length, take, drop};
ghost use Rattle.flow_state.specs.Calls.{reply_bytes};
ghost use Rattle.tas_model.specs.Outputs.{given_bytes};
ghost use Rattle.flow_state.specs.Arena.{memory_of};
ghost use Rattle.flow_state.specs.Slots.{bytes_at, SpanWithin, CameWithin, IsWithin, call_in, reply_in, entry_of};
ghost use Rattle.flow_state.specs.Slots.{reply_part as model_part, head_in};
ghost use Rattle.flow_state.specs.Views.{seen_seg, seen_call, seen_reply, seen_entry};

use crate::slot::{CallSlot, CameSlot, ReplySlot, Slot, Span};
use std::marker::Model;
use tas_model::{Caller, FrameId, Head, Reason};
use tas_num::Seq;

/// A segment whose payload stands elsewhere.
#[derive(Clone, Copy, Debug)]
pub struct SegView<'a> {
    pub head: Head,
    pub bytes: &'a [u8],
}

/// A call of an entry, with its bytes where the record has them.
#[derive(Clone, Copy, Debug)]
pub enum CallView<'a> {
    Connect {
        iss: Seq,
    },
    Passive {
        frame: FrameId,
        iss: Seq,
        seg: SegView<'a>,
    },
    Rx {
        frame: FrameId,
        seg: SegView<'a>,
    },
    Emit,
    Tick,
    Control,
    Accept,
    Ready,
    Send {
        offered: u32,
    },
    Recv {
        most: u32,
    },
    Shut,
    Close,
    Abort,
}

/// A reply of an entry, with its bytes where the record has them.
#[derive(Clone, Copy, Debug)]
pub enum ReplyView<'a> {
    Ok,
    Nothing,
    Sent {
        seg: SegView<'a>,
    },
    Took {
        bytes: &'a [u8],
    },
    Got {
        bytes: &'a [u8],
        update: Option<Head>,
    },
    End,
    NotYet,
    NotOpen,
    Shut,
    Closed {
        reason: Reason,
    },
    Quiet,
    Resend,
    Probe,
    Expired,
    TimedOut,
    Window {
        cwnd: u32,
        ssthresh: u32,
    },
}

impl<'a> ReplyView<'a> {
    /// The bytes of the reply; none where its kind has none.
    pub fn bytes(&self) -> &'a [u8]
        ensures { result.now ≡ reply_bytes (seen_reply self.now) }
    {
        match self {
            ReplyView::Sent { seg } => seg.bytes,
            ReplyView::Took { bytes } | ReplyView::Got { bytes, .. } => bytes,
            _ => &[],
        }
    }
}

/// An entry of a history, with its bytes where the record has them.
#[derive(Clone, Copy, Debug)]
pub struct EntryView<'a> {
    pub caller: Caller,
    pub number: u64,
    pub tick: u32,
    pub call: CallView<'a>,
    pub reply: ReplyView<'a>,
}

/// The bytes that stand there.
#[inline(always)]
fn bytes_of<'a>(arena: &'a [u8], span: Span) -> &'a [u8]
    requires { SpanWithin (length arena.now) span }
    ensures { result.now ≡ bytes_at arena.now span }
{
    &arena[span.from..span.from + span.len]
}

#[inline(always)]
fn seg_view<'a>(came: &CameSlot, bytes: &'a [u8]) -> SegView<'a>
    ensures { seen_seg result ≡ record { head = head_in came.now.head; bytes = bytes.now } }
{
    SegView {
        head: came.head.head(),
        bytes,
    }
}

#[inline(always)]
fn call_view<'a>(came: &[CameSlot], bytes: &'a [u8], call: CallSlot) -> CallView<'a>
    requires { CameWithin (length came.now) call }
    ensures { seen_call result ≡ call_in came.now bytes.now call }
{
    match call {
        CallSlot::Connect { iss } => CallView::Connect { iss },
        CallSlot::Passive { at } => {
            let slot = &came[at as usize];
            CallView::Passive {
                frame: slot.frame(),
                iss: slot.iss,
                seg: seg_view(slot, bytes),
            }
        }
        CallSlot::Rx { at } => {
            let slot = &came[at as usize];
            CallView::Rx {
                frame: slot.frame(),
                seg: seg_view(slot, bytes),
            }
        }
        CallSlot::Emit => CallView::Emit,
        CallSlot::Tick => CallView::Tick,
        CallSlot::Control => CallView::Control,
        CallSlot::Accept => CallView::Accept,
        CallSlot::Ready => CallView::Ready,
        CallSlot::Send { offered } => CallView::Send { offered },
        CallSlot::Recv { most } => CallView::Recv { most },
        CallSlot::Shut => CallView::Shut,
        CallSlot::Close => CallView::Close,
        CallSlot::Abort => CallView::Abort,
    }
}

/// Of the bytes of an entry those of its reply.
#[inline(always)]
fn reply_part<'a>(bytes: &'a [u8], call: CallSlot) -> &'a [u8]
    ensures { result.now ≡ model_part call bytes.now }
{
    match call {
        CallSlot::Passive { .. } | CallSlot::Rx { .. } => &[],
        _ => bytes,
    }
}

#[inline(always)]
fn reply_view<'a>(bytes: &'a [u8], reply: ReplySlot) -> ReplyView<'a>
    ensures { seen_reply result ≡ reply_in bytes.now reply }
{
    match reply {
        ReplySlot::Ok => ReplyView::Ok,
        ReplySlot::Nothing => ReplyView::Nothing,
        ReplySlot::Sent {
            flags,
            window,
            seq,
            ack,
            mss,
            scale,
        } => ReplyView::Sent {
            seg: SegView {
                head: Head {
                    flags,
                    seq,
                    ack,
                    window,
                    mss,
                    scale,
                },
                bytes,
            },
        },
        ReplySlot::Took => ReplyView::Took { bytes },
        ReplySlot::Got => ReplyView::Got {
            bytes,
            update: None,
        },
        ReplySlot::Update {
            flags,
            window,
            seq,
            ack,
            mss,
            scale,
        } => ReplyView::Got {
            bytes,
            update: Some(Head {
                flags,
                seq,
                ack,
                window,
                mss,
                scale,
            }),
        },
        ReplySlot::End => ReplyView::End,
        ReplySlot::NotYet => ReplyView::NotYet,
        ReplySlot::NotOpen => ReplyView::NotOpen,
        ReplySlot::Shut => ReplyView::Shut,
        ReplySlot::Closed { reason } => ReplyView::Closed { reason },
        ReplySlot::Quiet => ReplyView::Quiet,
        ReplySlot::Resend => ReplyView::Resend,
        ReplySlot::Probe => ReplyView::Probe,
        ReplySlot::Expired => ReplyView::Expired,
        ReplySlot::TimedOut => ReplyView::TimedOut,
        ReplySlot::Window { cwnd, ssthresh } => ReplyView::Window { cwnd, ssthresh },
    }
}

/// An entry where it stands in the record's memory. Who asks for a part of it reads that part alone.
#[derive(Drop)]
pub struct EntryAt<'a> {
    arena: &'a [u8],
    came: &'a [CameSlot],
    tick: u32,
    slot: &'a Slot,
}

impl<'a> Model for EntryAt<'a> {
    ghost use Rattle.std.specs.Prelude.{length};
    ghost use Rattle.tas_model.specs.declared.entry.Entry.{Entry};
    ghost use Rattle.flow_state.specs.Arena.{memory_of};
    ghost use Rattle.flow_state.specs.Slots.{IsWithin, entry_of};

    ghost Value = { Entry };

    ghost view = { λ e. entry_of (memory_of e.arena.now e.came.now) e.tick e.slot.now };

    ghost invariant = { λ e. IsWithin (length e.arena.now) (length e.came.now) e.slot.now };
}

impl<'a> EntryAt<'a> {
    /// The entry of a slot at this tick.
    #[inline(always)]
    pub fn new(arena: &'a [u8], came: &'a [CameSlot], tick: u32, slot: &'a Slot) -> EntryAt<'a>
        requires { IsWithin (length arena.now) (length came.now) slot.now }
        ensures { result ≡ entry_of (memory_of arena.now came.now) tick slot.now }
    {
        EntryAt {
            arena,
            came,
            tick,
            slot,
        }
    }

    /// At which tick it was made.
    #[inline(always)]
    pub fn tick(&self) -> u32
        ensures { result ≡ self.now.tick }
    {
        self.tick
    }

    /// Who made the call.
    #[inline(always)]
    pub fn caller(&self) -> Caller
        ensures { result ≡ self.now.caller }
    {
        self.slot.caller
    }

    /// Its number among the caller's entries.
    #[inline(always)]
    pub fn number(&self) -> u64
        ensures { result ≡ self.now.number }
    {
        self.slot.number
    }

    /// Its call.
    #[inline(always)]
    pub fn call(&self) -> CallView<'a>
        ensures { seen_call result ≡ self.now.call }
    {
        call_view(
            self.came,
            bytes_of(self.arena, self.slot.bytes),
            self.slot.call,
        )
    }

    /// Its reply.
    #[inline(always)]
    pub fn reply(&self) -> ReplyView<'a>
        ensures { seen_reply result ≡ self.now.reply }
    {
        let bytes = bytes_of(self.arena, self.slot.bytes);
        reply_view(reply_part(bytes, self.slot.call), self.slot.reply)
    }

    /// The bytes that it gave to the application.
    #[inline(always)]
    pub fn given(&self) -> &'a [u8]
        ensures { result.now ≡ given_bytes self.now.reply }
    {
        match self.slot.reply {
            ReplySlot::Got | ReplySlot::Update { .. } => {
                reply_part(bytes_of(self.arena, self.slot.bytes), self.slot.call)
            }
            _ => &[],
        }
    }

    /// All of it.
    #[inline(always)]
    pub fn view(&self) -> EntryView<'a>
        ensures { seen_entry result ≡ self.now }
    {
        EntryView {
            caller: self.caller(),
            number: self.number(),
            tick: self.tick,
            call: self.call(),
            reply: self.reply(),
        }
    }
}
