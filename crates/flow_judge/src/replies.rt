//! Replies that were made, held against those that a line shows.

ghost use Rattle.std.specs.Prelude.{◌≡◌, ◌++◌, ◌↔◌, [], bytes_eq, IfOk, OnOk, IsTrue, true, false};
ghost use Rattle.tas_model.specs.declared.entry.Reply.{Reply};
ghost use Rattle.tas_model.specs.LegalHistory.{taken_bytes};
ghost use Rattle.tas_model.specs.Outputs.{given_bytes};
ghost use Rattle.flow_state.specs.Calls.{answer_of, reply_bytes};
ghost use Rattle.flow_judge.specs.Making.{bare_of};
ghost use Rattle.report_lines.specs.Views.{seen_reply};

use flow_state::Answer;
use report_lines::{HexText, ReplyLine};
use std::alloc::{AllocError, Global};

/// The bytes of digits. The error is want of memory.
pub fn decoded(alloc: Global, text: &HexText<'_>) -> Result<Vec<u8>, AllocError>
    ensures { IfOk result (λ bytes. bytes.items ≡ text.now) }
{
    let mut bytes = Vec::new(alloc);
    text.append_to(&mut bytes)?;
    Ok(bytes)
}

/// The bytes that a reply shows as taken. The error is want of memory.
pub fn taken(alloc: Global, reply: &ReplyLine<'_>) -> Result<Vec<u8>, AllocError>
    ensures { IfOk result (λ bytes. bytes.items ≡ taken_bytes (seen_reply reply.now)) }
{
    match reply {
        ReplyLine::Took { bytes } => decoded(alloc, bytes),
        _ => Ok(Vec::new(alloc)),
    }
}

/// Appends the bytes that a reply gives. The error is want of memory.
pub fn keep(read: &mut Vec<u8>, reply: &ReplyLine<'_>) -> Result<(), AllocError>
    ensures { OnOk result (read.new.items ≡ read.old.items ++ given_bytes (seen_reply reply.now)) }
{
    match reply {
        ReplyLine::Got { bytes, .. } => bytes.append_to(read),
        _ => Ok(()),
    }
}

/// The answer without the number of its bytes.
fn bare_answer(answer: &Answer) -> Answer
    ensures { result ≡ bare_of answer.now }
{
    match answer {
        Answer::Sent { head, .. } => Answer::Sent {
            head: *head,
            len: 0,
        },
        Answer::Took { .. } => Answer::Took { len: 0 },
        Answer::Got { update, .. } => Answer::Got {
            len: 0,
            update: *update,
        },
        _ => *answer,
    }
}

/// What a line's reply says besides its bytes.
fn bare_reply(reply: &ReplyLine<'_>) -> Answer
    ensures { result ≡ bare_of (answer_of (seen_reply reply.now)) }
{
    match reply {
        ReplyLine::Ok => Answer::Ok,
        ReplyLine::Nothing => Answer::Nothing,
        ReplyLine::Sent { seg } => Answer::Sent {
            head: seg.head,
            len: 0,
        },
        ReplyLine::Took { .. } => Answer::Took { len: 0 },
        ReplyLine::Got { update, .. } => Answer::Got {
            len: 0,
            update: *update,
        },
        ReplyLine::End => Answer::End,
        ReplyLine::NotYet => Answer::NotYet,
        ReplyLine::NotOpen => Answer::NotOpen,
        ReplyLine::Shut => Answer::Shut,
        ReplyLine::Closed { reason } => Answer::Closed { reason: *reason },
        ReplyLine::Quiet => Answer::Quiet,
        ReplyLine::Resend => Answer::Resend,
        ReplyLine::Probe => Answer::Probe,
        ReplyLine::Expired => Answer::Expired,
        ReplyLine::TimedOut => Answer::TimedOut,
        ReplyLine::Window { cwnd, ssthresh } => Answer::Window {
            cwnd: *cwnd,
            ssthresh: *ssthresh,
        },
    }
}

/// Whether there are no bytes.
fn is_nothing(bytes: &[u8]) -> bool
    ensures { result ≡ bytes_eq bytes.now [] }
{
    bytes.is_empty()
}

/// Whether a line's reply has these bytes.
fn has_bytes(bytes: &[u8], reply: &ReplyLine<'_>) -> bool
    ensures { result ≡ bytes_eq bytes.now (reply_bytes (seen_reply reply.now)) }
{
    match reply {
        ReplyLine::Sent { seg } => seg.bytes.is_of(bytes),
        ReplyLine::Took { bytes: text } | ReplyLine::Got { bytes: text, .. } => text.is_of(bytes),
        _ => is_nothing(bytes),
    }
}

/// Whether they are one answer.
fn are_one(answer: Answer, other: Answer) -> bool
    ensures same { result ≡ true → answer ≡ other }
    ensures apart { result ≡ false → answer ≡ other → ⊥ }
{
    answer == other
}

/// Whether an answer with these bytes is a line's reply.
pub fn is_reply(answer: &Answer, bytes: &[u8], reply: &ReplyLine<'_>) -> bool
    ensures { (m : Reply) → answer.now ≡ answer_of m → bytes.now ≡ reply_bytes m
        → (IsTrue result ↔ m ≡ seen_reply reply.now) }
{
    are_one(bare_answer(answer), bare_reply(reply)) && has_bytes(bytes, reply)
}
