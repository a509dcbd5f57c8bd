//! Lines of entries: who called, what was asked, and what was answered.

ghost use Rattle.std.specs.Prelude.{◌≡◌, ◌≤◌, map, length, codes, None, Some, MatchOption};
ghost use Rattle.report_lines.specs.Fronts.{maybe, one_of};
ghost use Rattle.report_lines.specs.Segments.{head};
ghost use Rattle.report_lines.specs.Entries as rules;
ghost use Rattle.report_lines.specs.Views.{seen_call, seen_reply, seen_entry};

use crate::fronts::{behind, number_at};
use crate::hex::hex_at;
use crate::line::{CallLine, EntryLine, ReplyLine};
use crate::origins::{caller_at, frame_at, reason_at};
use crate::segments::{head_at, seg_at, u32_at};
use tas_model::Head;
use tas_num::Seq;

#[tactic(auto, unfolding(crate::specs::Entries::connect, crate::specs::Fronts::with))]
fn connect_at(text: &[u8]) -> Option<(CallLine<'_>, &[u8])>
    ensures { MatchOption result (rules.connect text.now ≡ None)
        (λ x. rules.connect text.now ≡ Some (seen_call x.0, x.1.now)) }
{
    let (iss, rest) = u32_at(behind(text, b"connect iss ")?)?;
    Some((CallLine::Connect { iss: Seq(iss) }, rest))
}

#[tactic(auto, unfolding(crate::specs::Entries::passive, crate::specs::Fronts::with))]
fn passive_at<'a>(names: &[&[u8]], text: &'a [u8]) -> Option<(CallLine<'a>, &'a [u8])>
    requires { length names.now ≤ 8 }
    ensures { MatchOption result (rules.passive (map (λ n. n.now) names.now) text.now ≡ None)
        (λ x. rules.passive (map (λ n. n.now) names.now) text.now ≡ Some (seen_call x.0, x.1.now)) }
{
    let (frame, rest) = frame_at(names, behind(text, b"passive ")?)?;
    let (iss, rest) = u32_at(behind(rest, b" iss ")?)?;
    let (seg, rest) = seg_at(behind(rest, b" ")?)?;
    let call = CallLine::Passive {
        frame,
        iss: Seq(iss),
        seg,
    };
    Some((call, rest))
}

#[tactic(auto, unfolding(crate::specs::Entries::rx, crate::specs::Fronts::with))]
fn rx_at<'a>(names: &[&[u8]], text: &'a [u8]) -> Option<(CallLine<'a>, &'a [u8])>
    requires { length names.now ≤ 8 }
    ensures { MatchOption result (rules.rx (map (λ n. n.now) names.now) text.now ≡ None)
        (λ x. rules.rx (map (λ n. n.now) names.now) text.now ≡ Some (seen_call x.0, x.1.now)) }
{
    let (frame, rest) = frame_at(names, behind(text, b"rx ")?)?;
    let (seg, rest) = seg_at(behind(rest, b" ")?)?;
    Some((CallLine::Rx { frame, seg }, rest))
}

#[tactic(auto, unfolding(crate::specs::Entries::send, crate::specs::Fronts::with))]
fn send_at(text: &[u8]) -> Option<(CallLine<'_>, &[u8])>
    ensures { MatchOption result (rules.send text.now ≡ None)
        (λ x. rules.send text.now ≡ Some (seen_call x.0, x.1.now)) }
{
    let (offered, rest) = u32_at(behind(text, b"send ")?)?;
    Some((CallLine::Send { offered }, rest))
}

#[tactic(auto, unfolding(crate::specs::Entries::recv, crate::specs::Fronts::with))]
fn recv_at(text: &[u8]) -> Option<(CallLine<'_>, &[u8])>
    ensures { MatchOption result (rules.recv text.now ≡ None)
        (λ x. rules.recv text.now ≡ Some (seen_call x.0, x.1.now)) }
{
    let (most, rest) = u32_at(behind(text, b"recv ")?)?;
    Some((CallLine::Recv { most }, rest))
}

/// Calls of an application that are of one word.
#[tactic(auto, unfolding(crate::specs::Fronts::or, crate::specs::Fronts::with))]
fn asked_at(text: &[u8]) -> Option<(CallLine<'_>, &[u8])>
    ensures { MatchOption result (one_of rules.asked_of text.now ≡ None)
        (λ x. one_of rules.asked_of text.now ≡ Some (seen_call x.0, x.1.now)) }
{
    if let Some(rest) = behind(text, b"accept") {
        return Some((CallLine::Accept, rest));
    }
    if let Some(rest) = behind(text, b"ready") {
        return Some((CallLine::Ready, rest));
    }
    if let Some(rest) = behind(text, b"shut") {
        return Some((CallLine::Shut, rest));
    }
    if let Some(rest) = behind(text, b"close") {
        return Some((CallLine::Close, rest));
    }
    let rest = behind(text, b"abort")?;
    Some((CallLine::Abort, rest))
}

/// What was asked. The most frequent calls come first.
#[tactic(auto, unfolding(crate::specs::Entries::call, crate::specs::Fronts::or, crate::specs::Fronts::with))]
fn call_at<'a>(names: &[&[u8]], text: &'a [u8]) -> Option<(CallLine<'a>, &'a [u8])>
    requires { length names.now ≤ 8 }
    ensures { MatchOption result (rules.call (map (λ n. n.now) names.now) text.now ≡ None)
        (λ x. rules.call (map (λ n. n.now) names.now) text.now ≡ Some (seen_call x.0, x.1.now)) }
{
    if let Some(rest) = behind(text, b"tick") {
        return Some((CallLine::Tick, rest));
    }
    if let Some(call) = rx_at(names, text) {
        return Some(call);
    }
    if let Some(rest) = behind(text, b"emit") {
        return Some((CallLine::Emit, rest));
    }
    if let Some(call) = recv_at(text) {
        return Some(call);
    }
    if let Some(call) = send_at(text) {
        return Some(call);
    }
    if let Some(rest) = behind(text, b"control") {
        return Some((CallLine::Control, rest));
    }
    if let Some(call) = connect_at(text) {
        return Some(call);
    }
    if let Some(call) = passive_at(names, text) {
        return Some(call);
    }
    asked_at(text)
}

/// The update of a Recv, where it sent one.
#[tactic(auto, unfolding(crate::specs::Fronts::with))]
fn update_at(text: &[u8]) -> Option<(Option<Head>, &[u8])>
    ensures { MatchOption result (maybe (codes " then ") head text.now ≡ None)
        (λ x. maybe (codes " then ") head text.now ≡ Some (x.0, x.1.now)) }
{
    match behind(text, b" then ") {
        None => Some((None, text)),
        Some(rest) => {
            let (head, rest) = head_at(rest)?;
            Some((Some(head), rest))
        }
    }
}

#[tactic(auto, unfolding(crate::specs::Entries::sent_reply, crate::specs::Fronts::with))]
fn sent_reply_at(text: &[u8]) -> Option<(ReplyLine<'_>, &[u8])>
    ensures { MatchOption result (rules.sent_reply text.now ≡ None)
        (λ x. rules.sent_reply text.now ≡ Some (seen_reply x.0, x.1.now)) }
{
    let (seg, rest) = seg_at(text)?;
    Some((ReplyLine::Sent { seg }, rest))
}

#[tactic(auto, unfolding(crate::specs::Entries::took, crate::specs::Fronts::with))]
fn took_at(text: &[u8]) -> Option<(ReplyLine<'_>, &[u8])>
    ensures { MatchOption result (rules.took text.now ≡ None)
        (λ x. rules.took text.now ≡ Some (seen_reply x.0, x.1.now)) }
{
    let (bytes, rest) = hex_at(behind(text, b"took ")?)?;
    Some((ReplyLine::Took { bytes }, rest))
}

#[tactic(auto, unfolding(crate::specs::Entries::got, crate::specs::Fronts::with))]
fn got_at(text: &[u8]) -> Option<(ReplyLine<'_>, &[u8])>
    ensures { MatchOption result (rules.got text.now ≡ None)
        (λ x. rules.got text.now ≡ Some (seen_reply x.0, x.1.now)) }
{
    let (bytes, rest) = hex_at(behind(text, b"got ")?)?;
    let (update, rest) = update_at(rest)?;
    Some((ReplyLine::Got { bytes, update }, rest))
}

#[tactic(auto, unfolding(crate::specs::Entries::closed, crate::specs::Fronts::with))]
fn closed_at(text: &[u8]) -> Option<(ReplyLine<'_>, &[u8])>
    ensures { MatchOption result (rules.closed text.now ≡ None)
        (λ x. rules.closed text.now ≡ Some (seen_reply x.0, x.1.now)) }
{
    let (reason, rest) = reason_at(behind(text, b"closed ")?)?;
    Some((ReplyLine::Closed { reason }, rest))
}

#[tactic(auto, unfolding(crate::specs::Entries::window, crate::specs::Fronts::with))]
fn window_at(text: &[u8]) -> Option<(ReplyLine<'_>, &[u8])>
    ensures { MatchOption result (rules.window text.now ≡ None)
        (λ x. rules.window text.now ≡ Some (seen_reply x.0, x.1.now)) }
{
    let (cwnd, rest) = u32_at(behind(text, b"cwnd ")?)?;
    let (ssthresh, rest) = u32_at(behind(rest, b" ssthresh ")?)?;
    Some((ReplyLine::Window { cwnd, ssthresh }, rest))
}

/// Replies of one word, to an application or of a timer.
#[tactic(auto, unfolding(crate::specs::Fronts::or, crate::specs::Fronts::with))]
fn worded_at(text: &[u8]) -> Option<(ReplyLine<'_>, &[u8])>
    ensures { MatchOption result (one_of rules.worded_of text.now ≡ None)
        (λ x. one_of rules.worded_of text.now ≡ Some (seen_reply x.0, x.1.now)) }
{
    if let Some(rest) = behind(text, b"notopen") {
        return Some((ReplyLine::NotOpen, rest));
    }
    if let Some(rest) = behind(text, b"end") {
        return Some((ReplyLine::End, rest));
    }
    if let Some(rest) = behind(text, b"shut") {
        return Some((ReplyLine::Shut, rest));
    }
    if let Some(rest) = behind(text, b"resend") {
        return Some((ReplyLine::Resend, rest));
    }
    if let Some(rest) = behind(text, b"probe") {
        return Some((ReplyLine::Probe, rest));
    }
    if let Some(rest) = behind(text, b"done") {
        return Some((ReplyLine::Expired, rest));
    }
    let rest = behind(text, b"timedout")?;
    Some((ReplyLine::TimedOut, rest))
}

/// What was answered. The most frequent replies come first.
#[tactic(auto, unfolding(crate::specs::Entries::reply, crate::specs::Fronts::or, crate::specs::Fronts::with))]
fn reply_at(text: &[u8]) -> Option<(ReplyLine<'_>, &[u8])>
    ensures { MatchOption result (rules.reply text.now ≡ None)
        (λ x. rules.reply text.now ≡ Some (seen_reply x.0, x.1.now)) }
{
    if let Some(reply) = sent_reply_at(text) {
        return Some(reply);
    }
    if let Some(rest) = behind(text, b"quiet") {
        return Some((ReplyLine::Quiet, rest));
    }
    if let Some(rest) = behind(text, b"none") {
        return Some((ReplyLine::Nothing, rest));
    }
    if let Some(rest) = behind(text, b"notyet") {
        return Some((ReplyLine::NotYet, rest));
    }
    if let Some(rest) = behind(text, b"ok") {
        return Some((ReplyLine::Ok, rest));
    }
    if let Some(reply) = took_at(text) {
        return Some(reply);
    }
    if let Some(reply) = got_at(text) {
        return Some(reply);
    }
    if let Some(reply) = window_at(text) {
        return Some(reply);
    }
    if let Some(reply) = closed_at(text) {
        return Some(reply);
    }
    worded_at(text)
}

/// What follows the tick: the caller with the entry's number, the call and the reply.
#[tactic(auto, unfolding(crate::specs::Entries::entry, crate::specs::Fronts::with))]
pub(crate) fn entry_at<'a>(
    names: &[&[u8]],
    tick: u32,
    text: &'a [u8],
) -> Option<(EntryLine<'a>, &'a [u8])>
    requires { length names.now ≤ 8 }
    ensures { MatchOption result (rules.entry (map (λ n. n.now) names.now) tick text.now ≡ None)
        (λ x. rules.entry (map (λ n. n.now) names.now) tick text.now ≡ Some (seen_entry x.0, x.1.now)) }
{
    let (caller, rest) = caller_at(text)?;
    let (number, rest) = number_at(u64::MAX, behind(rest, b".")?)?;
    let (call, rest) = call_at(names, behind(rest, b" ")?)?;
    let (reply, rest) = reply_at(behind(rest, b" = ")?)?;
    let entry = EntryLine {
        caller,
        number,
        tick,
        call,
        reply,
    };
    Some((entry, rest))
}
