//! Whether a segment is heard at all: its place, a reset, a SYN (RFC 9293, section 3.10.7.4, first to fourth).

ghost use Rattle.std.specs.Prelude.{◌≡◌, ℕ, ◌+◌, ◌-◌, ◌%◌, ◌^◌, ◌<◌, ◌==◌, ◌&&◌, IfSome, nat_lt, nat_le, not};
ghost use Rattle.std.specs.Prelude.{if◌then◌else◌};
ghost use Rattle.tas_num.specs.Places.{nearest};
ghost use Rattle.tas_model.specs.Endpoint.{Endpoint};
ghost use Rattle.tas_model.specs.Segments.{seg_len, is_rst, is_syn};
ghost use Rattle.tas_model.specs.Receive.{verdict, verdict_at, refused as model_refused};
ghost use Rattle.tas_model.specs.Receive.{is_acceptable as model_acceptable, is_within as model_within, place_of_ack};
ghost use Rattle.tas_model.specs.Receive.{ack_verdict, BareAck, Good, Stray, TooFar};
ghost use Rattle.tas_model.specs.Valid.{Valid};
ghost use Rattle.flow_state.specs.Stands.{Stands, IsNear};
ghost use Rattle.flow_state.specs.Calls.{seg_of};
ghost use Rattle.fast_rx.specs.Judgements.{verdict_of, ack_verdict_of, IsPlaced};

use flow_state::Parts;
use segment_fields::Segment;
use tas_num::{Seq, place};

/// What becomes of a segment, before its acknowledgement is looked at.
#[derive(Clone, Copy, PartialEq, Eq, Debug)]
pub enum Hearing {
    /// Nothing changes, and there is no reply.
    Dropped,
    /// Nothing changes, and an ACK is the reply.
    Answered,
    /// The peer resets the connection.
    Reset,
    /// Past a window of 0: its acknowledgement alone is heard.
    BareAck,
    /// It is heard. This is the place of its first number.
    Taken(u128),
}

/// What becomes of the place that a segment acknowledges.
#[derive(Clone, Copy, PartialEq, Eq, Debug)]
pub enum Acceptance {
    /// It acknowledges no SYN of this side: a reset is the reply.
    Stray,
    /// It acknowledges what was not sent: an ACK is the reply.
    TooFar,
    Good,
}

/// The place of a sequence number, counted from the direction's first one. `None` where it is negative.
fn place_from(near: u128, first: Seq, number: Seq) -> Option<u128>
    requires { near < 2 ^ 126 }
    ensures place { result ≡ nearest near ((number.0 + (2 ^ 32 - first.0)) % 2 ^ 32) }
    ensures far { IfSome result (λ found. found < 2 ^ 127) }
{
    place(near, Seq(number.minus(first)))
}

/// How many places the segment takes: its bytes, and one each for SYN and FIN (SEG.LEN of RFC 9293).
pub fn len_of(seg: &Segment<'_>) -> u128
    ensures len { result ≡ seg_len (seg_of seg.now) }
    ensures small { result < 2 ^ 65 }
{
    seg.payload.len() as u128 + u128::from(seg.flags.is_syn()) + u128::from(seg.flags.is_fin())
}

/// Whether the place lies in the window that is open to the peer.
fn is_within(next: u128, window: u32, q: u128) -> bool
    requires { next < 2 ^ 126 }
    ensures { result ≡ model_within next window q }
{
    next <= q && q < next + u128::from(window)
}

/// Whether a segment of `len` places from `q` on is acceptable (RFC 9293, section 3.10.7.4, the table).
fn is_acceptable(next: u128, window: u32, q: u128, len: u128) -> bool
    requires next { next < 2 ^ 126 }
    requires far { q < 2 ^ 127 }
    requires small { len < 2 ^ 65 }
    ensures { result ≡ model_acceptable next window q len }
{
    if len > 0 {
        is_within(next, window, q) || is_within(next, window, q + len - 1)
    } else if window == 0 {
        q == next
    } else {
        is_within(next, window, q)
    }
}

/// The answer to a segment that is not acceptable: none to a reset.
fn refused(seg: &Segment<'_>) -> Hearing
    ensures verdict { verdict_of result ≡ model_refused (seg_of seg.now) }
    ensures placed { IsPlaced result }
{
    if seg.flags.is_rst() {
        Hearing::Dropped
    } else {
        Hearing::Answered
    }
}

/// What becomes of a segment whose first number has the place `q`.
fn hear_at(next: u128, window: u32, q: u128, seg: &Segment<'_>) -> Hearing
    requires next { next < 2 ^ 126 }
    requires far { q < 2 ^ 127 }
    ensures verdict { verdict_of result ≡ verdict_at next window q (seg_of seg.now) }
    ensures placed { IsPlaced result }
{
    if !is_acceptable(next, window, q, len_of(seg)) {
        return hear_outside(next, window, q, seg);
    }
    if seg.flags.is_rst() {
        return if q == next {
            Hearing::Reset
        } else {
            Hearing::Answered
        };
    }
    if seg.flags.is_syn() {
        return Hearing::Answered;
    }
    if seg.flags.is_ack() {
        Hearing::Taken(q)
    } else {
        Hearing::Dropped
    }
}

/// What becomes of a segment that is not acceptable: one that comes in order to a window of 0 still acknowledges.
fn hear_outside(next: u128, window: u32, q: u128, seg: &Segment<'_>) -> Hearing
    ensures verdict { verdict_of result ≡ (if window == 0 && q == next && not (is_rst (seg_of seg.now))
        && not (is_syn (seg_of seg.now)) then BareAck else model_refused (seg_of seg.now)) }
    ensures placed { IsPlaced result }
{
    if window > 0 || q != next {
        return refused(seg);
    }
    if seg.flags.is_rst() || seg.flags.is_syn() {
        return refused(seg);
    }
    Hearing::BareAck
}

/// What becomes of a segment, by its place, its flags and the window (RFC 9293, section 3.10.7.4, first to fifth; RFC
/// 5961, section 3.2).
pub fn hear(parts: &Parts, seg: &Segment<'_>) -> Hearing
    requires { IsNear parts.now }
    ensures verdict { (e : Endpoint) → Valid e → Stands parts.now e → verdict_of result ≡ verdict e (seg_of seg.now) }
    ensures placed { IsPlaced result }
{
    let next = parts.next_place();
    match place_from(next, parts.irs, seg.seq) {
        Some(q) => hear_at(next, parts.window(), q, seg),
        None => refused(seg),
    }
}

/// The place that the segment acknowledges. A negative one counts as 0.
pub fn acknowledged(parts: &Parts, seg: &Segment<'_>) -> u128
    requires { IsNear parts.now }
    ensures { (e : Endpoint) → Valid e → Stands parts.now e → result ≡ place_of_ack e (seg_of seg.now) }
{
    place_from(parts.max_place(), parts.iss, seg.ack).unwrap_or(0)
}

/// Whether the place may be acknowledged: the SYN's at least, and nothing that was not sent.
fn accept_at(una: u128, max: u128, a: u128) -> Acceptance
    ensures { ack_verdict_of result ≡ (if una == 0 then (if nat_le 1 a && nat_le a max then Good else Stray)
        else if nat_lt max a then TooFar else Good) }
{
    if una > 0 {
        return if a > max {
            Acceptance::TooFar
        } else {
            Acceptance::Good
        };
    }
    if a < 1 || a > max {
        return Acceptance::Stray;
    }
    Acceptance::Good
}

/// What becomes of the place `a` that is acknowledged (RFC 9293, section 3.10.7.4, fifth).
pub fn accept(parts: &Parts, a: u128) -> Acceptance
    ensures { (e : Endpoint) → Valid e → Stands parts.now e → ack_verdict_of result ≡ ack_verdict e.tx a }
{
    accept_at(parts.una_place(), parts.max_place(), a)
}
