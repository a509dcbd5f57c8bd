//! A segment that comes past SYN-SENT, in all its steps.

ghost use Rattle.std.specs.Prelude.{◌≡◌, ℕ, List, ◌+◌, ◌-◌, ◌^◌, ◌<◌, ◌≤◌, ◌==◌, ◌&&◌, Some, nat_le, true, false};
ghost use Rattle.std.specs.Prelude.{length, min, if◌then◌else◌};
ghost use Rattle.payload_ring.specs.Window.{end_of, room_of};
ghost use Rattle.tas_model.specs.declared.entry.Reason.TheVariants as reasons;
ghost use Rattle.tas_model.specs.Endpoint.{Endpoint, phase, wnd};
ghost use Rattle.tas_model.specs.Segments.{acks, resets, is_fin};
ghost use Rattle.tas_model.specs.OneStream.{IsSynchronized};
ghost use Rattle.tas_model.specs.Receive.{rx, by_verdict, taken, bare_ack as model_bare_ack, Good, ack_verdict};
ghost use Rattle.tas_model.specs.Receive.{place_of_ack, BareAck, with_fin, is_fin_wait_2, is_heard as model_heard};
ghost use Rattle.tas_model.specs.Receive.{after_data as model_after_data};
ghost use Rattle.tas_model.specs.Valid.{Valid, ValidReceiving};
ghost use Rattle.flow_state.specs.Stands.{Stands, IsNear, HasRings};
ghost use Rattle.flow_state.specs.Calls.{seg_of, reply_of, answer_len};
ghost use Rattle.flow_state.specs.Made.{IsOutcome};
ghost use Rattle.fast_rx.specs.Judgements.{verdict_of, IsPlaced};
ghost use Rattle.fast_rx.specs.Phases.{phase_after_fin as model_phase};

use crate::acking::take_ack;
use crate::hearing::{Acceptance, Hearing, accept, acknowledged, hear, len_of};
use crate::keeping::take_data;
use flow_state::{Answer, Parts};
use segment_fields::Segment;
use tas_model::{Head, Phase, Reason};
use tas_num::Seq;

/// An ACK as it is made now.
fn ack_answer(parts: &Parts) -> Answer
    ensures reply { (out : List ℕ) (e : Endpoint) → Stands parts.now e → reply_of result out ≡ acks e }
    ensures len { answer_len result ≡ 0 }
{
    Answer::Sent {
        head: parts.ack_head(),
        len: 0,
    }
}

/// The reset of a segment that acknowledges what was not sent (RFC 9293, section 3.5.2).
fn reset_answer(ack: Seq) -> Answer
    ensures reply { (out : List ℕ) → reply_of result out ≡ resets ack }
    ensures len { answer_len result ≡ 0 }
{
    Answer::Sent {
        head: Head {
            flags: 4,
            seq: ack,
            ack: Seq(0),
            window: 0,
            mss: None,
            scale: None,
        },
        len: 0,
    }
}

/// The state once the peer's FIN is taken (RFC 9293, section 3.10.7.4, eighth).
fn phase_after_fin(phase: Phase) -> Phase
    ensures { result ≡ model_phase phase }
{
    match phase {
        Phase::Established => Phase::CloseWait,
        Phase::FinWait1 => Phase::Closing,
        Phase::FinWait2 => Phase::TimeWait,
        other => other,
    }
}

/// The tick at which TIME-WAIT began, once the peer's FIN is taken.
fn entered_after_fin(phase: Phase, entered: u32, tick: u32) -> u32
    ensures { result ≡ (if is_fin_wait_2 phase then tick else entered) }
{
    match phase {
        Phase::FinWait2 => tick,
        _ => entered,
    }
}

/// Takes the peer's FIN, behind all of its bytes.
fn take_fin(parts: &mut Parts, tick: u32)
    ensures stands { (e : Endpoint) → e.rx.ended ≡ false → Stands parts.old e
        → Stands parts.new (record e {
          rx = with_fin e.rx e.tx.shut;
          entered = if is_fin_wait_2 (phase e) then tick
              else e.entered;
        }) }
    ensures params { parts.new.params ≡ parts.old.params }
    ensures tuple { parts.new.tuple ≡ parts.old.tuple }
{
    parts.entered = entered_after_fin(parts.phase, parts.entered, tick);
    parts.phase = phase_after_fin(parts.phase);
    parts.island = None;
    parts.rcv = parts.rcv.plus(1);
}

/// Whether there is a FIN at the next place, and nothing before it lies past the window.
fn follows(fin: bool, at: u128, limit: u128, next: u128) -> bool
    ensures { result ≡ (fin && nat_le at limit && at == next) }
{
    fin && at <= limit && at == next
}

/// Takes the payload, whose first byte has the place `q`, and the FIN behind it. `ended` tells whether the peer's FIN
/// was taken before, and `window` what is advertised.
fn take_rest(parts: &mut Parts, seg: &Segment<'_>, q: u128, window: u32, ended: bool, tick: u32)
    requires ready { parts.old.rx.ready ≡ true }
    requires room { window ≤ room_of parts.old.rx }
    requires near { end_of parts.old.rx + 2 < 2 ^ 126 }
    requires far { q < 2 ^ 127 }
    ensures stands { (e : Endpoint) → ValidReceiving e.params.ring e.rx → ended ≡ e.rx.ended → Stands parts.old e
        → Stands parts.new (model_after_data e tick window q (seg_of seg.now)) }
    ensures params { parts.new.params ≡ parts.old.params }
    ensures tuple { parts.new.tuple ≡ parts.old.tuple }
{
    if ended {
        return;
    }
    let limit = parts.rx.end() + 1 + u128::from(window);
    take_data(parts, q, window, seg.payload);
    let last = q + seg.payload.len() as u128;
    if follows(seg.flags.is_fin(), last, limit, parts.rx.end() + 1) {
        take_fin(parts, tick);
    }
}

/// Whether the segment has payload or FIN, and so gets an answer.
fn is_heard(seg: &Segment<'_>) -> bool
    ensures { result ≡ model_heard (seg_of seg.now) }
{
    !seg.payload.is_empty() || seg.flags.is_fin()
}

/// Takes a segment whose acknowledgement of the place `a` is good.
fn take_good(parts: &mut Parts, seg: &Segment<'_>, a: u128, q: u128, tick: u32) -> Answer
    requires ready { parts.old.rx.ready ≡ true }
    requires near { IsNear parts.old }
    requires far { q < 2 ^ 127 }
    ensures made { (out : List ℕ) (e : Endpoint) → Valid e → Stands parts.old e → a ≡ place_of_ack e (seg_of seg.now)
        → ack_verdict e.tx a ≡ Good → IsOutcome parts.new result out (taken e tick q (seg_of seg.now) Good) }
    ensures len { answer_len result ≡ 0 }
    ensures params { parts.new.params ≡ parts.old.params }
    ensures tuple { parts.new.tuple ≡ parts.old.tuple }
{
    let window = parts.window();
    let ended = parts.is_ended();
    let offered = parts.offered_window(seg);
    take_ack(parts, a, q, len_of(seg), offered, ended, tick);
    take_rest(parts, seg, q, window, ended, tick);
    if !is_heard(seg) {
        return Answer::Nothing;
    }
    ack_answer(parts)
}

/// Takes a segment whose first number has the place `q`.
fn take(parts: &mut Parts, seg: &Segment<'_>, q: u128, tick: u32) -> Answer
    requires ready { parts.old.rx.ready ≡ true }
    requires near { IsNear parts.old }
    requires far { q < 2 ^ 127 }
    ensures made { (out : List ℕ) (e : Endpoint) → Valid e → Stands parts.old e
        → IsOutcome parts.new result out
        (taken e tick q (seg_of seg.now) (ack_verdict e.tx (place_of_ack e (seg_of seg.now)))) }
    ensures len { answer_len result ≡ 0 }
    ensures params { parts.new.params ≡ parts.old.params }
    ensures tuple { parts.new.tuple ≡ parts.old.tuple }
{
    let a = acknowledged(parts, seg);
    match accept(parts, a) {
        Acceptance::Stray => reset_answer(seg.ack),
        Acceptance::TooFar => ack_answer(parts),
        Acceptance::Good => take_good(parts, seg, a, q, tick),
    }
}

/// Takes the good acknowledgement of the place `a` alone, of a segment that comes in order to a window of 0.
fn take_bare(parts: &mut Parts, seg: &Segment<'_>, a: u128, tick: u32) -> Answer
    ensures made { (out : List ℕ) (e : Endpoint) → Valid e → Stands parts.old e → a ≡ place_of_ack e (seg_of seg.now)
        → ack_verdict e.tx a ≡ Good → IsOutcome parts.new result out (model_bare_ack e tick (seg_of seg.now) Good) }
    ensures len { answer_len result ≡ 0 }
    ensures params { parts.new.params ≡ parts.old.params }
    ensures tuple { parts.new.tuple ≡ parts.old.tuple }
{
    let next = parts.next_place();
    let ended = parts.is_ended();
    let offered = parts.offered_window(seg);
    take_ack(parts, a, next, len_of(seg), offered, ended, tick);
    ack_answer(parts)
}

/// Hears the acknowledgement alone.
fn bare_ack(parts: &mut Parts, seg: &Segment<'_>, tick: u32) -> Answer
    requires near { IsNear parts.old }
    ensures made { (out : List ℕ) (e : Endpoint) → Valid e → Stands parts.old e
        → IsOutcome parts.new result out (by_verdict e tick (seg_of seg.now) BareAck) }
    ensures len { answer_len result ≡ 0 }
    ensures params { parts.new.params ≡ parts.old.params }
    ensures tuple { parts.new.tuple ≡ parts.old.tuple }
{
    if !seg.flags.is_ack() {
        return ack_answer(parts);
    }
    let a = acknowledged(parts, seg);
    match accept(parts, a) {
        Acceptance::Stray => reset_answer(seg.ack),
        Acceptance::TooFar => ack_answer(parts),
        Acceptance::Good => take_bare(parts, seg, a, tick),
    }
}

/// The peer resets the connection.
fn reset(parts: &mut Parts)
    ensures stands { (e : Endpoint) → Stands parts.old e → Stands parts.new (record e { reason = Some reasons.Reset }) }
    ensures params { parts.new.params ≡ parts.old.params }
    ensures tuple { parts.new.tuple ≡ parts.old.tuple }
{
    parts.reason = Some(Reason::Reset);
    parts.phase = Phase::Closed;
}

/// Does what is to become of a segment.
fn receive_as(parts: &mut Parts, hearing: Hearing, seg: &Segment<'_>, tick: u32) -> Answer
    requires ready { parts.old.rx.ready ≡ true }
    requires near { IsNear parts.old }
    requires placed { IsPlaced hearing }
    ensures made { (out : List ℕ) (e : Endpoint) → Valid e → Stands parts.old e
        → IsOutcome parts.new result out (by_verdict e tick (seg_of seg.now) (verdict_of hearing)) }
    ensures len { answer_len result ≡ 0 }
    ensures params { parts.new.params ≡ parts.old.params }
    ensures tuple { parts.new.tuple ≡ parts.old.tuple }
{
    match hearing {
        Hearing::Dropped => Answer::Nothing,
        Hearing::Answered => ack_answer(parts),
        Hearing::Reset => {
            reset(parts);
            Answer::Nothing
        }
        Hearing::BareAck => bare_ack(parts, seg, tick),
        Hearing::Taken(q) => take(parts, seg, q, tick),
    }
}

/// Receives any segment in any state past SYN-SENT and before CLOSED (RFC 9293, section 3.10.7.4). `tick` is the time.
///
/// The parts then stand for the model's next endpoint, and the answer, which has no bytes, is its reply. No memory is
/// taken.

pub fn receive(parts: &mut Parts, seg: &Segment<'_>, tick: u32) -> Answer
    requires later { IsSynchronized parts.old.phase }
    requires near { IsNear parts.old }
    requires rings { HasRings parts.old }
    ensures made { (out : List ℕ) (e : Endpoint) → Valid e → Stands parts.old e
        → IsOutcome parts.new result out (rx e tick (seg_of seg.now)) }
    ensures len { answer_len result ≡ 0 }
    ensures params { parts.new.params ≡ parts.old.params }
    ensures tuple { parts.new.tuple ≡ parts.old.tuple }
{
    let hearing = hear(parts, seg);
    receive_as(parts, hearing, seg, tick)
}
