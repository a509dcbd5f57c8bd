//! A segment that comes in SYN-SENT (RFC 9293, section 3.10.7.3).

ghost use Rattle.std.specs.Prelude.{◌≡◌, ℕ, List, ◌==◌, ◌&&◌, Some, None, nat_le, if◌then◌else◌};
ghost use Rattle.tas_model.specs.declared.entry.Phase.TheVariants as phases;
ghost use Rattle.tas_model.specs.declared.entry.Reason.TheVariants as reasons;
ghost use Rattle.tas_model.specs.declared.entry.Reply.TheVariants as replies;
ghost use Rattle.tas_model.specs.Endpoint.{Endpoint, phase};
ghost use Rattle.tas_model.specs.Segments.{is_rst, resets, acks};
ghost use Rattle.tas_model.specs.Receive.{place_of_ack, connected, rx_syn_sent};
ghost use Rattle.tas_model.specs.Valid.{Valid};
ghost use Rattle.flow_state.specs.Stands.{Stands, IsNear};
ghost use Rattle.flow_state.specs.Calls.{seg_of, reply_of, answer_len};
ghost use Rattle.flow_state.specs.Made.{IsOutcome};

use crate::strays::reset;
use flow_state::{Answer, Parts};
use segment_fields::{Flags, Segment};
use tas_model::{Phase, Reason};
use tas_num::{Seq, place};

/// Whether the segment acknowledges the own SYN, and that was sent.
fn acknowledges_syn(parts: &Parts, seg: &Segment<'_>) -> bool
    requires { IsNear parts.now }
    ensures { (e : Endpoint) → Valid e → Stands parts.now e
        → result ≡ (place_of_ack e (seg_of seg.now) == 1 && nat_le 1 e.tx.max) }
{
    let max = parts.max_place();
    let acknowledged = place(max, Seq(seg.ack.minus(parts.iss))).unwrap_or(0);
    acknowledged == 1 && max >= 1
}

/// The answer to a segment that acknowledges what was not sent: a reset, but none to a reset.
fn refused(seg: &Segment<'_>) -> Answer
    ensures reply { (out : List ℕ)
        → reply_of result out ≡ (if is_rst (seg_of seg.now) then replies.Nothing else resets seg.now.ack) }
    ensures len { answer_len result ≡ 0 }
{
    if seg.flags.is_rst() {
        return Answer::Nothing;
    }
    Answer::Sent {
        head: reset(Flags::RST, seg.ack, Seq(0)),
        len: 0,
    }
}

/// The peer refuses the connection.
fn refuse(parts: &mut Parts)
    ensures stands { (e : Endpoint) → Stands parts.old e
        → Stands parts.new (record e { reason = Some reasons.Refused }) }
    ensures params { parts.new.params ≡ parts.old.params }
    ensures tuple { parts.new.tuple ≡ parts.old.tuple }
{
    parts.reason = Some(Reason::Refused);
    parts.phase = Phase::Closed;
}

/// The state once both SYNs are acknowledged.
fn phase_after_syn(ended: bool) -> Phase
    ensures { result ≡ (if ended then phases.CloseWait else phases.Established) }
{
    if ended {
        Phase::CloseWait
    } else {
        Phase::Established
    }
}

/// The peer's SYN, which acknowledges the own one.
fn take_syn(parts: &mut Parts, seg: &Segment<'_>)
    ensures stands { (e : Endpoint) → Valid e → Stands parts.old e → phase e ≡ phases.SynSent
        → Stands parts.new (connected e (seg_of seg.now)) }
    ensures params { parts.new.params ≡ parts.old.params }
    ensures tuple { parts.new.tuple ≡ parts.old.tuple }
{
    let nxt = parts.nxt_place().max(1);
    let phase = phase_after_syn(parts.is_ended());
    let window = parts.offered_window(seg);
    parts.agree_scaling(seg.scale);
    parts.begin_rate(seg.mss);
    parts.phase = phase;
    parts.rcv = seg.seq.plus(parts.rcv.minus(parts.irs));
    parts.irs = seg.seq;
    parts.una = parts.iss.plus(1);
    parts.nxt = parts.iss.plus((nxt % 0x1_0000_0000) as u32);
    parts.window = window;
    parts.wl1 = 0;
    parts.wl2 = 1;
    parts.age = 0;
    parts.tries = 0;
}

/// The peer's SYN connects, and is acknowledged.
fn connect(parts: &mut Parts, seg: &Segment<'_>) -> Answer
    ensures made { (out : List ℕ) (e : Endpoint) → Valid e → Stands parts.old e → phase e ≡ phases.SynSent
        → IsOutcome parts.new result out (record {
          state = connected e (seg_of seg.now);
          reply = acks (connected e (seg_of seg.now));
        }) }
    ensures len { answer_len result ≡ 0 }
    ensures params { parts.new.params ≡ parts.old.params }
    ensures tuple { parts.new.tuple ≡ parts.old.tuple }
{
    take_syn(parts, seg);
    Answer::Sent {
        head: parts.ack_head(),
        len: 0,
    }
}

/// A segment that arrives in SYN-SENT (RFC 9293, section 3.10.7.3): first the acknowledgement is looked at, then the
/// reset, then the SYN.
#[tactic(auto, unfolding(tas_model::specs::Receive::rx_syn_sent))]
pub fn receive_in_syn_sent(parts: &mut Parts, seg: &Segment<'_>) -> Answer
    requires { IsNear parts.old }
    ensures made { (out : List ℕ) (e : Endpoint) → Valid e → Stands parts.old e → phase e ≡ phases.SynSent
        → IsOutcome parts.new result out (rx_syn_sent e (seg_of seg.now)) }
    ensures len { answer_len result ≡ 0 }
    ensures params { parts.new.params ≡ parts.old.params }
    ensures tuple { parts.new.tuple ≡ parts.old.tuple }
{
    if !seg.flags.is_ack() {
        return Answer::Nothing;
    }
    if !acknowledges_syn(parts, seg) {
        return refused(seg);
    }
    if seg.flags.is_rst() {
        refuse(parts);
        return Answer::Nothing;
    }
    if !seg.flags.is_syn() {
        return Answer::Nothing;
    }
    connect(parts, seg)
}
