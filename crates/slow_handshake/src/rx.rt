//! The engine of every segment that comes.

ghost use Rattle.std.specs.Prelude.{◌≡◌, ℕ, List};
ghost use Rattle.tas_model.specs.Endpoint.{Endpoint};
ghost use Rattle.tas_model.specs.Segments.{stray_reply};
ghost use Rattle.tas_model.specs.Receive.{rx};
ghost use Rattle.tas_model.specs.Valid.{Valid};
ghost use Rattle.flow_state.specs.Stands.{Stands, IsNear, HasRings};
ghost use Rattle.flow_state.specs.Calls.{seg_of, reply_of, answer_len};
ghost use Rattle.flow_state.specs.Made.{IsOutcome};

use crate::strays::stray;
use crate::syn_sent::receive_in_syn_sent;
use flow_state::{Answer, CallIn, Engine, Parts};
use segment_fields::Segment;
use tas_model::Phase;

/// The engine of every segment that a flow receives, in every state (RFC 9293, section 3.10.7). It answers `None`
/// exactly on the other calls.
#[derive(Clone, Copy)]
pub struct SlowRx;

/// The answer in CLOSED, where nothing changes.
fn receive_in_closed(seg: &Segment<'_>) -> Answer
    ensures reply { (out : List ℕ) → reply_of result out ≡ stray_reply (seg_of seg.now) }
    ensures len { answer_len result ≡ 0 }
{
    match stray(seg, false) {
        Some(head) => Answer::Sent { head, len: 0 },
        None => Answer::Nothing,
    }
}

/// A segment that arrives in any state.
#[tactic(auto, unfolding(tas_model::specs::Receive::rx))]
fn receive(parts: &mut Parts, seg: &Segment<'_>, tick: u32) -> Answer
    requires near { IsNear parts.old }
    requires rings { HasRings parts.old }
    ensures made { (out : List ℕ) (e : Endpoint) → Valid e → Stands parts.old e
        → IsOutcome parts.new result out (rx e tick (seg_of seg.now)) }
    ensures len { answer_len result ≡ 0 }
    ensures params { parts.new.params ≡ parts.old.params }
    ensures tuple { parts.new.tuple ≡ parts.old.tuple }
{
    match parts.phase {
        Phase::Closed => receive_in_closed(seg),
        Phase::SynSent => receive_in_syn_sent(parts, seg),
        _ => fast_rx::receive(parts, seg, tick),
    }
}

impl Engine for SlowRx {
    ghost use Rattle.slow_handshake.specs.Heard.{IsRx};

    ghost serves = { λ _ _ call. IsRx call };

    #[tactic(auto, unfolding(tas_model::specs::LegalHistory::step))]
    fn run(
        &self,
        parts: &mut Parts,
        tick: u32,
        call: &CallIn<'_>,
        _out: &mut [u8],
    ) -> Option<Answer> {
        match call {
            CallIn::Rx { seg, .. } => Some(receive(parts, seg, tick)),
            _ => None,
        }
    }
}
