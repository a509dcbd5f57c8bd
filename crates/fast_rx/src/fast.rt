//! The fast path: which segments are its own, and why others are left to the slow path.

ghost use Rattle.std.specs.Prelude.{◌≡◌, ℕ, List, ◌+◌, ◌^◌, ◌<◌, IsTrue, IsSome, Some, None};
ghost use Rattle.tas_model.specs.Endpoint.{Endpoint};
ghost use Rattle.tas_model.specs.OneStream.{IsSynchronized};
ghost use Rattle.tas_model.specs.Receive.{rx};
ghost use Rattle.tas_model.specs.Valid.{Valid};
ghost use Rattle.flow_state.specs.Stands.{Stands, IsNear, HasRings};
ghost use Rattle.flow_state.specs.Calls.{seg_of, answer_len};
ghost use Rattle.flow_state.specs.Made.{IsOutcome};
ghost use Rattle.fast_rx.specs.Exceptions.{is_control as model_control, is_common as model_common};
ghost use Rattle.fast_rx.specs.Exceptions.{exception as model_exception, why_of, OnDone};

use crate::receiving::receive;
use flow_state::{Answer, CallIn, Engine, Parts};
use segment_fields::Segment;
use tas_model::Phase;

/// Why a segment is left to the slow path. The first that applies is given.
#[derive(Clone, Copy, PartialEq, Eq, Debug)]
pub enum Why {
    /// SYN, FIN, RST or URG is set.
    Control,
    /// ACK isn't set.
    NoAck,
    /// The state isn't ESTABLISHED, FIN-WAIT-1, FIN-WAIT-2 or CLOSE-WAIT.
    Phase,
}

/// What the fast path makes of a segment.
#[derive(Clone, Copy, PartialEq, Eq, Debug)]
pub enum FastAnswer {
    /// It was received, and this is the reply.
    Done(Answer),
    /// It is left to the slow path, and nothing changed.
    Exception(Why),
}

/// Whether the segment begins, ends or breaks a connection, or is urgent.
fn is_control(seg: &Segment<'_>) -> bool
    ensures { result ≡ model_control seg.now }
{
    seg.flags.is_syn() || seg.flags.is_fin() || seg.flags.is_rst() || seg.flags.is_urg()
}

/// Whether data and acknowledgements of data commonly come in this state.
fn is_common(phase: Phase) -> bool
    ensures common { result ≡ model_common phase }
    ensures later { IsTrue result → IsSynchronized phase }
{
    matches!(
        phase,
        Phase::Established | Phase::FinWait1 | Phase::FinWait2 | Phase::CloseWait
    )
}

/// Why the segment is left to the slow path, where it is.
fn exception(phase: Phase, seg: &Segment<'_>) -> Option<Why>
    ensures why { result ≡ model_exception phase seg.now }
    ensures later { result ≡ None → IsSynchronized phase }
{
    if is_control(seg) {
        return Some(Why::Control);
    }
    if !seg.flags.is_ack() {
        return Some(Why::NoAck);
    }
    if is_common(phase) {
        None
    } else {
        Some(Why::Phase)
    }
}

/// Receives a segment in the common case (RFC 9293, section 3.10.7.4): one with ACK and without SYN, FIN, RST and URG,
/// in ESTABLISHED, FIN-WAIT-1, FIN-WAIT-2 or CLOSE-WAIT. `tick` is the time.
///
/// `Done`: the parts stand for the model's next endpoint, and the answer, which has no bytes, is its reply.
/// `Exception`: nothing changed. No memory is taken.
pub fn fast_rx(parts: &mut Parts, seg: &Segment<'_>, tick: u32) -> FastAnswer
    requires near { IsNear parts.old }
    requires rings { HasRings parts.old }
    ensures why { why_of result ≡ model_exception parts.old.phase seg.now }
    ensures done { OnDone result (λ answer. (out : List ℕ) (e : Endpoint) → Valid e → Stands parts.old e
        → IsOutcome parts.new answer out (rx e tick (seg_of seg.now))) }
    ensures len { OnDone result (λ answer. answer_len answer ≡ 0) }
    ensures exception { IsSome (why_of result) → parts.new ≡ parts.old }
    ensures params { parts.new.params ≡ parts.old.params }
    ensures tuple { parts.new.tuple ≡ parts.old.tuple }
{
    match exception(parts.phase, seg) {
        Some(why) => FastAnswer::Exception(why),
        None => FastAnswer::Done(receive(parts, seg, tick)),
    }
}

/// The engine of the fast path: it answers exactly the received segments that `fast_rx` does.
#[derive(Clone, Copy)]
pub struct FastRx;

impl Engine for FastRx {
    ghost use Rattle.fast_rx.specs.Exceptions.{IsCommon};

    ghost serves = { λ _ parts call. IsCommon parts call };

    #[tactic(auto, unfolding(tas_model::specs::LegalHistory::step))]
    fn run(
        &self,
        parts: &mut Parts,
        tick: u32,
        call: &CallIn<'_>,
        _out: &mut [u8],
    ) -> Option<Answer> {
        match call {
            CallIn::Rx { seg, .. } => match fast_rx(parts, seg, tick) {
                FastAnswer::Done(answer) => Some(answer),
                FastAnswer::Exception(_) => None,
            },
            _ => None,
        }
    }
}
