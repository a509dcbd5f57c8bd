//! Shut, Close and Abort (RFC 9293, sections 3.9.1.4 and 3.9.1.6).

ghost use Rattle.std.specs.Prelude.{◌≡◌, ℕ, List};
ghost use Rattle.tas_model.specs.declared.entry.Reason.TheVariants as reasons;
ghost use Rattle.tas_model.specs.Endpoint.{Endpoint};
ghost use Rattle.tas_model.specs.ApplicationCalls.{column, Running, shut_in, close_in, abort_in, shutting, ended_by};
ghost use Rattle.tas_model.specs.ApplicationCalls.{abort_reply};
ghost use Rattle.tas_model.specs.Valid.{Valid};
ghost use Rattle.flow_state.specs.Stands.{Stands};
ghost use Rattle.flow_state.specs.Calls.{reply_of, answer_len};
ghost use Rattle.flow_state.specs.Made.{IsOutcome};
ghost use Rattle.flow_state.specs.App.{phase_after_shut};

use crate::call::Answer;
use crate::parts::Parts;
use crate::stage::Stage;
use tas_model::{Head, Phase, Reason};
use tas_num::Seq;

/// Shut in any phase: the own stream ends, the peer's goes on.
pub fn shut(parts: &mut Parts) -> Answer
    ensures made { (out : List ℕ) (e : Endpoint) → Valid e → Stands parts.old e
        → IsOutcome parts.new result out (shut_in (column e) e) }
    ensures len { answer_len result ≡ 0 }
    ensures params { parts.new.params ≡ parts.old.params }
    ensures tuple { parts.new.tuple ≡ parts.old.tuple }
{
    match parts.stage() {
        Stage::Opening => Answer::NotOpen,
        Stage::Over(reason) => Answer::Closed { reason },
        Stage::Running => shut_open(parts),
    }
}

/// Shut where the connection stands.
fn shut_open(parts: &mut Parts) -> Answer
    ensures made { (out : List ℕ) (e : Endpoint) → Valid e → Stands parts.old e → column e ≡ Running
        → IsOutcome parts.new result out (shut_in Running e) }
    ensures len { answer_len result ≡ 0 }
    ensures params { parts.new.params ≡ parts.old.params }
    ensures tuple { parts.new.tuple ≡ parts.old.tuple }
{
    if parts.is_shut() {
        return Answer::Shut;
    }
    end_stream(parts);
    Answer::Ok
}

/// Close in any phase: the application leaves (RFC 9293, section 3.10.4).
pub fn close(parts: &mut Parts) -> Answer
    ensures made { (out : List ℕ) (e : Endpoint) → Valid e → Stands parts.old e
        → IsOutcome parts.new result out (close_in (column e) e) }
    ensures len { answer_len result ≡ 0 }
    ensures params { parts.new.params ≡ parts.old.params }
    ensures tuple { parts.new.tuple ≡ parts.old.tuple }
{
    match parts.stage() {
        Stage::Opening => give_up(parts),
        Stage::Over(_) => {}
        Stage::Running => end_stream(parts),
    }
    Answer::Ok
}

/// Ends the own stream, where it stands still.
fn end_stream(parts: &mut Parts)
    ensures stands { (e : Endpoint) → Valid e → Stands parts.old e → column e ≡ Running
        → Stands parts.new (shutting e) }
    ensures params { parts.new.params ≡ parts.old.params }
    ensures tuple { parts.new.tuple ≡ parts.old.tuple }
{
    parts.phase = after_shut(parts.phase);
}

fn after_shut(phase: Phase) -> Phase
    ensures { result ≡ phase_after_shut phase }
{
    match phase {
        Phase::Established => Phase::FinWait1,
        Phase::CloseWait => Phase::LastAck,
        other => other,
    }
}

/// Abort in any phase (RFC 9293, section 3.10.5): a peer that may still send is told.
pub fn abort(parts: &mut Parts) -> Answer
    ensures made { (out : List ℕ) (e : Endpoint) → Stands parts.old e
        → IsOutcome parts.new result out (abort_in (column e) e) }
    ensures len { answer_len result ≡ 0 }
    ensures params { parts.new.params ≡ parts.old.params }
    ensures tuple { parts.new.tuple ≡ parts.old.tuple }
{
    if let Some(reason) = parts.reason {
        return Answer::Closed { reason };
    }
    let answer = abort_answer(parts);
    give_up(parts);
    answer
}

/// The connection is over, by the own application.
fn give_up(parts: &mut Parts)
    ensures stands { (e : Endpoint) → Stands parts.old e → Stands parts.new (ended_by e reasons.Aborted) }
    ensures params { parts.new.params ≡ parts.old.params }
    ensures tuple { parts.new.tuple ≡ parts.old.tuple }
{
    parts.reason = Some(Reason::Aborted);
    parts.phase = Phase::Closed;
}

/// A reset to a peer that may still send.
fn abort_answer(parts: &Parts) -> Answer
    ensures reply { (out : List ℕ) (e : Endpoint) → Stands parts.now e → reply_of result out ≡ abort_reply e }
    ensures len { answer_len result ≡ 0 }
{
    match parts.phase {
        Phase::SynReceived
        | Phase::Established
        | Phase::FinWait1
        | Phase::FinWait2
        | Phase::CloseWait => Answer::Sent {
            head: Head {
                flags: 4,
                seq: parts.max,
                ack: Seq(0),
                window: 0,
                mss: None,
                scale: None,
            },
            len: 0,
        },
        _ => Answer::Nothing,
    }
}
