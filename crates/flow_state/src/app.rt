//! The engine of an application's calls (RFC 9293, section 3.9.1).

ghost use Rattle.std.specs.Prelude.{◌≡◌, ℕ, List, true};
ghost use Rattle.tas_model.specs.Endpoint.{Endpoint};
ghost use Rattle.tas_model.specs.ApplicationCalls.{column, accept_in, ready_in};
ghost use Rattle.flow_state.specs.Stands.{Stands};
ghost use Rattle.flow_state.specs.Calls.{answer_len, is_running};
ghost use Rattle.flow_state.specs.Made.{IsOutcome, IsStep};

use crate::app_end::{abort, close, shut};
use crate::app_recv::recv;
use crate::app_send::send;
use crate::call::{Answer, CallIn};
use crate::engine::Engine;
use crate::parts::Parts;
use crate::stage::Stage;

/// The engine of the calls of an application (RFC 9293, section 3.9.1): Accept, Ready, Send, Recv, Shut, Close and
/// Abort. It answers `None` exactly on the other calls.
#[derive(Clone, Copy)]
pub struct AppCalls;

/// Accept, where the connection stands.
fn accept(parts: &Parts) -> Answer
    requires { is_running parts.now.phase ≡ true }
    ensures made { (out : List ℕ) (e : Endpoint) → Stands parts.now e
        → IsStep parts.now result out (accept_in (column e) e) }
    ensures len { answer_len result ≡ 0 }
{
    let _phase = parts.phase;
    Answer::Ok
}

/// Ready in any phase.
fn ready(parts: &Parts) -> Answer
    ensures made { (out : List ℕ) (e : Endpoint) → Stands parts.now e
        → IsOutcome parts.now result out (ready_in (column e) e) }
    ensures len { answer_len result ≡ 0 }
{
    match parts.stage() {
        Stage::Opening => Answer::NotYet,
        Stage::Over(reason) => Answer::Closed { reason },
        Stage::Running => Answer::Ok,
    }
}

impl Engine for AppCalls {
    ghost use Rattle.flow_state.specs.App.{IsAppCall};

    ghost serves = { λ _ _ call. IsAppCall call };

    #[tactic(auto, unfolding(tas_model::specs::LegalHistory::step))]
    fn run(
        &self,
        parts: &mut Parts,
        _tick: u32,
        call: &CallIn<'_>,
        out: &mut [u8],
    ) -> Option<Answer> {
        match call {
            CallIn::Accept => Some(accept(parts)),
            CallIn::Ready => Some(ready(parts)),
            CallIn::Send { bytes } => Some(send(parts, bytes, out)),
            CallIn::Recv { most } => Some(recv(parts, *most, out)),
            CallIn::Shut => Some(shut(parts)),
            CallIn::Close => Some(close(parts)),
            CallIn::Abort => Some(abort(parts)),
            _ => None,
        }
    }
}
