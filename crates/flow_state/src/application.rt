//! Which application a flow belongs to.

ghost use Rattle.std.specs.Prelude.{◌≡◌, ℕ, List};
ghost use Rattle.flow_state.specs.Application.{got_by as model_got_by};
ghost use Rattle.flow_state.specs.Calls.{call_of, reply_of};

use crate::call::{Answer, CallIn};
use tas_model::Caller;

/// The application that gets a flow by this call, as it is answered.
pub(crate) fn got_by(caller: Caller, call: &CallIn<'_>, answer: &Answer) -> Option<u32>
    ensures { (out : List ℕ) → result ≡ model_got_by caller (call_of call.now) (reply_of answer.now out) }
{
    let Caller::App(app) = caller else {
        return None;
    };
    match (call, answer) {
        (CallIn::Connect { .. }, _) | (CallIn::Accept, Answer::Ok) => Some(app),
        _ => None,
    }
}
