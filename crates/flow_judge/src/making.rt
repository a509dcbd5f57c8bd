//! A call of a history is made again, by the engine that serves it.

ghost use Rattle.std.specs.Prelude.{◌≡◌, IfOk, true, false};
ghost use Rattle.tas_model.specs.declared.entry.Call.TheVariants as calls;
ghost use Rattle.tas_model.specs.LegalHistory.{replay};
ghost use Rattle.flow_state.specs.Calls.{IsSmall, IsTimely, is_running as model_running, is_closed_phase};
ghost use Rattle.flow_state.specs.declared.call.CallIn.TheVariants as ins;
ghost use Rattle.flow_judge.specs.Making.{IsMade, HasNoStep, is_running_stage};

use fast_tx::FastTx;
use flow_state::{Answer, AppCalls, CallIn, Engine, FlowRecord, Stage};
use slow_handshake::SlowRx;
use slow_timeout::TimerWork;
use std::alloc::AllocError;
use tas_model::Caller;

/// Whether a connection stands at this stage.
fn is_standing(stage: Stage) -> bool
    ensures { result ≡ is_running_stage stage }
{
    matches!(stage, Stage::Running)
}

/// Whether the connection stands: Accept and Control are steps there alone.
fn is_running(flow: &FlowRecord) -> bool
    ensures running { result ≡ true → model_running flow.now.parts.phase ≡ true }
    ensures accept { result ≡ false → HasNoStep (replay flow.now.params flow.now.entries) calls.Accept }
    ensures control { result ≡ false → HasNoStep (replay flow.now.params flow.now.entries) calls.Control }
{
    is_standing(flow.parts().stage())
}

/// Whether it is CLOSED: Tick is no step there.
fn is_closed(flow: &FlowRecord) -> bool
    ensures open { result ≡ false → is_closed_phase flow.now.parts.phase ≡ false }
    ensures closed { result ≡ true → HasNoStep (replay flow.now.params flow.now.entries) calls.Tick }
{
    flow.parts().is_closed()
}

/// A call that the engine answers. The error is want of memory.
fn served<E: Engine>(
    flow: &mut FlowRecord,
    caller: Caller,
    tick: u32,
    call: &CallIn<'_>,
    engine: &E,
) -> Result<Option<Answer>, AllocError>
    requires small { IsSmall call.now }
    requires timely { IsTimely flow.old.parts.phase call.now }
    requires serves { E.serves engine.now flow.old.parts call.now }
    ensures made { IfOk result (λ r. IsMade r flow.old flow.new caller tick call.now) }
    ensures params { flow.new.params ≡ flow.old.params }
{
    match flow.act(caller, tick, call, engine)? {
        Some(answer) => Ok(Some(answer)),
        None => unreachable!(),
    }
}

/// The next segment is sent, where there is one.
fn emitted(flow: &mut FlowRecord, caller: Caller, tick: u32) -> Result<Option<Answer>, AllocError>
    ensures made { IfOk result (λ r. IsMade r flow.old flow.new caller tick ins.Emit) }
    ensures params { flow.new.params ≡ flow.old.params }
{
    let _parts = flow.parts();
    let answer = flow.act(caller, tick, &CallIn::Emit, &FastTx)?;
    Ok(answer)
}

/// Makes the call by the engine that answers such calls. `None`: it is no step of the endpoint. The error is want of
/// memory.
#[tactic(auto, unfolding(tas_model::specs::LegalHistory::step))]
pub fn make(
    flow: &mut FlowRecord,
    caller: Caller,
    tick: u32,
    call: &CallIn<'_>,
) -> Result<Option<Answer>, AllocError>
    requires small { IsSmall call.now }
    ensures made { IfOk result (λ r. IsMade r flow.old flow.new caller tick call.now) }
    ensures params { flow.new.params ≡ flow.old.params }
{
    match call {
        CallIn::Connect { .. } | CallIn::Passive { .. } => Ok(None),
        CallIn::Rx { .. } => served(flow, caller, tick, call, &SlowRx),
        CallIn::Emit => emitted(flow, caller, tick),
        CallIn::Tick => {
            if is_closed(flow) {
                return Ok(None);
            }
            served(flow, caller, tick, call, &TimerWork)
        }
        CallIn::Control => {
            if !is_running(flow) {
                return Ok(None);
            }
            served(flow, caller, tick, call, &TimerWork)
        }
        CallIn::Accept => {
            if !is_running(flow) {
                return Ok(None);
            }
            served(flow, caller, tick, call, &AppCalls)
        }
        _ => served(flow, caller, tick, call, &AppCalls),
    }
}
