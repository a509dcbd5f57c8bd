//! Calls at a record, and ticks that pass for it.

ghost use Rattle.std.specs.Prelude.{◌≡◌, OnOk, IfOk, []};
ghost use Rattle.tas_model.specs.declared.entry.Call.TheVariants as calls;
ghost use Rattle.tas_model.specs.declared.entry.Caller.TheVariants.{Slow};
ghost use Rattle.flow_state.specs.declared.call.CallIn.TheVariants as ins;
ghost use Rattle.flow_state.specs.Calls.{call_of, offer_of, answer_of, IsSmall, IsTimely};
ghost use Rattle.flow_state.specs.Flow.{reply_to};
ghost use Rattle.tas_model.specs.LegalHistory.{Legal};
ghost use Rattle.local_host.specs.Live.{flow_in, called, took};

use flow_state::{Answer, CallIn, Engine, FlowRecord};
use slow_timeout::TimerWork;
use std::alloc::AllocError;
use tas_model::Caller;

/// The record makes a call that the engine answers. The error is want of memory.
pub fn make<E: Engine>(
    flow: &mut FlowRecord,
    caller: Caller,
    tick: u32,
    call: &CallIn<'_>,
    engine: &E,
) -> Result<Answer, AllocError>
    requires small { IsSmall call.now }
    requires timely { IsTimely flow.old.parts.phase call.now }
    requires serves { E.serves engine.now flow.old.parts call.now }
    ensures made { OnOk result (flow_in flow.new ≡ called (flow_in flow.old) caller tick (call_of call.now)
        (offer_of call.now)) }
    ensures legal { Legal flow.new.params flow.new.entries }
    ensures params { flow.new.params ≡ flow.old.params }
    ensures answer { IfOk result (λ a. a ≡ answer_of
        (reply_to flow.old.params flow.old.entries tick (call_of call.now) (offer_of call.now))) }
{
    match flow.act(caller, tick, call, engine)? {
        Some(answer) => Ok(answer),
        None => unreachable!(),
    }
}

/// One tick passes for the record of a flow that is not closed. The error is want of memory.
pub fn pass_one(flow: &mut FlowRecord, tick: u32) -> Result<(), AllocError>
    requires { IsTimely flow.old.parts.phase ins.Tick }
    ensures made { OnOk result (flow_in flow.new ≡ called (flow_in flow.old) Slow tick calls.Tick []) }
    ensures legal { Legal flow.new.params flow.new.entries }
    ensures params { flow.new.params ≡ flow.old.params }
{
    // Most ticks lengthen a run.
    if flow.pass_quietly(tick, 1, &TimerWork) > 0 {
        return Ok(());
    }
    make(flow, Caller::Slow, tick, &CallIn::Tick, &TimerWork)?;
    Ok(())
}

/// How many bytes a Send with this answer took.
pub fn taken(answer: Answer) -> usize
    ensures { result ≡ took answer }
{
    match answer {
        Answer::Took { len } => len as usize,
        _ => 0,
    }
}
