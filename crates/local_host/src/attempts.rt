//! Calls that applications try while cores take frames.

ghost use Rattle.std.specs.Prelude.{◌≡◌, ◌++◌, ◌∷◌, ◌+◌, ◌<◌, ◌^◌, [], List, All, map, Option, IfOk, OnOk};
ghost use Rattle.host_rounds.specs.Hosts.{Live};
ghost use Rattle.local_host.specs.declared.attempts.Attempt as specs;
ghost use Rattle.local_host.specs.declared.attempts.Trial as trials;
ghost use Rattle.local_host.specs.Trying.{AreLent, CanTry, attempt_of, put_trial, put_trials, tried_trial};
ghost use Rattle.local_host.specs.Trying.{answer_to, tried_live, IsTryable};

use crate::jobs::{is_indexed, next_stand_in};
use crate::live::{Holder, LiveFlow};
use flow_state::{Answer, CallIn};
use std::alloc::{AllocError, Global};
use std::mem;
use tas_model::Caller;
use tas_num::Gate;

/// A call that an application tries while cores take frames.
#[derive(Clone, Copy)]
pub struct Attempt<'a> {
    /// The place of its flow on the host.
    pub place: usize,
    /// The application's number.
    pub app: u32,
    /// Send, Recv, Shut, or Close or Abort, which give the socket up.
    pub call: CallIn<'a>,
    /// The answer, once it was made. A flow that a core has makes none.
    pub answer: Option<Answer>,
}

/// An attempt, and its flow while the application's worker has that.
#[derive(Drop)]
pub struct Trial<'a> {
    pub attempt: Option<Attempt<'a>>,
    pub flow: Option<LiveFlow>,
}

/// The trial of an attempt. It has the attempt's flow where the index has that, so that neither a core nor another
/// trial does, and another one stands in for it. The error is want of memory.
pub fn lend<'a>(
    alloc: Global,
    flows: &mut Vec<LiveFlow>,
    spare: &mut Vec<LiveFlow>,
    attempt: Option<Attempt<'a>>,
) -> Result<Trial<'a>, AllocError>
    ensures { (first : List Live) (given : List (Option specs.Attempt)) (trials : List trials.Trial)
        → AreLent first flows.old.items given trials → IfOk result (λ trial.
        AreLent first flows.new.items (given ++ attempt.entry ∷ []) (trials ++ trial ∷ [])) }
{
    let Some(tried) = attempt else {
        return Ok(Trial {
            attempt,
            flow: None,
        });
    };
    if !is_indexed(flows, tried.place) {
        return Ok(Trial {
            attempt,
            flow: None,
        });
    }
    let stand_in = next_stand_in(alloc, spare)?;
    let flow = mem::replace(&mut flows[tried.place], stand_in);
    Ok(Trial {
        attempt,
        flow: Some(flow),
    })
}

/// An application's worker makes its attempts. The gate's points are `point` before each and one more after it. The
/// error is want of memory.
pub fn make_all<G: Gate>(
    trials: &mut [Trial<'_>],
    point: u32,
    tick: u32,
    gate: &G,
) -> Result<(), AllocError>
    requires point { point + 1 < 2 ^ 32 }
    requires tries { All CanTry trials.old }
    ensures { OnOk result (trials.new ≡ map (tried_trial tick) trials.old) }
{
    for k in 0..trials.len() {
        make_one(&mut trials[k], point, tick, gate)?;
    }
    Ok(())
}

fn make_one<G: Gate>(
    trial: &mut Trial<'_>,
    point: u32,
    tick: u32,
    gate: &G,
) -> Result<(), AllocError>
    requires point { point + 1 < 2 ^ 32 }
    requires tries { CanTry trial.old }
    ensures { OnOk result (trial.new ≡ tried_trial tick trial.old) }
{
    if trial.attempt.is_none() {
        return Ok(());
    }
    gate.pass(point);
    make(trial, tick)?;
    gate.pass(point + 1);
    Ok(())
}

/// An attempt is made, where it has its flow. The error is want of memory.
fn make(trial: &mut Trial<'_>, tick: u32) -> Result<(), AllocError>
    requires { CanTry trial.old }
    ensures { OnOk result (trial.new ≡ tried_trial tick trial.old) }
{
    let Some(attempt) = trial.attempt else {
        return Ok(());
    };
    let Some(flow) = trial.flow.take() else {
        return Ok(());
    };
    let mut flow = flow;
    let answer = try_call(&mut flow, &attempt, tick)?;
    trial.attempt = Some(Attempt {
        answer: Some(answer),
        ..attempt
    });
    trial.flow = Some(flow);
    Ok(())
}

/// The flow makes the attempt's call, and is given up where that ends it. The error is want of memory.
fn try_call(flow: &mut LiveFlow, attempt: &Attempt<'_>, tick: u32) -> Result<Answer, AllocError>
    requires { IsTryable attempt.now.call }
    ensures made { OnOk result (flow.new ≡ tried_live tick attempt.now flow.old) }
    ensures answer { IfOk result (λ a. a ≡ answer_to tick attempt.now flow.old) }
{
    let answer = flow.ask(Caller::App(attempt.app), tick, &attempt.call)?;
    if let CallIn::Close | CallIn::Abort = attempt.call {
        flow.hold(Holder::GivenUp);
    }
    Ok(answer)
}

/// The flows of trials go back to their places, and what stood in for them is kept. The answer are the attempts. The
/// error is want of memory.
pub fn put_tried<'a>(
    flows: &mut Vec<LiveFlow>,
    spare: &mut Vec<LiveFlow>,
    attempts: &mut Vec<Option<Attempt<'a>>>,
    trials: Vec<Trial<'a>>,
) -> Result<(), AllocError>
    ensures flows { OnOk result (flows.new.items ≡ put_trials trials.entry.items flows.old.items) }
    ensures attempts { OnOk result (attempts.new.items ≡ attempts.old.items ++ map attempt_of trials.entry.items) }
{
    for trial in trials {
        attempts.push(trial.attempt)?;
        put(flows, spare, trial)?;
    }
    Ok(())
}

fn put(
    flows: &mut Vec<LiveFlow>,
    spare: &mut Vec<LiveFlow>,
    trial: Trial<'_>,
) -> Result<(), AllocError>
    ensures { OnOk result (flows.new.items ≡ put_trial trial.entry flows.old.items) }
{
    let Some(attempt) = trial.attempt else {
        return Ok(());
    };
    let Some(flow) = trial.flow else {
        return Ok(());
    };
    if attempt.place < flows.len() {
        let stand_in = mem::replace(&mut flows[attempt.place], flow);
        spare.push(stand_in)?;
    }
    Ok(())
}
