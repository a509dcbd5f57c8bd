//! What an engine is: it makes a call on the compact record, as the endpoint's step does.

ghost use Rattle.std.specs.Prelude.{◌≡◌, ℕ, ◌+◌, ◌-◌, ◌^◌, ◌<◌, ◌≤◌, ◌↔◌, length, IfSome, IfNone};
ghost use Rattle.std.specs.Prelude.{IsSome};
ghost use Rattle.tas_model.specs.Endpoint.{Endpoint};
ghost use Rattle.tas_model.specs.Valid.{Valid};
ghost use Rattle.flow_state.specs.Stands.{Stands, IsNear, HasRings};
ghost use Rattle.flow_state.specs.Calls.{answer_len, reply_room, need_of, cost_of, IsSmall, IsTimely};
ghost use Rattle.flow_state.specs.Made.{Makes, AreQuietTicks, IsLoudTick};
ghost use Rattle.flow_state.specs.declared.call.CallIn.TheVariants as ins;

use crate::call::{Answer, CallIn};
use crate::parts::Parts;

/// How many bytes a reply to the call, or the call's own payload, may have, wherever the connection stands.
pub fn cost(parts: &Parts, call: &CallIn<'_>) -> usize
    ensures { result ≡ cost_of parts.now.smss call.now }
{
    match call {
        CallIn::Passive { seg, .. } | CallIn::Rx { seg, .. } => seg.payload.len(),
        CallIn::Send { bytes } => bytes.len(),
        CallIn::Recv { most } => *most as usize,
        CallIn::Emit => parts.smss as usize,
        _ => 0,
    }
}

/// How many bytes a reply to the call and its own payload have at most here, which is no more than its cost.
pub fn need(parts: &Parts, call: &CallIn<'_>) -> usize
    ensures { result ≡ need_of parts.now call.now }
{
    match call {
        CallIn::Passive { seg, .. } | CallIn::Rx { seg, .. } => seg.payload.len(),
        CallIn::Send { bytes } => bytes.len().min(parts.tx.room() as usize),
        CallIn::Recv { most } => (*most).min(parts.rx.len()) as usize,
        CallIn::Emit => u32::from(parts.smss).min(parts.tx.len()) as usize,
        _ => 0,
    }
}

/// What answers some of the calls.
///
/// Of a received segment the addresses and ports are not read: whoever makes the call gives a flow its own segments.
/// What is promised holds of any segment.
pub trait Engine {
    ghost use Rattle.flow_state.specs.declared.parts.Parts.{Parts};
    ghost use Rattle.flow_state.specs.declared.call.CallIn.{CallIn};

    /// Which calls it answers, at which parts.
    ghost serves: { Self → Parts → CallIn → Type 0 };

    /// Makes the call at this tick. `Some`: the parts stand for the next endpoint, and the reply's bytes stand first in
    /// `out`. `None`: nothing changed.
    ///
    /// Accept and Control are calls only past SYN-RECEIVED and before CLOSED, Tick only before CLOSED.
    fn run(&self, parts: &mut Parts, tick: u32, call: &CallIn<'_>, out: &mut [u8]) -> Option<Answer>
        requires room { need_of parts.old call.now ≤ length out.old }
        requires small { IsSmall call.now }
        requires timely { IsTimely parts.old.phase call.now }
        requires near { IsNear parts.old }
        requires rings { HasRings parts.old }
        ensures made { IfSome result (λ answer. (e : Endpoint) → Valid e → Stands parts.old e
            → Makes e tick call.now parts.new out.new answer) }
        ensures bytes { IfSome result (λ answer. answer_len answer ≤ reply_room parts.old call.now) }
        ensures tuple { parts.new.tuple ≡ parts.old.tuple }
        ensures params { parts.new.params ≡ parts.old.params }
        ensures unmade { IfNone result (parts.new ≡ parts.old) }
        ensures serves { IsSome result ↔ serves self.now parts.old call.now };
}

/// What time alone does to a flow.
pub trait Clock {
    /// Ticks of a flow that is not closed, from this one on, as long as nothing comes of them, and at most so many.
    /// Answers how many passed: all of them, or all before one of which something comes.
    fn pass(&self, parts: &mut Parts, tick: u32, count: u32) -> u32
        requires timely { IsTimely parts.old.phase ins.Tick }
        requires room { tick + count ≤ 2 ^ 32 }
        ensures made { AreQuietTicks parts.old tick result parts.new }
        ensures most { result ≤ count }
        ensures all { result < count → IsLoudTick parts.new (tick + result) }
        ensures tuple { parts.new.tuple ≡ parts.old.tuple }
        ensures params { parts.new.params ≡ parts.old.params };
}
