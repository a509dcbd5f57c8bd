//! The step that a script tries beside cores, and how it goes on by the answer.

ghost use Rattle.std.specs.Prelude.{◌≡◌, None, IfSome, IfNone};
ghost use Rattle.scenario_ranges.specs.Ranges.{IsStepInRange};
ghost use Rattle.scenario_runs.specs.Applications.{bound_in, flow_of, unbind, stepped};
ghost use Rattle.scenario_host.specs.Sound.{IsPart};
ghost use Rattle.scenario_host.specs.Tries.{IsAtStep, IsTryOn, IsAnswerAt, IsAnswerWithin};
ghost use Rattle.scenario_host.specs.Tries.{IsTrialIn, IsTrialAt, answered_at, answered_by};

use crate::filling::FillBytes;
use crate::script::AppScript;
use crate::streams::asks_for;
use flow_state::{Answer, CallIn};
use local_host::Attempt;
use scenario_text::Step;

impl<'a> AppScript<'a> {
    /// What the application tries while cores take frames: the call of its step, where that is one on a socket. One
    /// that is killed in the tick, and one that has ended, tries nothing.
    pub fn attempt(&self, tick: u32, filling: &'a FillBytes) -> Option<Attempt<'a>>
        requires { IsAtStep self.now }
        ensures call { IsTrialIn tick self.now result }
    {
        if self.is_killed_at(tick) {
            return None;
        }
        match self.left() {
            [] => None,
            [step, ..] => self.attempt_at(tick, step, filling),
        }
    }

    /// The same at this step.
    fn attempt_at(&self, tick: u32, step: &'a Step, filling: &'a FillBytes) -> Option<Attempt<'a>>
        requires range { IsStepInRange step.now }
        requires part { IsPart step.now self.now.done }
        ensures call { IsTrialAt step.now self.now result }
    {
        match step {
            Step::Send(socket, text) => {
                let bytes = &text.as_slice()[self.done() as usize..];
                self.try_on(socket.as_slice(), CallIn::Send { bytes })
            }
            Step::Fill(socket, count) => {
                let bytes = filling.rest(self.done(), *count);
                self.try_on(socket.as_slice(), CallIn::Send { bytes })
            }
            Step::Recv(socket, count) => {
                let most = asks_for(Some(*count), self.done());
                self.try_on(socket.as_slice(), CallIn::Recv { most })
            }
            Step::Drain(socket) => {
                let most = asks_for(None, self.done());
                self.try_on(socket.as_slice(), CallIn::Recv { most })
            }
            Step::Shut(socket) => self.try_on(socket.as_slice(), CallIn::Shut),
            Step::Close(socket) => self.try_on(socket.as_slice(), CallIn::Close),
            Step::Abort(socket) => self.try_on(socket.as_slice(), CallIn::Abort),
            _ => None,
        }
    }

    /// A call on the socket of this name, where the name stands for one.
    fn try_on(&self, socket: &[u8], call: CallIn<'a>) -> Option<Attempt<'a>>
        ensures on { IfSome result (λ x. IsTryOn socket.now call.entry self.now x) }
        ensures none { IfNone result (flow_of (bound_in self.now.names socket.now) ≡ None) }
    {
        match self.flow_of(socket) {
            Some(place) => Some(Attempt {
                place,
                app: self.number(),
                call,
                answer: None,
            }),
            None => None,
        }
    }

    /// It goes on by the answer to the call that it tried.
    pub fn go_on_by(&mut self, answer: Answer)
        requires { IsAnswerWithin answer self.old }
        ensures { self.new ≡ answered_by answer self.old }
    {
        match self.left() {
            [] => {}
            [step, ..] => self.go_on_at(step, answer),
        }
    }

    /// The same at this step.
    fn go_on_at(&mut self, step: &'a Step, answer: Answer)
        requires { IsAnswerAt step.now answer self.old }
        ensures { self.new ≡ answered_at step.now answer self.old }
    {
        match step {
            Step::Send(_, text) => self.sent(answer, text.as_slice().len() as u32),
            Step::Fill(_, count) => self.sent(answer, *count),
            Step::Recv(_, count) => self.received(answer, Some(*count)),
            Step::Drain(_) => self.received(answer, None),
            Step::Shut(_) => self.step_over(),
            Step::Close(socket) => self.leave(socket.as_slice()),
            Step::Abort(socket) => self.leave(socket.as_slice()),
            _ => {}
        }
    }

    /// It gave the socket of this name up.
    fn leave(&mut self, socket: &[u8])
        ensures { self.new ≡ stepped (unbind socket.now self.old) }
    {
        self.unbind(socket);
        self.step_over();
    }
}
