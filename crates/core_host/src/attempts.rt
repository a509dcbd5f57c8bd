//! What applications try beside the cores, and what they were answered.
ghost use Rattle.std.specs.Prelude.{◌≡◌, ◌<◌, ◌≤◌, ◌+◌, ◌==◌, ℕ, IfSome, Some, slice_get, position, IsSome, Option};
ghost use Rattle.std.specs.Prelude.{length, IfOk, OnOk};
ghost use Rattle.host_books.specs.Books.{Book};
ghost use Rattle.libtas_sockets.specs.Apps.{Application, IsSocket};
ghost use Rattle.libtas_sockets.specs.declared.socket.Socket.{Socket};
ghost use Rattle.core_phase.specs.Attempts.{MayTry};
ghost use Rattle.core_phase.specs.declared.lane.AppLane.{AppLane};
ghost use Rattle.core_phase.specs.declared.lane.Lane.TheVariants as lanes_of;
ghost use Rattle.core_host.specs.Attempts.{Runs, HasSocketAt, IsTryCall, IsAttemptOf, IsTrying, answer_told};
ghost use Rattle.core_host.specs.Attempts.{refusal_told};
ghost use Rattle.core_host.specs.Attempts.{with_attempt, without_attempt, IsAnswerTaken};
ghost use Rattle.core_host.specs.Emission.{AreTriesSet};
ghost use Rattle.core_host.specs.Sound.{IsStaffSound};
ghost use Rattle.core_host.specs.Views.{Staffed};
ghost use Rattle.flow_state.specs.declared.call.Answer.{Answer};
ghost use Rattle.flow_state.specs.declared.call.CallIn.{CallIn};
ghost use Rattle.tas_model.specs.declared.entry.FlowId.{FlowId};

use crate::host::CoreHost;
use core_phase::{Answered, AppLane, Attempt, Lane};
use flow_state::{Answer, CallIn};
use libtas_sockets::{Received, Socket, SocketError};
use std::alloc::{AllocError, Global};
use std::mem;

impl CoreHost {
    /// The application tries a call in the next phase, on the socket of the flow at a place, which it has. The error is
    /// want of memory.
    pub fn try_call(&mut self, app: u32, place: usize, call: &CallIn<'_>) -> Result<(), AllocError>
        requires sound { IsStaffSound self.old }
        requires socket { HasSocketAt app place self.old }
        requires kind { IsTryCall call.now }
        ensures { (b : Book) → slice_get self.old.host.books place ≡ Some b
            → OnOk result (IsTrying app b.id call.now self.old self.new) }
    {
        let attempt = attempt_of(self.alloc, &mut self.rooms, call)?;
        let socket = Socket(self.books.id(place).slot);
        let at = lane_place(self.cores, self.names.as_slice(), app);
        set_out(&mut self.lanes[at], socket, attempt);
        self.busy = self.busy.saturating_add(1);
        Ok(())
    }

    /// What the application was answered in the last phase, where its call was made; it tries nothing more. The error
    /// is want of memory.
    pub fn take_answer(&mut self, app: u32) -> Result<Option<Answer>, AllocError>
        requires sound { IsStaffSound self.old }
        requires runs { Runs app self.old }
        ensures { IfOk result (λ answer. IsAnswerTaken app answer self.old self.new) }
    {
        let at = lane_place(self.cores, self.names.as_slice(), app);
        let answered = take_out(&mut self.rooms, &mut self.lanes[at]);
        answer_in(answered)
    }
}

/// What [`CoreHost::try_call`] and [`CoreHost::take_answer`] make of a host, one after the other, is that its
/// applications
/// try other calls and have other answers, and nothing else.
pub fn tries_are_set()
    ensures trying { (app : ℕ) (id : FlowId) (call : CallIn) (before after : Staffed)
        → IsTrying app id call before after → AreTriesSet before after }
    ensures taken { (app : ℕ) (answer : Option Answer) (before after : Staffed)
        → IsAnswerTaken app answer before after → AreTriesSet before after }
    ensures both { (before between after : Staffed) → AreTriesSet before between → AreTriesSet between after
        → AreTriesSet before after }
{}

/// The place of the lane of an application that runs, behind so many cores.
fn lane_place(cores: u32, names: &[u32], app: u32) -> usize
    requires runs { IsSome (position (λ (n : ℕ). n == app) names.now) }
    requires few { cores + length names.now ≤ 18446744073709551615 }
    ensures { (i : ℕ) × (position (λ (n : ℕ). n == app) names.now ≡ Some i) × (result ≡ cores + i) }
{
    let Some(at) = name_place(names, app) else {
        unreachable!()
    };
    cores as usize + at
}

/// The place of a number.
fn name_place(names: &[u32], app: u32) -> Option<usize>
    ensures place { result ≡ position (λ (n : ℕ). n == app) names.now }
    ensures near { IfSome result (λ i. i < length names.now) }
{
    names.iter().position(|number| *number == app)
}

/// The attempt that makes this call, in one of these buffers where it sends or reads. The error is want of memory.
fn attempt_of(
    alloc: Global,
    rooms: &mut Vec<Vec<u8>>,
    call: &CallIn<'_>,
) -> Result<Attempt, AllocError>
    requires { IsTryCall call.now }
    ensures made { IfOk result (λ attempt. IsAttemptOf call.now attempt) }
    ensures may { IfOk result (λ attempt. (a : Application) (s : Socket) → IsSocket a s → MayTry a s attempt) }
{
    match call {
        CallIn::Send { bytes } => Ok(Attempt::Send(copy_of(alloc, rooms, bytes)?)),
        CallIn::Recv { most } => Ok(Attempt::Recv(room_of(alloc, rooms, *most as usize)?)),
        CallIn::Shut => Ok(Attempt::Shut),
        CallIn::Close => Ok(Attempt::Close),
        CallIn::Abort => Ok(Attempt::Abort),
        _ => unreachable!(),
    }
}

/// A buffer of so many bytes: the one that was laid by last, where there is one. The error is want of memory.
fn room_of(alloc: Global, rooms: &mut Vec<Vec<u8>>, most: usize) -> Result<Vec<u8>, AllocError>
    ensures { IfOk result (λ room. length room.items ≡ most) }
{
    let Some(mut room) = rooms.pop() else {
        return Vec::from_elem(alloc, 0, most);
    };
    room.resize(most, 0)?;
    Ok(room)
}

/// The buffer of the attempt is laid by for the next one.
fn lay_by(rooms: &mut Vec<Vec<u8>>, attempt: Attempt) {
    match attempt {
        Attempt::Send(room) | Attempt::Recv(room) => {
            let _ = rooms.push(room);
        }
        Attempt::Nothing | Attempt::Shut | Attempt::Close | Attempt::Abort => {}
    }
}

/// A copy of these bytes, in the buffer that was laid by last, where there is one. The error is want of memory.
fn copy_of(alloc: Global, rooms: &mut Vec<Vec<u8>>, bytes: &[u8]) -> Result<Vec<u8>, AllocError>
    ensures { IfOk result (λ copy. copy.items ≡ bytes.now) }
{
    let mut copy = match rooms.pop() {
        Some(room) => room,
        None => Vec::with_capacity(alloc, bytes.len())?,
    };
    copy.clear();
    copy.extend_from_slice(bytes)?;
    Ok(copy)
}

/// The application of the lane tries this on this socket.
fn set_out(lane: &mut Lane, socket: Socket, attempt: Attempt)
    requires { (l : AppLane) × (lane.old ≡ lanes_of.App l) }
    ensures { (l : AppLane) → lane.old ≡ lanes_of.App l → lane.new ≡ with_attempt socket attempt l }
{
    match lane {
        Lane::App(app) => {
            app.socket = socket;
            app.attempt = attempt;
        }
        Lane::Core(_) => unreachable!(),
    }
}

/// Takes the answer out of the lane of an application, which tries nothing more. Its buffer is laid by.
fn take_out(rooms: &mut Vec<Vec<u8>>, lane: &mut Lane) -> Answered
    requires { (l : AppLane) × (lane.old ≡ lanes_of.App l) }
    ensures lane { (l : AppLane) → lane.old ≡ lanes_of.App l → lane.new ≡ without_attempt l }
    ensures answer { (l : AppLane) → lane.old ≡ lanes_of.App l → result ≡ l.answer }
{
    match lane {
        Lane::App(app) => {
            lay_by(rooms, mem::replace(&mut app.attempt, Attempt::Nothing));
            mem::replace(&mut app.answer, Answered::Nothing)
        }
        Lane::Core(_) => unreachable!(),
    }
}

/// The answer of a call that was made; none where another pass had the record. The error is want of memory.
fn answer_in(answered: Answered) -> Result<Option<Answer>, AllocError>
    ensures { IfOk result (λ answer. answer ≡ answer_told answered) }
{
    match answered {
        Answered::Nothing => Ok(None),
        Answered::Sent(Ok(len)) => Ok(Some(Answer::Took { len })),
        Answered::Read(Ok(Received::Bytes(len))) => Ok(Some(Answer::Got { len, update: None })),
        Answered::Read(Ok(Received::End)) => Ok(Some(Answer::End)),
        Answered::Done(Ok(())) => Ok(Some(Answer::Ok)),
        Answered::Sent(Err(error)) | Answered::Read(Err(error)) | Answered::Done(Err(error)) => {
            refused(error)
        }
    }
}

/// The answer that a refusal tells; none where another pass had the record. The error is want of memory.
fn refused(error: SocketError) -> Result<Option<Answer>, AllocError>
    ensures { IfOk result (λ answer. answer ≡ refusal_told error) }
{
    match error {
        SocketError::NotYet => Ok(Some(Answer::NotYet)),
        SocketError::NotOpen => Ok(Some(Answer::NotOpen)),
        SocketError::Shut => Ok(Some(Answer::Shut)),
        SocketError::Closed(reason) => Ok(Some(Answer::Closed { reason })),
        SocketError::OutOfMemory => Err(AllocError),
        _ => Ok(None),
    }
}
