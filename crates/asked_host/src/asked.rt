//! The trait of the hosts that applications ask.
ghost use Rattle.std.specs.Prelude.{◌≡◌, ℕ, ◌<◌, false, OnOk, IfOk};
ghost use Rattle.flow_state.specs.Calls.{call_of, offer_of};
ghost use Rattle.flow_state.specs.Calls as calls_of;
ghost use Rattle.host_rounds.specs.Hosts.{is_listened, first_port, logged, answer_of};
ghost use Rattle.local_host.specs.Ports.{IsConnecting};
ghost use Rattle.asked_host.specs.Asking.{IsSocketCall, IsEndCall, IsAccepting, asked_by, listened_by, left_by, told};
ghost use Rattle.asked_host.specs.Asking.{AreNumbersAlone};
ghost use Rattle.asked_host.specs.Kills.{without_app};

use flow_state::{Answer, CallIn};
use local_host::{Connecting, StartSource};
use std::alloc::AllocError;
use tas_core::LogEvent;

/// A host as its applications ask it, seen as that host in the middle of a run (RFC 9293, section 3.9.1). A flow is
/// named by its place among all that the host opened. Each method makes what the model makes of the same call, and of
/// that which a run does not see leaves as it was what `keeps` says; after want of memory, the only error, nothing is
/// known of the host.
pub trait AskedHost {
    ghost use Rattle.host_rounds.specs.Hosts.{Host};

    /// The host in the middle of a run that it stands for.
    ghost seen: { Self → Host };

    /// It may be asked.
    ghost stands: { Self → Type 0 };

    /// The application runs on it.
    ghost has_app: { Self → (app : ℕ) → Type 0 };

    /// The application may call on the socket of the flow at this place.
    ghost has_socket: { Self → (app place : ℕ) → Type 0 };

    /// What asking left as it was: all that the model doesn't see and that those who ask next go by.
    ghost keeps: { (before after : Self) → Type 0 };

    /// The same, where the application runs no more.
    ghost loses: { (app : ℕ) → (before after : Self) → Type 0 };

    /// Whether an application listens on the port of a host where not every port listens.
    fn is_listened(&self, port: u16) -> bool
        requires { (seen self.now).params.fixed ≡ false }
        ensures { result ≡ is_listened port (seen self.now) };

    /// The application listens on a port, which nobody does yet and which is none that connects are given.
    fn listen(&mut self, app: u32, port: u16) -> Result<(), AllocError>
        requires stands { stands self.old }
        requires app { has_app self.old app }
        requires low { port < first_port }
        requires free { is_listened port (seen self.old) ≡ false }
        ensures made { OnOk result (seen self.new ≡ listened_by app port (seen self.old)) }
        ensures kept { OnOk result (keeps self.old self.new) };

    /// The application accepts the flow that waits at the port and was opened first, where one does whose connection
    /// stands. The answer is its place; where there is none nothing changes.
    fn accept(&mut self, app: u32, tick: u32, port: u16) -> Result<Option<usize>, AllocError>
        requires stands { stands self.old }
        requires app { has_app self.old app }
        ensures made { IfOk result (λ answer. IsAccepting app tick port (seen self.old) (seen self.new) answer) }
        ensures kept { OnOk result (keeps self.old self.new) };

    /// The application makes a call on the socket of the flow at this place, which it keeps. The answer tells no window
    /// update.
    fn ask(
        &mut self,
        app: u32,
        place: usize,
        tick: u32,
        call: &CallIn<'_>,
    ) -> Result<Answer, AllocError>
        requires stands { stands self.old }
        requires socket { has_socket self.old app place }
        requires kind { IsSocketCall call.now }
        ensures made { OnOk result (seen self.new
            ≡ asked_by app place tick (call_of call.now) (offer_of call.now) (seen self.old)) }
        ensures answer { IfOk result (λ answer.
            told answer ≡ told (calls_of.answer_of (answer_of place (seen self.new)))) }
        ensures kept { OnOk result (keeps self.old self.new) };

    /// The application closes or aborts the flow at this place, and gives its socket up.
    fn give_up(
        &mut self,
        app: u32,
        place: usize,
        tick: u32,
        call: &CallIn<'_>,
    ) -> Result<(), AllocError>
        requires stands { stands self.old }
        requires socket { has_socket self.old app place }
        requires kind { IsEndCall call.now }
        ensures made { OnOk result (seen self.new ≡ left_by app place tick (call_of call.now) (seen self.old)) }
        ensures kept { OnOk result (keeps self.old self.new) };

    /// The application is killed: its flows are aborted by the slow path, and its listeners go. Where it ends `holding`
    /// it had the record of its newest socket's flow in hand.
    fn kill(&mut self, app: u32, tick: u32, holding: bool) -> Result<(), AllocError>
        requires stands { stands self.old }
        requires app { has_app self.old app }
        ensures made { OnOk result (seen self.new ≡ without_app app tick (seen self.old)) }
        ensures lost { OnOk result (loses app self.old self.new) };

    /// Appends a line to the host's log.
    fn note(&mut self, tick: u32, event: LogEvent) -> Result<(), AllocError>
        requires { stands self.old }
        ensures made { OnOk result (seen self.new ≡ logged (seen self.old) tick event) }
        ensures kept { OnOk result (keeps self.old self.new) };

    /// One that may be asked keeps what it has.
    ghost keeps_itself: { (h : Self) → stands h → keeps h h };

    /// What is kept in each of two rows of asking is kept in both.
    ghost keeps_on: { (f g h : Self) → keeps f g → keeps g h → keeps f h };

    /// One that was asked may be asked again.
    ghost keeps_standing: { (f g : Self) → keeps f g → stands g };

    /// Applications run on.
    ghost keeps_apps: { (f g : Self) (app : ℕ) → keeps f g → has_app f app → has_app g app };

    /// One on which an application was killed may be asked again.
    ghost loses_standing: { (app : ℕ) (f g : Self) → loses app f g → stands g };

    /// All other applications run on.
    ghost loses_one: { (app other : ℕ) (f g : Self) → loses app f g → ¬ (other ≡ app) → has_app f other
        → has_app g other };
}

/// A host on which applications connect, too. To open a flow it may have to wait for those that look flows up: `R` is
/// the run's handle, by which it waits.
pub trait ConnectingHost<R>: AskedHost {
    /// The application connects to the port of a host: a flow is opened in the lowest free slot, from the next port.
    /// The answer says so, or why not; then nothing changes. What flows are given at their opening is a number alone.
    fn connect_out<S: StartSource>(
        &mut self,
        rt: &R,
        app: u32,
        tick: u32,
        raddr: u32,
        rport: u16,
        starts: &S,
    ) -> Result<Connecting, AllocError>
        requires stands { Self.stands self.old }
        requires app { Self.has_app self.old app }
        requires ports { (Self.seen self.old).params.fixed ≡ false }
        requires starts { AreNumbersAlone (S.starts starts.now) }
        ensures made { IfOk result (λ answer.
            IsConnecting (S.starts starts.now) tick app raddr rport (Self.seen self.old) (Self.seen self.new) answer) }
        ensures kept { OnOk result (Self.keeps self.old self.new) };
}
