//! The host of a serial run, as its applications ask it.
ghost use Rattle.std.specs.Prelude.{◌≡◌, ◌<◌, length, OnOk, IfOk, ⊤};
ghost use Rattle.flow_state.specs.Calls.{call_of};
ghost use Rattle.asked_host.specs.Asking.{IsEndCall, IsAccepting, left_by};

use crate::asked::{AskedHost, ConnectingHost};
use crate::kill::end_app;
use flow_state::{Answer, CallIn};
use local_host::{Connecting, Holder, LocalHost, StartSource};
use std::alloc::AllocError;
use tas_core::LogEvent;
use tas_model::Caller;

impl AskedHost for LocalHost {
    ghost seen = { λ host. host };

    ghost stands = { λ host. ⊤ };

    ghost has_app = { λ host app. ⊤ };

    ghost has_socket = { λ host app place. place < length host.flows };

    ghost keeps = { λ before after. ⊤ };

    ghost loses = { λ app before after. ⊤ };

    ghost keeps_itself = { λ h sound. tt };

    ghost keeps_on = { λ f g h first later. tt };

    ghost keeps_standing = { λ f g kept. tt };

    ghost keeps_apps = { λ f g app kept has. tt };

    ghost loses_standing = { λ app f g lost. tt };

    ghost loses_one = { λ app other f g lost apart has. tt };

    fn is_listened(&self, port: u16) -> bool {
        LocalHost::is_listened(self, port)
    }

    fn listen(&mut self, app: u32, port: u16) -> Result<(), AllocError> {
        LocalHost::listen(self, port, app)
    }

    fn accept(&mut self, app: u32, tick: u32, port: u16) -> Result<Option<usize>, AllocError> {
        accept_first(self, app, tick, port)
    }

    fn ask(
        &mut self,
        app: u32,
        place: usize,
        tick: u32,
        call: &CallIn<'_>,
    ) -> Result<Answer, AllocError> {
        LocalHost::ask(self, place, Caller::App(app), tick, call)
    }

    fn give_up(
        &mut self,
        app: u32,
        place: usize,
        tick: u32,
        call: &CallIn<'_>,
    ) -> Result<(), AllocError> {
        leave(self, app, place, tick, call)
    }

    fn kill(&mut self, app: u32, tick: u32, _holding: bool) -> Result<(), AllocError> {
        end_app(self, app, tick)
    }

    fn note(&mut self, tick: u32, event: LogEvent) -> Result<(), AllocError> {
        LocalHost::note(self, tick, event)
    }
}

impl<R> ConnectingHost<R> for LocalHost {
    fn connect_out<S: StartSource>(
        &mut self,
        _rt: &R,
        app: u32,
        tick: u32,
        raddr: u32,
        rport: u16,
        starts: &S,
    ) -> Result<Connecting, AllocError> {
        LocalHost::connect_out(self, tick, app, raddr, rport, starts)
    }
}

/// The application accepts the flow that may be accepted at the port and was opened first. The error is want of memory.
fn accept_first(
    host: &mut LocalHost,
    app: u32,
    tick: u32,
    port: u16,
) -> Result<Option<usize>, AllocError>
    ensures { IfOk result (λ answer. IsAccepting app tick port host.old host.new answer) }
{
    let Some(place) = host.first_ready(port) else {
        return Ok(None);
    };
    LocalHost::ask(host, place, Caller::App(app), tick, &CallIn::Accept)?;
    host.hold(place, Holder::Application(app));
    Ok(Some(place))
}

/// The application closes or aborts the flow at a place, and gives its socket up. The error is want of memory.
fn leave(
    host: &mut LocalHost,
    app: u32,
    place: usize,
    tick: u32,
    call: &CallIn<'_>,
) -> Result<(), AllocError>
    requires place { place < length host.old.flows }
    requires kind { IsEndCall call.now }
    ensures { OnOk result (host.new ≡ left_by app place tick (call_of call.now) host.old) }
{
    LocalHost::ask(host, place, Caller::App(app), tick, call)?;
    host.hold(place, Holder::GivenUp);
    Ok(())
}
