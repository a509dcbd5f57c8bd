//! A host of shared flows, as its applications ask it.
ghost use Rattle.std.specs.Prelude.{◌≡◌};
ghost use Rattle.core_host.specs.Asking.{HasApp, HasSocket};
ghost use Rattle.core_host.specs.Sound.{IsStaffSound};
ghost use Rattle.core_host.specs.Asked.{IsAskedOf, IsAskedLess};
ghost use Rattle.core_host.specs.Asked.{stays_itself, stays_on, runs_on};
ghost use Rattle.core_host.specs.Views.{seen_by};

use crate::host::CoreHost;
use asked_host::{AskedHost, ConnectingHost};
use flow_state::{Answer, CallIn};
use local_host::{Connecting, StartSource};
use slow_handshake::NumberSource;
use std::alloc::AllocError;
use std::sync::Wait;
use tas_core::LogEvent;
use tas_model::FourTuple;
use tas_num::Seq;

impl AskedHost for CoreHost {
    ghost seen = { λ host. seen_by host };

    ghost stands = { λ host. IsStaffSound host };

    ghost has_app = { λ host app. HasApp app host };

    ghost has_socket = { λ host app place. HasSocket app place host };

    ghost keeps = { λ before after. IsAskedOf before after };

    ghost loses = { λ app before after. IsAskedLess app before after };

    ghost keeps_itself = { stays_itself };

    ghost keeps_on = { stays_on };

    ghost keeps_standing = { λ f g kept. kept.asked.sound };

    ghost keeps_apps = { runs_on };

    ghost loses_standing = { λ app f g lost. lost.asked.sound };

    ghost loses_one = { λ app other f g lost apart has. lost.others other apart has };

    fn is_listened(&self, port: u16) -> bool {
        CoreHost::is_listened(self, port)
    }

    fn listen(&mut self, app: u32, port: u16) -> Result<(), AllocError> {
        CoreHost::listen(self, app, port)
    }

    fn accept(&mut self, app: u32, tick: u32, port: u16) -> Result<Option<usize>, AllocError> {
        CoreHost::accept(self, app, tick, port)
    }

    fn ask(
        &mut self,
        app: u32,
        place: usize,
        tick: u32,
        call: &CallIn<'_>,
    ) -> Result<Answer, AllocError> {
        CoreHost::ask(self, app, place, tick, call)
    }

    fn give_up(
        &mut self,
        app: u32,
        place: usize,
        tick: u32,
        call: &CallIn<'_>,
    ) -> Result<(), AllocError> {
        CoreHost::give_up(self, app, place, tick, call)
    }

    fn kill(&mut self, app: u32, tick: u32, holding: bool) -> Result<(), AllocError> {
        CoreHost::kill(self, app, tick, holding)
    }

    fn note(&mut self, tick: u32, event: LogEvent) -> Result<(), AllocError> {
        CoreHost::note(self, tick, event)
    }
}

impl<R: Wait> ConnectingHost<R> for CoreHost {
    fn connect_out<S: StartSource>(
        &mut self,
        rt: &R,
        app: u32,
        tick: u32,
        raddr: u32,
        rport: u16,
        starts: &S,
    ) -> Result<Connecting, AllocError> {
        CoreHost::connect_out(self, rt, app, tick, raddr, rport, &NumbersOf(starts))
    }
}

/// The first numbers of what flows are given at their opening, by a source that goes by their four-tuples and by how
/// many flows were opened before.
#[derive(Clone, Copy)]
struct NumbersOf<'a, S>(&'a S);

impl<S: StartSource> NumberSource for NumbersOf<'_, S> {
    ghost number = { λ numbers tuple n. (S.starts numbers.0.now tuple 0 n).number };

    fn first_number(&self, tuple: FourTuple, n: u32) -> Seq {
        self.0.start(tuple, 0, n).number
    }
}
