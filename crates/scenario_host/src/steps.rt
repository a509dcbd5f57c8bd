//! The steps of a script, but for those that send and receive.

ghost use Rattle.std.specs.Prelude.{◌≡◌, ◌<◌, ◌+◌, ◌==◌, true, false, [], OnOk};
ghost use Rattle.flow_state.specs.Calls.{call_of};
ghost use Rattle.host_rounds.specs.Hosts.{first_port};
ghost use Rattle.scenario_ranges.specs.Ranges.{IsStepInRange};
ghost use Rattle.scenario_runs.specs.Applications.{bound_in, port_of, listens, accepts, refused, connects_on};
ghost use Rattle.scenario_runs.specs.Applications.{done_or, on_socket, once, ends, waits_for, step_of, turn};
ghost use Rattle.scenario_runs.specs.Applications.{is_killed_at, has_ended};
ghost use Rattle.scenario_runs.specs.Worlds.{starts_of, address_in};
ghost use Rattle.tas_model.specs.declared.entry.Call.TheVariants as calls;
ghost use Rattle.scenario_host.specs.Sound.{IsPart, AreNamesOf, IsFitFor};
ghost use Rattle.scenario_host.specs.Turns.{turn_of};
ghost use Rattle.asked_host.specs.Asking.{IsEndCall};

use crate::filling::FillBytes;
use crate::script::{AppScript, Bound};
use crate::starts::HostStarts;
use asked_host::{AskedHost, ConnectingHost};
use flow_state::CallIn;
use local_host::Connecting;
use scenario_text::{HostLine, Step};
use std::alloc::AllocError;
use tas_core::LogEvent;

impl<'a> AppScript<'a> {
    /// What the application asks in a tick: it is killed, or makes the call of its step; one that has ended asks
    /// nothing, and need not run on the host any more. All else of the host is kept, but the application where it is
    /// killed. `rt` is the run's handle, by which a host may wait. The error is want of memory.
    #[inline(always)]
    pub fn take_turn<R, H: ConnectingHost<R>>(
        &mut self,
        rt: &R,
        host: &mut H,
        tick: u32,
        hosts: &[HostLine],
        starts: &HostStarts,
        filling: &FillBytes,
    ) -> Result<(), AllocError>
        requires stands { H.stands host.old }
        requires listens { (H.seen host.old).params.fixed ≡ false }
        requires killed { is_killed_at tick self.old.kill ≡ true → H.has_app host.old self.old.number }
        requires lives { has_ended self.old ≡ false → H.has_app host.old self.old.number }
        requires fit { IsFitFor (H.has_socket host.old self.old.number) self.old }
        ensures made { OnOk result (turn_of (H.seen host.new) self.new
            ≡ turn (starts_of starts.now.params) (address_in hosts.now) tick (turn_of (H.seen host.old) self.old)) }
        ensures kept { is_killed_at tick self.old.kill ≡ false → OnOk result (H.keeps host.old host.new) }
        ensures lost { is_killed_at tick self.old.kill ≡ true
            → OnOk result (H.loses self.old.number host.old host.new) }
    {
        if self.is_killed_at(tick) {
            return self.be_killed(host, tick);
        }
        match self.left() {
            [] => Ok(()),
            [Step::Wait(ticks), ..] => {
                self.wait(*ticks);
                Ok(())
            }
            [step, ..] => self.take_step(rt, host, tick, step, hosts, starts, filling),
        }
    }

    /// The call of a step. The error is want of memory.
    #[inline(never)]
    fn take_step<R, H: ConnectingHost<R>>(
        &mut self,
        rt: &R,
        host: &mut H,
        tick: u32,
        step: &'a Step,
        hosts: &[HostLine],
        starts: &HostStarts,
        filling: &FillBytes,
    ) -> Result<(), AllocError>
        requires stands { H.stands host.old }
        requires listens { (H.seen host.old).params.fixed ≡ false }
        requires lives { H.has_app host.old self.old.number }
        requires range { IsStepInRange step.now }
        requires part { IsPart step.now self.old.done }
        requires names { AreNamesOf (H.has_socket host.old self.old.number) self.old.names }
        ensures made { OnOk result (turn_of (H.seen host.new) self.new ≡ step_of (starts_of starts.now.params)
            (address_in hosts.now) tick step.now (turn_of (H.seen host.old) self.old)) }
        ensures kept { OnOk result (H.keeps host.old host.new) }
    {
        match step {
            Step::Listen(name, port) => self.listen(host, tick, name.as_slice(), *port as u16),
            Step::Accept(socket, listener) => {
                self.accept(host, tick, socket.as_slice(), listener.as_slice())
            }
            Step::Connect(socket, name, port) => {
                let raddr = address_of(hosts, name.as_slice());
                self.connect(
                    rt,
                    host,
                    tick,
                    socket.as_slice(),
                    raddr,
                    *port as u16,
                    starts,
                )
            }
            Step::Send(socket, text) => self.send(host, tick, socket.as_slice(), text.as_slice()),
            Step::Fill(socket, count) => self.fill(host, tick, socket.as_slice(), *count, filling),
            Step::Recv(socket, count) => {
                self.receive(host, tick, socket.as_slice(), Some(*count))
            }
            Step::Drain(socket) => self.receive(host, tick, socket.as_slice(), None),
            Step::Shut(socket) => self.shut(host, tick, socket.as_slice()),
            Step::Close(socket) => self.give_up(host, tick, socket.as_slice(), &CallIn::Close),
            Step::Abort(socket) => self.give_up(host, tick, socket.as_slice(), &CallIn::Abort),
            Step::Wait(ticks) => {
                self.wait(*ticks);
                Ok(())
            }
        }
    }

    /// It listens on the port, which is refused where another listener has it. The error is want of memory.
    fn listen<H: AskedHost>(
        &mut self,
        host: &mut H,
        tick: u32,
        name: &'a [u8],
        port: u16,
    ) -> Result<(), AllocError>
        requires stands { H.stands host.old }
        requires listens { (H.seen host.old).params.fixed ≡ false }
        requires lives { H.has_app host.old self.old.number }
        requires low { port < first_port }
        ensures made { OnOk result (turn_of (H.seen host.new) self.new
            ≡ listens tick name.now port (turn_of (H.seen host.old) self.old)) }
        ensures kept { OnOk result (H.keeps host.old host.new) }
    {
        let app = self.number();
        if host.is_listened(port) {
            host.note(
                tick,
                LogEvent::Listen {
                    app,
                    port,
                    ok: false,
                },
            )?;
            self.step_over();
            return Ok(());
        }
        host.listen(app, port)?;
        host.note(
            tick,
            LogEvent::Listen {
                app,
                port,
                ok: true,
            },
        )?;
        self.bind(name, Bound::Listener(port))?;
        self.step_over();
        Ok(())
    }

    /// It accepts the connection of the listener that was opened first. The error is want of memory.
    fn accept<H: AskedHost>(
        &mut self,
        host: &mut H,
        tick: u32,
        socket: &'a [u8],
        listener: &[u8],
    ) -> Result<(), AllocError>
        requires stands { H.stands host.old }
        requires lives { H.has_app host.old self.old.number }
        ensures made { OnOk result (turn_of (H.seen host.new) self.new
            ≡ accepts (port_of (bound_in self.old.names listener.now)) tick socket.now
            (turn_of (H.seen host.old) self.old)) }
        ensures kept { OnOk result (H.keeps host.old host.new) }
    {
        let app = self.number();
        let Some(port) = self.port_of(listener) else {
            self.step_over();
            return Ok(());
        };
        let Some(place) = host.accept(app, tick, port)? else {
            return host.note(tick, LogEvent::AcceptNotYet { app, port });
        };
        self.bind(socket, Bound::Socket(place))?;
        self.step_over();
        Ok(())
    }

    /// It connects to the port of the host with this address, and from the next tick on asks whether the connection
    /// stands. The error is want of memory.
    fn connect<R, H: ConnectingHost<R>>(
        &mut self,
        rt: &R,
        host: &mut H,
        tick: u32,
        socket: &'a [u8],
        raddr: u32,
        rport: u16,
        starts: &HostStarts,
    ) -> Result<(), AllocError>
        requires stands { H.stands host.old }
        requires listens { (H.seen host.old).params.fixed ≡ false }
        requires lives { H.has_app host.old self.old.number }
        requires names { AreNamesOf (H.has_socket host.old self.old.number) self.old.names }
        ensures made { OnOk result (turn_of (H.seen host.new) self.new
            ≡ connects_on (starts_of starts.now.params) self.old.begun tick socket.now raddr rport
            (turn_of (H.seen host.old) self.old)) }
        ensures kept { OnOk result (H.keeps host.old host.new) }
    {
        if self.has_begun() {
            return self.ask_ready(host, tick, socket);
        }
        match host.connect_out(rt, self.number(), tick, raddr, rport, starts)? {
            Connecting::Opened(place) => {
                self.bind(socket, Bound::Socket(place))?;
                self.begin();
                Ok(())
            }
            Connecting::NoSlot => self.be_refused(host, tick, raddr, rport, false),
            Connecting::NoPort => self.be_refused(host, tick, raddr, rport, true),
        }
    }

    /// Its connect is refused for want of a port, or else of a slot. The error is want of memory.
    fn be_refused<H: AskedHost>(
        &mut self,
        host: &mut H,
        tick: u32,
        raddr: u32,
        rport: u16,
        no_port: bool,
    ) -> Result<(), AllocError>
        requires { H.stands host.old }
        ensures made { OnOk result (turn_of (H.seen host.new) self.new
            ≡ refused no_port tick raddr rport (turn_of (H.seen host.old) self.old)) }
        ensures kept { OnOk result (H.keeps host.old host.new) }
    {
        let app = self.number();
        host.note(
            tick,
            LogEvent::ConnectRefused {
                app,
                raddr,
                rport,
                no_port,
            },
        )?;
        self.step_over();
        Ok(())
    }

    /// It asks whether the connection stands. The error is want of memory.
    fn ask_ready<H: AskedHost>(
        &mut self,
        host: &mut H,
        tick: u32,
        socket: &[u8],
    ) -> Result<(), AllocError>
        requires stands { H.stands host.old }
        requires names { AreNamesOf (H.has_socket host.old self.old.number) self.old.names }
        ensures made { OnOk result (turn_of (H.seen host.new) self.new
            ≡ on_socket socket.now (λ n. waits_for n tick calls.Ready) (turn_of (H.seen host.old) self.old)) }
        ensures kept { OnOk result (H.keeps host.old host.new) }
    {
        let Some(place) = self.flow_of(socket) else {
            self.step_over();
            return Ok(());
        };
        let answer = host.ask(self.number(), place, tick, &CallIn::Ready)?;
        self.waited(answer);
        Ok(())
    }

    /// It ends its stream. The error is want of memory.
    fn shut<H: AskedHost>(
        &mut self,
        host: &mut H,
        tick: u32,
        socket: &[u8],
    ) -> Result<(), AllocError>
        requires stands { H.stands host.old }
        requires names { AreNamesOf (H.has_socket host.old self.old.number) self.old.names }
        ensures made { OnOk result (turn_of (H.seen host.new) self.new
            ≡ on_socket socket.now (λ n. once n tick calls.Shut) (turn_of (H.seen host.old) self.old)) }
        ensures kept { OnOk result (H.keeps host.old host.new) }
    {
        let Some(place) = self.flow_of(socket) else {
            self.step_over();
            return Ok(());
        };
        host.ask(self.number(), place, tick, &CallIn::Shut)?;
        self.step_over();
        Ok(())
    }

    /// It closes or aborts the connection, and gives the socket up. The error is want of memory.
    fn give_up<H: AskedHost>(
        &mut self,
        host: &mut H,
        tick: u32,
        socket: &[u8],
        call: &CallIn<'_>,
    ) -> Result<(), AllocError>
        requires stands { H.stands host.old }
        requires kind { IsEndCall call.now }
        requires names { AreNamesOf (H.has_socket host.old self.old.number) self.old.names }
        ensures made { OnOk result (turn_of (H.seen host.new) self.new
            ≡ on_socket socket.now (λ n. ends n tick (call_of call.now) socket.now)
            (turn_of (H.seen host.old) self.old)) }
        ensures kept { OnOk result (H.keeps host.old host.new) }
    {
        let Some(place) = self.flow_of(socket) else {
            self.step_over();
            return Ok(());
        };
        host.give_up(self.number(), place, tick, call)?;
        self.unbind(socket);
        self.step_over();
        Ok(())
    }

    /// It lets a tick pass.
    fn wait(&mut self, ticks: u32)
        requires { self.old.done < ticks }
        ensures { self.new ≡ done_or (self.old.done + 1 == ticks) (self.old.done + 1) self.old }
    {
        let done = self.done() + 1;
        self.go_on(done == ticks, done);
    }
}

/// The address of the host with this name; 0 where there is none.
fn address_of(hosts: &[HostLine], name: &[u8]) -> u32
    ensures { result ≡ address_in hosts.now name.now }
{
    for host in hosts {
        if host.name.as_slice() == name {
            return host.params.addr;
        }
    }
    0
}
