//! The steps of a script that send and receive.

ghost use Rattle.std.specs.Prelude.{◌≡◌, ◌+◌, ◌<◌, ◌≤◌, ℕ, List, length, take, drop, OnOk};
ghost use Rattle.scenario_runs.specs.Applications.{on_socket, sends, receives, asks_for as model_asks};
ghost use Rattle.scenario_runs.specs.Applications.{most, filling as model_filling};
ghost use Rattle.scenario_host.specs.Sound.{AreNamesOf};
ghost use Rattle.scenario_host.specs.Turns.{turn_of};
ghost use Rattle.scenario_host.specs.Answers.{IsBelow};

use crate::filling::{FillBytes, MOST};
use crate::script::AppScript;
use asked_host::AskedHost;
use flow_state::CallIn;
use std::alloc::AllocError;

impl AppScript<'_> {
    /// It sends the rest of a text. The error is want of memory.
    pub(crate) fn send<H: AskedHost>(
        &mut self,
        host: &mut H,
        tick: u32,
        socket: &[u8],
        text: &[u8],
    ) -> Result<(), AllocError>
        requires stands { H.stands host.old }
        requires few { length text.now ≤ 4096 }
        requires part { self.old.done < length text.now }
        requires names { AreNamesOf (H.has_socket host.old self.old.number) self.old.names }
        ensures made { OnOk result (turn_of (H.seen host.new) self.new
            ≡ on_socket socket.now (λ n. sends n tick text.now) (turn_of (H.seen host.old) self.old)) }
        ensures kept { OnOk result (H.keeps host.old host.new) }
    {
        let Some(place) = self.flow_of(socket) else {
            self.step_over();
            return Ok(());
        };
        let rest = &text[self.done() as usize..];
        self.offer(host, tick, place, rest, text.len() as u32)
    }

    /// It sends the rest of so many bytes of `fill`. The error is want of memory.
    pub(crate) fn fill<H: AskedHost>(
        &mut self,
        host: &mut H,
        tick: u32,
        socket: &[u8],
        count: u32,
        filling: &FillBytes,
    ) -> Result<(), AllocError>
        requires stands { H.stands host.old }
        requires part { self.old.done < count }
        requires names { AreNamesOf (H.has_socket host.old self.old.number) self.old.names }
        ensures made { OnOk result (turn_of (H.seen host.new) self.new
            ≡ on_socket socket.now (λ n. sends n tick (model_filling count)) (turn_of (H.seen host.old) self.old)) }
        ensures kept { OnOk result (H.keeps host.old host.new) }
    {
        let Some(place) = self.flow_of(socket) else {
            self.step_over();
            return Ok(());
        };
        self.offer(host, tick, place, filling.rest(self.done(), count), count)
    }

    /// It offers bytes to the flow at a place, and goes on by what was taken of all that it sends. The error is want of
    /// memory.
    fn offer<H: AskedHost>(
        &mut self,
        host: &mut H,
        tick: u32,
        place: usize,
        bytes: &[u8],
        all: u32,
    ) -> Result<(), AllocError>
        requires stands { H.stands host.old }
        requires socket { H.has_socket host.old self.old.number place }
        requires few { length bytes.now ≤ most }
        requires part { self.old.done + length bytes.now ≤ all }
        ensures made { (whole : List ℕ) → length whole ≡ all → bytes.now ≡ take most (drop self.old.done whole)
            → OnOk result (turn_of (H.seen host.new) self.new
            ≡ sends place tick whole (turn_of (H.seen host.old) self.old)) }
        ensures kept { OnOk result (H.keeps host.old host.new) }
    {
        let answer = host.ask(self.number(), place, tick, &CallIn::Send { bytes })?;
        self.sent(answer, all);
        Ok(())
    }

    /// It receives the rest of so many bytes, or all that come. The error is want of memory.
    pub(crate) fn receive<H: AskedHost>(
        &mut self,
        host: &mut H,
        tick: u32,
        socket: &[u8],
        all: Option<u32>,
    ) -> Result<(), AllocError>
        requires stands { H.stands host.old }
        requires part { IsBelow all self.old.done }
        requires names { AreNamesOf (H.has_socket host.old self.old.number) self.old.names }
        ensures made { OnOk result (turn_of (H.seen host.new) self.new
            ≡ on_socket socket.now (λ n. receives n tick all) (turn_of (H.seen host.old) self.old)) }
        ensures kept { OnOk result (H.keeps host.old host.new) }
    {
        let Some(place) = self.flow_of(socket) else {
            self.step_over();
            return Ok(());
        };
        let most = asks_for(all, self.done());
        let answer = host.ask(self.number(), place, tick, &CallIn::Recv { most })?;
        self.received(answer, all);
        Ok(())
    }
}

/// How many bytes are asked of so many, or of all that come, where so many came.
pub(crate) fn asks_for(all: Option<u32>, done: u32) -> u32
    requires { IsBelow all done }
    ensures { result ≡ model_asks all done }
{
    match all {
        None => MOST,
        Some(all) => MOST.min(all - done),
    }
}
