//! What follows when lanes have played: scripts go on by the answers, and the others have their turns.
ghost use Rattle.std.specs.Prelude.{◌≡◌, true, OnOk};
ghost use Rattle.core_host.specs.Serving.{IsServed};
ghost use Rattle.core_host.specs.Sound.{IsStaffSound};
ghost use Rattle.core_host.specs.Views.{seen_by};
ghost use Rattle.shared_scripts.specs.Going.{CanGoOn, WasBegun, IsGoneOn, numbers_of};
ghost use Rattle.slow_worker.specs.Turns.{has_passed as is_passed};

use crate::hearing::{hear_all, take_answers};
use crate::laws::played_hosts_go_on;
use crate::scripts::HostScripts;
use crate::turns::take_turns;
use core_host::{CoreHost, tries_are_set};
use scenario_host::{AppScript, FillBytes, HostStarts};
use scenario_text::Scenario;
use slow_handshake::SpacedNumbers;
use std::alloc::{AllocError, Global};
use std::sync::Wait;
use tas_model::HostParams;
use tas_num::Seq;

impl<'a> HostScripts<'a> {
    /// The applications whose calls were made go on by the answers, the slow path serves what cores left, all others
    /// have their turns alone, and flows with something to send are kicked. The error is want of memory.
    pub fn go_on<R: Wait>(
        &mut self,
        rt: &R,
        host: &mut CoreHost,
        tick: u32,
        s: &Scenario,
    ) -> Result<(), AllocError>
        requires { WasBegun s.now tick self.old host.old }
        ensures { OnOk result (IsGoneOn s.now tick self.old self.new host.old host.new) }
    {
        played_hosts_go_on();
        go_on_all(
            rt,
            self.alloc,
            host,
            &mut self.scripts,
            &self.filling,
            tick,
            s,
        )
    }
}

/// The scripts of a host go on. The error is want of memory.
fn go_on_all<R: Wait>(
    rt: &R,
    alloc: Global,
    host: &mut CoreHost,
    scripts: &mut Vec<AppScript<'_>>,
    filling: &FillBytes,
    tick: u32,
    s: &Scenario,
) -> Result<(), AllocError>
    requires { CanGoOn tick scripts.old.items host.old }
    ensures { OnOk result (IsGoneOn s.now tick scripts.old.items scripts.new.items host.old host.new) }
{
    tries_are_set();
    let params = *host.params();
    let answers = take_answers(alloc, host, scripts.as_slice())?;
    host.forget_tries();
    hear_all(scripts, answers.as_slice());
    serve(rt, host, &params, tick)?;
    let starts = HostStarts { params };
    take_turns(
        rt,
        host,
        scripts,
        answers.as_slice(),
        tick,
        s,
        &starts,
        filling,
    )?;
    host.kick_all(rt)
}

/// The slow path serves what cores left, with the first numbers of these parameters. The error is want of memory.
fn serve<R: Wait>(
    rt: &R,
    host: &mut CoreHost,
    params: &HostParams,
    tick: u32,
) -> Result<(), AllocError>
    requires sound { IsStaffSound host.old }
    requires later { is_passed tick host.old.host.slow ≡ true }
    ensures { OnOk result (IsServed (numbers_of params.now) tick host.old host.new) }
{
    if !host.can_serve() {
        return Err(AllocError);
    }
    let numbers = SpacedNumbers {
        first: Seq(params.iss),
    };
    host.serve(rt, &numbers, tick)
}
