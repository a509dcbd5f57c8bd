//! The beginning of a tick: time passes, frames are handed to cores, and applications try the calls of their steps.
ghost use Rattle.std.specs.Prelude.{◌≡◌, OnOk};
ghost use Rattle.core_host.specs.Emission.{AreTriesSet};
ghost use Rattle.core_host.specs.Handing.{comings};
ghost use Rattle.core_host.specs.Sharing.{MayAllPlay};
ghost use Rattle.core_host.specs.Sound.{IsStaffSound, IsUnasked};
ghost use Rattle.core_host.specs.Ticks.{AreSetTo};
ghost use Rattle.core_host.specs.Views.{seen_by};
ghost use Rattle.host_rounds.specs.Lists.{Each};
ghost use Rattle.scenario_host.specs.Sound.{AreRising};
ghost use Rattle.scenario_host.specs.Tries.{IsAtStep};
ghost use Rattle.script_tries.specs.Tries.{try_of};
ghost use Rattle.shared_scripts.specs.Begun.{HasTried, IsBegun, tries_of};
ghost use Rattle.shared_scripts.specs.Playing.{IsPlayable, Owns};

use crate::moving::moves_at;
use crate::scripts::HostScripts;
use core_host::{Coming, CoreHost, tries_are_set};
use scenario_host::{AppScript, FillBytes};
use scenario_text::Scenario;
use std::alloc::AllocError;
use std::sync::Wait;

impl<'a> HostScripts<'a> {
    /// Time passes, the frames that come to the host of this name are handed to its cores, while groups move by the
    /// lines of the scenario, and each application whose step is a call on a socket tries it. The error is want of
    /// memory.
    pub fn begin_tick<R: Wait>(
        &self,
        rt: &R,
        host: &mut CoreHost,
        tick: u32,
        frames: &[Coming<'_>],
        s: &Scenario,
        name: &[u8],
    ) -> Result<(), AllocError>
        requires { IsPlayable tick host.old self.now }
        ensures { OnOk result (IsBegun s.now tick name.now (comings frames.now) self.now host.old host.new) }
    {
        host.pass_time(rt, tick)?;
        let moves = moves_at(self.alloc, s.moves.as_slice(), name, tick)?;
        host.hand_out(rt, frames, moves.as_slice())?;
        try_all(host, self.scripts.as_slice(), tick, &self.filling)
    }
}

/// The applications of these scripts try what they try in the tick. The error is want of memory.
fn try_all(
    host: &mut CoreHost,
    scripts: &[AppScript<'_>],
    tick: u32,
    filling: &FillBytes,
) -> Result<(), AllocError>
    requires sound { IsStaffSound host.old }
    requires none { Each IsUnasked host.old.lanes }
    requires numbers { AreRising scripts.now }
    requires steps { Each IsAtStep scripts.now }
    requires own { Each (Owns (seen_by host.old).flows) scripts.now }
    ensures tries { OnOk result (AreTriesSet host.old host.new) }
    ensures set { OnOk result (AreSetTo (tries_of tick scripts.now host.new) host.new.lanes) }
    ensures may { OnOk result (MayAllPlay host.new) }
{
    tries_are_set();
    for script in scripts {
        try_one(host, script, tick, filling)?;
    }
    Ok(())
}

/// The application of a script tries the call of its step, where that is one on a socket. The error is want of memory.
fn try_one(
    host: &mut CoreHost,
    script: &AppScript<'_>,
    tick: u32,
    filling: &FillBytes,
) -> Result<(), AllocError>
    requires sound { IsStaffSound host.old }
    requires step { IsAtStep script.now }
    requires own { Owns (seen_by host.old).flows script.now }
    ensures { OnOk result (HasTried script.now.number (try_of tick host.old.host.books script.now) host.old host.new) }
{
    let Some(attempt) = script.attempt(tick, filling) else {
        return Ok(());
    };
    host.try_call(script.number(), attempt.place, &attempt.call)
}
