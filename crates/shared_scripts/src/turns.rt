//! The turns of those that were not answered beside the cores.
ghost use Rattle.std.specs.Prelude.{◌≡◌, false, length, [], ◌∷◌, OnOk};
ghost use Rattle.core_host.specs.Sound.{IsStaffSound};
ghost use Rattle.core_host.specs.Views.{seen_by};
ghost use Rattle.shared_scripts.specs.Going.{IsReadyFor};
ghost use Rattle.shared_scripts.specs.Turns.{HaveHadTurns, HasHadTurn};

use crate::hearing::answer_at;
use core_host::CoreHost;
use flow_state::Answer;
use scenario_host::{AppScript, FillBytes, HostStarts};
use scenario_text::Scenario;
use std::alloc::AllocError;
use std::sync::Wait;

/// The applications of these scripts that have no answer have their turns of the tick, in their order. The error is
/// want of memory.
pub(crate) fn take_turns<R: Wait>(
    rt: &R,
    host: &mut CoreHost,
    scripts: &mut Vec<AppScript<'_>>,
    answers: &[Option<Answer>],
    tick: u32,
    s: &Scenario,
    starts: &HostStarts,
    filling: &FillBytes,
) -> Result<(), AllocError>
    requires sound { IsStaffSound host.old }
    requires listens { (seen_by host.old).params.fixed ≡ false }
    requires count { length answers.now ≡ length scripts.old.items }
    requires ready { IsReadyFor tick host.old scripts.old.items }
    ensures { OnOk result (HaveHadTurns s.now starts.now.params tick answers.now host.old host.new scripts.old.items
        scripts.new.items) }
{
    for (k, script) in scripts.iter_mut().enumerate() {
        let answered = answer_at(answers, k).is_some();
        take_one(rt, host, script, answered, tick, s, starts, filling)?;
    }
    Ok(())
}

/// An application that wasn't answered has its turn. The error is want of memory.
fn take_one<R: Wait>(
    rt: &R,
    host: &mut CoreHost,
    script: &mut AppScript<'_>,
    answered: bool,
    tick: u32,
    s: &Scenario,
    starts: &HostStarts,
    filling: &FillBytes,
) -> Result<(), AllocError>
    requires sound { IsStaffSound host.old }
    requires listens { (seen_by host.old).params.fixed ≡ false }
    requires ready { IsReadyFor tick host.old (script.old ∷ []) }
    ensures { OnOk result (HasHadTurn answered s.now starts.now.params tick host.old host.new script.old script.new) }
{
    if answered {
        return Ok(());
    }
    script.take_turn(rt, host, tick, s.hosts.as_slice(), starts, filling)
}
