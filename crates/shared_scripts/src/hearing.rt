//! What applications were answered, and how their scripts go on by that.
ghost use Rattle.std.specs.Prelude.{◌≡◌, ℕ, length, slice_get, IfOk, OnOk};
ghost use Rattle.core_host.specs.Emission.{AreTriesSet};
ghost use Rattle.core_host.specs.Sound.{IsStaffSound};
ghost use Rattle.host_rounds.specs.Lists.{Each};
ghost use Rattle.scenario_host.specs.Sound.{AreRising};
ghost use Rattle.shared_scripts.specs.Answers.{answers_in, heard_by, told_at, AreWithin, IsAnswered};
ghost use Rattle.shared_scripts.specs.Playing.{RunsOn};

use core_host::{CoreHost, tries_are_set};
use flow_state::Answer;
use scenario_host::AppScript;
use std::alloc::{AllocError, Global};

/// What the applications of these scripts were answered in the last phase; none of them tries anything more. The error
/// is want of memory.
pub(crate) fn take_answers(
    alloc: Global,
    host: &mut CoreHost,
    scripts: &[AppScript<'_>],
) -> Result<Vec<Option<Answer>>, AllocError>
    requires sound { IsStaffSound host.old }
    requires numbers { AreRising scripts.now }
    requires runs { (t : ℕ) × Each (RunsOn t host.old) scripts.now }
    ensures answers { IfOk result (λ answers. answers.items ≡ answers_in host.old.lanes scripts.now) }
    ensures set { OnOk result (AreTriesSet host.old host.new) }
{
    tries_are_set();
    let mut answers = Vec::with_capacity(alloc, scripts.len())?;
    for script in scripts {
        answers.push(take_answer(host, script)?)?;
    }
    Ok(answers)
}

/// What the application of a script was answered. The error is want of memory.
fn take_answer(host: &mut CoreHost, script: &AppScript<'_>) -> Result<Option<Answer>, AllocError>
    requires sound { IsStaffSound host.old }
    requires runs { (t : ℕ) × RunsOn t host.old script.now }
    ensures { IfOk result (λ answer. IsAnswered script.now answer host.old host.new) }
{
    tries_are_set();
    if script.has_ended() {
        return Ok(None);
    }
    host.take_answer(script.number())
}

/// The scripts that were answered go on by that.
pub(crate) fn hear_all(scripts: &mut Vec<AppScript<'_>>, answers: &[Option<Answer>])
    requires count { length answers.now ≡ length scripts.old.items }
    requires within { AreWithin answers.now scripts.old.items }
    ensures { scripts.new.items ≡ heard_by answers.now scripts.old.items }
{
    for (k, script) in scripts.iter_mut().enumerate() {
        if let Some(told) = answer_at(answers, k) {
            script.go_on_by(told);
        }
    }
}

/// The answer at a place; none where there is no such place.
pub(crate) fn answer_at(answers: &[Option<Answer>], k: usize) -> Option<Answer>
    ensures { result ≡ told_at (slice_get answers.now k) }
{
    match answers.get(k) {
        Some(answer) => *answer,
        None => None,
    }
}
