//! The scripts of a host at its beginning.

ghost use Rattle.std.specs.Prelude.{◌≡◌, ◌≤◌, length, IfOk};
ghost use Rattle.std.specs.List.{list_any};
ghost use Rattle.scenario_host.specs.Scripts.{is_holding_kill};
ghost use Rattle.scenario_runs.specs.Worlds.{scripts_on as model_scripts, kill_tick as model_kill};

use crate::script::AppScript;
use scenario_text::{AppLine, KillLine, Scenario};
use std::alloc::{AllocError, Global};

/// The applications on the host of this name, at their first steps. The error is want of memory.
pub fn scripts_on<'a>(
    alloc: Global,
    s: &'a Scenario,
    host: &[u8],
) -> Result<Vec<AppScript<'a>>, AllocError>
    requires { length s.now.apps ≤ 2048 }
    ensures { IfOk result (λ scripts. scripts.items ≡ model_scripts s.now.kills host.now 0 s.now.apps) }
{
    let mut scripts = Vec::new(alloc);
    let mut number = 0;
    for app in s.apps.as_slice() {
        if app.host.as_slice() == host {
            let kill = kill_tick(s.kills.as_slice(), app);
            let holding = ends_holding(s.kills.as_slice(), app);
            let steps = app.steps.as_slice();
            scripts.push(AppScript::at_start(alloc, number, kill, holding, steps))?;
        }
        number += 1;
    }
    Ok(scripts)
}

/// The tick in which an application is killed.
fn kill_tick(kills: &[KillLine], app: &AppLine) -> Option<u32>
    ensures { result ≡ model_kill kills.now app.now }
{
    for kill in kills {
        if kill.host.as_slice() == app.host.as_slice()
            && kill.app.as_slice() == app.name.as_slice()
        {
            return Some(kill.at);
        }
    }
    None
}

/// Whether an application ends with a record in hand where it is killed.
fn ends_holding(kills: &[KillLine], app: &AppLine) -> bool
    ensures { result ≡ list_any (is_holding_kill app.now) kills.now }
{
    kills.iter().any(|kill| {
        kill.holding
            && kill.host.as_slice() == app.host.as_slice()
            && kill.app.as_slice() == app.name.as_slice()
    })
}
