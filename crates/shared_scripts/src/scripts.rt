//! The scripts of a host's applications.
ghost use Rattle.std.specs.Prelude.{◌≡◌, IfOk};
ghost use Rattle.std.specs.List.{list_all};
ghost use Rattle.scenario_ranges.specs.Ranges.{IsInRange};
ghost use Rattle.scenario_runs.specs.Applications.{has_ended};
ghost use Rattle.scenario_runs.specs.Worlds.{site_of};
ghost use Rattle.shared_scripts.specs.Turns.{numbers_in};

use scenario_host::{AppScript, FillBytes, scripts_on};
use scenario_text::{HostLine, Scenario};
use std::alloc::{AllocError, Global};
use std::marker::Model;

/// The scripts of a host's applications, with what their calls need.
#[derive(Drop)]
pub struct HostScripts<'a> {
    pub(crate) alloc: Global,
    pub(crate) scripts: Vec<AppScript<'a>>,
    pub(crate) filling: FillBytes,
}

impl<'a> Model for HostScripts<'a> {
    ghost use Rattle.std.specs.Prelude.{List};
    ghost use Rattle.scenario_runs.specs.Applications.{Script};

    ghost Value = { List Script };

    ghost view = { λ h. h.scripts.items };
}

impl<'a> HostScripts<'a> {
    /// The scripts of the applications on the host of a line, at their first steps. The error is want of memory.
    pub fn at_start(
        alloc: Global,
        s: &'a Scenario,
        line: &'a HostLine,
    ) -> Result<HostScripts<'a>, AllocError>
        requires { IsInRange s.now }
        ensures { IfOk result (λ h. h ≡ (site_of s.now line.now).scripts) }
    {
        let filling = FillBytes::new(alloc)?;
        let scripts = scripts_on(alloc, s, line.name.as_slice())?;
        Ok(HostScripts {
            alloc,
            scripts,
            filling,
        })
    }

    /// The numbers of the applications, in their order. The error is want of memory.
    pub fn numbers(&self) -> Result<Vec<u32>, AllocError>
        ensures { IfOk result (λ numbers. numbers.items ≡ numbers_in self.now) }
    {
        let mut numbers = Vec::with_capacity(self.alloc, self.scripts.len())?;
        for script in &self.scripts {
            numbers.push(script.number())?;
        }
        Ok(numbers)
    }

    /// Whether all have ended.
    pub fn have_ended(&self) -> bool
        ensures { result ≡ list_all has_ended self.now }
    {
        all_ended(self.scripts.as_slice())
    }
}

/// Whether all of these have ended.
fn all_ended(scripts: &[AppScript<'_>]) -> bool
    ensures { result ≡ list_all has_ended scripts.now }
{
    for script in scripts {
        if !script.has_ended() {
            return false;
        }
    }
    true
}
