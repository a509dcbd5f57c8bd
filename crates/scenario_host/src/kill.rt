//! An application is killed.

ghost use Rattle.std.specs.Prelude.{◌≡◌, OnOk};
ghost use Rattle.scenario_runs.specs.Applications.{killed};
ghost use Rattle.scenario_host.specs.Turns.{turn_of};

use crate::script::AppScript;
use asked_host::AskedHost;
use std::alloc::AllocError;

impl AppScript<'_> {
    /// It is killed: its flows are aborted, its listeners go, and its script has ended. The error is want of memory.
    #[inline(never)]
    pub(crate) fn be_killed<H: AskedHost>(
        &mut self,
        host: &mut H,
        tick: u32,
    ) -> Result<(), AllocError>
        requires stands { H.stands host.old }
        requires app { H.has_app host.old self.old.number }
        ensures made { OnOk result (turn_of (H.seen host.new) self.new
            ≡ killed tick (turn_of (H.seen host.old) self.old)) }
        ensures lost { OnOk result (H.loses self.old.number host.old host.new) }
    {
        host.kill(self.number(), tick, self.ends_holding())?;
        self.end();
        Ok(())
    }
}
