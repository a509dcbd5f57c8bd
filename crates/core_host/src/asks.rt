//! What applications ask alone, one after the other.
ghost use Rattle.std.specs.Prelude.{◌≡◌, ◌<◌, false, OnOk};
ghost use Rattle.host_rounds.specs.Hosts.{is_listened, first_port};
ghost use Rattle.core_host.specs.Sound.{IsStaffSound};
ghost use Rattle.core_host.specs.Steps.{IsNoted, IsListening};
ghost use Rattle.core_host.specs.Views.{seen_by};

use crate::host::CoreHost;
use slow_handshake::ListenRefused;
use std::alloc::AllocError;
use tas_core::{LogEvent, LogLine};

impl CoreHost {
    /// Appends a line to the log. The error is want of memory.
    pub fn note(&mut self, tick: u32, event: LogEvent) -> Result<(), AllocError>
        requires { IsStaffSound self.old }
        ensures { OnOk result (IsNoted tick event self.old self.new) }
    {
        self.slow.log.add(LogLine { tick, event })
    }

    /// The application listens on a port, which nobody does yet and which is none that connects are given. The error is
    /// want of memory.
    pub fn listen(&mut self, app: u32, port: u16) -> Result<(), AllocError>
        requires sound { IsStaffSound self.old }
        requires low { port < first_port }
        requires free { is_listened port (seen_by self.old) ≡ false }
        ensures { OnOk result (IsListening app port self.old self.new) }
    {
        match self.slow.path.listen(app, port) {
            Ok(()) => Ok(()),
            Err(ListenRefused::OutOfMemory) => Err(AllocError),
            Err(ListenRefused::PortInUse) => unreachable!(),
        }
    }
}
