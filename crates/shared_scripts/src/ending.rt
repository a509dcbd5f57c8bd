//! The end of a tick.
ghost use Rattle.core_host.specs.Sound.{IsStaffSound};
ghost use Rattle.shared_scripts.specs.Ended.{IsEnded};
ghost use Rattle.std.specs.Prelude.{OnOk};

use core_host::CoreHost;
use std::alloc::AllocError;

/// No application tries anything more, and what may still go is sent. The error is want of memory.
pub fn end_tick(host: &mut CoreHost, tick: u32) -> Result<(), AllocError>
    requires { IsStaffSound host.old }
    ensures { OnOk result (IsEnded tick host.old host.new) }
{
    host.forget_tries();
    host.send_rest(tick)
}
