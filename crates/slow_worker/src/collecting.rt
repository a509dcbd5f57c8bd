// What cores passed on is collected.
ghost use Rattle.std.specs.Prelude.{◌≡◌, ◌≤◌, ◌++◌, [], length, OnOk, OnErr};
ghost use Rattle.core_worker.specs.Workers.{with_exceptions, with_deferred};
ghost use Rattle.slow_worker.specs.Queues.{IsCollected, IsUncollected};

use crate::worker::SlowWorker;
use core_worker::{CoreWorker, PassedFrames};
use std::alloc::AllocError;

/// Moves a core's exceptions behind the frames of a list.
fn move_exceptions(frames: &mut PassedFrames, core: &mut CoreWorker)
    requires room { length core.old.exceptions ≤ frames.old.spare }
    ensures list { frames.new.list ≡ frames.old.list ++ core.old.exceptions }
    ensures core { core.new ≡ with_exceptions [] core.old }
{
    while core.exceptions() > 0 {
        let Some(frame) = core.take_exception() else {
            unreachable!()
        };
        frames.put(frame);
    }
}

/// Moves a core's deferred frames behind the frames of a list.
fn move_deferred(frames: &mut PassedFrames, core: &mut CoreWorker)
    requires room { length core.old.deferred ≤ frames.old.spare }
    ensures list { frames.new.list ≡ frames.old.list ++ core.old.deferred }
    ensures core { core.new ≡ with_deferred [] core.old }
{
    while core.deferred() > 0 {
        let Some(frame) = core.take_deferred() else {
            unreachable!()
        };
        frames.put(frame);
    }
}

impl SlowWorker {
    /// Moves a core's exceptions, deferred frames and lines behind the worker's own. The error is want of memory, and
    /// leaves all lists as they were.
    pub fn collect(&mut self, core: &mut CoreWorker) -> Result<(), AllocError>
        ensures ok { OnOk result (IsCollected core.old core.new self.old self.new) }
        ensures err { OnErr result (IsUncollected core.old core.new self.old self.new) }
    {
        self.exceptions.reserve(core.exceptions())?;
        self.deferred.reserve(core.deferred())?;
        core.move_log(&mut self.log)?;
        move_exceptions(&mut self.exceptions, core);
        move_deferred(&mut self.deferred, core);
        Ok(())
    }
}
