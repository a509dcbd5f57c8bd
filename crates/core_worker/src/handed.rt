// Frames that wait for a core.
ghost use Rattle.std.specs.Prelude.{◌≡◌, ◌<◌, ◌++◌, ◌∷◌, [], List, length, OnOk, OnErr, IfNone, IfSome};
ghost use Rattle.core_worker.specs.declared.frames.Frame.{Frame};

use crate::frames::Frame;
use std::alloc::{AllocError, Global};
use std::collections::VecDeque;
use std::marker::Model;

/// The frames that were handed to a core, the first first.
#[derive(Drop)]
pub(crate) struct FrameList {
    frames: VecDeque<Frame>,
}

impl Model for FrameList {
    ghost use Rattle.std.specs.Prelude.{List};
    ghost use Rattle.core_worker.specs.declared.frames.Frame.{Frame};

    ghost Value = { List Frame };

    ghost view = { λ l. l.frames.items };
}

impl FrameList {
    pub(crate) fn new(alloc: Global) -> FrameList
        ensures { result ≡ [] }
    {
        FrameList {
            frames: VecDeque::new(alloc),
        }
    }

    /// Appends a frame. The error is want of memory, and leaves the list as it was.
    pub(crate) fn push(&mut self, frame: Frame) -> Result<(), AllocError>
        ensures ok { OnOk result (self.new ≡ self.old ++ frame ∷ []) }
        ensures err { OnErr result (self.new ≡ self.old) }
    {
        self.frames.push_back(frame)?;
        Ok(())
    }

    /// The first frame.
    pub(crate) fn first(&self) -> Option<&Frame>
        ensures none { IfNone result (self.now ≡ []) }
        ensures first { IfSome result (λ f. (rest : List Frame) × (self.now ≡ f.now ∷ rest)) }
    {
        self.frames.front()
    }

    /// Takes the first frame out.
    pub(crate) fn take_first(&mut self) -> Option<Frame>
        ensures none { IfNone result ((self.old ≡ []) × (self.new ≡ [])) }
        ensures first { IfSome result (λ f. self.old ≡ f ∷ self.new) }
    {
        self.frames.pop_front()
    }
}
