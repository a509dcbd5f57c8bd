// Frames that cores pass on to the slow path.
ghost use Rattle.std.specs.Prelude.{◌≡◌, ◌+◌, ◌<◌, ◌≤◌, ◌++◌, ◌∷◌, [], length, OnOk, IfNone, IfSome};

use crate::frames::PassedFrame;
use std::alloc::{AllocError, Global};
use std::collections::VecDeque;
use std::marker::Model;

/// Frames that cores passed on, the first first.
#[derive(Drop)]
pub struct PassedFrames {
    frames: VecDeque<PassedFrame>,
}

impl Model for PassedFrames {
    ghost use Rattle.std.specs.Prelude.{◌-◌};
    ghost use Rattle.std.specs.VecDeque.{deque_len, deque_capacity};
    ghost use Rattle.app_reaper.specs.Lists.{Roomy};
    ghost use Rattle.core_worker.specs.declared.frames.PassedFrame.{PassedFrame};

    ghost Value = { Roomy PassedFrame };

    ghost view = { λ l. record { list = l.frames.items; spare = deque_capacity l.frames - deque_len l.frames } };
}

impl PassedFrames {
    /// No frames. It takes no memory.
    pub fn new(alloc: Global) -> PassedFrames
        ensures { result.list ≡ [] }
    {
        PassedFrames {
            frames: VecDeque::new(alloc),
        }
    }

    /// How many frames there are.
    pub fn len(&self) -> usize
        ensures { result ≡ length self.now.list }
    {
        self.frames.len()
    }

    /// Makes room for so many frames more. The error is want of memory.
    pub fn reserve(&mut self, more: usize) -> Result<(), AllocError>
        ensures room { OnOk result (more ≤ self.new.spare) }
        ensures list { self.new.list ≡ self.old.list }
    {
        self.frames.reserve(more)
    }

    /// Appends a frame.
    pub fn put(&mut self, frame: PassedFrame)
        requires room { 0 < self.old.spare }
        ensures list { self.new.list ≡ self.old.list ++ frame ∷ [] }
        ensures room { self.new.spare + 1 ≡ self.old.spare }
    {
        self.frames.push_back_reserved(frame);
    }

    /// Puts a frame before all others.
    pub fn put_back(&mut self, frame: PassedFrame)
        requires room { 0 < self.old.spare }
        ensures list { self.new.list ≡ frame ∷ self.old.list }
    {
        self.frames.push_front_reserved(frame);
    }

    /// Takes the first frame out. There is then room for one more.
    pub fn take_first(&mut self) -> Option<PassedFrame>
        ensures none { IfNone result ((self.old.list ≡ []) × (self.new.list ≡ [])) }
        ensures first { IfSome result (λ f. self.old.list ≡ f ∷ self.new.list) }
        ensures room { IfSome result (λ _. 0 < self.new.spare) }
    {
        self.frames.pop_front()
    }

    /// The frames alone.
    pub fn into_frames(self) -> VecDeque<PassedFrame>
        ensures { result.items ≡ self.list }
    {
        self.frames
    }
}
