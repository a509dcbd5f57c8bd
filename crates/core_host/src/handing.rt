//! The frames of a tick are handed to cores.
ghost use Rattle.std.specs.Prelude.{◌≡◌, ◌<◌, ℕ, All, List, length, IfOk, OnOk};
ghost use Rattle.std.specs.List.{AllZip};
ghost use Rattle.core_host.specs.Handing.{coming, comings, IsCore, with_frame, dealt_from, IsHandedOut};
ghost use Rattle.core_host.specs.Sound.{AreStaff, IsClear, IsStaffSound};
ghost use Rattle.core_worker.specs.Handing.{IsGroupFor};
ghost use Rattle.frame_steering.specs.declared.handing.GroupMove.{GroupMove};
ghost use Rattle.host_rounds.specs.Lists.{Each};
ghost use Rattle.phase_orders.specs.Handing.{IsInGroup};

use crate::host::CoreHost;
use core_phase::Lane;
use core_worker::tuple_of;
use frame_steering::{GroupMove, hand_out};
use segment_fields::read;
use std::alloc::{AllocError, Global};
use std::sync::Wait;
use steering::group;
use tas_model::{Bytes, FrameId};

/// A frame that comes to a host.
#[derive(Clone, Copy)]
pub struct Coming<'a> {
    pub id: FrameId,
    pub packet: &'a [u8],
}

impl CoreHost {
    /// Hands the frames to the cores of their groups, while groups move: each to the one that the steering names then.
    /// Nothing was handed out before that isn't taken yet. The error is want of memory.
    pub fn hand_out<R: Wait>(
        &mut self,
        rt: &R,
        frames: &[Coming<'_>],
        moves: &[GroupMove],
    ) -> Result<(), AllocError>
        requires sound { IsStaffSound self.old }
        requires clear { Each IsClear self.old.lanes }
        requires moves { All (λ (m : GroupMove). m.group < 64) moves.now }
        ensures { OnOk result (IsHandedOut moves.now (comings frames.now) self.old self.new) }
    {
        let groups = groups_of(self.alloc, frames)?;
        let handed = hand_out(
            rt,
            self.alloc,
            &self.shared.steering,
            &mut self.steer,
            self.cores,
            groups.as_slice(),
            moves,
        )?;
        self.busy = self.busy.saturating_add(frames.len());
        hand_all(self.alloc, &mut self.lanes, frames, handed.as_slice())
    }
}

/// The groups of the frames' flows. The error is want of memory.
fn groups_of(alloc: Global, frames: &[Coming<'_>]) -> Result<Vec<u32>, AllocError>
    ensures groups { IfOk result (λ groups. AllZip IsInGroup (comings frames.now) groups.items) }
    ensures below { IfOk result (λ groups. All (λ group. group < 64) groups.items) }
{
    let mut groups = Vec::with_capacity(alloc, frames.len())?;
    for frame in frames {
        groups.push(group_for(frame.packet))?;
    }
    Ok(groups)
}

/// The group of the flow of a packet. One that breaks a rule of reading is of group 0.
fn group_for(packet: &[u8]) -> u32
    ensures group { IsGroupFor packet.now result }
    ensures below { result < 64 }
{
    match read(packet, false) {
        Ok(seg) => group(&tuple_of(&seg)),
        Err(_) => 0,
    }
}

/// Hands each frame to its core. The error is want of memory.
fn hand_all(
    alloc: Global,
    lanes: &mut Vec<Lane>,
    frames: &[Coming<'_>],
    handed: &[u32],
) -> Result<(), AllocError>
    requires count { length handed.now ≡ length frames.now }
    requires below { (cores : ℕ) × (names : List ℕ) × AreStaff cores 0 names lanes.old.items
        × All (λ core. core < cores) handed.now }
    ensures { OnOk result (lanes.new.items ≡ dealt_from 0 handed.now (comings frames.now) lanes.old.items) }
{
    for (i, frame) in frames.iter().enumerate() {
        hand(alloc, &mut lanes[handed[i] as usize], frame)?;
    }
    Ok(())
}

/// Hands a frame to a core. The error is want of memory.
fn hand(alloc: Global, lane: &mut Lane, frame: &Coming<'_>) -> Result<(), AllocError>
    requires { IsCore lane.old }
    ensures { OnOk result (lane.new ≡ with_frame (coming frame.now) lane.old) }
{
    let packet = Bytes::copy(alloc, frame.packet)?;
    match lane {
        Lane::Core(core) => core.worker.hand(frame.id, packet),
        Lane::App(_) => unreachable!(),
    }
}
