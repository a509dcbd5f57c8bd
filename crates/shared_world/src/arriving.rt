//! Frames that are due reach their hosts.
ghost use Rattle.std.specs.Prelude.{◌≡◌, ◌++◌, ◌∷◌, [], IfOk, OnOk};
ghost use Rattle.core_host.specs.Handing.{comings};
ghost use Rattle.shared_world.specs.Stepping.{frames_to};

use core_host::Coming;
use link_script::{DueList, Sent};
use std::alloc::{AllocError, Global};

/// The frames that come to the host of this number, of those that are due. The error is want of memory.
pub(crate) fn comings_at<'a>(
    alloc: Global,
    due: &'a DueList<'a>,
    number: usize,
) -> Result<Vec<Coming<'a>>, AllocError>
    ensures { IfOk result (λ frames. comings frames.items ≡ frames_to number due.now) }
{
    let mut frames = Vec::new(alloc);
    for i in 0..due.len() {
        take_frame(&mut frames, due.get(i), number)?;
    }
    Ok(frames)
}

/// Appends the frame, where it comes to the host. The error is want of memory.
fn take_frame<'a>(
    frames: &mut Vec<Coming<'a>>,
    frame: &'a Sent,
    number: usize,
) -> Result<(), AllocError>
    ensures { OnOk result (comings frames.new.items ≡ comings frames.old.items ++ frames_to number (frame.now ∷ [])) }
{
    if frame.to as usize == number {
        frames.push(coming(frame))?;
    }
    Ok(())
}

/// The frame as its host takes it.
fn coming(frame: &Sent) -> Coming<'_>
    ensures id { result.id ≡ frame.now.id }
    ensures packet { result.packet.now ≡ frame.now.packet }
{
    Coming {
        id: frame.id,
        packet: frame.packet.as_slice(),
    }
}
