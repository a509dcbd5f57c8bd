// Which core a frame goes to.
ghost use Rattle.std.specs.Prelude.{◌≡◌, ◌<◌};
ghost use Rattle.steering.specs.Tables.{Begins};
ghost use Rattle.core_worker.specs.Handing.{IsGroupFor, IsCoreFor};

use crate::entering::tuple_of;
use segment_fields::read;
use std::sync::Wait;
use steering::{SteerPass, Steering, group};

/// The core that a frame is to be handed to: that of its flow's group. A packet that breaks a rule of reading is of no
/// flow, and goes to the core of group 0. Checksums don't matter here.
pub fn core_for<R: Wait>(rt: &R, steering: &Steering, steer: &mut SteerPass, packet: &[u8]) -> u32
    requires own { steer.old.place ≡ steering.now }
    ensures own { steer.new.place ≡ steer.old.place }
    ensures seen { Begins steer.old.tables steer.new.tables }
    ensures core { IsCoreFor packet.now steer.new.tables result }
    ensures below { result < steering.now.cores }
{
    steering.core_of(rt, steer, group_for(packet))
}

fn group_for(packet: &[u8]) -> u32
    ensures group { IsGroupFor packet.now result }
    ensures below { result < 64 }
{
    match read(packet, false) {
        Ok(seg) => group(&tuple_of(&seg)),
        Err(_) => 0,
    }
}
