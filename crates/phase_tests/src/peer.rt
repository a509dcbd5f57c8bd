//! The segments of the peer.
ghost use Rattle.std.specs.Prelude.{◌≡◌, length};

use segment_fields::{Flags, Segment, write};
use std::alloc::Global;
use tas_model::{Bytes, FrameId};
use tas_num::Seq;

/// The host's address, 10.0.0.2, and the peer's, 10.0.0.1.
pub const HOST: u32 = 167_772_162;

pub const PEER: u32 = 167_772_161;

/// The port of the host, the first that it gives, and the peer's.
pub const OWN_PORT: u16 = 49152;

pub const PORT: u16 = 80;

/// The host's first sequence number.
pub const ISS: u32 = 5000;

/// The peer's.
const FIRST: u32 = 1000;

/// What the peer says.
pub const WORDS: &[u8; 5] = b"hello";

/// The frame with this number of the peer.
pub fn frame(number: u64) -> FrameId {
    FrameId {
        host: 0,
        flow: 0,
        number,
        copy: 0,
    }
}

/// A segment with these flags at this place of the peer's sequence numbers, counted from its SYN.
pub fn segment(place: u32, flags: Flags, payload: &[u8]) -> Segment<'_>
    ensures { length result.payload.now ≡ length payload.now }
{
    Segment {
        src: PEER,
        dst: HOST,
        sport: PORT,
        dport: OWN_PORT,
        seq: Seq(FIRST.wrapping_add(place)),
        ack: Seq(ISS.wrapping_add(1)),
        flags,
        window: 16384,
        mss: None,
        scale: None,
        payload,
    }
}

/// The packet with the peer's words; `None` where memory is wanting.
pub fn hello(alloc: Global) -> Option<Bytes> {
    let mut buf = [0; 160];
    let Ok(len) = write(&segment(1, Flags::ACK, WORDS), &mut buf) else {
        return None;
    };
    Bytes::copy(alloc, buf.get(..len)?).ok()
}
