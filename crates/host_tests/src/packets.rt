//! The packets of peers.
ghost use Rattle.std.specs.Prelude.{◌≤◌, length};

use segment_fields::{Flags, Segment, write};
use std::alloc::Global;
use tas_model::{Bytes, FrameId};
use tas_num::Seq;

/// The host's address, 10.0.0.2, and that of all peers, 10.0.0.1.
pub const HOST: u32 = 167_772_162;

const PEERS_ADDRESS: u32 = 167_772_161;

/// The first sequence number of each peer.
const FIRST: u32 = 1000;

/// How many pieces a peer's stream has, of four bytes each.
pub const PIECES: u32 = 16;

/// The number of the frame that ends a peer's stream. Those before it are the SYN, the ACK and the pieces.
pub const LAST: u32 = PIECES + 2;

/// A peer, by its port and the port of the host that it speaks to.
#[derive(Clone, Copy, Drop)]
pub struct Peer {
    pub port: u16,
    pub to: u16,
    /// The host's first sequence number to it.
    pub iss: u32,
}

/// Four peers, two of each application. The flows of the first and the last are on core 1, and the slow path opens
/// those of core 0 before them.
pub const PEERS: [Peer; 4] = [
    Peer {
        port: 49152,
        to: 80,
        iss: 133_000,
    },
    Peer {
        port: 49153,
        to: 80,
        iss: 5_000,
    },
    Peer {
        port: 49154,
        to: 81,
        iss: 69_000,
    },
    Peer {
        port: 49155,
        to: 81,
        iss: 197_000,
    },
];

/// The byte at a place of the stream of the peer with this port.
pub fn byte_at(port: u16, place: u64) -> u8 {
    (place.wrapping_mul(7).wrapping_add(u64::from(port)) % 251) as u8
}

/// The frame with this number of a peer.
pub fn frame_of(peer: Peer, number: u32) -> FrameId {
    FrameId {
        host: 0,
        flow: u32::from(peer.port),
        number: u64::from(number),
        copy: 0,
    }
}

/// The packet of a segment; `None` where memory is wanting.
fn packed(alloc: Global, seg: &Segment<'_>) -> Option<Bytes>
    requires { length seg.now.payload.now ≤ 100 }
{
    let mut buf = [0; 160];
    let Ok(len) = write(seg, &mut buf) else {
        return None;
    };
    match Bytes::copy(alloc, buf.get(..len)?) {
        Ok(packet) => Some(packet),
        Err(_) => None,
    }
}

/// The packet with these flags at this place of the peer's sequence numbers, counted from its SYN.
pub fn packet(alloc: Global, peer: Peer, place: u32, flags: Flags, payload: &[u8]) -> Option<Bytes>
    requires { length payload.now ≤ 100 }
{
    let seg = Segment {
        src: PEERS_ADDRESS,
        dst: HOST,
        sport: peer.port,
        dport: peer.to,
        seq: Seq(FIRST.wrapping_add(place)),
        ack: Seq(peer.iss.wrapping_add(1)),
        flags,
        window: 16384,
        mss: None,
        scale: None,
        payload,
    };
    packed(alloc, &seg)
}

/// The packet with this number of a peer: its SYN, its ACK, a piece of its stream, or its FIN.
pub fn packet_of(alloc: Global, peer: Peer, number: u32) -> Option<Bytes> {
    let place = number.saturating_sub(2).saturating_mul(4);
    let after_syn = place.saturating_add(1);
    match number {
        0 => packet(alloc, peer, 0, Flags::SYN, &[]),
        1 => packet(alloc, peer, 1, Flags::ACK, &[]),
        LAST => packet(alloc, peer, after_syn, Flags(17), &[]),
        _ => packet(
            alloc,
            peer,
            after_syn,
            Flags::ACK,
            &piece_at(peer.port, u64::from(place)),
        ),
    }
}

/// The four bytes at a place of the stream of the peer with this port.
fn piece_at(port: u16, place: u64) -> [u8; 4] {
    [
        byte_at(port, place),
        byte_at(port, place.wrapping_add(1)),
        byte_at(port, place.wrapping_add(2)),
        byte_at(port, place.wrapping_add(3)),
    ]
}
