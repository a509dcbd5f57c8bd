//! A segment that was sent, as a frame with its packet.

ghost use Rattle.std.specs.Prelude.{◌≡◌, ◌≤◌, ◌<◌, ◌==◌, ◌^◌, ◌++◌, ◌∷◌, [], length, position, IfSome, IfOk, OnOk};
ghost use Rattle.segment_fields.specs.Canon.{canon};
ghost use Rattle.flow_state.specs.Views.{seen_seg};
ghost use Rattle.tas_runs.specs.SentFrames.{sent_fields};
ghost use Rattle.scenario_runs.specs.Worlds.{World, host_at};
ghost use Rattle.sent_frames.specs.Sending.{addresses_of, AreUpTo, segment_frames};

use flow_state::SegView;
use link_script::{Sent, SentList};
use segment_fields::{Flags, Segment, write};
use std::alloc::{AllocError, Global};
use tas_model::{Bytes, FourTuple, FrameId};

/// How many bytes the headers of a packet have at most: 20 each for IPv4 and TCP, an MSS of 4, and a window scale of 4.
const MOST_HEADERS: usize = 48;

/// A host that sends, by its number, and the addresses of all hosts.
#[derive(Clone, Copy)]
pub struct Sender<'a> {
    pub host: u32,
    pub addresses: &'a [u32],
}

impl Sender<'_> {
    /// The number of the host with this address, which is that of hosts where none has it.
    pub fn host_at(&self, addr: u32) -> u32
        requires { length self.now.addresses.now < 2 ^ 32 }
        ensures { (world : World) → self.now.addresses.now ≡ addresses_of world → result ≡ host_at world addr }
    {
        match place_of(self.addresses, addr) {
            Some(place) => place as u32,
            None => self.addresses.len() as u32,
        }
    }
}

/// The first place of an address.
fn place_of(addresses: &[u32], addr: u32) -> Option<usize>
    ensures place { result ≡ position (λ address. address == addr) addresses.now }
    ensures bound { IfSome result (λ place. place < length addresses.now) }
{
    addresses.iter().position(|address| *address == addr)
}

/// Where frames come from: which host sends them, of which of its flows they are, or of none, to which host they go,
/// and
/// between which ends.
#[derive(Clone, Copy, Debug)]
pub struct Origin {
    pub host: u32,
    pub flow: u32,
    pub to: u32,
    pub tuple: FourTuple,
}

/// Puts the frame of a segment behind all that were sent. The error is want of memory.
pub fn push_segment(
    alloc: Global,
    origin: &Origin,
    number: u64,
    tick: u32,
    seg: SegView<'_>,
    sent: &mut SentList,
) -> Result<(), AllocError>
    requires room { length seg.bytes.now ≤ 65487 }
    requires last { AreUpTo tick sent.old }
    ensures frame { OnOk result (sent.new ≡ sent.old
        ++ segment_frames origin.now number tick (seen_seg seg.entry ∷ [])) }
    ensures last { OnOk result (AreUpTo tick sent.new) }
{
    let packet = packet_of(alloc, origin.tuple, seg)?;
    sent.push(Sent {
        id: FrameId {
            host: origin.host,
            flow: origin.flow,
            number,
            copy: 0,
        },
        tick,
        to: origin.to,
        packet,
    })
}

/// The packet of a segment that the local end of this four-tuple sends. The error is want of memory.
fn packet_of(alloc: Global, tuple: FourTuple, seg: SegView<'_>) -> Result<Bytes, AllocError>
    requires { length seg.bytes.now ≤ 65487 }
    ensures { IfOk result (λ packet. packet ≡ canon (sent_fields tuple (seen_seg seg.entry))) }
{
    let segment = Segment {
        src: tuple.laddr,
        dst: tuple.raddr,
        sport: tuple.lport,
        dport: tuple.rport,
        seq: seg.head.seq,
        ack: seg.head.ack,
        flags: Flags(seg.head.flags),
        window: seg.head.window,
        mss: seg.head.mss,
        scale: seg.head.scale,
        payload: seg.bytes,
    };
    let mut packet = Vec::from_elem(alloc, 0, MOST_HEADERS + seg.bytes.len())?;
    match write(&segment, &mut packet) {
        Ok(len) => {
            packet.truncate(len);
            Ok(Bytes::of(packet))
        }
        Err(_) => unreachable!(),
    }
}
