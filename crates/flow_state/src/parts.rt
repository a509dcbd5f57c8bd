//! The compact record of an endpoint.

use crate::scaling::Scaling;
use payload_ring::Ring;
use rate_bucket::{Bucket, Counters};
use tas_model::{FourTuple, HostParams, Phase, Reason};
use tas_num::Seq;

/// The compact record of one endpoint (RFC 9293, section 3.3.1): what is left of its whole history.
///
/// Engines write its fields, so it keeps nothing true by itself: `Stands` says which endpoint it stands for. Sequence
/// numbers are kept modulo 2^32; the places that may stay old for longer than 32 bits can tell are whole.
#[derive(Drop)]
pub struct Parts {
    /// The state of RFC 9293, section 3.3.2.
    pub phase: Phase,
    /// Why it is closed, where it is.
    pub reason: Option<Reason>,
    /// The own first sequence number.
    pub iss: Seq,
    /// The peer's first sequence number; 0 before it is known.
    pub irs: Seq,
    /// The first place that is not acknowledged.
    pub una: Seq,
    /// The next place to send.
    pub nxt: Seq,
    /// Past the highest place that was sent.
    pub max: Seq,
    /// The next place that is expected of the peer.
    pub rcv: Seq,
    /// The window that the peer advertised, in bytes, its shift included.
    pub window: u32,
    /// How windows are scaled, once the peer's SYN was taken.
    pub scaling: Scaling,
    /// The congestion window, in bytes (RFC 5681, section 3.1).
    pub cwnd: u32,
    /// The slow start threshold, in bytes.
    pub ssthresh: u32,
    /// The tokens for sending, in bytes.
    pub bucket: Bucket,
    /// The largest payload that is sent, in bytes; 0 before the peer's SYN.
    pub smss: u16,
    /// Ticks since the retransmission timer was set.
    pub age: u32,
    /// How often in a row that timer has run out.
    pub tries: u8,
    /// Whether a byte is to probe a window of 0.
    pub probe: bool,
    /// Duplicate acknowledgements in a row, at most 3 (RFC 5681, section 3.2).
    pub dup: u8,
    /// The tick at which TIME-WAIT began.
    pub entered: u32,
    /// The bytes accepted for sending, from the first that is not acknowledged on.
    pub tx: Ring,
    /// The bytes received in order, from the first unread one on, and ahead of them the island's.
    pub rx: Ring,
    /// Where bytes stand past a gap: how far past `rcv` they begin, and how many they are.
    pub island: Option<(u32, u32)>,
    /// What is counted between two runs of the control. `flight` is 0 but while the control runs, which fills it in.
    pub counters: Counters,
    /// The place of the segment that last moved that window (SND.WL1 of RFC 9293).
    pub wl1: u128,
    /// The place that this segment acknowledged (SND.WL2).
    pub wl2: u128,
    /// The connection's ends.
    pub tuple: FourTuple,
    /// The host's parameters.
    pub params: HostParams,
}
