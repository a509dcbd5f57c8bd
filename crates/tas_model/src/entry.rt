//! What histories are made of: entries, calls, replies and segments.

use crate::bytes::Bytes;
use tas_num::Seq;

/// The two ends of a connection, seen from this one: `l` is local, `r` is remote. Addresses are those of IPv4 (RFC 791,
/// section 3.1) and ports those of TCP (RFC 9293, section 3.1), as numbers.
#[derive(Clone, Copy, PartialEq, Eq, Hash, Debug)]
pub struct FourTuple {
    pub laddr: u32,
    pub lport: u16,
    pub raddr: u32,
    pub rport: u16,
}

/// A flow by the slot that its record is kept in. A slot is used again after its flow was freed, and then has the next
/// generation.
#[derive(Clone, Copy, PartialEq, Eq, Debug)]
pub struct FlowId {
    pub slot: u32,
    pub generation: u32,
}

/// The flow of a frame that belongs to none.
pub const NO_FLOW: u32 = u32::MAX;

/// The host of a frame that is a record of a capture.
pub const CAPTURE: u32 = u32::MAX;

/// A frame by its origin: the host that sent it, which flow of that host, which of the flow's frames from 0 on, and
/// which copy of it. `NO_FLOW` and `CAPTURE` name what has no flow or no host.
#[derive(Clone, Copy, PartialEq, Eq, Debug)]
pub struct FrameId {
    pub host: u32,
    pub flow: u32,
    pub number: u64,
    pub copy: u32,
}

/// The fields of a TCP header that an endpoint makes or reads (RFC 9293, section 3.1), ports apart. `window` is in
/// bytes, or in units of a power of two where both sides agreed to scale windows. `mss` is the option of that name
/// (section 3.7.1), in bytes, and `scale` the shift of the option Window Scale (RFC 7323, section 2.2).
#[derive(Clone, Copy, PartialEq, Eq, Debug)]
pub struct Head {
    pub flags: u8,
    pub seq: Seq,
    pub ack: Seq,
    pub window: u16,
    pub mss: Option<u16>,
    pub scale: Option<u8>,
}

/// A segment: its header and its payload.
#[derive(Drop)]
pub struct Seg {
    pub head: Head,
    pub bytes: Bytes,
}

/// Why an endpoint is closed.
#[derive(Clone, Copy, PartialEq, Eq, Debug)]
pub enum Reason {
    /// Both sides ended the connection.
    Done,
    /// The peer reset it.
    Reset,
    /// The peer answered its SYN with a reset.
    Refused,
    /// The retransmission timer ran out too often.
    TimedOut,
    /// The application gave it up.
    Aborted,
}

/// The states of a connection (RFC 9293, section 3.3.2). LISTEN is none of an endpoint's: it is a listener's.
#[derive(Clone, Copy, PartialEq, Eq, Debug)]
pub enum Phase {
    SynSent,
    SynReceived,
    Established,
    FinWait1,
    FinWait2,
    CloseWait,
    Closing,
    LastAck,
    TimeWait,
    Closed,
}

/// Who makes a call: the slow path, a core's fast path by its number, or an application by its number.
#[derive(Clone, Copy, PartialEq, Eq, Debug)]
pub enum Caller {
    Slow,
    Core(u32),
    App(u32),
}

/// What is asked of an endpoint: the events of RFC 9293, section 3.10.
#[derive(Drop)]
pub enum Call {
    /// An active OPEN with this first sequence number (section 3.10.1).
    Connect { iss: Seq },
    /// A listener takes a SYN, and answers with this first sequence number (section 3.10.7.2).
    Passive { frame: FrameId, iss: Seq, seg: Seg },
    /// A segment arrives (section 3.10.7).
    Rx { frame: FrameId, seg: Seg },
    /// The next segment is sent (section 3.10.2).
    Emit,
    /// One tick of time passes (section 3.10.8).
    Tick,
    /// The rate is adjusted (RFC 5681, section 3).
    Control,
    /// The application takes a connection of its listener.
    Accept,
    /// The application asks whether its connection stands.
    Ready,
    /// The application offers so many bytes (section 3.10.2).
    Send { offered: u32 },
    /// The application wants at most so many bytes (section 3.10.3).
    Recv { most: u32 },
    /// The application ends its stream (section 3.10.4, as CLOSE there).
    Shut,
    /// The application leaves, and ends its stream (section 3.10.4).
    Close,
    /// The application gives the connection up (section 3.10.5).
    Abort,
}

/// What an endpoint answers.
#[derive(Drop)]
pub enum Reply {
    Ok,
    /// A received segment was taken or dropped with no segment in answer, or an abort needs none.
    Nothing,
    /// This segment goes to the peer.
    Sent { seg: Seg },
    /// A Send took these bytes.
    Took { bytes: Bytes },
    /// A Recv gives these bytes, and `update` goes to the peer where it opens the window again.
    Got { bytes: Bytes, update: Option<Head> },
    /// The peer ended its stream, and all of it was read.
    End,
    /// There is no room to send, or nothing to read, or no connection yet.
    NotYet,
    /// The connection does not stand yet.
    NotOpen,
    /// The application ended its stream before.
    Shut,
    /// The endpoint is closed.
    Closed { reason: Reason },
    /// A tick with nothing due.
    Quiet,
    /// The retransmission timer ran out: sending goes back to the first place not acknowledged.
    Resend,
    /// The timer ran out at a window of 0: a probe is due.
    Probe,
    /// TIME-WAIT is over.
    Expired,
    /// The timer ran out too often: the connection is given up.
    TimedOut,
    /// The congestion window and the slow start threshold after a Control, both in bytes.
    Window { cwnd: u32, ssthresh: u32 },
}

/// One call of an endpoint and what it answered. `number` counts the caller's entries in this flow from 0. `tick` is
/// the time.
#[derive(Drop)]
pub struct Entry {
    pub caller: Caller,
    pub number: u64,
    pub tick: u32,
    pub call: Call,
    pub reply: Reply,
}

/// What a host gives its endpoints. `addr` is its address, `iss` the first sequence number of its first flow. `ring` is
/// the room for bytes of each direction of a flow, from 256 to 1,048,576. `mss` is the largest payload that it wants to
/// receive, from 64 to 8,960 bytes. `rto` is the retransmission timeout, from 1 to 1,000 ticks. `slots` and `backlog`,
/// from 1 to 1,024, bound its flows and those that wait for Accept. `fixed` is true in replays alone: the congestion
/// window then begins at its largest value. `scale` is the shift of the windows that it advertises, from 0 to 14, where
/// it offers to scale them (RFC 7323, section 2).
#[derive(Clone, Copy, PartialEq, Eq, Debug)]
pub struct HostParams {
    pub addr: u32,
    pub iss: u32,
    pub ring: u32,
    pub mss: u16,
    pub rto: u32,
    pub slots: u32,
    pub backlog: u32,
    pub fixed: bool,
    pub scale: Option<u8>,
}
