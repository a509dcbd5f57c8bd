//! What a host's log tells.

use crate::kept_seg::KeptSeg;
use tas_model::{FourTuple, FrameId, Head};

/// A line of a host's log: what happened to it outside of every flow, and in which tick.
#[derive(Drop)]
pub struct LogLine {
    pub tick: u32,
    pub event: LogEvent,
}

/// What concerns no flow. `app` is an application by its number on all hosts, from 0 on.
#[derive(Drop)]
pub enum LogEvent {
    /// The application asked to listen on a port; `ok` is false where another listener has it.
    Listen {
        app: u32,
        port: u16,
        ok: bool,
    },
    /// The application asked its listener for a connection, and there was none yet.
    AcceptNotYet {
        app: u32,
        port: u16,
    },
    /// A connect to this address and port was refused: for want of a port where `no_port` is true, and else for want of
    /// a slot.
    ConnectRefused {
        app: u32,
        raddr: u32,
        rport: u16,
        no_port: bool,
    },
    /// A segment came that is of no flow. `tuple` is its four-tuple as this host sees it, and `answer` is the reset
    /// that it got (RFC 9293, section 3.10.7.1).
    Stray {
        frame: FrameId,
        tuple: FourTuple,
        seg: KeptSeg,
        answer: Option<Head>,
    },
    /// A SYN came for a listener, and was dropped: for a full backlog where `backlog` is true, and else for want of a
    /// slot.
    Dropped {
        frame: FrameId,
        backlog: bool,
    },
    /// A packet came that breaks the rule of reading with this number.
    Refused {
        frame: FrameId,
        number: u8,
    },
}
