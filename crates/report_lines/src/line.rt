//! What a line of a report says.

use crate::hex::HexText;
use tas_model::{Caller, FlowId, FourTuple, FrameId, Head, Phase, Reason};
use tas_num::Seq;

/// A segment of a line.
#[derive(Drop)]
pub struct SegLine<'a> {
    pub head: Head,
    pub bytes: HexText<'a>,
}

/// A call of a line. A frame of a host that the report has not is one of the host past the last. A frame of a record
/// is of no flow.
#[derive(Drop)]
pub enum CallLine<'a> {
    Connect {
        iss: Seq,
    },
    Passive {
        frame: FrameId,
        iss: Seq,
        seg: SegLine<'a>,
    },
    Rx {
        frame: FrameId,
        seg: SegLine<'a>,
    },
    Emit,
    Tick,
    Control,
    Accept,
    Ready,
    Send {
        offered: u32,
    },
    Recv {
        most: u32,
    },
    Shut,
    Close,
    Abort,
}

/// A reply of a line.
#[derive(Drop)]
pub enum ReplyLine<'a> {
    Ok,
    Nothing,
    Sent {
        seg: SegLine<'a>,
    },
    Took {
        bytes: HexText<'a>,
    },
    Got {
        bytes: HexText<'a>,
        update: Option<Head>,
    },
    End,
    NotYet,
    NotOpen,
    Shut,
    Closed {
        reason: Reason,
    },
    Quiet,
    Resend,
    Probe,
    Expired,
    TimedOut,
    Window {
        cwnd: u32,
        ssthresh: u32,
    },
}

/// An entry of a line.
#[derive(Drop)]
pub struct EntryLine<'a> {
    pub caller: Caller,
    pub number: u64,
    pub tick: u32,
    pub call: CallLine<'a>,
    pub reply: ReplyLine<'a>,
}

/// What a line of a log tells: what concerns no flow. `app` is an application by its number.
#[derive(Drop)]
pub enum EventLine<'a> {
    /// It asked to listen on a port; `ok` is false where another listener has it.
    Listened {
        app: u32,
        port: u16,
        ok: bool,
    },
    /// It asked its listener for a connection, and there was none yet.
    NotAccepted {
        app: u32,
        port: u16,
    },
    /// Its connect was refused: for want of a port where `no_port` is true, and else of a slot.
    NotConnected {
        app: u32,
        raddr: u32,
        rport: u16,
        no_port: bool,
    },
    /// A segment of no flow came, and was answered.
    Strayed {
        frame: FrameId,
        seg: SegLine<'a>,
        answer: Option<Head>,
    },
    /// A SYN was dropped: for a full backlog where `backlog` is true, and else for want of a slot.
    Dropped {
        frame: FrameId,
        backlog: bool,
    },
    /// A packet broke the rule of reading with this number.
    Refused {
        frame: FrameId,
        rule: u8,
    },
}

/// What a line says. Bytes stand as digits in the line's text.
#[derive(Drop)]
pub enum ReportLine<'a> {
    /// The head of a run's report.
    Title,
    /// A host, by its number among those that are named, and its address.
    Host {
        host: usize,
        addr: u32,
    },
    /// A line of a host's log.
    Logged {
        tick: u32,
        event: EventLine<'a>,
    },
    /// A flow begins: its opening number, its slot and its ends.
    Begins {
        number: u32,
        id: FlowId,
        tuple: FourTuple,
    },
    Made(EntryLine<'a>),
    /// The state that a flow ends in, and the reason after CLOSED.
    State {
        phase: Phase,
        reason: Option<Reason>,
    },
    /// How many bytes were read, and which.
    Read {
        count: u64,
        bytes: HexText<'a>,
    },
    /// The report ends: how many ticks the run had.
    End {
        ticks: u32,
    },
}
