//! What a row of a lifeline shows.

use tas_model::{FrameId, Head, Phase, Reason};

/// What an application asked of its connection. Numbers are of bytes.
#[derive(Clone, Copy)]
pub enum Asked {
    Connect,
    Accept,
    Ready,
    Send { offered: u32 },
    Recv { most: u32 },
    Shut,
    Close,
    Abort,
}

/// What it was told. Numbers are of bytes.
#[derive(Clone, Copy)]
pub enum Told {
    Ok,
    Took { count: usize },
    Got { count: usize },
    End,
    NotOpen,
    Shut,
    Closed { reason: Reason },
    /// A segment went, or nothing was to be said.
    Done,
}

/// A timer that ran out.
#[derive(Clone, Copy)]
pub enum Timer {
    Resend,
    Probe,
    TimedOut,
    Expired,
}

/// What stands at the outer side of a lifeline.
#[derive(Clone, Copy)]
pub enum Note {
    Nothing,
    Call { asked: Asked, told: Told },
    Timer(Timer),
}

/// What became of a frame that came, and that the connection had not.
#[derive(Clone, Copy)]
pub enum Fate {
    /// It was of no flow.
    Stray,
    /// It was a SYN, and dropped: for a full backlog where `backlog` is true, and else for want of a slot.
    Dropped { backlog: bool },
    /// It broke this rule of reading: it was damaged.
    Refused { rule: u8 },
}

/// A frame with its segment's header, and how many bytes of payload it has.
#[derive(Clone, Copy)]
pub struct Frame {
    pub id: FrameId,
    pub head: Head,
    pub len: usize,
}

/// What passes between the lifelines.
#[derive(Clone, Copy)]
pub enum Framed {
    Nothing,
    /// This frame was sent.
    Sent(Frame),
    /// This frame came, and the connection had it.
    Came(Frame),
    /// This frame came, and the connection had it not.
    Met { id: FrameId, fate: Fate },
}

/// One row of a lifeline: what happened there in this tick, and the state that it led to where that is another one.
#[derive(Clone, Copy)]
pub struct Row {
    pub tick: u32,
    pub note: Note,
    pub state: Option<Phase>,
    pub framed: Framed,
}
