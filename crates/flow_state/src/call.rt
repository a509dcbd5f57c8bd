//! Calls and answers, as engines take and give them.

ghost use Rattle.std.specs.Prelude.{◌≡◌, ◌≤◌};
ghost use Rattle.flow_state.specs.Calls.{payload_of, answer_len, segment_count};

use segment_fields::Segment;
use tas_model::{FrameId, Head, Reason};
use tas_num::Seq;

/// A call as it is made: that of the model, with its bytes where the caller has them.
#[derive(Clone, Copy)]
pub enum CallIn<'a> {
    Connect {
        iss: Seq,
    },
    Passive {
        frame: FrameId,
        iss: Seq,
        seg: Segment<'a>,
    },
    Rx {
        frame: FrameId,
        seg: Segment<'a>,
    },
    Emit,
    Tick,
    Control,
    Accept,
    Ready,
    /// The bytes are fewer than 2^32.
    Send {
        bytes: &'a [u8],
    },
    Recv {
        most: u32,
    },
    Shut,
    Close,
    Abort,
}

impl<'a> CallIn<'a> {
    /// The bytes that the call brings and its entry keeps: a received segment's payload.
    pub fn payload(&self) -> &'a [u8]
        ensures { result.now ≡ payload_of self.now }
    {
        match self {
            CallIn::Passive { seg, .. } | CallIn::Rx { seg, .. } => seg.payload,
            _ => &[],
        }
    }
}

/// A reply as it is given: that of the model, with the number of its bytes in place of them.
#[derive(Clone, Copy, PartialEq, Eq, Debug)]
pub enum Answer {
    Ok,
    Nothing,
    Sent { head: Head, len: u32 },
    Took { len: u32 },
    Got { len: u32, update: Option<Head> },
    End,
    NotYet,
    NotOpen,
    Shut,
    Closed { reason: Reason },
    Quiet,
    Resend,
    Probe,
    Expired,
    TimedOut,
    Window { cwnd: u32, ssthresh: u32 },
}

impl Answer {
    /// How many bytes the reply has.
    pub fn bytes(&self) -> usize
        ensures { result ≡ answer_len self.now }
    {
        match self {
            Answer::Sent { len, .. } | Answer::Took { len } | Answer::Got { len, .. } => {
                *len as usize
            }
            _ => 0,
        }
    }

    /// How many segments the reply has, one at most.
    pub fn segments(&self) -> u64
        ensures count { result ≡ segment_count self.now }
        ensures few { result ≤ 1 }
    {
        match self {
            Answer::Sent { .. }
            | Answer::Got {
                update: Some(_),
                ..
            } => 1,
            _ => 0,
        }
    }
}
