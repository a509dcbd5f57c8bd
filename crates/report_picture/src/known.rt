ghost use Rattle.std.specs.Prelude.{◌≡◌, ◌<◌, is_some, true, false};
ghost use Rattle.report_lines.specs.Views.{seen_seg, seen_call, seen_reply, seen_entry};
ghost use Rattle.report_picture.specs.Known as rules;

use ladder_picture::has;
use report_lines::{CallLine, EntryLine, ReplyLine, SegLine};
use tas_model::{Head, Phase};
use tas_num::Seq;

/// What the entries of one end of a connection tell of it so far.
#[derive(Clone, Copy)]
pub struct Known {
    /// Whether there was an entry.
    pub begun: bool,
    /// Its own first sequence number, and the peer's, once its SYN was taken.
    pub iss: Seq,
    pub peer: Option<Seq>,
    /// The shift of windows that its own SYN bore, and whether the peer's bore one, too (RFC 7323, section 2.2).
    pub scale: Option<u8>,
    pub scaled: bool,
    /// Whether its SYN is acknowledged.
    pub syn_acked: bool,
    /// Whether its application ended the stream, the number behind the FIN once that was sent, and whether this is
    /// acknowledged.
    pub shut: bool,
    pub fin: Option<Seq>,
    pub fin_acked: bool,
    /// Whether the peer's FIN was taken, and that before this side ended its stream.
    pub ended: bool,
    pub ended_first: bool,
    pub closed: bool,
    /// The number that is expected next, and for how many bytes from there on there is room.
    pub next: Seq,
    pub window: u64,
    /// How many segments were sent.
    pub sent: u64,
}

/// The number behind a segment that bears a FIN.
fn behind_fin(head: &Head, len: usize) -> Seq
    ensures { result ≡ rules.behind_fin head.now len }
{
    head.seq.plus((len as u64 % 4_294_967_296) as u32).plus(1)
}

impl Known {
    /// Nothing is known.
    pub fn nothing() -> Known
        ensures { result ≡ rules.nothing }
    {
        Known {
            begun: false,
            iss: Seq(0),
            peer: None,
            scale: None,
            scaled: false,
            syn_acked: false,
            shut: false,
            fin: None,
            fin_acked: false,
            ended: false,
            ended_first: false,
            closed: false,
            next: Seq(0),
            window: 0,
            sent: 0,
        }
    }

    /// The state (RFC 9293, section 3.3.2).
    pub fn phase(&self) -> Phase
        ensures { result ≡ rules.phase_of self.now }
    {
        if self.closed {
            return Phase::Closed;
        }
        if self.peer.is_none() {
            return Phase::SynSent;
        }
        if !self.syn_acked {
            return Phase::SynReceived;
        }
        if !self.shut {
            return if self.ended {
                Phase::CloseWait
            } else {
                Phase::Established
            };
        }
        self.ending_phase()
    }

    /// The state where this side has ended its stream.
    fn ending_phase(&self) -> Phase
        requires open { self.now.syn_acked ≡ true }
        requires shut { self.now.shut ≡ true }
        requires lives { self.now.closed ≡ false }
        requires peer { is_some self.now.peer ≡ true }
        ensures { result ≡ rules.phase_of self.now }
    {
        match (self.ended, self.ended_first, self.fin_acked) {
            (true, true, _) => Phase::LastAck,
            (true, false, true) => Phase::TimeWait,
            (true, false, false) => Phase::Closing,
            (false, _, true) => Phase::FinWait2,
            (false, _, false) => Phase::FinWait1,
        }
    }

    /// What is known after an entry more.
    pub fn after(&self, entry: &EntryLine<'_>) -> Known
        ensures { result ≡ rules.after self.now (seen_entry entry.now) }
    {
        self.after_call(&entry.call, &entry.reply)
            .after_reply(&entry.reply)
    }

    /// What the call tells, and its reply of it.
    fn after_call(&self, call: &CallLine<'_>, reply: &ReplyLine<'_>) -> Known
        ensures { result ≡ rules.after_call self.now (seen_call call.now) (seen_reply reply.now) }
    {
        match call {
            CallLine::Connect { iss } => Known {
                begun: true,
                iss: *iss,
                ..*self
            },
            CallLine::Passive { iss, seg, .. } => Known {
                begun: true,
                iss: *iss,
                peer: Some(seg.head.seq),
                scaled: seg.head.scale.is_some(),
                next: seg.head.seq.plus(1),
                ..*self
            },
            CallLine::Rx { seg, .. } => self.after_rx(seg, reply),
            CallLine::Shut | CallLine::Close => Known {
                shut: self.shut || is_ok(reply),
                ..*self
            },
            CallLine::Abort => Known {
                closed: true,
                ..*self
            },
            _ => *self,
        }
    }

    /// What a segment tells that came.
    fn after_rx(&self, seg: &SegLine<'_>, reply: &ReplyLine<'_>) -> Known
        ensures { result ≡ rules.after_rx self.now (seen_seg seg.now) (seen_reply reply.now) }
    {
        if self.closed {
            return *self;
        }
        if self.peer.is_none() {
            return self.after_answer(&seg.head, reply);
        }
        if has(seg.head.flags, 4) {
            return Known {
                closed: seg.head.seq.0 == self.next.0,
                ..*self
            };
        }
        if !self.hears(&seg.head, reply) {
            return *self;
        }
        self.after_ack(&seg.head)
            .after_fin(&seg.head, seg.bytes.len(), self.next, reply)
    }

    /// In SYN-SENT: a SYN that acknowledges this side's opens the connection, and a reset that does closes it.
    fn after_answer(&self, head: &Head, reply: &ReplyLine<'_>) -> Known
        ensures { result ≡ rules.after_answer self.now head.now (seen_reply reply.now) }
    {
        if !has(head.flags, 16) || head.ack.0 != self.iss.plus(1).0 {
            return *self;
        }
        if has(head.flags, 4) {
            return Known {
                closed: true,
                ..*self
            };
        }
        match reply {
            ReplyLine::Sent { .. } if has(head.flags, 2) => Known {
                peer: Some(head.seq),
                scaled: head.scale.is_some(),
                syn_acked: true,
                ..*self
            },
            _ => *self,
        }
    }

    /// Whether a segment is heard: one with ACK alone of the three bits, which begins in the window, or brings on what
    /// is expected.
    fn hears(&self, head: &Head, reply: &ReplyLine<'_>) -> bool
        ensures { result ≡ rules.hears self.now head.now (seen_reply reply.now) }
    {
        let at = head.seq.minus(self.next);
        has(head.flags, 16)
            && !has(head.flags, 2)
            && (at == 0 || u64::from(at) < self.window || advances(self.next, reply))
    }

    /// What its acknowledgement tells: of the SYN, and of the FIN.
    fn after_ack(&self, head: &Head) -> Known
        ensures { result ≡ rules.after_ack self.now head.now }
    {
        let fin_acked = self.fin_acked || acks_fin(self.fin, head.ack);
        Known {
            syn_acked: self.syn_acked || head.ack.0 == self.iss.plus(1).0,
            fin_acked,
            closed: self.closed || (self.shut && self.ended_first && fin_acked),
            ..*self
        }
    }

    /// What its FIN tells: it was taken where the reply acknowledges it anew.
    fn after_fin(&self, head: &Head, len: usize, next: Seq, reply: &ReplyLine<'_>) -> Known
        ensures { result ≡ rules.after_fin self.now next head.now len (seen_reply reply.now) }
    {
        let taken = has(head.flags, 1)
            && advances(next, reply)
            && acknowledged(reply).0 == behind_fin(head, len).0;
        if !taken {
            return *self;
        }
        Known {
            ended: true,
            ended_first: !self.shut,
            ..*self
        }
    }

    /// What a reply tells by itself.
    fn after_reply(&self, reply: &ReplyLine<'_>) -> Known
        ensures { result ≡ rules.after_reply self.now (seen_reply reply.now) }
    {
        match reply {
            ReplyLine::Sent { seg } => self.after_sent(&seg.head, seg.bytes.len()),
            ReplyLine::Got { bytes, update } => self.after_got(bytes.len(), *update),
            ReplyLine::Closed { .. } | ReplyLine::TimedOut | ReplyLine::Expired => Known {
                closed: true,
                ..*self
            },
            _ => *self,
        }
    }

    /// The shift of its own windows.
    fn shift(&self) -> u8
        ensures { result ≡ rules.shift_of self.now }
    {
        match self.scale {
            Some(shift) if self.scaled => shift,
            _ => 0,
        }
    }

    /// The window that a segment offers, in bytes: its field by the shift, but in a SYN (RFC 7323, section 2.3).
    fn window_in(&self, head: &Head) -> u64
        ensures { result ≡ rules.window_in self.now head.now }
    {
        if has(head.flags, 2) {
            return u64::from(head.window);
        }
        u64::from(head.window) << self.shift().min(14)
    }

    /// What a segment tells that was sent.
    fn after_sent(&self, head: &Head, len: usize) -> Known
        ensures { result ≡ rules.after_sent self.now head.now len }
    {
        let tells = has(head.flags, 16) && !has(head.flags, 4);
        Known {
            fin: if has(head.flags, 1) {
                Some(behind_fin(head, len))
            } else {
                self.fin
            },
            next: if tells { head.ack } else { self.next },
            window: if tells {
                self.window_in(head)
            } else {
                self.window
            },
            scale: if has(head.flags, 2) {
                head.scale
            } else {
                self.scale
            },
            sent: self.sent.saturating_add(1),
            ..*self
        }
    }

    /// What bytes tell that were read, with the update that was sent then.
    fn after_got(&self, count: usize, update: Option<Head>) -> Known
        ensures { result ≡ rules.after_got self.now count update }
    {
        let read = Known {
            window: self.window.saturating_add(count as u64),
            ..*self
        };
        match update {
            Some(head) => read.after_sent(&head, 0),
            None => read,
        }
    }
}

/// Whether a reply is Ok.
fn is_ok(reply: &ReplyLine<'_>) -> bool
    ensures { result ≡ rules.is_ok (seen_reply reply.now) }
{
    matches!(reply, ReplyLine::Ok)
}

/// The number that a reply acknowledges; 0 where it is no segment.
fn acknowledged(reply: &ReplyLine<'_>) -> Seq
    ensures { result ≡ rules.acknowledged (seen_reply reply.now) }
{
    match reply {
        ReplyLine::Sent { seg } => seg.head.ack,
        _ => Seq(0),
    }
}

/// Whether a reply acknowledges another number than was expected before.
fn advances(next: Seq, reply: &ReplyLine<'_>) -> bool
    ensures { result ≡ rules.advances next (seen_reply reply.now) }
{
    match reply {
        ReplyLine::Sent { seg } => has(seg.head.flags, 16) && seg.head.ack.0 != next.0,
        _ => false,
    }
}

/// Whether an acknowledgement names the number behind the FIN.
fn acks_fin(fin: Option<Seq>, ack: Seq) -> bool
    ensures { result ≡ rules.acks_fin fin ack }
{
    match fin {
        Some(behind) => behind.0 == ack.0,
        None => false,
    }
}
