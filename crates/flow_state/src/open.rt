//! The peer's SYN is taken: the largest payload, the windows and the rate.

ghost use Rattle.std.specs.Prelude.{◌≡◌, ℕ, ◌+◌, ◌^◌, ◌<◌, ◌≤◌, ◌∷◌, [], IfOk};
ghost use Rattle.tas_model.specs.declared.entry.FrameId.{FrameId};
ghost use Rattle.tas_model.specs.declared.entry.Call.TheVariants as calls;
ghost use Rattle.tas_num.specs.Control.{refill as model_refill};
ghost use Rattle.tas_model.specs.Endpoint.{Endpoint, first_rate, send_mss as model_mss, first_cwnd as model_cwnd};
ghost use Rattle.tas_model.specs.LegalHistory.{opened};
ghost use Rattle.tas_model.specs.Valid.{InRange};
ghost use Rattle.flow_state.specs.Calls.{seg_of};
ghost use Rattle.flow_state.specs.Stands.{Stands};

use crate::parts::Parts;
use crate::scaling::Scaling;
use payload_ring::Ring;
use rate_bucket::{Bucket, Counters};
use segment_fields::Segment;
use std::alloc::{AllocError, Global};
use tas_model::{FourTuple, HostParams, Phase};
use tas_num::Seq;

/// Nothing was counted.
const NO_COUNTS: Counters = Counters {
    acked: 0,
    fast: 0,
    timeouts: 0,
    flight: 0,
};

/// The largest payload to send, by the peer's MSS option.
fn send_mss(params: &HostParams, theirs: Option<u16>) -> u16
    ensures { result ≡ model_mss params.now theirs }
{
    params.mss.min(theirs.unwrap_or(536)).max(64)
}

/// The congestion window at first (RFC 5681, section 3.1).
fn first_cwnd(fixed: bool, mss: u16) -> u32
    ensures { result ≡ model_cwnd fixed mss }
{
    let mss = u32::from(mss);
    if fixed {
        65535
    } else if mss > 2190 {
        2 * mss
    } else if mss > 1095 {
        3 * mss
    } else {
        4 * mss
    }
}

/// The tokens that one tick adds.
fn refill(mss: u16, cwnd: u32) -> u32
    ensures { result ≡ model_refill mss cwnd }
{
    (cwnd / 4).max(u32::from(mss))
}

impl Parts {
    /// Sets the rate to that of a flow whose peer's SYN was just taken, by the SYN's MSS option (RFC 5681, section
    /// 3.1). The bucket is full.
    pub fn begin_rate(&mut self, theirs: Option<u16>)
        ensures stands { (e : Endpoint) → Stands self.old e
            → Stands self.new (record e { rate = first_rate e.params theirs }) }
        ensures params { self.new.params ≡ self.old.params }
        ensures tuple { self.new.tuple ≡ self.old.tuple }
    {
        let smss = send_mss(&self.params, theirs);
        let cwnd = first_cwnd(self.params.fixed, smss);
        self.smss = smss;
        self.cwnd = cwnd;
        self.ssthresh = 65535;
        self.bucket = Bucket {
            tokens: cwnd,
            depth: cwnd,
            fill: refill(smss, cwnd),
        };
        self.counters = NO_COUNTS;
    }
}

/// The parts of a flow that a peer's SYN opens, whose window, MSS and shift are taken.
pub fn passive_parts(
    alloc: Global,
    tuple: FourTuple,
    params: &HostParams,
    iss: Seq,
    seg: &Segment<'_>,
) -> Result<Parts, AllocError>
    requires { InRange params.now }
    ensures stands { (frame : FrameId)
        → IfOk result (λ p. Stands p (opened params.now (calls.Passive frame iss (seg_of seg.now)))) }
    ensures params { IfOk result (λ p. p.params ≡ params.now) }
    ensures tuple { IfOk result (λ p. p.tuple ≡ tuple) }
{
    let _ranges = (iss.0, seg.seq.0, params.ring);
    let smss = send_mss(params, seg.mss);
    let cwnd = first_cwnd(params.fixed, smss);
    Ok(Parts {
        tuple,
        params: *params,
        phase: Phase::SynReceived,
        reason: None,
        iss,
        irs: seg.seq,
        una: iss,
        nxt: iss,
        max: iss,
        rcv: seg.seq.plus(1),
        tx: Ring::new(alloc, params.ring)?,
        rx: Ring::new(alloc, params.ring)?,
        island: None,
        window: u32::from(seg.window),
        scaling: Scaling::between(params.scale, seg.scale),
        wl1: 0,
        wl2: 0,
        dup: 0,
        counters: NO_COUNTS,
        cwnd,
        ssthresh: 65535,
        bucket: Bucket {
            tokens: cwnd,
            depth: cwnd,
            fill: refill(smss, cwnd),
        },
        smss,
        age: 0,
        tries: 0,
        probe: false,
        entered: 0,
    })
}

/// The parts of a flow that its own host opens.
pub fn connect_parts(
    alloc: Global,
    tuple: FourTuple,
    params: &HostParams,
    iss: Seq,
) -> Result<Parts, AllocError>
    requires { InRange params.now }
    ensures stands { IfOk result (λ p. Stands p (opened params.now (calls.Connect iss))) }
    ensures params { IfOk result (λ p. p.params ≡ params.now) }
    ensures tuple { IfOk result (λ p. p.tuple ≡ tuple) }
{
    let _ranges = (iss.0, params.ring);
    Ok(Parts {
        tuple,
        params: *params,
        phase: Phase::SynSent,
        reason: None,
        iss,
        irs: Seq(0),
        una: iss,
        nxt: iss,
        max: iss,
        rcv: Seq(1),
        tx: Ring::new(alloc, params.ring)?,
        rx: Ring::new(alloc, params.ring)?,
        island: None,
        window: 0,
        scaling: Scaling::NONE,
        wl1: 0,
        wl2: 0,
        dup: 0,
        counters: NO_COUNTS,
        cwnd: 0,
        ssthresh: 65535,
        bucket: Bucket {
            tokens: 0,
            depth: 0,
            fill: 0,
        },
        smss: 0,
        age: 0,
        tries: 0,
        probe: false,
        entered: 0,
    })
}
