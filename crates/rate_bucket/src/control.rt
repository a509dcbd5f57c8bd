//! The arithmetic of the control of a rate (RFC 5681, section 3).

ghost use Rattle.std.specs.Prelude.{◌≡◌, ℕ, ◌<◌, ◌≤◌, min};
ghost use Rattle.tas_num.specs.Control.{cwnd_after, halved, ssthresh_after};

/// What the control of the window counted since it ran last.
#[derive(Clone, Copy, PartialEq, Eq, Debug)]
pub struct Counters {
    /// Bytes that were newly acknowledged.
    pub acked: u32,
    /// Fast retransmissions.
    pub fast: u32,
    /// Retransmission timeouts.
    pub timeouts: u32,
    /// Bytes that are sent and not acknowledged.
    pub flight: u32,
}

/// The congestion window and the slow start threshold after one interval of control, in bytes (RFC 5681, sections 3.1
/// and 3.2).
pub fn interval(c: &Counters, smss: u16, cwnd: u32, ssthresh: u32) -> (u32, u32)
    requires { 0 < cwnd }
    ensures cwnd { result.0 ≡ cwnd_after c.now.acked c.now.fast c.now.timeouts c.now.flight smss cwnd ssthresh }
    ensures ssthresh { result.1 ≡ ssthresh_after c.now.fast c.now.timeouts c.now.flight smss ssthresh }
    ensures limit { result.0 ≤ 65535 }
{
    if c.timeouts > 0 {
        return (u32::from(smss), halved(c.flight, smss));
    }
    if c.fast > 0 {
        let threshold = halved(c.flight, smss);
        return (threshold, threshold);
    }
    (grown(c.acked, smss, cwnd, ssthresh), ssthresh)
}

/// Half of what is in flight, but two segments at least.
fn halved(flight: u32, smss: u16) -> u32
    ensures { result ≡ min 65535 (halved flight smss) }
{
    (flight / 2).max(2 * u32::from(smss)).min(65_535)
}

/// The congestion window after `acked` bytes were acknowledged and none was lost: slow start below the threshold, and
/// congestion avoidance from it on.
fn grown(acked: u32, smss: u16, cwnd: u32, ssthresh: u32) -> u32
    requires { 0 < cwnd }
    ensures { result ≡ cwnd_after acked 0 0 0 smss cwnd ssthresh }
{
    let window = u64::from(cwnd);
    let growth = if cwnd < ssthresh {
        u64::from(acked.min(cwnd))
    } else {
        let segment = u64::from(smss);
        segment.min(segment * u64::from(acked) / window)
    };
    (window + growth).min(65_535) as u32
}
