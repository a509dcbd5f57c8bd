//! The bucket of tokens that paces a flow.

ghost use Rattle.std.specs.Prelude.{◌≡◌, ℕ, ◌+◌, ◌-◌, ◌≤◌, min};
ghost use Rattle.tas_num.specs.Control.{refill};

/// A bucket of tokens, of which each is the leave to send one byte.
///
/// It limits the rate: in any stretch of time a flow sends at most the depth and what the ticks added. All three
/// numbers are bytes.
#[derive(Clone, Copy, PartialEq, Eq, Debug)]
pub struct Bucket {
    /// How many bytes may be sent now.
    pub tokens: u32,
    /// How many tokens it holds at most.
    pub depth: u32,
    /// How many tokens a tick adds.
    pub fill: u32,
}

impl Bucket {
    /// A full bucket for a congestion window of `cwnd` bytes and a send MSS of `smss` bytes.
    pub fn full(cwnd: u32, smss: u16) -> Bucket
        ensures { result ≡ record { tokens = cwnd; depth = cwnd; fill = refill smss cwnd } }
    {
        Bucket {
            tokens: cwnd,
            depth: cwnd,
            fill: fill_of(cwnd, smss),
        }
    }

    /// Adds one tick's tokens, up to the depth.
    pub fn tick(&mut self)
        ensures filled { self.new ≡ record self.old { tokens = min self.old.depth (self.old.tokens + self.old.fill) } }
        ensures within { self.new.tokens ≤ self.new.depth }
    {
        self.tokens = self.tokens.saturating_add(self.fill).min(self.depth);
    }

    /// Takes the tokens for `n` bytes that are sent.
    pub fn take(&mut self, n: u32)
        requires { n ≤ self.old.tokens }
        ensures taken { self.new ≡ record self.old { tokens = self.old.tokens - n } }
        ensures within { self.old.tokens ≤ self.old.depth → self.new.tokens ≤ self.new.depth }
    {
        self.tokens -= n;
    }

    /// Fits the bucket to a congestion window of `cwnd` bytes and a send MSS of `smss` bytes. Tokens past the new depth
    /// are lost.
    pub fn resize(&mut self, cwnd: u32, smss: u16)
        ensures sized { self.new ≡ record { tokens = min self.old.tokens cwnd; depth = cwnd; fill = refill smss cwnd } }
        ensures within { self.new.tokens ≤ self.new.depth }
    {
        self.tokens = self.tokens.min(cwnd);
        self.depth = cwnd;
        self.fill = fill_of(cwnd, smss);
    }
}

/// The tokens that a tick adds: a quarter of the congestion window, and one segment at least.
fn fill_of(cwnd: u32, smss: u16) -> u32
    ensures { result ≡ refill smss cwnd }
{
    u32::from(smss).max(cwnd / 4)
}
