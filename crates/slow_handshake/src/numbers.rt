//! Where the first sequence numbers of flows come from.
ghost use Rattle.std.specs.Prelude.{◌≡◌};

use tas_model::FourTuple;
use tas_num::Seq;

/// How far a first sequence number is past the one before.
pub(crate) const ISS_STEP: u32 = 64000;

/// Where the first sequence numbers of the flows that a host opens come from (RFC 9293, section 3.4.1). To ask for one
/// uses up none.
pub trait NumberSource {
    ghost use Rattle.slow_handshake.specs.Numbers.{FirstNumbers};

    ghost number: { Self → FirstNumbers };

    /// The first number of a flow of this four-tuple, where `n` flows of the host were opened before it.
    fn first_number(&self, tuple: FourTuple, n: u32) -> Seq
        ensures { result ≡ number self.now tuple n };
}

/// This number and no other.
impl NumberSource for Seq {
    ghost number = { λ number tuple n. number };

    fn first_number(&self, _tuple: FourTuple, _n: u32) -> Seq {
        *self
    }
}

/// The numbers of a host's flows, from the first flow's on: each is 64,000 past the one before, modulo 2^32.
#[derive(Clone, Copy, PartialEq, Eq, Debug)]
pub struct SpacedNumbers {
    pub first: Seq,
}

impl NumberSource for SpacedNumbers {
    ghost use Rattle.slow_handshake.specs.Numbers.{spaced_from};

    ghost number = { λ numbers. spaced_from numbers.first };

    fn first_number(&self, _tuple: FourTuple, n: u32) -> Seq {
        self.first.plus(n.wrapping_mul(ISS_STEP))
    }
}
