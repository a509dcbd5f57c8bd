//! Where the first numbers and scales of a host's flows come from.

ghost use Rattle.std.specs.Prelude.{◌≡◌, ◌≤◌, IfSome};
ghost use Rattle.tas_model.specs.Valid.{InRange};
ghost use Rattle.host_rounds.specs.Hosts.{flow_params as model_flow_params};

use capture_items::FlowStarts;
use host_rounds::Start;
use tas_model::{FourTuple, HostParams};

/// How large the rings of a flow with a window scale of its own are.
const SCALED_RING: u32 = 262_144;

/// Where a host's flows get what they begin with.
pub trait StartSource {
    ghost use Rattle.host_rounds.specs.Hosts.{Starts};

    ghost starts: { Self → Starts };

    /// What a flow of this four-tuple begins with, where `k` flows of the four-tuple were opened before it, and `n`
    /// flows of the host.
    fn start(&self, tuple: FourTuple, k: usize, n: u32) -> Start
        ensures start { result ≡ starts self.now tuple k n }
        ensures shift { IfSome result.scale (λ shift. shift ≤ 14) };
}

impl StartSource for FlowStarts {
    ghost use Rattle.capture_items.specs.Starts.{kept_starts};

    ghost starts = { λ kept. kept_starts kept };

    #[tactic(auto, using(crate::proofs::Shifts::replays_shift))]
    fn start(&self, tuple: FourTuple, k: usize, n: u32) -> Start {
        FlowStarts::start(self, tuple, k, n)
    }
}

/// The parameters of a flow that is opened with this window scale, on a host with these parameters: with a scale of its
/// own a flow has larger rings.
#[tactic(auto, using(host_rounds::proofs::Runs::flow_in_range))]
pub fn flow_params(params: &HostParams, scale: Option<u8>) -> HostParams
    requires ranges { InRange params.now }
    requires shift { IfSome scale (λ shift. shift ≤ 14) }
    ensures params { result ≡ model_flow_params params.now scale }
    ensures ranges { InRange result }
{
    match scale {
        Some(shift) => HostParams {
            ring: SCALED_RING,
            scale: Some(shift),
            ..*params
        },
        None => *params,
    }
}
