//! What a scenario's host gives its flows.

ghost use Rattle.std.specs.Prelude.{◌≡◌};
ghost use Rattle.scenario_runs.specs.Worlds.{starts_of};

use host_rounds::Start;
use local_host::StartSource;
use tas_model::{FourTuple, HostParams};
use tas_num::Seq;

/// How far apart the first numbers of a host's flows are.
const APART: u32 = 64_000;

/// What a host with these parameters gives its flows: first numbers from its own on, and no window scale of their own,
/// as all have the host's.
#[derive(Clone, Copy, Debug)]
pub struct HostStarts {
    pub params: HostParams,
}

impl StartSource for HostStarts {
    ghost starts = { λ source. starts_of source.params };

    fn start(&self, _tuple: FourTuple, _k: usize, n: u32) -> Start {
        Start {
            number: Seq(self.params.iss.wrapping_add(n.wrapping_mul(APART))),
            scale: None,
        }
    }
}
