//! Where a call stands in the table of calls.

ghost use Rattle.std.specs.Prelude.{◌≡◌};
ghost use Rattle.tas_model.specs.Endpoint.{Endpoint};
ghost use Rattle.tas_model.specs.ApplicationCalls.{column};
ghost use Rattle.flow_state.specs.Stands.{Stands};
ghost use Rattle.flow_state.specs.App.{column_of, stage_by};

use crate::parts::Parts;
use tas_model::{Phase, Reason};

/// Where a call of an application stands in the table of calls.
#[derive(Clone, Copy, PartialEq, Eq, Debug)]
pub enum Stage {
    /// Before the connection stands: SYN-SENT and SYN-RECEIVED.
    Opening,
    /// CLOSED, for this reason.
    Over(Reason),
    /// All else.
    Running,
}

impl Parts {
    /// Where a call stands in the table of calls.
    pub fn stage(&self) -> Stage
        ensures exact { result ≡ stage_by self.now.reason self.now.phase }
        ensures column { (e : Endpoint) → Stands self.now e → column_of result ≡ column e }
    {
        match self.reason {
            Some(reason) => Stage::Over(reason),
            None => match self.phase {
                Phase::SynSent | Phase::SynReceived => Stage::Opening,
                _ => Stage::Running,
            },
        }
    }
}
