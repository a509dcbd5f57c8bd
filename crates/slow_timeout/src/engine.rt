//! The engine of Tick and Control.

use crate::control::control;
use crate::timer::{pass_quietly, tick as run_tick};
use flow_state::{Answer, CallIn, Clock, Engine, Parts};

/// The engine of Tick and Control. It answers `None` exactly on the other calls.
#[derive(Clone, Copy)]
pub struct TimerWork;

impl Engine for TimerWork {
    ghost use Rattle.slow_timeout.specs.Serves.{IsTimerCall};

    ghost serves = { λ _ _ call. IsTimerCall call };

    #[tactic(auto, unfolding(tas_model::specs::LegalHistory::step))]
    fn run(
        &self,
        parts: &mut Parts,
        tick: u32,
        call: &CallIn<'_>,
        _out: &mut [u8],
    ) -> Option<Answer> {
        match call {
            CallIn::Tick => Some(run_tick(parts, tick)),
            CallIn::Control => Some(control(parts)),
            _ => None,
        }
    }
}

impl Clock for TimerWork {
    fn pass(&self, parts: &mut Parts, tick: u32, count: u32) -> u32 {
        pass_quietly(parts, tick, count)
    }
}
