//! What a host reads off a record.

ghost use Rattle.std.specs.Prelude.{◌≡◌, ◌+◌, ◌-◌, ◌^◌, ◌<◌, length, true};
ghost use Rattle.tas_num.specs.Places.{raised as raised_place};
ghost use Rattle.tas_model.specs.Endpoint.{is_closed as model_closed};
ghost use Rattle.tas_model.specs.ApplicationCalls.{column};
ghost use Rattle.tas_model.specs.LegalHistory.{replay};
ghost use Rattle.flow_state.specs.Calls.{is_running, is_closed_phase};
ghost use Rattle.flow_state.specs.App.{column_of};
ghost use Rattle.flow_state.specs.declared.stage.Stage.TheVariants as stages;
ghost use Rattle.host_rounds.specs.Upkeep.{is_control_tick as model_control_tick};

use flow_state::{FlowRecord, Stage};
use tas_num::Seq;

/// Where a call stands in the table of calls.
pub fn stage_of(flow: &FlowRecord) -> Stage
    ensures column { column_of result ≡ column (replay flow.now.params flow.now.entries) }
    ensures running { result ≡ stages.Running → is_running flow.now.parts.phase ≡ true }
{
    flow.parts().stage()
}

/// Whether it is CLOSED.
pub fn is_closed(flow: &FlowRecord) -> bool
    ensures closed { result ≡ model_closed (replay flow.now.params flow.now.entries) }
    ensures phase { result ≡ is_closed_phase flow.now.parts.phase }
{
    flow.parts().is_closed()
}

/// How many bytes its Sends took.
pub fn sent_count(flow: &FlowRecord) -> u128
    ensures count { result ≡ length (replay flow.now.params flow.now.entries).tx.out }
    ensures near { result < 2 ^ 127 }
{
    flow.parts().tx.end()
}

/// Its own first sequence number.
pub fn first_number(flow: &FlowRecord) -> Seq
    ensures { result.0 ≡ (replay flow.now.params flow.now.entries).iss }
{
    flow.parts().iss
}

/// The whole number nearest to `near` with the residue `word` modulo 2^32, and 2^32 more, since it may be negative.
pub fn raised(near: u128, word: u32) -> u128
    requires { near < 2 ^ 127 + 2 ^ 64 }
    ensures { result ≡ raised_place near word }
{
    let low = near + 0x8000_0000;
    let behind = u128::from(word) + (0x1_0000_0000 - low % 0x1_0000_0000);
    low + behind % 0x1_0000_0000
}

/// Whether rates are controlled in this tick: in each tenth one, but for a replay's flows.
pub fn is_control_tick(fixed: bool, tick: u32) -> bool
    ensures { result ≡ model_control_tick fixed tick }
{
    !fixed && tick > 0 && tick % 10 == 0
}
