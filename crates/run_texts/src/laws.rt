//! The law that each segment that was sent has room in a packet.

ghost use Rattle.std.specs.Prelude.{List};
ghost use Rattle.tas_model.specs.declared.entry.Entry.{Entry};
ghost use Rattle.tas_model.specs.declared.entry.HostParams.{HostParams};
ghost use Rattle.tas_model.specs.LegalHistory.{Legal};
ghost use Rattle.tas_model.specs.Outputs.{sent};
ghost use Rattle.tas_model.specs.Valid.{InRange};
ghost use Rattle.host_rounds.specs.Logs.{Flow, HostRun};
ghost use Rattle.host_rounds.specs.Lists.{Each};
ghost use Rattle.run_texts.specs.Frames.{AreAllShort, AreFlowsShort, AreShort};

/// Each segment that a legal history sent has room in a packet, and so has each that flows and hosts of legal histories
/// sent.
#[tactic(auto, using(crate::proofs::Short::of_sent, crate::proofs::Short::of_flows, crate::proofs::Short::of_hosts))]
pub fn segments_have_room()
    ensures history { (params : HostParams) (h : List Entry) → InRange params → Legal params h → AreAllShort (sent h) }
    ensures flows { (flows : List Flow) → Each (λ (f : Flow). InRange f.params × Legal f.params f.entries) flows
        → AreFlowsShort flows }
    ensures hosts { (hosts : List HostRun)
        → Each (λ (h : HostRun). Each (λ (f : Flow). InRange f.params × Legal f.params f.entries) h.flows) hosts
        → AreShort hosts }
{}
