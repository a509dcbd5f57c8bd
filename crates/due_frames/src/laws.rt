//! The laws of the frames that are due in a tick.

ghost use Rattle.std.specs.Prelude.{◌≡◌, ℕ, List, []};
ghost use Rattle.tas_model.specs.declared.entry.Entry.{Entry};
ghost use Rattle.tas_model.specs.declared.entry.FourTuple.{FourTuple};
ghost use Rattle.tas_model.specs.declared.entry.HostParams.{HostParams};
ghost use Rattle.host_rounds.specs.Hosts.{Host, Starts, flows_of};
ghost use Rattle.host_rounds.specs.Openings.{AreOpened, openings_of};
ghost use Rattle.host_rounds.specs.EveryTick.{InEveryTick};
ghost use Rattle.core_rounds.specs.Shares.{AreDistinct};
ghost use Rattle.closed_flows.specs.Silence.{GrewSilently};
ghost use Rattle.link_script.specs.LinkLines.{LinkLines};
ghost use Rattle.scenario_text.specs.declared.scenario.Scenario.{Scenario};
ghost use Rattle.scenario_runs.specs.Worlds.{World, at_start, arrivals_at, sent_in, frames_of_entries};
ghost use Rattle.scenario_runs.specs.Runs.{IsTick};
ghost use Rattle.due_frames.specs.Few.{HasFewFlows, AreFew, HaveHistories};

/// Of the frames that come to a host in a tick no two bear one name, whatever the lines of the link do to them: each
/// was sent once, and the two that a line makes of one bear names of their own.
pub fn due_frames_are_distinct()
    ensures { (lines : LinkLines) (world : World) (t h : ℕ) → AreFew world
        → AreDistinct (arrivals_at lines (sent_in world) t h) }
{}

/// The flows of a host are few enough to be told from no flow.
pub fn flows_stay_few<S, A>()
    // So they are where they were opened rightly,
    ensures opened { (starts : Starts) (params : HostParams) (host : Host)
        → AreOpened starts params [] (openings_of (flows_of host.flows)) → HasFewFlows host }
    // and each tick keeps it, whatever is known of their openings.
    ensures kept { InEveryTick S A (λ scripts t due before after. HasFewFlows before.host → HasFewFlows after.host) }
{}

/// In every run of a scenario they are so few.
pub fn worlds_stay_few()
    ensures start { (s : Scenario) → AreFew (at_start s) }
    ensures kept { (s : Scenario) (t : ℕ) (before after : World) → IsTick s t before after → HaveHistories before
        → AreFew before → AreFew after }
    // The histories are kept, too.
    ensures histories { (s : Scenario) (t : ℕ) (before after : World) → IsTick s t before after → HaveHistories before
        → HaveHistories after }
{}

/// A flow whose history grew by entries that send nothing has sent the same frames.
pub fn silent_flows_add_no_frames()
    ensures { (host flow n to : ℕ) (tuple : FourTuple) (h g : List Entry) → GrewSilently h g
        → frames_of_entries host flow n to tuple g ≡ frames_of_entries host flow n to tuple h }
{}
