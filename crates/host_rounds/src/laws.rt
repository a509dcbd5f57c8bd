//! The laws of a host's ticks, whatever its scripts are.

ghost use Rattle.std.specs.Prelude.{◌≡◌, ℕ, ◌+◌, ◌-◌, ◌^◌, ◌≤◌, ◌<◌, List, [], length, Bool, true, false, Some, None};
ghost use Rattle.std.specs.List.{list_any};
ghost use Rattle.tas_model.specs.LegalHistory.{Legal};
ghost use Rattle.tas_model.specs.Valid.{InRange};
ghost use Rattle.tas_model.specs.declared.entry.FrameId.{FrameId};
ghost use Rattle.host_rounds.specs.Logs.{Flow};
ghost use Rattle.host_rounds.specs.Lists.{Each};
ghost use Rattle.host_rounds.specs.Hosts.{Host, is_in_slot, lowest_free, flows_of};
ghost use Rattle.host_rounds.specs.Scripts.{Site, Scripts};
ghost use Rattle.host_rounds.specs.Moves.{AreByMoves};
ghost use Rattle.host_rounds.specs.Rounds.{Due, Round};
ghost use Rattle.host_rounds.specs.SerialOrder.{serial_tick};
ghost use Rattle.host_rounds.specs.Cores.{AllBelow};
ghost use Rattle.host_rounds.specs.EveryTick.{InEveryTick};
ghost use Rattle.host_rounds.specs.Places.{uses, coming};
ghost use Rattle.host_rounds.specs.Openings.{AreOpened, openings_of};
ghost use Rattle.host_rounds.specs.Passing.{AreTimed, Went, IsUpTo};
ghost use Rattle.host_rounds.specs.Standing.{AreApart, AreFiled};
ghost use Rattle.host_rounds.specs.Histories.{HasHistory, IsSound};

/// The serial order of a tick is one of the right orders, whatever the scripts are.
pub fn serial_ticks_are_right<S, A>()
    ensures { (scripts : Scripts S A) (t : ℕ) (due : Due A) (site : Site S) → AreByMoves scripts
        → Each HasHistory site.host.flows → Round scripts t due site (serial_tick scripts t site due) }
{}

/// In serial order a tick has one core, which is core 0: no other makes an entry.
pub fn serial_ticks_have_one_core<S, A>()
    ensures { (scripts : Scripts S A) (t : ℕ) (due : Due A) (site : Site S) → AreByMoves scripts
        → Each HasHistory site.host.flows → AllBelow 1 site.host → AllBelow 1 (serial_tick scripts t site due).host }
{}

/// In every order of a tick each flow keeps a history of the endpoint.
pub fn ticks_keep_histories<S, A>()
    ensures { InEveryTick S A (λ scripts t due before after. Each HasHistory after.host.flows) }
{}

/// A flow with a history of the endpoint, and with parameters in their ranges, is sound: it read a prefix of every
/// stream that its peer may have sent, and acknowledged only what stands in order.
pub fn histories_are_sound()
    ensures { (f : Flow) → InRange f.params → Legal f.params f.entries → IsSound f }
{}

/// In a tick each frame that comes gets exactly one place in the histories and the log, and no other frame gets one.
pub fn frames_have_one_place<S, A>()
    ensures { (frame : FrameId) → InEveryTick S A (λ scripts t due before after.
        uses frame after.host ≡ uses frame before.host + coming frame due.frames) }
{}

/// Every flow was opened with the host's parameters and with its own window scale where it has one, in one of the
/// host's slots, as that slot's next generation, and with its own first number; and fewer were opened before it than a
/// host opens at most.
pub fn flows_are_opened_rightly<S, A>()
    ensures { InEveryTick S A (λ scripts t due before after.
        AreOpened scripts.starts before.host.params [] (openings_of (flows_of before.host.flows))
        → AreOpened scripts.starts before.host.params [] (openings_of (flows_of after.host.flows))) }
{}

/// In each tick every flow that was opened before has one Tick, which is wanting only where the flow was closed in the
/// tick. A flow that was closed before has none, nor has one that was opened in the tick.
pub fn open_flows_have_one_tick<S, A>()
    ensures { InEveryTick S A (λ scripts t due before after. AreTimed before.host.flows after.host.flows) }
{}

/// A tick takes nothing back: each history grows by entries of that tick alone, and the log by lines of it.
pub fn ticks_only_add<S, A>()
    // Of the histories before a tick it is asked that no entry is of a later one,
    ensures went { InEveryTick S A (λ scripts t due before after.
        Each (IsUpTo t) before.host.flows → Went t before.host after.host) }
    // and then none is of a later one before the next tick.
    ensures kept { InEveryTick S A (λ scripts t due before after.
        Each (IsUpTo t) before.host.flows → Each (IsUpTo (t + 1)) after.host.flows) }
{}

/// The slot that a host gives to a new flow is free, and all below it are used; it gives none where all are used, nor
/// where it opened as many flows as it may.
pub fn slots_are_given_from_below()
    ensures lowest { (host : Host) (slot : ℕ) → length host.flows < 2 ^ 32 - 1
        → slot < host.params.slots → list_any (is_in_slot slot) host.flows ≡ false
        → ((lower : ℕ) → lower < slot → list_any (is_in_slot lower) host.flows ≡ true) → lowest_free host ≡ Some slot }
    ensures none { (host : Host)
        → ((slot : ℕ) → slot < host.params.slots → list_any (is_in_slot slot) host.flows ≡ true)
        → lowest_free host ≡ None }
    ensures last { (host : Host) → 2 ^ 32 - 1 ≤ length host.flows → lowest_free host ≡ None }
{}

/// A flow keeps its slot until it is closed and no application holds it, and none other gets it meanwhile.
pub fn slots_are_kept<S, A>()
    // In a tick those flows are filed that were closed before it and that no application held, and no others.
    ensures filed { InEveryTick S A (λ scripts t due before after. AreFiled before.host.flows after.host.flows) }
    // No two flows stand in one slot.
    ensures apart { InEveryTick S A (λ scripts t due before after.
        AreApart before.host.flows → AreApart after.host.flows) }
{}
