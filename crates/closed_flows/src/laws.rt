//! The laws of flows that send nothing in a tick.

ghost use Rattle.std.specs.Prelude.{◌≡◌, ℕ, true, false, List, slice_get, Some};
ghost use Rattle.tas_model.specs.declared.entry.Entry.{Entry};
ghost use Rattle.tas_model.specs.Outputs.{sent};
ghost use Rattle.host_rounds.specs.Lists.{Each};
ghost use Rattle.host_rounds.specs.Hosts.{Live, is_over};
ghost use Rattle.host_rounds.specs.SerialOrder.{slow_phase};
ghost use Rattle.host_rounds.specs.EveryTick.{InEveryTick};
ghost use Rattle.closed_flows.specs.Silence.{GrewSilently, SentNothing, IsFindable};

/// A flow whose endpoint is closed before a tick sends no segment in it: what its history grows by are an application's
/// calls, which a closed endpoint answers without one.
pub fn closed_flows_send_nothing<S, A>()
    ensures { InEveryTick S A (λ scripts t due before after. (n : ℕ) (l : Live)
        → slice_get before.host.flows n ≡ Some l → is_over l ≡ true
        → SentNothing before.host.flows after.host.flows n) }
{}

/// So does a flow that the index hasn't, where it has all that are open.
pub fn unindexed_flows_send_nothing<S, A>()
    // It isn't in the index after the tick: then it was opened before it.
    ensures after { InEveryTick S A (λ scripts t due before after. Each IsFindable before.host.flows
        → (n : ℕ) (m : Live) → slice_get after.host.flows n ≡ Some m → m.indexed ≡ false
        → SentNothing before.host.flows after.host.flows n) }
    // It isn't in the index once closed flows have left it, at the beginning of the tick.
    ensures slow { InEveryTick S A (λ scripts t due before after. Each IsFindable before.host.flows
        → (n : ℕ) (m : Live) → slice_get (slow_phase t before.host).flows n ≡ Some m → m.indexed ≡ false
        → SentNothing before.host.flows after.host.flows n) }
{}

/// A tick leaves each open flow in the index: only closed ones go out of it.
pub fn open_flows_are_indexed<S, A>()
    ensures { InEveryTick S A (λ scripts t due before after. Each IsFindable before.host.flows
        → Each IsFindable after.host.flows) }
{}

/// A history that grew by entries that send nothing has sent the same segments.
pub fn silent_growth_sends_nothing()
    ensures { (h g : List Entry) → GrewSilently h g → sent g ≡ sent h }
{}
