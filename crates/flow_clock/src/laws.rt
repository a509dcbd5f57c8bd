//! Laws of the definitions.
ghost use Rattle.std.specs.Prelude.{◌≡◌, ◌++◌, ℕ, true, false, List, take, drop};
ghost use Rattle.tas_model.specs.declared.entry.Caller.TheVariants.{Slow};
ghost use Rattle.tas_model.specs.declared.entry.FlowId.{FlowId};
ghost use Rattle.flow_lock.specs.Steps.{IsAlone};
ghost use Rattle.host_rounds.specs.Hosts.{Live, is_over};
ghost use Rattle.host_rounds.specs.Upkeep.{timed};
ghost use Rattle.flow_clock.specs.Histories.{history_in, timed_by};
ghost use Rattle.flow_clock.specs.Ledgers.{Ledger};
ghost use Rattle.flow_clock.specs.Walks.{AreServed, AreServedAlone, IsWalkStopped};

/// A tick enters for a shared flow what it enters for a flow of a host in a run.
pub fn time_passes_as_in_a_run()
    ensures timed { (t : ℕ) (l : Live) → is_over l ≡ false → history_in (timed Slow t l) ≡ timed_by t (history_in l) }
    ensures closed { (t : ℕ) (l : Live) → is_over l ≡ true → timed Slow t l ≡ l }
{}

/// A walk that stopped goes on where it stopped: what it has still to serve, from the place that it told on, is what it
/// hadn't served, and in front of that place stands what it had. So no flow has its time twice in a tick.
pub fn walks_go_on()
    ensures { (t from from' : ℕ) (l m : Ledger) → IsWalkStopped t from from' l m
        → (done : List FlowId) × (after : Ledger)
        × AreServed t done (record l { pins = take from l.pins }) after
        × (drop from l.pins ≡ done ++ drop from' m.pins) × (take from' m.pins ≡ after.pins) }
{}

/// Where the slow path is alone, each flow has its time or is closed, and none is passed over.
pub fn none_is_busy_alone()
    ensures { (t : ℕ) (fs : List FlowId) (l m : Ledger) → IsAlone l.view → AreServed t fs l m
        → AreServedAlone t fs l m }
{}
