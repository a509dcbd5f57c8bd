//! The laws of ticks with cores, which lead to those of `host_rounds`.
ghost use Rattle.std.specs.Prelude.{ℕ, ◌<◌, List};
ghost use Rattle.host_rounds.specs.Lists.{Each};
ghost use Rattle.host_rounds.specs.Histories.{HasHistory};
ghost use Rattle.host_rounds.specs.Scripts.{Site, Scripts};
ghost use Rattle.host_rounds.specs.Moves.{AreByMoves};
ghost use Rattle.host_rounds.specs.Deliveries.{Arrival};
ghost use Rattle.host_rounds.specs.Rounds.{Deed, Due, Round};
ghost use Rattle.host_rounds.specs.Cores.{AllBelow};
ghost use Rattle.core_rounds.specs.CoreTicks.{IsCoresTick};
ghost use Rattle.core_rounds.specs.SharedTicks.{AreDone, IsSharedTick, tick_without_cores};
ghost use Rattle.core_rounds.specs.Shares.{AreShares};

/// A tick with cores is a right one, whatever the scripts are and whatever order the cores' frames had.
pub fn cores_ticks_are_right<S, A>()
    ensures { (scripts : Scripts S A) (cores t : ℕ) (due : Due A) (before after : Site S) → AreByMoves scripts
        → Each HasHistory before.host.flows → IsCoresTick scripts cores t due before after
        → Round scripts t due before after }
{}

/// A tick of a host with so many cores has entries by these alone, by the slow path and by applications.
pub fn cores_ticks_are_by_their_cores<S, A>()
    ensures { (scripts : Scripts S A) (cores t : ℕ) (due : Due A) (before after : Site S) → AreByMoves scripts
        → Each HasHistory before.host.flows → IsCoresTick scripts cores t due before after
        → AllBelow cores before.host → AllBelow cores after.host }
{}

/// A tick of a host whose cores and applications share its flows is a right one, whatever the scripts are and in
/// whatever order they did their deeds, also on one flow.
pub fn shared_ticks_are_right<S, A>()
    ensures { (scripts : Scripts S A) (cores t : ℕ) (due : Due A) (before after : Site S) → AreByMoves scripts
        → Each HasHistory before.host.flows → IsSharedTick scripts cores t due before after
        → Round scripts t due before after }
{}

/// Of such a tick the entries are by the host's cores alone, too, by the slow path and by applications.
pub fn shared_ticks_are_by_their_cores<S, A>()
    ensures { (scripts : Scripts S A) (cores t : ℕ) (due : Due A) (before after : Site S) → AreByMoves scripts
        → Each HasHistory before.host.flows → IsSharedTick scripts cores t due before after
        → AllBelow cores before.host → AllBelow cores after.host }
{}

/// A tick in which the slow path takes all frames, and the applications ask after them, is one of these, by however
/// many cores.
pub fn ticks_without_cores_are_shared<S, A>()
    ensures { (scripts : Scripts S A) (cores t : ℕ) (due : Due A) (before : Site S) → 0 < cores
        → IsSharedTick scripts cores t due before (tick_without_cores scripts t due before) }
{}

/// Where each frame comes once, and was taken beside the others or is left, once, and of each who asks what was asked
/// and what is left are what is due of it, all that is due in the tick is done or left.
pub fn shares_are_done<S, A>()
    ensures { (scripts : Scripts S A) (due : Due A) (order : List (Deed A)) (rest : List Arrival) (later : List A)
        → AreShares scripts due order rest later → AreDone scripts due order rest later }
{}
