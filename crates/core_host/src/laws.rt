//! The laws of a host's ticks.
ghost use Rattle.std.specs.Prelude.{◌≡◌, ℕ};
ghost use Rattle.host_rounds.specs.Histories.{HasHistory};
ghost use Rattle.host_rounds.specs.Lists.{Each};
ghost use Rattle.host_rounds.specs.Moves.{AreByMoves};
ghost use Rattle.host_rounds.specs.Rounds.{Due, Round};
ghost use Rattle.host_rounds.specs.Scripts.{Scripts};
ghost use Rattle.core_rounds.specs.SharedTicks.{IsSharedTick};
ghost use Rattle.phase_orders.specs.Ticks.{IsTickOfLanes};
ghost use Rattle.core_host.specs.Sound.{IsStaffSound};
ghost use Rattle.core_host.specs.Ticks.{AreAsked, IsBetweenTicks, IsTick, IsTickAlone, site_in};
ghost use Rattle.core_host.specs.Views.{Staffed, seen_by};

/// A tick that was made step by step, beginning between two ticks, is a tick of two phases of lanes, so that it is one
/// of a host whose flows are shared by its cores; and the host is between two ticks then.
pub fn ticks_of_steps_are_shared<S, A>()
    ensures lanes { (scripts : Scripts S A) (t : ℕ) (due : Due A) (before after : Staffed) (state next : S)
        → IsBetweenTicks before → IsTick scripts t due before after state next
        → IsTickOfLanes scripts before.host.slow.check_sums before.cores t due (site_in before state)
        (site_in after next) }
    ensures shared { (scripts : Scripts S A) (t : ℕ) (due : Due A) (before after : Staffed) (state next : S)
        → IsBetweenTicks before → IsTick scripts t due before after state next
        → IsSharedTick scripts before.cores t due (site_in before state) (site_in after next) }
    ensures between { (scripts : Scripts S A) (t : ℕ) (due : Due A) (before after : Staffed) (state next : S)
        → IsBetweenTicks before → IsTick scripts t due before after state next → IsBetweenTicks after }
    // It has its cores still.
    ensures cores { (scripts : Scripts S A) (t : ℕ) (due : Due A) (before after : Staffed) (state next : S)
        → IsBetweenTicks before → IsTick scripts t due before after state next → after.cores ≡ before.cores }
{}

/// Such a tick is a right one, whatever the scripts are.
pub fn ticks_of_steps_are_right<S, A>()
    ensures { (scripts : Scripts S A) (t : ℕ) (due : Due A) (before after : Staffed) (state next : S)
        → AreByMoves scripts → Each HasHistory (seen_by before).flows → IsBetweenTicks before
        → IsTick scripts t due before after state next
        → Round scripts t due (site_in before state) (site_in after next) }
{}

/// A tick that was made without cores, as one in which a frame came twice, is one of a host whose flows are shared by
/// its cores, too, and so a right one; and the host is between two ticks then.
pub fn ticks_made_alone_are_shared<S, A>()
    ensures shared { (scripts : Scripts S A) (t : ℕ) (due : Due A) (before after : Staffed) (state next : S)
        → IsBetweenTicks before → IsTickAlone scripts t due before after state next
        → IsSharedTick scripts before.cores t due (site_in before state) (site_in after next) }
    ensures right { (scripts : Scripts S A) (t : ℕ) (due : Due A) (before after : Staffed) (state next : S)
        → AreByMoves scripts → Each HasHistory (seen_by before).flows → IsBetweenTicks before
        → IsTickAlone scripts t due before after state next
        → Round scripts t due (site_in before state) (site_in after next) }
    ensures between { (scripts : Scripts S A) (t : ℕ) (due : Due A) (before after : Staffed) (state next : S)
        → IsBetweenTicks before → IsTickAlone scripts t due before after state next → IsBetweenTicks after }
{}

/// What applications ask alone, one after the other, is a row: where nobody asks all is left as it was, and what one
/// row and then another leave is what both leave.
pub fn asks_make_a_row()
    ensures none { (h : Staffed) → IsStaffSound h → AreAsked h h }
    ensures both { (f g h : Staffed) → AreAsked f g → AreAsked g h → AreAsked f h }
{}
