//! The laws of turns that were taken side by side.
ghost use Rattle.std.specs.Prelude.{◌≡◌, ℕ, List, IsPermutation};
ghost use Rattle.host_rounds.specs.Deliveries.{Arrival};
ghost use Rattle.host_rounds.specs.Scripts.{Site, Scripts};
ghost use Rattle.host_rounds.specs.Rounds.{Due};
ghost use Rattle.core_rounds.specs.SharedTicks.{IsSharedTick};
ghost use Rattle.flow_lock.specs.Orders.{Order};
ghost use Rattle.flow_lock.specs.declared.view.Held.{Held};
ghost use Rattle.host_books.specs.Books.{Setting};
ghost use Rattle.host_books.specs.Leavings.{LeaveAlike};
ghost use Rattle.host_books.specs.Ticks.{Beside, site_after};
ghost use Rattle.host_books.specs.Words.{AreAllPairs};
ghost use Rattle.lane_orders.specs.Turns.{Did, AreTurns, IsOfTurns, words_in, handed_below};
ghost use Rattle.lane_orders.specs.Ticks.{Phase, site_left, IsHandOut, IsTickOfTurns};

/// Where each turn's deeds have their words, what was done in all turns is one order of deeds of a run, which take the
/// frames that the turns took, ask what was asked in them, and are by the workers whose turns they were.
pub fn turns_are_beside<S, A>()
    ensures { (scripts : Scripts S A) (t : ℕ) (s : Setting) (state : S) (known : List Held) (order : Order)
        (turns : ℕ) (did : ℕ → Did S A) → AreTurns scripts t s state known order turns did
        → (b : Beside scripts t) × IsOfTurns scripts t s state known order turns did b }
{}

/// Where what the tries of turns leave is of different flows, and it doesn't matter which of their scripts goes on
/// first, the host and the scripts after the turns are what the tries leave turn by turn, whatever their order was.
pub fn turns_leave_one_site<S, A>()
    ensures { (scripts : Scripts S A) (t : ℕ) (p : Phase scripts t) → AreAllPairs (LeaveAlike t) (words_in p.did)
        → site_after p.beside ≡ site_left p }
{}

/// Frames that were handed out to the cores were handed to one turn each.
pub fn frames_are_handed_once<S, A>()
    ensures { (frames : List Arrival) (cores turns : ℕ) (did : ℕ → Did S A)
        → IsHandOut frames cores turns did → IsPermutation (handed_below turns did) frames }
{}

/// A tick in which cores and applications take turns side by side, on the frames that came and on what is asked, and
/// then cores on what may go, is a tick of a host whose flows are shared, so that it is a right one. Where its turns
/// are those of so many cores, it is one of so many.
pub fn ticks_of_turns_are_shared<S, A>()
    ensures { (scripts : Scripts S A) (cores t : ℕ) (due : Due A) (before after : Site S)
        → IsTickOfTurns scripts cores t due before after → IsSharedTick scripts cores t due before after }
{}
