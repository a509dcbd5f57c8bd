//! What becomes of a flow in time, and at its end.
ghost use Rattle.std.specs.Prelude.{◌≡◌, ◌++◌, ◌∷◌, ℕ, List, not, false};
ghost use Rattle.tas_model.specs.LegalHistory.{Legal};
ghost use Rattle.host_rounds.specs.Hosts.{is_held_by};
ghost use Rattle.flow_lock.specs.declared.view.History.{History};
ghost use Rattle.flow_lock.specs.declared.view.View.{View};
ghost use Rattle.app_reaper.specs.Sweeping.{IsSweep};
ghost use Rattle.app_reaper.specs.declared.sweeping.Swept.{Swept};
ghost use Rattle.flow_clock.specs.Histories.{is_over, timed_by};
ghost use Rattle.host_books.specs.Books.{Book};
ghost use Rattle.sound_hosts.specs.Ending.{is_freed, swept_as};
ghost use Rattle.sound_hosts.specs.Hosts.{CoreHost};
ghost use Rattle.sound_hosts.specs.Leading.{LedOn};
ghost use Rattle.sound_hosts.specs.Sound.{IsHostSound, AreSlots};

/// The time of a tick leads a flow on that isn't closed.
pub fn time_leads_on()
    ensures { (t : ℕ) (h : History) → Legal h.params h.entries → is_over h ≡ false → LedOn h (timed_by t h) }
{}

/// A flow whose record stands in the table of a sound host, and that is swept alone, is freed exactly where no
/// application has its socket; and the marks and words of all slots are those of the books then.
pub fn sweeps_alone_keep_the_slots()
    ensures freed { (h : CoreHost) (before behind : List Book) (b : Book) (w : View) (a : Swept) → IsHostSound h
        → h.books ≡ before ++ b ∷ behind → b.filed ≡ false → IsSweep b.id h.slow.pass.view w a
        → is_freed a ≡ not (is_held_by b.holder) }
    ensures slots { (h : CoreHost) (before behind : List Book) (b : Book) (w : View) (a : Swept) → IsHostSound h
        → h.books ≡ before ++ b ∷ behind → b.filed ≡ false → IsSweep b.id h.slow.pass.view w a
        → AreSlots (before ++ swept_as a b ∷ behind) w }
{}
