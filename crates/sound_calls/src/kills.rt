//! An application that ends.
ghost use Rattle.std.specs.Prelude.{◌≡◌, ◌++◌, ◌∷◌, ℕ, List, None};
ghost use Rattle.flow_lock.specs.Passes.{Seen};
ghost use Rattle.app_reaper.specs.Reaping.{IsAtRest, IsReapedAlone};
ghost use Rattle.app_reaper.specs.declared.ended.Ended.{Ended};
ghost use Rattle.libtas_sockets.specs.Apps.{Application};
ghost use Rattle.sound_hosts.specs.Hosts.{CoreHost};
ghost use Rattle.sound_hosts.specs.Sound.{IsHostSound};
ghost use Rattle.sound_calls.specs.Handing.{after_kill};

/// A host is sound still where one of its applications ended, and what it left was reaped alone: with what
/// [`reap_alone`] says, of what [`App::end`] leaves of an application that holds no record. Its flows are nobody's
/// then.
///
/// [`reap_alone`]: app_reaper::reap_alone
/// [`App::end`]: libtas_sockets::App::end
pub fn kills_keep_it()
    ensures { (h : CoreHost) (front back : List Application) (a : Application) (ended : Ended) (tick : ℕ) (n : Seen)
        → IsHostSound h → h.apps ≡ front ++ a ∷ back → IsAtRest h.table ended → ended.pass ≡ a.pass
        → ended.pins.list ≡ a.sockets → ended.held ≡ None → IsReapedAlone tick ended h.slow.pass n
        → IsHostSound (after_kill front a back n h) }
{}
