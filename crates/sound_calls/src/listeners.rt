//! Listeners.
ghost use Rattle.std.specs.Prelude.{◌≤◌, ℕ};
ghost use Rattle.sound_hosts.specs.Hosts.{CoreHost};
ghost use Rattle.sound_hosts.specs.Sound.{IsHostSound};
ghost use Rattle.sound_calls.specs.Handing.{listening};

/// A host is sound still where one of its applications listens on a port more, up to 49,151: with what [`App::listen`]
/// says.
///
/// [`App::listen`]: libtas_sockets::App::listen
pub fn listens_keep_it()
    ensures { (h : CoreHost) (app port : ℕ) → IsHostSound h → port ≤ 49151 → IsHostSound (listening app port h) }
{}
