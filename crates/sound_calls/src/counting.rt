//! Who acts alone opens no flow, but for a connect.
ghost use Rattle.std.specs.Prelude.{◌≡◌, ℕ, List, Result};
ghost use Rattle.tas_num.specs.declared.seq.Seq.{Seq};
ghost use Rattle.tas_model.specs.declared.entry.FlowId.{FlowId};
ghost use Rattle.flow_lock.specs.Passes.{Seen};
ghost use Rattle.app_reaper.specs.Reaping.{IsReapedAlone};
ghost use Rattle.app_reaper.specs.declared.ended.Ended.{Ended};
ghost use Rattle.slow_worker.specs.Workers.{Worker};
ghost use Rattle.libtas_sockets.specs.Apps.{Application};
ghost use Rattle.libtas_sockets.specs.declared.socket.Socket.{Socket};
ghost use Rattle.libtas_sockets.specs.declared.socket_error.SocketError.{SocketError};
ghost use Rattle.sound_hosts.specs.Counting.{IsCounted};
ghost use Rattle.sound_hosts.specs.Hosts.{CoreHost};
ghost use Rattle.sound_hosts.specs.Leaving.{books_left};
ghost use Rattle.sound_hosts.specs.Moving.{with_slow};
ghost use Rattle.sound_calls.specs.Connecting.{HasConnectedAlone, after_connecting};
ghost use Rattle.sound_calls.specs.Handing.{after_accepting, after_kill, given_back, handed, handing, listening};
ghost use Rattle.sound_calls.specs.Handing.{with_books};

/// The slow path that counts its host's flows counts them still where it handed the baton to an application and that
/// called, gave up sockets, accepted or listened; where an application ended and was reaped; and where it connected,
/// which opens one.
pub fn calls_keep_the_count()
    ensures handed { (h : CoreHost) (front back : List Application) (a : Application) → IsCounted h
        → IsCounted (given_back front (handed h.slow a) back (with_slow (handing h.slow) h)) }
    ensures called { (h : CoreHost) (front back : List Application) (a b : Application)
        → IsCounted (given_back front a back h) → IsCounted (given_back front b back h) }
    ensures left { (h : CoreHost) (app : ℕ) (ids : List FlowId) → IsCounted h
        → IsCounted (with_books (books_left app ids h.books) h) }
    ensures accepted { (h : CoreHost) (app : ℕ) (id : FlowId) (result : Result Socket SocketError) → IsCounted h
        → IsCounted (after_accepting app id result h) }
    ensures listens { (h : CoreHost) (app port : ℕ) → IsCounted h → IsCounted (listening app port h) }
    ensures killed { (h : CoreHost) (front back : List Application) (a : Application) (ended : Ended) (tick : ℕ)
        (n : Seen) → IsCounted h → IsReapedAlone tick ended h.slow.pass n → IsCounted (after_kill front a back n h) }
    ensures connected { (h : CoreHost) (front back : List Application) (a b : Application) (w : Worker) (iss : Seq)
        (raddr rport tick : ℕ) (id : FlowId) → IsCounted h
        → HasConnectedAlone id raddr rport iss tick a b h.slow w
        → IsCounted (after_connecting id front b back w h) }
{}
