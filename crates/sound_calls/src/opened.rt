//! Flows that are opened for applications.
ghost use Rattle.std.specs.Prelude.{◌≡◌, ◌++◌, ◌∷◌, ◌<◌, ℕ, List, length, false, None, Some};
ghost use Rattle.tas_num.specs.declared.seq.Seq.{Seq};
ghost use Rattle.tas_model.specs.declared.entry.FlowId.{FlowId};
ghost use Rattle.flow_lock.specs.Answers.{next_in};
ghost use Rattle.flow_lock.specs.Orders.{pins_at};
ghost use Rattle.slow_worker.specs.Workers.{Worker, IsSound, sight_of, flow_with};
ghost use Rattle.libtas_sockets.specs.Apps.{Application};
ghost use Rattle.sound_hosts.specs.Hosts.{CoreHost};
ghost use Rattle.sound_hosts.specs.Sound.{IsHostSound};
ghost use Rattle.sound_calls.specs.Connecting.{IsOpenedBy, HasConnected, after_connecting, begun_history};
ghost use Rattle.sound_calls.specs.Connecting.{HasConnectedAlone};

/// A host is sound still where the next flow was opened for an application that connected, which pinned it: once the
/// slow path learned at the barrier what [`App::connect`] did, and its worker has what [`SlowWorker::know`] says. No
/// flow of its list may have the four-tuple, fewer than 4,294,967,295 flows were opened before, and the word of the
/// next slot has no pins.
///
/// [`App::connect`]: libtas_sockets::App::connect
/// [`SlowWorker::know`]: slow_worker::SlowWorker::know
pub fn connects_keep_it()
    ensures { (h : CoreHost) (front back : List Application) (a b : Application) (w : Worker) (raddr rport tick : ℕ)
        (id : FlowId) → IsHostSound h → h.apps ≡ front ++ a ∷ back → next_in h.slow.pass.view.marks ≡ Some id
        → flow_with (begun_history a.number raddr rport tick h).tuple h.slow.flows ≡ None
        → length h.books < 4294967295 → pins_at h.slow.pass.view.words id.slot ≡ 0
        → IsOpenedBy id (begun_history a.number raddr rport tick h) h.slow w → HasConnected id a b
        → IsSound h.table (sight_of w) → IsHostSound (after_connecting id front b back w h) }
{}

/// A host is sound still where one of its applications connected alone from the next port, but for a replay: with what
/// [`App::connect_alone`] says of a flow that it opened, [`SlowPath::connected`], by which a port and a first number
/// are given, and [`SlowWorker::know`]. Fewer than 4,294,967,295 flows were opened before.
///
/// [`App::connect_alone`]: libtas_sockets::App::connect_alone
/// [`SlowPath::connected`]: slow_handshake::SlowPath::connected
/// [`SlowWorker::know`]: slow_worker::SlowWorker::know
pub fn connects_alone_keep_it()
    ensures { (h : CoreHost) (front back : List Application) (a b : Application) (w : Worker) (iss : Seq)
        (raddr rport tick : ℕ) (id : FlowId) → IsHostSound h → h.apps ≡ front ++ a ∷ back
        → h.slow.path.params.fixed ≡ false → length h.books < 4294967295
        → HasConnectedAlone id raddr rport iss tick a b h.slow w
        → IsHostSound (after_connecting id front b back w h) }
{}
