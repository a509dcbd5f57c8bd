//! Ports that are given to connects.
ghost use Rattle.std.specs.Prelude.{◌≡◌, ℕ, false, None};
ghost use Rattle.slow_worker.specs.Workers.{flow_with};
ghost use Rattle.libtas_sockets.specs.Connecting.{next_tuple};
ghost use Rattle.sound_hosts.specs.Hosts.{CoreHost};
ghost use Rattle.sound_hosts.specs.Sound.{IsHostSound};

/// The slow path of a sound host knows no flow from the next port that it gives, whatever it leads to: each port is
/// given once, and nobody listens on one (RFC 6335, section 6). In a replay ports are not given.
pub fn next_ports_are_free()
    ensures { (h : CoreHost) (raddr rport : ℕ) → IsHostSound h → h.slow.path.params.fixed ≡ false
        → flow_with (next_tuple h.slow.path raddr rport) h.slow.flows ≡ None }
{}
