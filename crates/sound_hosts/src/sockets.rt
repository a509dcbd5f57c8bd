//! What no call of a sound host's applications answers.
ghost use Rattle.std.specs.Prelude.{◌≡◌, ℕ, List, Err, Some, slice_get};
ghost use Rattle.tas_model.specs.declared.entry.FlowId.{FlowId};
ghost use Rattle.flow_lock.specs.declared.view.Mark.{Mark};
ghost use Rattle.slow_handshake.specs.Openings.{Openings, first_ready};
ghost use Rattle.libtas_sockets.specs.Accepting.{IsAcceptance};
ghost use Rattle.libtas_sockets.specs.Apps.{Application};
ghost use Rattle.libtas_sockets.specs.Connecting.{AreOpen, Opener, IsConnection};
ghost use Rattle.libtas_sockets.specs.declared.socket.Socket.{Socket};
ghost use Rattle.libtas_sockets.specs.declared.socket_error.SocketError.TheVariants as errors;
ghost use Rattle.sound_hosts.specs.Hosts.{CoreHost};
ghost use Rattle.sound_hosts.specs.Sound.{IsHostSound};

use libtas_sockets::no_socket_is_in_the_way;

/// The flows of all sockets of a sound host are open, so that neither connect nor accept answers `SlotInUse`: not where
/// the application has the sockets that it has between ticks, and the slow path its marks; an accept takes a flow that
/// waits.
pub fn no_call_finds_its_slot_in_use()
    ensures open { (h : CoreHost) (n : ℕ) (a : Application) → IsHostSound h → slice_get h.apps n ≡ Some a
        → AreOpen h.slow.pass.view.marks a }
    ensures connect { (h : CoreHost) (n : ℕ) (a b c : Application) (raddr rport tick : ℕ) (o : Openings)
        (s t : Opener) (socket : Socket) → IsHostSound h → slice_get h.apps n ≡ Some a → b.sockets ≡ a.sockets
        → s.pass.view.marks ≡ h.slow.pass.view.marks
        → ¬ IsConnection raddr rport tick o b c s t (Err (errors.SlotInUse socket)) }
    ensures accept { (h : CoreHost) (n port : ℕ) (a b c : Application) (id : FlowId) (tick : ℕ) (socket : Socket)
        → IsHostSound h → slice_get h.apps n ≡ Some a → b.sockets ≡ a.sockets
        → first_ready h.slow.path port ≡ Some id → ¬ IsAcceptance id tick b c (Err (errors.SlotInUse socket)) }
{
    no_socket_is_in_the_way();
}
