//! Calls of an application that has the baton.
ghost use Rattle.std.specs.Prelude.{◌≡◌, ◌++◌, ◌∷◌, ℕ, [], List, Option, Some, Result};
ghost use Rattle.tas_model.specs.declared.entry.FlowId.{FlowId};
ghost use Rattle.flow_state.specs.declared.call.CallIn.{CallIn};
ghost use Rattle.flow_state.specs.declared.call.CallIn.TheVariants as ins;
ghost use Rattle.flow_lock.specs.Steps.{IsAlone};
ghost use Rattle.app_reaper.specs.declared.one_call.CallFault.{CallFault};
ghost use Rattle.slow_handshake.specs.Openings.{first_ready};
ghost use Rattle.slow_worker.specs.Workers.{Worker};
ghost use Rattle.libtas_sockets.specs.Accepting.{IsAcceptance};
ghost use Rattle.libtas_sockets.specs.Apps.{Application, IsSocket, flow_of, without_socket};
ghost use Rattle.libtas_sockets.specs.Calling.{after_abort, after_close};
ghost use Rattle.libtas_sockets.specs.declared.socket.Socket.{Socket};
ghost use Rattle.libtas_sockets.specs.declared.socket_error.SocketError.{SocketError};
ghost use Rattle.app_deeds.specs.Deeds.{left_by_abort, left_by_close};
ghost use Rattle.sound_hosts.specs.Hosts.{CoreHost};
ghost use Rattle.sound_hosts.specs.Leaving.{books_left};
ghost use Rattle.sound_hosts.specs.Moving.{with_slow};
ghost use Rattle.sound_hosts.specs.Sound.{IsHostSound};
ghost use Rattle.sound_calls.specs.Handing.{after_accepting, given_back, handed, handing, with_books, HasMade};

/// A host whose slow path handed the baton to one of its applications is sound, were the baton given back now: with
/// what
/// [`App::pass_on`] says. And then it is that host, with what [`App::pass_back`] says.
///
/// [`App::pass_on`]: libtas_sockets::App::pass_on
/// [`App::pass_back`]: libtas_sockets::App::pass_back
pub fn handed_over_keeps_it()
    ensures { (h : CoreHost) (front back : List Application) (a : Application) → IsHostSound h
        → h.apps ≡ front ++ a ∷ back
        → IsHostSound (given_back front (handed h.slow a) back (with_slow (handing h.slow) h)) }
{}

/// It is so still after the application made a call on one of its sockets, alone: with what [`App::send`] and the like
/// say of a call.
///
/// [`App::send`]: libtas_sockets::App::send
pub fn calls_alone_keep_it()
    ensures { (h : CoreHost) (front back : List Application) (a b : Application) (s : Socket) (tick : ℕ) (call : CallIn)
        (fault : Option CallFault) → IsHostSound (given_back front a back h) → IsAlone a.pass.view → IsSocket a s
        → HasMade a b s tick call fault
        → IsHostSound (given_back front b back h) × IsAlone b.pass.view }
{}

/// And after the application gave up a socket alone, as [`App::release`] does, [`App::close`] where it made its entry,
/// and
/// [`App::abort`] also where the flow was closed. The socket's flow is nobody's then.
///
/// [`App::release`]: libtas_sockets::App::release
/// [`App::close`]: libtas_sockets::App::close
/// [`App::abort`]: libtas_sockets::App::abort
pub fn releases_alone_keep_it()
    ensures { (h : CoreHost) (front back : List Application) (a : Application) (s : Socket)
        → IsHostSound (given_back front a back h) → IsAlone a.pass.view → IsSocket a s
        → IsHostSound (given_back front (without_socket s a) back
        (with_books (books_left a.number (flow_of a s ∷ []) h.books) h))
        × IsAlone (without_socket s a).pass.view }
{}

/// So a close and an abort keep it, of which each may give up the socket: with what [`App::close`] and [`App::abort`]
/// say.
///
/// [`App::close`]: libtas_sockets::App::close
/// [`App::abort`]: libtas_sockets::App::abort
pub fn closes_alone_keep_it()
    ensures close { (h : CoreHost) (front back : List Application) (a m b : Application) (s : Socket) (tick : ℕ)
        (fault : Option CallFault) (result : Result (Unit {0}) SocketError) → IsHostSound (given_back front a back h)
        → IsAlone a.pass.view → IsSocket a s → HasMade a m s tick ins.Close fault → b ≡ after_close result s m
        → IsHostSound (given_back front b back
        (with_books (books_left a.number (left_by_close result (flow_of a s)) h.books) h)) × IsAlone b.pass.view }
    ensures abort { (h : CoreHost) (front back : List Application) (a m b : Application) (s : Socket) (tick : ℕ)
        (fault : Option CallFault) (result : Result (Unit {0}) SocketError) → IsHostSound (given_back front a back h)
        → IsAlone a.pass.view → IsSocket a s → HasMade a m s tick ins.Abort fault → b ≡ after_abort result s m
        → IsHostSound (given_back front b back
        (with_books (books_left a.number (left_by_abort result (flow_of a s)) h.books) h)) × IsAlone b.pass.view }
{}

/// And after it accepted a flow alone, or tried to: with what [`App::accept`] says where a flow is ready at the port.
/// The flow is the application's then, or it left its list where it was found closed, and else it waits on.
///
/// [`App::accept`]: libtas_sockets::App::accept
pub fn accepts_alone_keep_it()
    ensures { (h : CoreHost) (front back : List Application) (a b : Application) (port tick : ℕ) (id : FlowId)
        (result : Result Socket SocketError) → IsHostSound (given_back front a back h) → IsAlone a.pass.view
        → first_ready h.slow.path port ≡ Some id → IsAcceptance id tick a b result
        → IsHostSound (given_back front b back (after_accepting a.number id result h)) × IsAlone b.pass.view }
{}
