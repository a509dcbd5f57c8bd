//! The law that a call on a socket is one deed, over what the socket calls ensure.
ghost use Rattle.std.specs.Prelude.{◌≡◌, ℕ, List, [], length, Result};
ghost use Rattle.flow_state.specs.declared.call.CallIn.{CallIn};
ghost use Rattle.flow_state.specs.declared.call.CallIn.TheVariants as ins;
ghost use Rattle.libtas_sockets.specs.Answers.{fault_in, IsReceived};
ghost use Rattle.libtas_sockets.specs.Apps.{Application, flow_of};
ghost use Rattle.libtas_sockets.specs.Calling.{HasCalled, after_close, after_abort};
ghost use Rattle.libtas_sockets.specs.declared.received.Received.{Received};
ghost use Rattle.libtas_sockets.specs.declared.socket.Socket.{Socket};
ghost use Rattle.libtas_sockets.specs.declared.socket_error.SocketError.{SocketError};
ghost use Rattle.app_deeds.specs.Deeds.{HasDone, left_by_close, left_by_abort, tells_sent, tells_done};

/// A call on a socket is one deed of the turn that the application has, and none where a fault was answered. Close and
/// Abort give the pin up in that turn too. The conditions are what `send`, `recv`, `ready` and `shut`, `close` and
/// `abort` ensure.
pub fn calls_are_deeds()
    ensures sent { (a b : Application) (s : Socket) (tick : ℕ) (call : CallIn) (result : Result ℕ SocketError)
        → HasCalled a b s tick call (fault_in result) (tells_sent result)
        → HasDone a b s tick call (fault_in result) (tells_sent result) [] }
    ensures read { (a b : Application) (s : Socket) (tick : ℕ) (room left : List ℕ)
        (result : Result Received SocketError)
        → HasCalled a b s tick (ins.Recv (length room)) (fault_in result) (IsReceived room left result)
        → HasDone a b s tick (ins.Recv (length room)) (fault_in result) (IsReceived room left result) [] }
    ensures done { (a b : Application) (s : Socket) (tick : ℕ) (call : CallIn) (result : Result (Unit {0}) SocketError)
        → HasCalled a b s tick call (fault_in result) (tells_done result)
        → HasDone a b s tick call (fault_in result) (tells_done result) [] }
    ensures closed { (a m b : Application) (s : Socket) (tick : ℕ) (result : Result (Unit {0}) SocketError)
        → HasCalled a m s tick ins.Close (fault_in result) (tells_done result)
        → b ≡ after_close result s m
        → HasDone a b s tick ins.Close (fault_in result) (tells_done result) (left_by_close result (flow_of a s)) }
    ensures aborted { (a m b : Application) (s : Socket) (tick : ℕ) (result : Result (Unit {0}) SocketError)
        → HasCalled a m s tick ins.Abort (fault_in result) (tells_done result)
        → b ≡ after_abort result s m
        → HasDone a b s tick ins.Abort (fault_in result) (tells_done result) (left_by_abort result (flow_of a s)) }
{}
