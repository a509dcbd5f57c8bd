//! When no socket is in the way of a further one.
ghost use Rattle.std.specs.Prelude.{◌≡◌, List, Some, true, false};
ghost use Rattle.std.specs.List.{list_any};
ghost use Rattle.tas_model.specs.declared.entry.FlowId.{FlowId};
ghost use Rattle.flow_lock.specs.Answers.{next_in, is_open_in};
ghost use Rattle.flow_lock.specs.Orders.{same_flow};
ghost use Rattle.flow_lock.specs.declared.view.Mark.{Mark};
ghost use Rattle.libtas_sockets.specs.Apps.{Application, IsSocket, socket_on};
ghost use Rattle.libtas_sockets.specs.Connecting.{AreOpen};

/// Where the slow path has the flow of each socket of an application open, none of them is on the slot that comes next,
/// so that a connect that opens a flow never answers `SlotInUse` (clause `next_in_use`). And none is on the slot of
/// another open flow, so that an accept of a flow without a socket never does (clause `in_use`).
pub fn no_socket_is_in_the_way()
    ensures next { (marks : List Mark) (a : Application) (id : FlowId) → AreOpen marks a
        → next_in marks ≡ Some id → ¬ IsSocket a (socket_on id) }
    ensures other { (marks : List Mark) (a : Application) (id : FlowId) → AreOpen marks a
        → is_open_in marks id ≡ true → list_any (same_flow id) a.sockets ≡ false → ¬ IsSocket a (socket_on id) }
{}
