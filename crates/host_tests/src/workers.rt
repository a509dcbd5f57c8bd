//! What one worker of a host, or an application, does.
ghost use Rattle.std.specs.Prelude.{◌≡◌, ◌≤◌, ◌<◌, suc, length, IfSome};
ghost use Rattle.libtas_sockets.specs.Apps.{IsSocket};
ghost use Rattle.libtas_sockets.specs.declared.socket.Socket.{Socket};
ghost use Rattle.host_tests.specs.Hosts.{IsCore, IsSlow, MayTurn, IsApp, KeepsSockets};

use crate::flows::WORDS;
use context_queue::Note;
use core_worker::{CoreWorker, PassedFrame, Shared};
use libtas_sockets::{App, Socket};
use slow_handshake::SpacedNumbers;
use slow_worker::SlowWorker;
use std::sync::Wait;
use tas_model::{Bytes, FlowId, FrameId};
use tas_num::{Gate, Seq};

/// The tick in which flows are opened.
pub const TICK: u32 = 1;

/// Hands a frame to a core.
pub fn hand(shared: &Shared, core: &mut CoreWorker, id: FrameId, packet: Bytes) -> bool
    requires { IsCore shared.now core.old }
    ensures { IsCore shared.now core.new }
{
    core.hand(id, packet).is_ok()
}

/// A core's turn. Where memory is wanting, frames are left.
pub fn work<R: Wait, G: Gate>(rt: &R, shared: &Shared, core: &mut CoreWorker, tick: u32, gate: &G)
    requires { IsCore shared.now core.old }
    ensures { IsCore shared.now core.new }
{
    drop(core.turn(rt, shared, tick, gate));
}

/// Takes the frame out that the core passed on last, as the only one.
pub fn passed_on(shared: &Shared, core: &mut CoreWorker) -> Option<PassedFrame>
    requires { IsCore shared.now core.old }
    ensures { IsCore shared.now core.new }
{
    if core.deferred() != 0 || core.exceptions() != 1 {
        return None;
    }
    core.take_exception()
}

/// The slow path collects what a core passed on.
pub fn collect(shared: &Shared, slow: &mut SlowWorker, core: &mut CoreWorker) -> bool
    requires { IsSlow shared.now slow.old × IsCore shared.now core.old }
    ensures { IsSlow shared.now slow.new × IsCore shared.now core.new }
{
    slow.collect(core).is_ok()
}

/// The first numbers of the flows of a scenario's host.
fn numbers_of(slow: &SlowWorker) -> SpacedNumbers {
    SpacedNumbers {
        first: Seq(slow.path.params().iss),
    }
}

/// The slow path's turn.
pub fn serve<R: Wait>(rt: &R, shared: &Shared, slow: &mut SlowWorker) -> bool
    requires { IsSlow shared.now slow.old }
    ensures { IsSlow shared.now slow.new }
{
    let numbers = numbers_of(slow);
    slow.turn(rt, shared, &numbers, TICK).is_ok()
}

/// The slow path's turn in some tick, which may be the first of that tick.
pub fn serve_in<R: Wait>(rt: &R, shared: &Shared, slow: &mut SlowWorker, tick: u32) -> Option<()>
    requires { MayTurn shared.now tick slow.old }
    ensures { IfSome result (λ _. MayTurn shared.now (suc tick) slow.new) }
{
    let numbers = numbers_of(slow);
    let Ok(()) = slow.turn(rt, shared, &numbers, tick) else {
        return None;
    };
    Some(())
}

/// Whether the slow path has opened the flow and not freed it.
pub fn is_open(shared: &Shared, slow: &SlowWorker, id: FlowId) -> bool
    requires { IsSlow shared.now slow.now }
{
    id.slot < shared.table.slots() && slow.pass.is_open(id)
}

/// An application accepts the flow of a port that waits longest.
pub fn accept(
    shared: &Shared,
    slow: &mut SlowWorker,
    app: &mut App,
    number: u32,
    port: u16,
) -> Option<Socket>
    requires { IsSlow shared.now slow.old × IsApp shared.now number app.old }
    ensures slow { IfSome result (λ _. IsSlow shared.now slow.new) }
    ensures app { IfSome result (λ _. IsApp shared.now number app.new) }
    ensures socket { IfSome result (IsSocket app.new) }
    ensures sockets { IfSome result (λ _. KeepsSockets app.old app.new) }
{
    let Some(id) = slow.path.ready(port) else {
        return None;
    };
    if id.slot >= shared.table.slots() {
        return None;
    }
    let Ok(socket) = app.accept(&shared.table, &mut slow.path, port, TICK) else {
        return None;
    };
    Some(socket)
}

/// An application reads from a socket.
fn read(shared: &Shared, app: &mut App, number: u32, s: Socket, tick: u32)
    requires { IsApp shared.now number app.old × IsSocket app.old s }
    ensures { IsApp shared.now number app.new × (app.new.sockets ≡ app.old.sockets) }
{
    let mut buf = [0; 16];
    drop(app.recv(&shared.table, s, tick, &mut buf));
}

/// An application writes its words on a socket.
pub fn write(shared: &Shared, app: &mut App, number: u32, s: Socket, tick: u32)
    requires { IsApp shared.now number app.old × IsSocket app.old s }
    ensures { IsApp shared.now number app.new × (app.new.sockets ≡ app.old.sockets) }
{
    drop(app.send(&shared.table, s, tick, WORDS));
}

/// A call of an application on a socket.
#[derive(Clone, Copy)]
pub enum SocketCall {
    Read,
    Write,
}

/// An application makes a call on a socket.
pub fn call(shared: &Shared, app: &mut App, number: u32, s: Socket, tick: u32, what: SocketCall)
    requires { IsApp shared.now number app.old × IsSocket app.old s }
    ensures { IsApp shared.now number app.new × (app.new.sockets ≡ app.old.sockets) }
{
    match what {
        SocketCall::Read => read(shared, app, number, s, tick),
        SocketCall::Write => write(shared, app, number, s, tick),
    }
}

/// The next note of an application.
pub fn next_note<R: Wait>(rt: &R, shared: &Shared, app: &mut App, number: u32) -> Option<Note>
    requires { IsApp shared.now number app.old }
    ensures app { IsApp shared.now number app.new }
    ensures sockets { KeepsSockets app.old app.new }
{
    app.events(rt, shared.queue(number)?)
}
