//! Connections to other hosts are opened where nobody has a turn.
ghost use Rattle.std.specs.Prelude.{◌≡◌, ◌<◌, [], length, false};
ghost use Rattle.tas_model.specs.Valid.{InRange};
ghost use Rattle.flow_lock.specs.Answers.{IsPinned};
ghost use Rattle.flow_lock.specs.Claims.{pins_on};
ghost use Rattle.flow_lock.specs.Passes.{without_baton, with_baton};
ghost use Rattle.flow_lock.specs.Steps.{IsAlone};
ghost use Rattle.flow_lock.specs.Words.{word_at, live_word};
ghost use Rattle.flow_lock.specs.declared.view.View.{View};
ghost use Rattle.libtas_sockets.specs.Connecting.{opener};
ghost use Rattle.libtas_sockets.specs.Opening.{IsConnectionAlone};

use crate::app::App;
use crate::connecting::open_next;
use crate::pinning::{is_slot_in_use, make_room};
use crate::socket::Socket;
use crate::socket_error::SocketError;
use app_reaper::PinList;
use flow_lock::{FlowTable, Pass, Pin, SlowPass};
use flow_state::FlowRecord;
use slow_handshake::NumberSource;
use tas_model::{Caller, FlowId, FourTuple, HostParams};

/// Pins a flow with the baton, which the slow path hands on, where it is alone, and has again afterwards. The flow was
/// just opened, so that the pin is never refused.
fn pin_alone(
    t: &FlowTable<FlowRecord>,
    sp: &mut SlowPass<FlowRecord>,
    pass: &mut Pass<FlowRecord>,
    id: FlowId,
) -> Pin
    requires slot { id.slot < t.now.slots }
    requires table { (sp.old.table ≡ t.now) × (pass.old.table ≡ t.now) }
    requires alone { IsAlone sp.old.view × (sp.old.view.held ≡ []) }
    requires plain { (pass.old.view.turns ≡ []) × (pass.old.view.baton ≡ false) }
    requires idle { pass.old.view.held ≡ [] }
    requires unpinned { pins_on id.slot pass.old.view ≡ 0 }
    requires live { word_at sp.old.view.words id.slot ≡ live_word id.generation }
    ensures pin { result ≡ id }
    ensures pinned { (w : View) × IsPinned id (with_baton pass.old.view sp.old.view) w
        × (pass.new ≡ record pass.old { view = without_baton w })
        × (sp.new ≡ record sp.old { view = with_baton sp.old.view w }) }
{
    t.pass_on(sp, pass);
    let Ok(pin) = t.pin(pass, id) else {
        unreachable!()
    };
    t.pass_back(pass, sp);
    pin
}

impl App {
    /// `connect_as` where nobody has a turn: the slow path is alone, opens the next flow, and hands the application the
    /// baton for as long as it takes to pin that. So what was opened is pinned, and no flow is left begun; nor is one
    /// taken up that was begun before. `NoFlowSlot` comes exactly where every slot has a flow, and `SlotInUse` as
    /// `connect_as` has it; else the error is want of memory, or that 4,294,967,295 flows were opened.
    pub fn connect_alone<N: NumberSource>(
        &mut self,
        t: &FlowTable<FlowRecord>,
        params: &HostParams,
        sp: &mut SlowPass<FlowRecord>,
        pins: &mut PinList,
        tuple: FourTuple,
        numbers: &N,
        tick: u32,
    ) -> Result<Socket, SocketError>
        requires pass { (self.old.pass.table ≡ t.now) × (self.old.pass.view.turns ≡ [])
            × (self.old.pass.view.baton ≡ false) }
        requires slow { (sp.old.table ≡ t.now) × IsAlone sp.old.view × (sp.old.view.held ≡ []) }
        requires wide { length sp.old.view.words ≡ t.now.slots }
        requires ranges { InRange params.now }
        ensures connected { IsConnectionAlone tuple (N.number numbers.now tuple sp.old.view.opened) tick params.now
            self.old self.new (opener sp.old pins.old.list) (opener sp.new pins.new.list) result }
    {
        let Some(id) = sp.next_flow() else {
            return Err(SocketError::NoFlowSlot);
        };
        if is_slot_in_use(&self.sockets, id) {
            return Err(SocketError::SlotInUse(Socket(id.slot)));
        }
        if sp.opened() == u32::MAX {
            return Err(SocketError::OutOfMemory);
        }
        make_room(&mut self.sockets)?;
        if pins.reserve().is_err() {
            return Err(SocketError::OutOfMemory);
        }
        let iss = numbers.first_number(tuple, sp.opened());
        let caller = Caller::App(self.number);
        let Ok(flow) = FlowRecord::connect(self.alloc, id, tuple, params, iss, caller, tick) else {
            return Err(SocketError::OutOfMemory);
        };
        pins.put(open_next(t, sp, flow));
        let pin = pin_alone(t, sp, &mut self.pass, id);
        self.sockets.put(pin);
        Ok(Socket(id.slot))
    }
}
