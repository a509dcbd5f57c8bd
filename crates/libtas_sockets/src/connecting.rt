//! Connections to other hosts are opened.
ghost use Rattle.std.specs.Prelude.{◌≡◌, ℕ, ◌<◌, ◌↔◌, ◌||◌, not, cond, Option, None, Some, Err, All, length, IfSome};
ghost use Rattle.std.specs.Prelude.{IsSome, OnSome, IfNone};
ghost use Rattle.std.specs.List.{find};
ghost use Rattle.std.specs.Option.{option_map};
ghost use Rattle.tas_model.specs.Valid.{InRange};
ghost use Rattle.tas_model.specs.declared.entry.Caller.TheVariants as callers;
ghost use Rattle.flow_lock.specs.Answers.{next_in, is_open_in};
ghost use Rattle.flow_lock.specs.Steps.{MayAct, opened};
ghost use Rattle.slow_handshake.specs.Openings.{all_ports};
ghost use Rattle.app_reaper.specs.OneCall.{history};
ghost use Rattle.libtas_sockets.specs.Apps.{IsSocket, socket_on};
ghost use Rattle.libtas_sockets.specs.Connecting.{fits, id_of, still_begun, begun_for, looked_up, IsTakenUp, opener};
ghost use Rattle.libtas_sockets.specs.Connecting.{IsOpening, IsConnection, IsConnectionAs, after_connect, does_open};
ghost use Rattle.libtas_sockets.specs.Connecting.{first_history};

use crate::app::App;
use crate::begun::{Begun, Target};
use crate::pinning::{is_slot_in_use, make_room, unpinned};
use crate::socket::Socket;
use crate::socket_error::SocketError;
use app_reaper::PinList;
use flow_lock::{FlowTable, Pin, SlowPass};
use flow_state::FlowRecord;
use slow_handshake::{NumberSource, SlowPath};
use tas_model::{Caller, FlowId, FourTuple, HostParams};
use tas_num::Seq;

impl App {
    /// Opens a connection to a port of a host, from the next port. Where an earlier connect to it opened a flow that
    /// couldn't be pinned, that flow is pinned, and none is opened; `Stale` and `Moved` leave it begun, and so does
    /// `SlotInUse`, which comes exactly where the application has a socket on its slot. Else `NoFlowSlot` comes exactly
    /// where every slot has a flow, else `NoPort` where all ports were given, and else `SlotInUse` where the
    /// application has a socket on the slot that comes next: never, where the slow path has the flow of each socket
    /// open (law `no_socket_is_in_the_way`). `OutOfMemory` comes after 4,294,967,295 openings too. No port and no first
    /// number is used up where nothing is opened.
    pub fn connect(
        &mut self,
        t: &FlowTable<FlowRecord>,
        slow: &mut SlowPath,
        sp: &mut SlowPass<FlowRecord>,
        pins: &mut PinList,
        raddr: u32,
        rport: u16,
        tick: u32,
    ) -> Result<Socket, SocketError>
        requires pass { (self.old.pass.table ≡ t.now) × MayAct self.old.pass.view }
        requires slow { (sp.old.table ≡ t.now) × MayAct sp.old.view }
        requires ranges { InRange slow.old.params }
        ensures begun { IfSome (begun_for (Target.To raddr rport) sp.old self.old)
            (λ b. IsTakenUp b.id (looked_up (Target.To raddr rport) sp.old self.old) self.new result) }
        ensures in_use { IfSome (begun_for (Target.To raddr rport) sp.old self.old)
            (λ b. result ≡ Err (SocketError.SlotInUse (socket_on b.id)) ↔ IsSocket self.old (socket_on b.id)) }
        ensures unopened { OnSome (begun_for (Target.To raddr rport) sp.old self.old)
            (opener sp.new pins.new.list ≡ opener sp.old pins.old.list) }
        ensures unnumbered { OnSome (begun_for (Target.To raddr rport) sp.old self.old) (slow.new ≡ slow.old) }
        ensures slots { IfNone (begun_for (Target.To raddr rport) sp.old self.old)
            (result ≡ Err SocketError.NoFlowSlot ↔ next_in sp.old.view.marks ≡ None) }
        ensures ports { IfNone (begun_for (Target.To raddr rport) sp.old self.old)
            (result ≡ Err SocketError.NoPort ↔ IsSome (next_in sp.old.view.marks) × (slow.old.ports ≡ all_ports)) }
        ensures next_in_use { IfNone (begun_for (Target.To raddr rport) sp.old self.old)
            (IfSome (next_in sp.old.view.marks) (λ id. slow.old.ports < all_ports
            → result ≡ Err (SocketError.SlotInUse (socket_on id)) ↔ IsSocket self.old (socket_on id))) }
        ensures opened { IfNone (begun_for (Target.To raddr rport) sp.old self.old)
            (IsConnection raddr rport tick slow.old (looked_up (Target.To raddr rport) sp.old self.old) self.new
            (opener sp.old pins.old.list) (opener sp.new pins.new.list) result) }
        ensures numbered { IfNone (begun_for (Target.To raddr rport) sp.old self.old)
            (slow.new ≡ after_connect result slow.old) }
    {
        forget_ended(&mut self.begun, sp, &Target::To(raddr, rport));
        if let Some(id) = begun_for(&self.begun, &Target::To(raddr, rport)) {
            return self.take_up(t, id);
        }
        let Some(id) = sp.next_flow() else {
            return Err(SocketError::NoFlowSlot);
        };
        let Ok(lport) = slow.next_port() else {
            return Err(SocketError::NoPort);
        };
        let tuple = FourTuple {
            laddr: slow.params().addr,
            lport,
            raddr,
            rport,
        };
        let iss = slow.first_number(tuple, sp.opened());
        let connected = self.open(t, slow.params(), sp, pins, id, tuple, iss, tick);
        if opens(&connected) {
            slow.connected();
        }
        connected
    }

    /// `connect` with the ends given, and with the first number that the source has for them. It never answers
    /// `NoPort`.
    pub fn connect_as<N: NumberSource>(
        &mut self,
        t: &FlowTable<FlowRecord>,
        params: &HostParams,
        sp: &mut SlowPass<FlowRecord>,
        pins: &mut PinList,
        tuple: FourTuple,
        numbers: &N,
        tick: u32,
    ) -> Result<Socket, SocketError>
        requires pass { (self.old.pass.table ≡ t.now) × MayAct self.old.pass.view }
        requires slow { (sp.old.table ≡ t.now) × MayAct sp.old.view }
        requires ranges { InRange params.now }
        ensures begun { IfSome (begun_for (Target.Of tuple) sp.old self.old)
            (λ b. IsTakenUp b.id (looked_up (Target.Of tuple) sp.old self.old) self.new result) }
        ensures in_use { IfSome (begun_for (Target.Of tuple) sp.old self.old)
            (λ b. result ≡ Err (SocketError.SlotInUse (socket_on b.id)) ↔ IsSocket self.old (socket_on b.id)) }
        ensures unopened { OnSome (begun_for (Target.Of tuple) sp.old self.old)
            (opener sp.new pins.new.list ≡ opener sp.old pins.old.list) }
        ensures slots { IfNone (begun_for (Target.Of tuple) sp.old self.old)
            (result ≡ Err SocketError.NoFlowSlot ↔ next_in sp.old.view.marks ≡ None) }
        ensures next_in_use { IfNone (begun_for (Target.Of tuple) sp.old self.old)
            (IfSome (next_in sp.old.view.marks) (λ id.
            result ≡ Err (SocketError.SlotInUse (socket_on id)) ↔ IsSocket self.old (socket_on id))) }
        ensures opened { IfNone (begun_for (Target.Of tuple) sp.old self.old)
            (IsConnectionAs tuple (N.number numbers.now tuple sp.old.view.opened) tick params.now
            (looked_up (Target.Of tuple) sp.old self.old) self.new
            (opener sp.old pins.old.list) (opener sp.new pins.new.list) result) }
    {
        forget_ended(&mut self.begun, sp, &Target::Of(tuple));
        if let Some(id) = begun_for(&self.begun, &Target::Of(tuple)) {
            return self.take_up(t, id);
        }
        let Some(id) = sp.next_flow() else {
            return Err(SocketError::NoFlowSlot);
        };
        let iss = numbers.first_number(tuple, sp.opened());
        self.open(t, params, sp, pins, id, tuple, iss, tick)
    }

    /// Pins a begun flow, which is then no longer begun.
    fn take_up(&mut self, t: &FlowTable<FlowRecord>, id: FlowId) -> Result<Socket, SocketError>
        requires pass { (self.old.pass.table ≡ t.now) × MayAct self.old.pass.view }
        requires slot { id.slot < t.now.slots }
        ensures made { IsTakenUp id self.old self.new result }
        ensures in_use { result ≡ Err (SocketError.SlotInUse (socket_on id)) ↔ IsSocket self.old (socket_on id) }
    {
        if is_slot_in_use(&self.sockets, id) {
            return Err(SocketError::SlotInUse(Socket(id.slot)));
        }
        make_room(&mut self.sockets)?;
        match t.pin(&mut self.pass, id) {
            Ok(pin) => {
                self.begun.retain(|flow| flow.id != id);
                self.sockets.put(pin);
                Ok(Socket(id.slot))
            }
            Err(refused) => Err(unpinned(refused)),
        }
    }

    /// Opens the flow that comes next, and pins it; or it is begun.
    fn open(
        &mut self,
        t: &FlowTable<FlowRecord>,
        params: &HostParams,
        sp: &mut SlowPass<FlowRecord>,
        pins: &mut PinList,
        id: FlowId,
        tuple: FourTuple,
        iss: Seq,
        tick: u32,
    ) -> Result<Socket, SocketError>
        requires pass { (self.old.pass.table ≡ t.now) × MayAct self.old.pass.view }
        requires slow { (sp.old.table ≡ t.now) × MayAct sp.old.view }
        requires ranges { InRange params.now }
        requires next { next_in sp.old.view.marks ≡ Some id }
        requires slot { id.slot < t.now.slots }
        ensures in_use { result ≡ Err (SocketError.SlotInUse (socket_on id)) ↔ IsSocket self.old (socket_on id) }
        ensures made { IsOpening (first_history tuple params.now (callers.App self.old.number) tick iss)
            self.old self.new (opener sp.old pins.old.list) (opener sp.new pins.new.list) result }
    {
        if is_slot_in_use(&self.sockets, id) {
            return Err(SocketError::SlotInUse(Socket(id.slot)));
        }
        if sp.opened() == u32::MAX {
            return Err(SocketError::OutOfMemory);
        }
        make_room(&mut self.sockets)?;
        if self.begun.reserve(1).is_err() || pins.reserve().is_err() {
            return Err(SocketError::OutOfMemory);
        }
        let caller = Caller::App(self.number);
        let Ok(flow) = FlowRecord::connect(self.alloc, id, tuple, params, iss, caller, tick) else {
            return Err(SocketError::OutOfMemory);
        };
        pins.put(open_next(t, sp, flow));
        match t.pin(&mut self.pass, id) {
            Ok(pin) => {
                self.sockets.put(pin);
                Ok(Socket(id.slot))
            }
            Err(refused) => {
                self.begun.push_reserved(Begun { id, tuple });
                Err(unpinned(refused))
            }
        }
    }
}

/// Whether a flow was opened: the answer is a socket, or a refused pin.
fn opens(connected: &Result<Socket, SocketError>) -> bool
    ensures { result ≡ does_open connected.now }
{
    matches!(
        connected,
        Ok(_) | Err(SocketError::Stale(_) | SocketError::Moved(..))
    )
}

/// Opens the next flow for the record, and answers the slow path's pin.
pub(crate) fn open_next(
    t: &FlowTable<FlowRecord>,
    sp: &mut SlowPass<FlowRecord>,
    flow: FlowRecord,
) -> Pin
    requires slow { (sp.old.table ≡ t.now) × MayAct sp.old.view }
    requires few { sp.old.view.opened < 4294967295 }
    requires next { next_in sp.old.view.marks ≡ Some flow.id }
    requires first { length flow.entries ≡ 1 }
    ensures pin { result ≡ flow.id }
    ensures opened { sp.new ≡ record sp.old { view = opened flow.id (history flow) sp.old.view } }
{
    match t.open_flow(sp, flow) {
        Ok((_, pin)) => pin,
        Err(_) => unreachable!(),
    }
}

/// The begun flows that are wanted, and that the slow path hasn't open any more, are no longer begun.
fn forget_ended(begun: &mut Vec<Begun>, sp: &SlowPass<FlowRecord>, target: &Target)
    requires { All (λ (b : Begun). b.id.slot < sp.now.table.slots) begun.old.items }
    ensures { begun.new.items ≡ still_begun target.now sp.now.view.marks begun.old.items }
{
    let mut kept = 0;
    let mut at = 0;
    while at < begun.len() {
        let flow = begun[at];
        begun[kept] = flow;
        kept += count_of(is_still_begun(&flow, sp, target));
        at += 1;
    }
    begun.truncate(kept);
}

fn count_of(stays: bool) -> usize
    ensures { result ≡ cond stays 1 0 }
{
    if stays { 1 } else { 0 }
}

/// Whether a flow stays begun.
fn is_still_begun(flow: &Begun, sp: &SlowPass<FlowRecord>, target: &Target) -> bool
    requires { flow.now.id.slot < sp.now.table.slots }
    ensures { result ≡ (not (fits target.now flow.now) || is_open_in sp.now.view.marks flow.now.id) }
{
    !target.fits(flow) || sp.is_open(flow.id)
}

/// The flow that is wanted, of several the one that was opened first.
fn begun_for(begun: &[Begun], target: &Target) -> Option<FlowId>
    ensures { result ≡ option_map id_of (find (fits target.now) begun.now) }
{
    let flow = begun.iter().find(|flow| target.fits(flow))?;
    Some(flow.id)
}
