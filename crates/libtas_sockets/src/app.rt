//! An application: its pass, its sockets, and its turns.
ghost use Rattle.std.specs.Prelude.{◌≡◌, ℕ, ◌<◌, ◌≤◌, ◌↔◌, ◌⊎◌, [], ◌∷◌, ◌++◌, true, false, Err, Some, slice_get};
ghost use Rattle.std.specs.Prelude.{length, IfOk, IsOk, IfErr, OnOk, OnErr, IfSome, IfNone};
ghost use Rattle.crossbeam_queue.specs.Fifo.{Held};
ghost use Rattle.context_queue.specs.Notes.{HasTaken, HoldsRest};
ghost use Rattle.flow_lock.specs.Claims.{HasPin};
ghost use Rattle.flow_lock.specs.Passes.{lender, lent, peeled, with_turns, without_baton, with_baton};
ghost use Rattle.flow_lock.specs.Steps.{MayAct};
ghost use Rattle.slow_handshake.specs.Openings.{is_taken};
ghost use Rattle.libtas_sockets.specs.Apps.{Application, IsSocket, flow_of, with_view, without_socket};

use crate::begun::Begun;
use crate::socket::Socket;
use crate::socket_error::SocketError;
use app_reaper::PinList;
use context_queue::{ContextQueue, Note, ReceiverPass};
use flow_lock::{FlowTable, Pass, SlowPass};
use flow_state::FlowRecord;
use slow_handshake::{ListenRefused, SlowPath};
use std::alloc::{AllocError, Global};
use std::marker::Model;
use std::sync::Wait;
use tas_model::FlowId;

/// An application: its number, its pass to the table of flows, the receiver of its own queue, the flows that it opened
/// and has no pin of yet, and its sockets, each with the flow that it has pinned. Between two calls its pass holds no
/// record, and has no pins but those of the sockets.
#[derive(Drop)]
pub struct App {
    pub(crate) alloc: Global,
    pub(crate) number: u32,
    pub(crate) pass: Pass<FlowRecord>,
    pub(crate) notes: ReceiverPass,
    pub(crate) begun: Vec<Begun>,
    /// The pins of the sockets, the oldest first.
    pub(crate) sockets: PinList,
}

impl Model for App {
    ghost use Rattle.libtas_sockets.specs.Apps.{Application, IsSound};

    ghost Value = { Application };

    ghost view = { λ a. record {
      number = a.number;
      pass = a.pass;
      notes = a.notes;
      begun = a.begun.items;
      sockets = a.sockets.list;
    } };

    ghost invariant = { λ a. IsSound a.pass a.begun.items a.sockets.list };
}

impl App {
    /// An application without sockets. The pass has no pin and holds no record. It takes no memory, and is always Ok.
    pub fn new(
        alloc: Global,
        number: u32,
        pass: Pass<FlowRecord>,
        notes: ReceiverPass,
    ) -> Result<App, AllocError>
        requires { (pass.view.pins ≡ []) × (pass.view.held ≡ []) }
        ensures made { IsOk result }
        ensures new { IfOk result (λ app. app ≡ record {
          number = number;
          pass = pass;
          notes = notes;
          begun = [];
          sockets = [];
        }) }
    {
        Ok(App {
            alloc,
            number,
            pass,
            notes,
            begun: Vec::new(alloc),
            sockets: PinList::new(alloc),
        })
    }

    /// The flow that a socket has pinned.
    pub fn flow(&self, s: Socket) -> FlowId
        requires { IsSocket self.now s }
        ensures { result ≡ flow_of self.now s }
    {
        let at = self.place(s);
        self.sockets.pin(at).id()
    }

    /// The application listens on a port, from 1 to 49,151. `PortInUse` comes exactly where a listener has it.
    pub fn listen(&mut self, slow: &mut SlowPath, port: u16) -> Result<(), SocketError>
        requires port { (1 ≤ port) × (port ≤ 49151) }
        ensures used { result ≡ Err (SocketError.PortInUse port) ↔ is_taken slow.old port ≡ true }
        ensures listens { OnOk result (slow.new ≡ record slow.old {
          listeners = slow.old.listeners
              ++ (record { port = port; app = self.old.number }) ∷ [];
        }) }
        ensures refused { OnErr result (slow.new ≡ slow.old) }
        ensures only { IfErr result (λ e. (e ≡ SocketError.PortInUse port) ⊎ (e ≡ SocketError.OutOfMemory)) }
        ensures same { self.new ≡ self.old }
    {
        match slow.listen(self.number, port) {
            Ok(()) => Ok(()),
            Err(ListenRefused::PortInUse) => Err(SocketError::PortInUse(port)),
            Err(ListenRefused::OutOfMemory) => Err(SocketError::OutOfMemory),
        }
    }

    /// Gives a socket up, with its pin and without an entry. It takes no memory.
    pub fn release(&mut self, t: &FlowTable<FlowRecord>, s: Socket)
        requires pass { (self.old.pass.table ≡ t.now) × MayAct self.old.pass.view }
        requires socket { IsSocket self.old s }
        ensures { self.new ≡ without_socket s self.old }
    {
        let at = self.place(s);
        let pin = self.sockets.remove(at);
        self.sockets.index();
        t.unpin(&mut self.pass, pin);
    }

    /// Takes the note that has stood longest in the application's queue. `None` comes only where the queue was empty
    /// at some moment of the call.
    pub fn events<R: Wait>(&mut self, rt: &R, q: &ContextQueue) -> Option<Note>
        requires own { self.old.notes.line ≡ q.now.line }
        ensures taken { IfSome result (λ n. HasTaken n self.old.notes self.new.notes) }
        ensures empty { IfNone result (Held 0 (HoldsRest self.old.notes)) }
        ensures none { IfNone result (self.new ≡ self.old) }
        ensures same { self.new ≡ record self.old { notes = self.new.notes } }
    {
        q.drain_one(rt, &mut self.notes)
    }

    /// The place of a socket among the pins.
    pub(crate) fn place(&self, s: Socket) -> usize
        requires { IsSocket self.now s }
        ensures near { result < length self.now.sockets }
        ensures pin { slice_get self.now.sockets result ≡ Some (flow_of self.now s) }
    {
        let Some(at) = self.sockets.place_of(s.0) else {
            unreachable!()
        };
        at
    }

    /// Gives the application's pass a turn.
    pub fn lend(&mut self, t: &FlowTable<FlowRecord>, slow: &mut SlowPass<FlowRecord>)
        requires table { (slow.old.table ≡ t.now) × (self.old.pass.table ≡ t.now) }
        requires baton { slow.old.view.baton ≡ true }
        ensures slow { slow.new ≡ record slow.old { view = lender slow.old.view } }
        ensures lent { self.new ≡ with_view (with_turns self.old.pass.view (lent slow.old.view)) self.old }
    {
        t.lend(slow, &mut self.pass);
    }

    /// Takes the turns of the application's pass back, with what was done in them.
    pub fn collect(&mut self, t: &FlowTable<FlowRecord>, slow: &mut SlowPass<FlowRecord>)
        requires table { (slow.old.table ≡ t.now) × (self.old.pass.table ≡ t.now) }
        ensures slow { slow.new ≡ record slow.old { view = with_turns slow.old.view self.old.pass.view } }
        ensures collected { self.new ≡ with_view (peeled self.old.pass.view) self.old }
    {
        t.collect(slow, &mut self.pass);
    }

    /// Hands the baton to the application's pass, which then acts alone.
    pub fn pass_on(&mut self, t: &FlowTable<FlowRecord>, slow: &mut SlowPass<FlowRecord>)
        requires table { (slow.old.table ≡ t.now) × (self.old.pass.table ≡ t.now) }
        requires baton { (slow.old.view.baton ≡ true) × (self.old.pass.view.baton ≡ false) }
        requires idle { slow.old.view.held ≡ [] }
        ensures slow { slow.new ≡ record slow.old { view = without_baton slow.old.view } }
        ensures alone { self.new ≡ with_view (with_baton self.old.pass.view slow.old.view) self.old }
    {
        t.pass_on(slow, &mut self.pass);
    }

    /// Hands the baton back to the slow path.
    pub fn pass_back(&mut self, t: &FlowTable<FlowRecord>, slow: &mut SlowPass<FlowRecord>)
        requires table { (slow.old.table ≡ t.now) × (self.old.pass.table ≡ t.now) }
        requires baton { (self.old.pass.view.baton ≡ true) × (slow.old.view.baton ≡ false) }
        ensures slow { slow.new ≡ record slow.old { view = with_baton slow.old.view self.old.pass.view } }
        ensures back { self.new ≡ with_view (without_baton self.old.pass.view) self.old }
    {
        t.pass_back(&mut self.pass, slow);
    }
}
