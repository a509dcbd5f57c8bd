//! What the slow path keeps of a host: its listeners, its ports and its first numbers.

ghost use Rattle.std.specs.Prelude.{◌≡◌, ◌||◌, true, false, ℕ, ◌+◌, ◌^◌, ◌<◌, ◌≤◌, ◌↔◌, ◌∷◌, ◌++◌, [], not, map};
ghost use Rattle.std.specs.Prelude.{length, Some, IfOk, IsErr, OnErr, OnOk};
ghost use Rattle.std.specs.List.{filter, slice_get, list_any};
ghost use Rattle.slow_handshake.specs.Openings.{no_openings, is_taken, is_owned_by, syn_answer, next_after, first_port};
ghost use Rattle.slow_handshake.specs.Openings.{all_ports, readied, is_named, first_ready, waiting_for, backlog_of};
ghost use Rattle.slow_handshake.specs.Openings.{waits_for, told};

use crate::numbers::{ISS_STEP, NumberSource};
use crate::openings::{ListenRefused, Listener, NoPort, PassiveFlow, SynAnswer};
use segment_fields::Segment;
use std::alloc::{AllocError, Global};
use std::marker::Model;
use tas_model::{FlowId, FourTuple, HostParams};
use tas_num::Seq;

/// The first of the ports for own connections.
const FIRST_PORT: u16 = 49152;

/// How many ports there are for own connections.
const PORTS: u16 = 16384;

/// What a host keeps of the flows that are being opened, seen as its lists.
#[derive(Drop)]
pub struct SlowPath {
    params: HostParams,
    listeners: Vec<Listener>,
    flows: Vec<PassiveFlow>,
    ports: u16,
    next_iss: Seq,
}

impl Model for SlowPath {
    ghost use Rattle.std.specs.Prelude.{◌≤◌};
    ghost use Rattle.slow_handshake.specs.Openings.{Openings};

    ghost Value = { Openings };

    ghost view = { λ s. record {
      params = s.params;
      listeners = s.listeners.items;
      flows = s.flows.items;
      ports = s.ports;
      next_iss = s.next_iss;
    } };

    ghost invariant = { λ s. s.ports ≤ 16384 };
}

/// The first number is that of the parameters, and then each 64,000 past the one before, modulo 2^32.
impl NumberSource for SlowPath {
    ghost number = { λ path tuple n. path.next_iss };

    fn first_number(&self, _tuple: FourTuple, _n: u32) -> Seq {
        self.next_iss
    }
}

/// The flow is past SYN-RECEIVED, where it stands in the list.
fn note_ready(flows: &mut Vec<PassiveFlow>, id: FlowId)
    ensures { flows.new.items ≡ map (readied id) flows.old.items }
{
    for flow in flows.iter_mut() {
        flow.note_ready(id);
    }
}

/// A count as `BacklogFull` carries it.
fn told(count: usize) -> u32
    ensures { result ≡ told count }
{
    u32::try_from(count).unwrap_or(u32::MAX)
}

impl SlowPath {
    /// A host of these parameters, on which nothing was opened. The error is want of memory.
    pub fn new(alloc: Global, params: HostParams) -> Result<SlowPath, AllocError>
        ensures { IfOk result (λ path. path ≡ no_openings params) }
    {
        Ok(SlowPath {
            params,
            listeners: Vec::new(alloc),
            flows: Vec::new(alloc),
            ports: 0,
            next_iss: Seq(params.iss),
        })
    }

    /// The host's parameters.
    pub fn params(&self) -> &HostParams
        ensures { result.now ≡ self.now.params }
    {
        &self.params
    }

    /// The application listens on the port (RFC 9293, section 3.10.1, a passive OPEN). `PortInUse`: a listener has it.
    pub fn listen(&mut self, app: u32, port: u16) -> Result<(), ListenRefused>
        ensures used { result ≡ Err ListenRefused.PortInUse ↔ is_taken self.old port ≡ true }
        ensures ok { OnOk result (self.new ≡ record self.old {
          listeners = self.old.listeners
              ++ (record { port = port; app = app }) ∷ [];
        }) }
        ensures err { OnErr result (self.new ≡ self.old) }
    {
        if self.has_listener(port) {
            return Err(ListenRefused::PortInUse);
        }
        match self.listeners.push(Listener { port, app }) {
            Ok(()) => Ok(()),
            Err(_) => Err(ListenRefused::OutOfMemory),
        }
    }

    fn has_listener(&self, port: u16) -> bool
        ensures { result ≡ is_taken self.now port }
    {
        self.listeners.iter().any(|listener| listener.port == port)
    }

    /// The port that the next own connection is given: 49152, 49153 and so on, each once. The error: all 16,384 were
    /// given.
    pub fn next_port(&self) -> Result<u16, NoPort>
        ensures port { IfOk result (λ port. port ≡ first_port + self.now.ports) }
        ensures left { IfOk result (λ _. self.now.ports < all_ports) }
        ensures none { IsErr result ↔ self.now.ports ≡ all_ports }
    {
        if self.ports >= PORTS {
            return Err(NoPort);
        }
        Ok(FIRST_PORT + self.ports)
    }

    /// An own connection was opened, and has the next port and the next first number.
    pub fn connected(&mut self)
        requires left { self.old.ports < all_ports }
        ensures { self.new ≡ record self.old {
          ports = self.old.ports + 1;
          next_iss = next_after self.old.next_iss;
        } }
    {
        self.next_iss();
        self.ports += 1;
    }

    /// A first sequence number: that of the parameters, and then each 64,000 past the one before, modulo 2^32 (RFC
    /// 9293, section 3.4.1).
    pub fn next_iss(&mut self) -> Seq
        ensures number { result ≡ self.old.next_iss }
        ensures next { self.new ≡ record self.old { next_iss = next_after self.old.next_iss } }
    {
        let iss = self.next_iss;
        self.next_iss = iss.plus(ISS_STEP);
        iss
    }

    /// What a SYN meets that comes to no flow, by the port that it goes to. In a replay every port listens without a
    /// limit.
    pub fn syn(&mut self, seg: &Segment<'_>) -> SynAnswer
        ensures answer { result ≡ syn_answer self.old seg.now.dport }
        ensures kept { self.new ≡ self.old }
    {
        if self.params.fixed {
            return SynAnswer::Opens;
        }
        if !self.has_listener(seg.dport) {
            return SynAnswer::NoListener;
        }
        let count = self.backlog(seg.dport);
        if count < self.params.backlog as usize {
            SynAnswer::Opens
        } else {
            SynAnswer::BacklogFull(told(count))
        }
    }

    /// How many flows of the port are neither accepted nor closed.
    fn backlog(&self, port: u16) -> usize
        ensures { result ≡ backlog_of self.now port }
    {
        self.flows.iter().filter(|flow| flow.port == port).count()
    }

    /// A peer's SYN opened the flow at this port. The error is want of memory, and leaves all as it was.
    pub fn opened(&mut self, id: FlowId, port: u16) -> Result<(), AllocError>
        ensures ok { OnOk result (self.new ≡ record self.old {
          flows = self.old.flows
              ++ (record { id = id; port = port; ready = false }) ∷ [];
        }) }
        ensures err { OnErr result (self.new ≡ self.old) }
    {
        self.flows.push(PassiveFlow {
            id,
            port,
            ready: false,
        })?;
        Ok(())
    }

    /// The flow is past SYN-RECEIVED.
    pub fn became_ready(&mut self, id: FlowId)
        ensures { self.new ≡ record self.old { flows = map (readied id) self.old.flows } }
    {
        note_ready(&mut self.flows, id);
    }

    /// The flow was accepted, or is closed.
    pub fn left(&mut self, id: FlowId)
        ensures { self.new ≡ record self.old { flows = filter (λ flow. not (is_named id flow)) self.old.flows } }
    {
        self.flows.retain(|flow| flow.id != id);
    }

    /// The flow of the port that may be accepted next: the one opened first of those past SYN-RECEIVED. `None`: there
    /// is none.
    pub fn ready(&self, port: u16) -> Option<FlowId>
        ensures { result ≡ first_ready self.now port }
    {
        let flow = self
            .flows
            .iter()
            .find(|flow| flow.port == port && flow.ready)?;
        Some(flow.id)
    }

    /// Whether a SYN to the port meets a listener: an application's, or in a replay always.
    pub fn listening(&self, port: u16) -> bool
        ensures { result ≡ (self.now.params.fixed || is_taken self.now port) }
    {
        self.params.fixed || self.has_listener(port)
    }

    /// Of the flows that wait at the application's listeners the one at place `i`, from 0 in the order of their
    /// opening. `None`: there are no more than `i`.
    pub fn waiting(&self, app: u32, i: usize) -> Option<FlowId>
        ensures { result ≡ slice_get (waiting_for self.now app) i }
    {
        let flow = self
            .flows
            .iter()
            .filter(|flow| self.waits_for(app, flow))
            .nth(i)?;
        Some(flow.id)
    }

    fn waits_for(&self, app: u32, flow: &PassiveFlow) -> bool
        ensures { result ≡ waits_for self.now.listeners app flow.now }
    {
        self.listeners.iter().any(|listener| listener.port == flow.port && listener.app == app)
    }

    /// The application's listeners end.
    pub fn forget(&mut self, app: u32)
        ensures { self.new ≡ record self.old {
          listeners = filter
              (λ listener. not (is_owned_by app listener)) self.old.listeners;
        } }
    {
        self.listeners.retain(|listener| listener.app != app);
    }
}
