//! Listeners, and flows that wait at them.

ghost use Rattle.std.specs.Prelude.{◌≡◌};

use tas_model::FlowId;

/// An application listens on a port.
#[derive(Clone, Copy, PartialEq, Eq, Debug)]
pub struct Listener {
    pub port: u16,
    pub app: u32,
}

/// A flow that a peer's SYN opened, and that is neither accepted nor closed. `port` is its local one. It is ready once
/// it is past SYN-RECEIVED.
#[derive(Clone, Copy, PartialEq, Eq, Debug)]
pub struct PassiveFlow {
    pub id: FlowId,
    pub port: u16,
    pub ready: bool,
}

impl PassiveFlow {
    ghost use Rattle.slow_handshake.specs.Openings.{readied};

    /// Notes that it is past SYN-RECEIVED, where it is this flow.
    pub fn note_ready(&mut self, id: FlowId)
        ensures { self.new ≡ readied id self.old }
    {
        self.ready = self.ready || self.id == id;
    }
}

/// Why an application can't listen.
#[derive(Clone, Copy, PartialEq, Eq, Debug)]
pub enum ListenRefused {
    /// A listener has the port.
    PortInUse,
    OutOfMemory,
}

/// All ports for own connections were given.
#[derive(Clone, Copy, PartialEq, Eq, Debug)]
pub struct NoPort;

/// What a SYN meets that comes to no flow.
#[derive(Clone, Copy, PartialEq, Eq, Debug)]
pub enum SynAnswer {
    /// It opens a flow.
    Opens,
    /// So many flows of the port wait for Accept, and no more may. Where they are more than 4,294,967,295, it tells
    /// this number.
    BacklogFull(u32),
    NoListener,
}
