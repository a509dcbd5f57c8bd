//! Flows that an application opened and has no pin of.
ghost use Rattle.std.specs.Prelude.{◌≡◌};
ghost use Rattle.libtas_sockets.specs.Connecting.{fits};

use tas_model::{FlowId, FourTuple};

/// A flow that a connect of the application opened, and whose pin was then refused.
#[derive(Clone, Copy, PartialEq, Eq, Debug)]
pub struct Begun {
    pub id: FlowId,
    pub tuple: FourTuple,
}

/// Which begun flow a connect takes up, where there is one: one to a port of a host, or that with exactly these ends.
/// The contracts of `connect` and `connect_as` name it; no call takes or gives one.
#[derive(Clone, Copy, PartialEq, Eq, Debug)]
pub enum Target {
    /// A flow to this address and port of a host, from any port of its own: what `connect` looks for.
    To(u32, u16),
    /// The flow with exactly these ends: what `connect_as` looks for.
    Of(FourTuple),
}

impl Target {
    /// Whether the flow is one that is wanted.
    pub(crate) fn fits(&self, flow: &Begun) -> bool
        ensures { result ≡ fits self.now flow.now }
    {
        match self {
            Target::To(raddr, rport) => flow.tuple.raddr == *raddr && flow.tuple.rport == *rport,
            Target::Of(tuple) => flow.tuple == *tuple,
        }
    }
}
