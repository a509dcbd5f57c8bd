//! Whose record one is, and its history.

ghost use Rattle.std.specs.Prelude.{List};
ghost use Rattle.tas_model.specs.declared.entry.Entry.{Entry};
ghost use Rattle.tas_model.specs.declared.entry.FlowId.{FlowId};
ghost use Rattle.tas_model.specs.declared.entry.FourTuple.{FourTuple};
ghost use Rattle.tas_model.specs.declared.entry.HostParams.{HostParams};

/// A record of a flow. It has no calls: what a holder may rely on is whose record it is, and its history.
pub trait Recorded {
    /// the flow that the record is of
    ghost id: { Self → FlowId };
    /// its history: the connection's ends,
    ghost tuple: { Self → FourTuple };
    /// the parameters that it was opened with,
    ghost params: { Self → HostParams };
    /// and its entries, the oldest first
    ghost entries: { Self → List Entry };
}
