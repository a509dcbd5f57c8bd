//! Changes of the index, and what a look finds.

use tas_model::{FlowId, FourTuple};

/// A change of the index.
#[derive(Clone, Copy, PartialEq, Eq, Debug)]
pub enum Change {
    /// The four-tuple is this flow's from then on.
    Put(FourTuple, FlowId),
    /// The four-tuple is no flow's from then on.
    Remove(FourTuple),
}

/// What the index answers for a four-tuple.
#[derive(Clone, Copy, PartialEq, Eq, Debug)]
pub enum Found {
    /// The flow that has it.
    Flow(FlowId),
    /// No flow has it.
    Absent,
}
