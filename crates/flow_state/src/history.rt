//! What is kept of a flow whose run is over.

ghost use Rattle.std.specs.Prelude.{◌≡◌, ◌<◌, length, flat_map, slice_get, Some};
ghost use Rattle.tas_model.specs.Endpoint.{phase};
ghost use Rattle.tas_model.specs.LegalHistory.{Legal, replay};
ghost use Rattle.tas_model.specs.Outputs.{bytes_read};
ghost use Rattle.tas_model.specs.Valid.{InRange};
ghost use Rattle.flow_state.specs.Views.{seen_entry};

use crate::slot::CameSlot;
use crate::stretch::Stretch;
use crate::stretches::Stretches;
use crate::view::EntryView;
use std::marker::Model;
use tas_model::{FlowId, FourTuple, HostParams, Phase, Reason};

/// What is left of a flow on which no call is made any more, seen as its history. It has no endpoint, but tells where
/// the history led: so it takes far less memory than a record.
#[derive(Drop)]
pub struct FlowHistory {
    pub(crate) id: FlowId,
    pub(crate) tuple: FourTuple,
    pub(crate) params: HostParams,
    /// The state at the end.
    pub(crate) phase: Phase,
    /// Why it was closed, where it was.
    pub(crate) reason: Option<Reason>,
    /// How many bytes were read.
    pub(crate) read: u128,
    /// How many entries there are.
    pub(crate) made: usize,
    pub(crate) stretches: Vec<Stretch>,
    /// The bytes of the entries.
    pub(crate) bytes: Vec<u8>,
    /// The segments that came.
    pub(crate) came: Vec<CameSlot>,
}

impl Model for FlowHistory {
    ghost use Rattle.flow_state.specs.Flow.{History};

    ghost Value = { History };

    ghost use Rattle.flow_state.specs.Histories.{history_of, IsHistory};

    ghost view = { history_of };

    ghost invariant = { IsHistory };
}

impl FlowHistory {
    /// Which flow it was.
    pub fn id(&self) -> FlowId
        ensures { result ≡ self.now.id }
    {
        self.id
    }

    /// The connection's ends.
    pub fn tuple(&self) -> FourTuple
        ensures { result ≡ self.now.tuple }
    {
        self.tuple
    }

    /// The host's parameters.
    pub fn params(&self) -> &HostParams
        ensures params { result.now ≡ self.now.params }
        ensures ranges { InRange self.now.params }
        ensures legal { Legal self.now.params self.now.entries }
    {
        &self.params
    }

    /// The state that the entries lead to (RFC 9293, section 3.3.2).
    pub fn phase(&self) -> Phase
        ensures { result ≡ phase (replay self.now.params self.now.entries) }
    {
        self.phase
    }

    /// Why the endpoint is closed, where the entries lead to CLOSED.
    pub fn reason(&self) -> Option<Reason>
        ensures { result ≡ (replay self.now.params self.now.entries).reason }
    {
        self.reason
    }

    /// How many bytes were read.
    pub fn read_count(&self) -> u128
        ensures { result ≡ length (bytes_read self.now.entries) }
    {
        self.read
    }

    /// How many entries it has.
    pub fn entries(&self) -> usize
        ensures { result ≡ length self.now.entries }
    {
        self.made
    }

    /// Its entries in stretches, the oldest first: to look at all of them takes time by their number.
    pub fn stretches(&self) -> Stretches<'_>
        ensures { flat_map (λ xs. xs) result ≡ self.now.entries }
    {
        Stretches::new(&self.bytes, &self.came, &self.stretches)
    }

    /// The `i`-th of its entries, counted from 0, the oldest first. It looks for it from the first stretch on.
    pub fn entry(&self, i: usize) -> EntryView<'_>
        requires { i < length self.now.entries }
        ensures { slice_get self.now.entries i ≡ Some (seen_entry result) }
    {
        self.stretches().entry(i)
    }
}
