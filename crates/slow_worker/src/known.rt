// The flows that segments are received by, each under its four-tuple.
ghost use Rattle.std.specs.Prelude.{◌≡◌, ◌+◌, ◌<◌, ◌≤◌, ◌++◌, ◌∷◌, [], length, OnOk};
ghost use Rattle.std.specs.HashMap.{get, hash_map_len, spare};
ghost use Rattle.tas_model.specs.declared.entry.FourTuple.{FourTuple};
ghost use Rattle.flow_index.specs.Changes.{is_same};
ghost use Rattle.slow_worker.specs.Workers.{flow_with};
ghost use Rattle.slow_worker.specs.Known.{or_flow};
ghost use Rattle.slow_worker.specs.Turns.{is_pinned, still_known};

use app_reaper::PinList;
use std::alloc::{AllocError, Global};
use std::collections::HashMap;
use std::marker::Model;
use tas_model::{FlowId, FourTuple};

/// A flow that stands in the index.
#[derive(Clone, Copy, PartialEq, Eq, Debug)]
pub struct KnownFlow {
    pub tuple: FourTuple,
    pub id: FlowId,
}

/// The flows that stand in the index, in the order in which they came. Its one writer keeps them, since what a reader
/// of the index is answered may be old. A flow is found by its four-tuple without a walk over the others.
#[derive(Drop)]
pub(crate) struct KnownFlows {
    flows: Vec<KnownFlow>,
    /// The first flow of each four-tuple.
    firsts: HashMap<FourTuple, FlowId>,
    /// How many flows the list takes without memory.
    room: usize,
}

impl Model for KnownFlows {
    ghost use Rattle.std.specs.Prelude.{◌-◌, vec_len, vec_capacity};
    ghost use Rattle.std.specs.HashMap.{get, hash_map_len, spare};
    ghost use Rattle.flow_index.specs.Changes.{is_same};
    ghost use Rattle.app_reaper.specs.Lists.{Roomy};
    ghost use Rattle.slow_worker.specs.Known.{AreFound};
    ghost use Rattle.slow_worker.specs.declared.known.KnownFlow.{KnownFlow};

    ghost Value = { Roomy KnownFlow };

    ghost view = { λ l. record { list = l.flows.items; spare = l.room - vec_len l.flows } };

    ghost invariant = { λ l. AreFound l.flows.items l.room (vec_capacity l.flows)
        (get is_same l.firsts) (hash_map_len l.firsts) (spare l.firsts) };
}

impl KnownFlows {
    pub(crate) fn new(alloc: Global) -> KnownFlows
        ensures { result.list ≡ [] }
    {
        KnownFlows {
            flows: Vec::new(alloc),
            firsts: HashMap::new(alloc),
            room: 0,
        }
    }

    /// The flow that has this four-tuple.
    pub(crate) fn find(&self, tuple: FourTuple) -> Option<FlowId>
        ensures { result ≡ flow_with tuple self.now.list }
    {
        self.firsts.get(&tuple).copied()
    }

    /// Makes room for one flow more. The error is want of memory.
    pub(crate) fn reserve(&mut self) -> Result<(), AllocError>
        ensures room { OnOk result (0 < self.new.spare) }
        ensures list { self.new.list ≡ self.old.list }
    {
        let len = self.flows.len();
        if len < self.room {
            return Ok(());
        }
        self.flows.reserve(1)?;
        self.firsts.reserve(1 + len - self.firsts.len())?;
        self.room = len + 1;
        Ok(())
    }

    /// Appends a flow.
    pub(crate) fn put(&mut self, tuple: FourTuple, id: FlowId)
        requires room { 0 < self.old.spare }
        ensures list { self.new.list ≡ self.old.list ++ record { tuple = tuple; id = id } ∷ [] }
    {
        note(&mut self.firsts, KnownFlow { tuple, id });
        self.flows.push_reserved(KnownFlow { tuple, id });
    }

    /// Leaves out each flow whose pin isn't in the list.
    pub(crate) fn keep(&mut self, pins: &PinList)
        ensures list { self.new.list ≡ still_known pins.now.list self.old.list }
    {
        let len = self.flows.len();
        self.flows.retain(|flow| has_pin(pins, flow.id));
        if self.flows.len() == len {
            return;
        }
        note_all(&mut self.firsts, &self.flows);
    }
}

/// Notes one flow more, where none of its four-tuple is noted.
fn note(firsts: &mut HashMap<FourTuple, FlowId>, flow: KnownFlow)
    requires room { 0 < spare firsts.old }
    ensures flows { (t : FourTuple) → get is_same firsts.new t ≡ or_flow (get is_same firsts.old t) t flow }
    ensures few { hash_map_len firsts.new ≤ hash_map_len firsts.old + 1 }
    ensures room { hash_map_len firsts.old + spare firsts.old ≤ hash_map_len firsts.new + spare firsts.new }
{
    if firsts.contains_key(&flow.tuple) {
        return;
    }
    match firsts.insert(flow.tuple, flow.id) {
        Ok(_) => {}
        Err(_) => unreachable!(),
    }
}

/// Notes these flows, and no others.
fn note_all(firsts: &mut HashMap<FourTuple, FlowId>, flows: &Vec<KnownFlow>)
    requires room { length flows.now.items ≤ hash_map_len firsts.old + spare firsts.old }
    ensures flows { (t : FourTuple) → get is_same firsts.new t ≡ flow_with t flows.now.items }
    ensures few { hash_map_len firsts.new ≤ length flows.now.items }
    ensures room { hash_map_len firsts.old + spare firsts.old ≤ hash_map_len firsts.new + spare firsts.new }
{
    firsts.clear();
    for place in 0..flows.len() {
        note(firsts, flows[place]);
    }
}

/// Whether the list has the flow's pin, as the first one on its slot.
fn has_pin(pins: &PinList, id: FlowId) -> bool
    ensures { result ≡ is_pinned pins.now.list id }
{
    match pins.place_of(id.slot) {
        Some(at) => pins.pin(at).id() == id,
        None => false,
    }
}
