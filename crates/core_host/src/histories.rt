//! Histories, each found by its flow.
ghost use Rattle.std.specs.Prelude.{◌≡◌, false, [], None, Some, OnOk, if◌then◌else◌};
ghost use Rattle.tas_model.specs.declared.entry.FlowId.{FlowId as Id};
ghost use Rattle.flow_lock.specs.Orders.{same_flow};
ghost use Rattle.core_host.specs.Ending.{found_in};

use flow_state::FlowHistory;
use std::alloc::{AllocError, Global};
use std::collections::HashMap;
use std::marker::Model;
use tas_model::FlowId;

/// Histories, each under the slot and the generation of its flow. However many there are, one is found as fast.
#[derive(Drop)]
pub(crate) struct Histories {
    histories: HashMap<(u32, u32), FlowHistory>,
}

impl Model for Histories {
    ghost use Rattle.std.specs.Prelude.{ℕ, List};
    ghost use Rattle.flow_state.specs.Flow.{History};

    ghost Value = { List ((ℕ × ℕ) × History) };

    ghost view = { λ h. h.histories.entries };
}

impl Histories {
    /// No history. It takes no memory.
    pub(crate) fn new(alloc: Global) -> Histories
        ensures { result ≡ [] }
    {
        Histories {
            histories: HashMap::new(alloc),
        }
    }

    /// Puts a history in, in the place of another one of its flow. The error is want of memory.
    pub(crate) fn put(&mut self, history: FlowHistory) -> Result<(), AllocError>
        ensures { OnOk result ((id : Id)
            → found_in self.new id ≡ (if same_flow history.id id then Some history else found_in self.old id)) }
    {
        let id = history.id();
        match self.histories.insert((id.slot, id.generation), history) {
            Ok(_) => Ok(()),
            Err(_) => Err(AllocError),
        }
    }

    /// Takes the history of a flow out, where there is one.
    pub(crate) fn take(&mut self, id: FlowId) -> Option<FlowHistory>
        ensures value { result ≡ found_in self.old id }
        ensures gone { found_in self.new id ≡ None }
        ensures rest { (other : Id) → same_flow id other ≡ false → found_in self.new other ≡ found_in self.old other }
    {
        self.histories.remove(&(id.slot, id.generation))
    }
}
