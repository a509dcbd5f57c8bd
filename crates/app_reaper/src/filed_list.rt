//! The records of flows that were freed.

ghost use Rattle.std.specs.Prelude.{◌≡◌, ℕ, ◌<◌, ◌++◌, ◌∷◌, [], length, slice_get, Some, OnOk, IfNone, IfSome};

use flow_state::FlowRecord;
use std::alloc::{AllocError, Global};
use std::collections::VecDeque;
use std::marker::Model;

/// The records of flows that were freed, the first freed first.
#[derive(Drop)]
pub struct FiledList {
    records: VecDeque<FlowRecord>,
}

impl Model for FiledList {
    ghost use Rattle.flow_state.specs.Flow.{Flow};
    ghost use Rattle.std.specs.Prelude.{◌-◌};
    ghost use Rattle.std.specs.VecDeque.{deque_len, deque_capacity};
    ghost use Rattle.app_reaper.specs.Lists.{Roomy};

    ghost Value = { Roomy Flow };

    ghost view = { λ l. record { list = l.records.items; spare = deque_capacity l.records - deque_len l.records } };
}

impl FiledList {
    /// A list without records. It takes no memory.
    pub fn new(alloc: Global) -> FiledList
        ensures { result.list ≡ [] }
    {
        FiledList {
            records: VecDeque::new(alloc),
        }
    }

    /// Makes room for one record more. The error is want of memory.
    pub fn reserve(&mut self) -> Result<(), AllocError>
        ensures room { OnOk result (0 < self.new.spare) }
        ensures list { self.new.list ≡ self.old.list }
    {
        self.records.reserve(1)
    }

    /// Appends a record.
    pub fn put(&mut self, flow: FlowRecord)
        requires room { 0 < self.old.spare }
        ensures list { self.new.list ≡ self.old.list ++ flow ∷ [] }
    {
        self.records.push_back_reserved(flow);
    }

    /// How many records there are.
    pub fn len(&self) -> usize
        ensures { result ≡ length self.now.list }
    {
        self.records.len()
    }

    /// The record at a place, counted from 0.
    pub fn item(&self, i: usize) -> &FlowRecord
        requires { i < length self.now.list }
        ensures { slice_get self.now.list i ≡ Some result.now }
    {
        &self.records[i]
    }

    /// Takes the first record out; `None` exactly where there is none.
    pub fn take_first(&mut self) -> Option<FlowRecord>
        ensures none { IfNone result ((self.old.list ≡ []) × (self.new.list ≡ [])) }
        ensures first { IfSome result (λ r. self.old.list ≡ r ∷ self.new.list) }
    {
        self.records.pop_front()
    }
}
