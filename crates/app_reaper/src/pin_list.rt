//! Pins in their order, found by their slots.

ghost use Rattle.std.specs.Prelude.{◌≡◌, ℕ, ◌+◌, ◌<◌, ◌++◌, ◌∷◌, [], length, remove, slice_get, Some, OnOk, IsOk};
ghost use Rattle.std.specs.Prelude.{position};
ghost use Rattle.app_reaper.specs.Lists.{is_on};

use crate::number_list::NumberList;
use flow_lock::Pin;
use std::alloc::{AllocError, Global};
use std::marker::Model;

/// Pins in the order in which they were put. The first one on a slot is found by a map, however many there are; but
/// after one was taken out by a walk, until `index` is called.
#[derive(Drop)]
pub struct PinList {
    pins: Vec<Pin>,
    /// The slots of the pins.
    slots: NumberList,
}

impl Model for PinList {
    ghost use Rattle.tas_model.specs.declared.entry.FlowId.{FlowId};
    ghost use Rattle.std.specs.Prelude.{vec_len, vec_capacity};
    ghost use Rattle.app_reaper.specs.Lists.{Roomy, HasSlots};

    ghost Value = { Roomy FlowId };

    ghost view = { λ l. record { list = l.pins.items; spare = l.slots.spare } };

    ghost invariant = { λ l. HasSlots l.pins.items (vec_capacity l.pins) l.slots };
}

impl PinList {
    /// A list without pins. It takes no memory.
    pub fn new(alloc: Global) -> PinList
        ensures { result.list ≡ [] }
    {
        PinList {
            pins: Vec::new(alloc),
            slots: NumberList::new(alloc),
        }
    }

    /// Makes room for one pin more. The error is want of memory.
    pub fn reserve(&mut self) -> Result<(), AllocError>
        ensures room { OnOk result (0 < self.new.spare) }
        ensures list { self.new.list ≡ self.old.list }
        ensures spare { 0 < self.old.spare → IsOk result }
    {
        self.pins.reserve(1)?;
        self.slots.reserve()
    }

    /// Appends a pin.
    pub fn put(&mut self, pin: Pin)
        requires room { 0 < self.old.spare }
        ensures list { self.new.list ≡ self.old.list ++ pin ∷ [] }
    {
        self.slots.put(pin.id().slot);
        self.pins.push_reserved(pin);
    }

    /// How many pins there are.
    pub fn len(&self) -> usize
        ensures { result ≡ length self.now.list }
    {
        self.pins.len()
    }

    /// The pin at a place, counted from 0.
    pub fn pin(&self, i: usize) -> &Pin
        requires { i < length self.now.list }
        ensures { slice_get self.now.list i ≡ Some result.now }
    {
        &self.pins[i]
    }

    /// The place of the first pin on this slot, counted from 0; `None` exactly where there is none.
    pub fn place_of(&self, slot: u32) -> Option<usize>
        ensures { result ≡ position (is_on slot) self.now.list }
    {
        self.slots.place_of(slot)
    }

    /// Takes the pin at a place out, counted from 0.
    pub fn remove(&mut self, i: usize) -> Pin
        requires { i < length self.old.list }
        ensures pin { slice_get self.old.list i ≡ Some result }
        ensures rest { self.new.list ≡ remove self.old.list i }
        ensures spare { self.new.spare ≡ self.old.spare + 1 }
    {
        self.slots.remove(i);
        self.pins.remove(i)
    }

    /// Pins are found by the map from now on. It looks at each pin once, where one was taken out before.
    pub fn index(&mut self)
        ensures { self.new ≡ self.old }
    {
        self.slots.index();
    }
}
