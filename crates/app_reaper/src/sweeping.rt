//! Closed flows are swept: their slots are freed, and their records filed.
ghost use Rattle.std.specs.Prelude.{◌≡◌, ℕ, ◌<◌, [], IfOk, OnErr};
ghost use Rattle.flow_lock.specs.Steps.{MayAct};
ghost use Rattle.flow_lock.specs.Callers.{IsOwner};
ghost use Rattle.app_reaper.specs.Sweeping.{KeepsPin, IsFiling, IsSweep, StaysDoomed};

use crate::filed_list::FiledList;
use flow_lock::{FlowTable, Pin, SlowPass};
use flow_state::FlowRecord;
use std::alloc::AllocError;

/// What became of a flow that was swept.
#[derive(Drop)]
pub enum Swept {
    /// Its slot is free, and its record filed.
    Freed,
    /// So many pins were found, which isn't 1. The flow stays doomed, and its pin is kept.
    Pinned(u16, Pin),
}

/// Dooms a closed flow, frees its slot and files its record, unless another pass has pinned it. The record gives back
/// the memory that it has no use for any more. The error is want of memory, and leaves the table as it was; the flow
/// stays live then, and its record comes out when the table is closed.
pub fn sweep(
    table: &FlowTable<FlowRecord>,
    slow: &mut SlowPass<FlowRecord>,
    pin: Pin,
    filed: &mut FiledList,
) -> Result<Swept, AllocError>
    requires slot { pin.slot < table.now.slots }
    requires slow { (slow.old.table ≡ table.now) × MayAct slow.old.view × (slow.old.view.held ≡ []) }
    requires owner { IsOwner pin slow.old }
    ensures table { slow.new.table ≡ slow.old.table }
    ensures pin { IfOk result (KeepsPin pin) }
    ensures filed { IfOk result (IsFiling pin slow.old.view filed.old.list filed.new.list) }
    ensures view { IfOk result (IsSweep pin slow.old.view slow.new.view) }
    ensures doomed { IfOk result (StaysDoomed pin slow.new) }
    ensures unchanged { OnErr result (slow.new ≡ slow.old) }
    ensures unfiled { OnErr result (filed.new.list ≡ filed.old.list) }
{
    filed.reserve()?;
    Ok(sweep_reserved(table, slow, pin, filed))
}

/// `sweep` where the filed list has room: it takes no memory.
pub fn sweep_reserved(
    table: &FlowTable<FlowRecord>,
    slow: &mut SlowPass<FlowRecord>,
    pin: Pin,
    filed: &mut FiledList,
) -> Swept
    requires slot { pin.slot < table.now.slots }
    requires slow { (slow.old.table ≡ table.now) × MayAct slow.old.view × (slow.old.view.held ≡ []) }
    requires owner { IsOwner pin slow.old }
    requires room { 0 < filed.old.spare }
    ensures table { slow.new.table ≡ slow.old.table }
    ensures pin { KeepsPin pin result }
    ensures filed { IsFiling pin slow.old.view filed.old.list filed.new.list result }
    ensures view { IsSweep pin slow.old.view slow.new.view result }
    ensures doomed { StaysDoomed pin slow.new result }
{
    table.doom(slow, &pin);
    match table.free(slow, pin) {
        Ok(mut flow) => {
            flow.release();
            filed.put(flow);
            Swept::Freed
        }
        Err((pinned, pin)) => Swept::Pinned(pinned.0, pin),
    }
}
