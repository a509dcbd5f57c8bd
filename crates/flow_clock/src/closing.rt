//! Closed flows leave the index, and their slots are freed.
ghost use Rattle.std.specs.Prelude.{◌≡◌, ◌<◌, ◌∷◌, ◌++◌, [], List, remove, length, slice_get, Some, OnOk, OnErr};
ghost use Rattle.tas_model.specs.declared.entry.FlowId.{FlowId};
ghost use Rattle.flow_index.specs.declared.change.Change.TheVariants.{Remove};
ghost use Rattle.flow_clock.specs.Ledgers.{without, IsReady, KeepsRights, IsKept, AreKept};
ghost use Rattle.flow_clock.specs.Walks.{IsSwept};

use app_reaper::{FiledList, PinList, Swept, sweep_reserved};
use flow_index::IndexWriter;
use flow_lock::{FlowTable, Pin, SlowPass};
use flow_state::FlowRecord;
use slow_handshake::SlowPath;
use std::alloc::AllocError;
use tas_model::FourTuple;

/// Takes the four-tuple of a closed flow from the index, the flow from the openings and its pin out of the list, and
/// sweeps it: it is freed and filed, or its pin is put to the doomed ones. The error is want of memory, and leaves all
/// as it was.
pub fn close_at(
    table: &FlowTable<FlowRecord>,
    slow: &mut SlowPass<FlowRecord>,
    path: &mut SlowPath,
    pins: &mut PinList,
    at: usize,
    tuple: FourTuple,
    doomed: &mut PinList,
    filed: &mut FiledList,
    index: &mut IndexWriter,
) -> Result<(), AllocError>
    requires place { at < length pins.old.list }
    requires slow { IsReady table.now slow.old }
    requires kept { AreKept table.now.slots slow.old doomed.old.list pins.old.list }
    ensures slow { IsReady table.now slow.new }
    ensures rights { KeepsRights slow.old.view slow.new.view }
    ensures kept { AreKept table.now.slots slow.new doomed.new.list pins.new.list }
    ensures swept { (f : FlowId) → slice_get pins.old.list at ≡ Some f → OnOk result (IsSwept f slow.old.view
        slow.new.view filed.old.list filed.new.list doomed.old.list doomed.new.list) }
    ensures rest { OnOk result (pins.new.list ≡ remove pins.old.list at) }
    ensures told { (f : FlowId) → slice_get pins.old.list at ≡ Some f
        → OnOk result (path.new ≡ without f path.old) }
    ensures params { path.new.params ≡ path.old.params }
    ensures index { OnOk result (index.new.pending ≡ index.old.pending ++ Remove tuple ∷ []) }
    ensures published { (index.new.published ≡ index.old.published) × (index.new.left ≡ index.old.left) }
    ensures unchanged { OnErr result (slow.new ≡ slow.old) }
    ensures untold { OnErr result (path.new ≡ path.old) }
    ensures pins { OnErr result (pins.new.list ≡ pins.old.list) }
    ensures doomed { OnErr result (doomed.new.list ≡ doomed.old.list) }
    ensures filed { OnErr result (filed.new.list ≡ filed.old.list) }
    ensures pending { OnErr result (index.new.pending ≡ index.old.pending) }
{
    filed.reserve()?;
    doomed.reserve()?;
    index.remove(tuple)?;
    let pin = pins.remove(at);
    path.left(pin.id());
    sweep_one(table, slow, pin, doomed, filed);
    Ok(())
}

/// Sweeps a closed flow, whose pin is put to the doomed ones where others have pins of it too.
pub(crate) fn sweep_one(
    table: &FlowTable<FlowRecord>,
    slow: &mut SlowPass<FlowRecord>,
    pin: Pin,
    doomed: &mut PinList,
    filed: &mut FiledList,
)
    requires slow { IsReady table.now slow.old }
    requires kept { IsKept table.now.slots slow.old pin }
    requires doomed { 0 < doomed.old.spare }
    requires filed { 0 < filed.old.spare }
    ensures slow { IsReady table.now slow.new }
    ensures rights { KeepsRights slow.old.view slow.new.view }
    ensures kept { (pins : List FlowId) → AreKept table.now.slots slow.old (pin ∷ doomed.old.list) pins
        → AreKept table.now.slots slow.new doomed.new.list pins }
    ensures swept { IsSwept pin slow.old.view slow.new.view filed.old.list filed.new.list
        doomed.old.list doomed.new.list }
{
    if let Swept::Pinned(_, pin) = sweep_reserved(table, slow, pin, filed) {
        doomed.put(pin);
    }
}
