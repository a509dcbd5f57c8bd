//! The table, and the calls of every pass.
ghost use Rattle.std.specs.Prelude.{◌≡◌, ℕ, ◌<◌, ◌≤◌, [], IfOk, IfErr, Ok};
ghost use Rattle.flow_lock.specs.Histories.{history_of};
ghost use Rattle.flow_lock.specs.Claims.{pins_on, holds_on, HasPin};
ghost use Rattle.flow_lock.specs.Steps.{MayAct, IsAlone, looked, unpinned, gave};
ghost use Rattle.flow_lock.specs.Passes.{Seen, first};
ghost use Rattle.atomic_table.specs.Seated.{TableId};
ghost use Rattle.flow_lock.specs.Answers.{IsKnown, IsPinned, IsRefused, IsTaken, IsBusy, Holds, HasSeen, IsKnownOf};

use crate::pass::{Pass, Pin, PinRefused, SlowPass};
use crate::plays::{Claims, Give, Glance, LetGo, Look, Take, TryPin};
use crate::view::{Mark, View};
use crate::word::{BUSY, Word, read_word};
use atomic_table::Table;
use std::alloc::{AllocError, Global};
use std::marker::Model;
use tas_model::{FlowId, Recorded};

/// The flows of a host by slots. Each slot has a word, and the record of its flow while no pass holds it. A contract
/// sees a table as its identity, which has the number of slots.
#[derive(Drop)]
pub struct FlowTable<R: Recorded + Drop> {
    pub(crate) table: Table<Option<R>, View, u64, Claims<R>, Global>,
    pub(crate) slots: u32,
}

impl<R: Recorded + Drop> Model for FlowTable<R> {
    ghost Value = { TableId };

    ghost view = { λ t. t.table.shared.table_id };

    ghost invariant = { λ t. (t.table.shared.table_id.words ≡ t.table.shared.table_id.slots)
        × (0 < t.table.shared.table_id.slots)
        × (t.slots ≡ t.table.shared.table_id.slots) };
}

impl<R: Recorded + Drop> FlowTable<R> {
    /// A table of so many slots, from 1 to 1,024, with no flows, and the slow path's pass, which has the baton and a
    /// turn.
    pub fn new(alloc: Global, slots: u32) -> Result<(FlowTable<R>, SlowPass<R>), AllocError>
        requires { (0 < slots) × (slots ≤ 1024) }
        ensures table { IfOk result (λ t. t.0.slots ≡ slots) }
        ensures slow { IfOk result (λ t. (t.1.table ≡ t.0) × (t.1.view ≡ first slots)) }
    {
        let words = Vec::from_elem(alloc, 0u64, slots as usize)?;
        let free = Mark {
            generation: 0,
            live: false,
            doomed: false,
        };
        let marks = Vec::from_elem(alloc, free, slots as usize)?;
        let key = u64::from(slots);
        let (table, seat) = Table::vacant(alloc, words.as_slice(), slots as usize, &key)?;
        let slow = SlowPass {
            pass: Pass { seat },
            marks,
            passes: 0,
            opened: 0,
        };
        Ok((FlowTable { table, slots }, slow))
    }

    /// How many slots there are.
    pub fn slots(&self) -> u32
        ensures { result ≡ self.now.slots }
    {
        self.slots
    }

    /// The word of a slot, in one load.
    pub fn look(&self, pass: &mut Pass<R>, slot: u32) -> Word
        requires slot { slot < self.now.slots }
        requires pass { pass.old.table ≡ self.now }
        ensures seen { pass.new ≡ record pass.old { view = looked slot result pass.old.view } }
        ensures known { IsKnown pass.old.view slot result }
    {
        let slot = slot as usize;
        read_word(self.table.shared.load::<Look>(&mut pass.seat, slot))
    }

    /// Pins a flow, in a load and a compare-exchange. `Stale` and `Moved` leave all as it was.
    pub fn pin(&self, pass: &mut Pass<R>, id: FlowId) -> Result<Pin, PinRefused>
        requires slot { id.slot < self.now.slots }
        requires pass { (pass.old.table ≡ self.now) × MayAct pass.old.view }
        requires unpinned { pins_on id.slot pass.old.view ≡ 0 }
        ensures table { pass.new.table ≡ pass.old.table }
        ensures pinned { IfOk result (λ p. (p ≡ id) × IsPinned id pass.old.view pass.new.view) }
        ensures refused { IfErr result (IsRefused id pass.old.view pass.new.view) }
    {
        let slot = id.slot as usize;
        let shared = &self.table.shared;
        let old = shared.load::<Glance>(&mut pass.seat, slot);
        let word = read_word(old);
        if !word.live || word.doomed || word.generation != id.generation {
            return Err(PinRefused::Stale(word));
        }
        let found = shared.compare_exchange::<TryPin>(&mut pass.seat, slot, old, old + 1);
        if found == old {
            Ok(Pin { flow: id })
        } else {
            Err(PinRefused::Moved(word, read_word(found)))
        }
    }

    /// Gives a pin up.
    pub fn unpin(&self, pass: &mut Pass<R>, pin: Pin)
        requires slot { pin.slot < self.now.slots }
        requires pass { (pass.old.table ≡ self.now) × HasPin pass.old.view pin × MayAct pass.old.view }
        requires idle { holds_on pin.slot pass.old.view ≡ 0 }
        ensures { pass.new ≡ record pass.old { view = unpinned pin pass.old.view } }
    {
        let slot = pin.flow.slot as usize;
        self.table
            .shared
            .fetch_sub::<LetGo>(&mut pass.seat, slot, 1);
    }

    /// The record of the pin's own flow, or the word whose busy bit was set at that step.
    pub fn take(&self, pass: &mut Pass<R>, pin: &Pin) -> Result<R, Word>
        requires slot { pin.now.slot < self.now.slots }
        requires pass { (pass.old.table ≡ self.now) × HasPin pass.old.view pin.now × MayAct pass.old.view }
        requires free { pass.old.view.held ≡ [] }
        ensures table { pass.new.table ≡ pass.old.table }
        ensures own { IfOk result (λ r. R.id r ≡ pin.now) }
        ensures seen { IfOk result (λ r. HasSeen pass.old.view pin.now (history_of R.tuple R.params R.entries r)) }
        ensures taken { IfOk result (λ r. IsTaken pin.now
            (history_of R.tuple R.params R.entries r) pass.old.view pass.new.view) }
        ensures busy { IfErr result (IsBusy pin.now pass.old.view pass.new.view) }
        ensures alone { IfErr result (λ _. ¬ IsAlone pass.old.view) }
        ensures known { IfOk result (λ r. IsKnownOf pass.old.view pin.now (history_of R.tuple R.params R.entries r)) }
    {
        let slot = pin.flow.slot as usize;
        let shared = &self.table.shared;
        let word = read_word(shared.fetch_or::<Take<R>>(&mut pass.seat, slot, BUSY));
        if word.busy {
            return Err(word);
        }
        let Some(item) = shared.exchange(&mut pass.seat, slot, None) else {
            unreachable!()
        };
        Ok(item)
    }

    /// Gives the record back. Its history is the one at the take with what was added.
    pub fn give(&self, pass: &mut Pass<R>, pin: &Pin, item: R)
        requires slot { pin.now.slot < self.now.slots }
        requires pass { (pass.old.table ≡ self.now) × MayAct pass.old.view }
        requires held { Holds pass.old.view pin.now (history_of R.tuple R.params R.entries item) }
        requires own { R.id item ≡ pin.now }
        ensures { pass.new ≡ record pass.old {
          view = gave pin.now
              (history_of R.tuple R.params R.entries item) pass.old.view;
        } }
    {
        let slot = pin.flow.slot as usize;
        let shared = &self.table.shared;
        drop(shared.exchange(&mut pass.seat, slot, Some(item)));
        shared.fetch_and::<Give<R>>(&mut pass.seat, slot, !BUSY);
    }
}
