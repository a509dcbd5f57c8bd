//! The slow path's calls: it opens, dooms and frees, and does what other passes do.
ghost use Rattle.std.specs.Prelude.{◌≡◌, ◌≢◌, ℕ, ◌+◌, ◌<◌, [], length, true, false, IfOk, IfErr, IfSome, Some, None};
ghost use Rattle.flow_lock.specs.Histories.{history_of};
ghost use Rattle.flow_lock.specs.Claims.{pins_on, holds_on, HasPin, flow_at};
ghost use Rattle.flow_lock.specs.Steps.{MayAct, IsAlone, unpinned, gave, opened, condemned, mark, mark_at};
ghost use Rattle.flow_lock.specs.Passes.{Seen, IsSlow};
ghost use Rattle.flow_lock.specs.Answers.{next_in, IsPinned, IsRefused, IsTaken, IsBusy, Holds, HasSeen, IsKnownOf};
ghost use Rattle.flow_lock.specs.Answers.{IsFreed, IsHeldBack};
ghost use Rattle.flow_lock.specs.declared.view.Mark.{Mark};
ghost use mathlib.Core.Option.{some};
ghost use lib.ListN.{get_elem?};

use crate::pass::{Full, Pass, Pin, PinRefused, Pinned, SlowPass, first_free};
use crate::plays::{Clear, Doom, Inspect, Open, Restore, TryFree};
use crate::table::FlowTable;
use crate::view::Mark;
use crate::word::{DOOMED, Word, read_word, write_word};
use tas_model::{FlowId, Recorded};

/// The pins of a flow that the slow path alone has pinned.
const SOLE: u16 = 1;

impl<R: Recorded + Drop> FlowTable<R> {
    /// Opens the lowest free slot for the record, which has one entry and bears the id that `next_flow` gives. The
    /// answer has the slow path's pin. `Full` comes exactly where every slot has a flow.
    pub fn open_flow(&self, slow: &mut SlowPass<R>, item: R) -> Result<(FlowId, Pin), (Full, R)>
        requires slow { (slow.old.table ≡ self.now) × MayAct slow.old.view }
        requires next { IfSome (next_in slow.old.view.marks) (λ id. R.id item ≡ id) }
        requires first { length (R.entries item) ≡ 1 }
        requires few { slow.old.view.opened < 4294967295 }
        ensures table { slow.new.table ≡ slow.old.table }
        ensures next { IfOk result (λ o. next_in slow.old.view.marks ≡ Some o.0) }
        ensures slot { IfOk result (λ o. o.0.slot < self.now.slots) }
        ensures opened { IfOk result (λ o. (o.1 ≡ o.0)
            × (slow.new.view ≡ opened o.0 (history_of R.tuple R.params R.entries item) slow.old.view)) }
        ensures full { IfErr result (λ e. (next_in slow.old.view.marks ≡ None) × (e.1 ≡ item) × (slow.new ≡ slow.old)) }
    {
        let Some(slot) = first_free(&slow.marks) else {
            return Err((Full, item));
        };
        let generation = slow.marks[slot].generation + 1;
        let flow = FlowId {
            slot: slot as u32,
            generation,
        };
        self.open_at(&mut slow.pass, item, flow);
        let mark = Mark {
            generation,
            live: true,
            doomed: false,
        };
        put_mark(&mut slow.marks, slot, mark);
        slow.opened += 1;
        Ok((flow, Pin { flow }))
    }

    /// Takes the empty value of a free slot, and gives the slot back with the record.
    fn open_at(&self, pass: &mut Pass<R>, item: R, flow: FlowId)
        requires slot { flow.slot < self.now.slots }
        requires pass { (pass.old.table ≡ self.now) × MayAct pass.old.view × (pass.old.view.slow ≡ true) }
        requires free { (m : Mark) × (get_elem? pass.old.view.marks flow.slot ≡ some m) × (m.live ≡ false)
            × (flow.generation ≡ m.generation + 1) }
        requires item { (R.id item ≡ flow) × (length (R.entries item) ≡ 1) }
        ensures { pass.new ≡ record pass.old {
          view = opened flow
              (history_of R.tuple R.params R.entries item) pass.old.view;
        } }
    {
        let at = flow.slot as usize;
        let shared = &self.table.shared;
        shared.load::<Clear<R>>(&mut pass.seat, at);
        drop(shared.exchange(&mut pass.seat, at, Some(item)));
        let word = write_word(flow.generation, 1, true);
        shared.store::<Open<R>>(&mut pass.seat, at, word);
    }

    /// No pass can pin the flow from now on.
    pub fn doom(&self, slow: &mut SlowPass<R>, pin: &Pin)
        requires slot { pin.now.slot < self.now.slots }
        requires slow { (slow.old.table ≡ self.now) × HasPin slow.old.view pin.now × MayAct slow.old.view }
        ensures { slow.new ≡ record slow.old { view = condemned pin.now slow.old.view } }
    {
        self.doom_word(&mut slow.pass, pin);
        let slot = pin.flow.slot as usize;
        let mark = Mark {
            doomed: true,
            ..slow.marks[slot]
        };
        put_mark(&mut slow.marks, slot, mark);
    }

    fn doom_word(&self, pass: &mut Pass<R>, pin: &Pin)
        requires slot { pin.now.slot < self.now.slots }
        requires pass { (pass.old.table ≡ self.now) × HasPin pass.old.view pin.now × MayAct pass.old.view
            × (pass.old.view.slow ≡ true) }
        ensures { pass.new ≡ record pass.old { view = condemned pin.now pass.old.view } }
    {
        let slot = pin.flow.slot as usize;
        let shared = &self.table.shared;
        shared.fetch_or::<Doom>(&mut pass.seat, slot, DOOMED);
    }

    /// Frees the slot of a doomed flow and gives its record, or answers how many pins it has, which isn't 1.
    pub fn free(&self, slow: &mut SlowPass<R>, pin: Pin) -> Result<R, (Pinned, Pin)>
        requires slot { pin.slot < self.now.slots }
        requires slow { (slow.old.table ≡ self.now) × HasPin slow.old.view pin × MayAct slow.old.view }
        requires doomed { get_elem? slow.old.view.marks pin.slot ≡ some (mark pin.generation true true) }
        requires idle { holds_on pin.slot slow.old.view ≡ 0 }
        ensures table { slow.new.table ≡ slow.old.table }
        ensures own { IfOk result (λ r. (R.id r ≡ pin)
            × HasSeen slow.old.view pin (history_of R.tuple R.params R.entries r)) }
        ensures known { IfOk result (λ r. IsKnownOf slow.old.view pin (history_of R.tuple R.params R.entries r)) }
        ensures freed { IfOk result (λ _. IsFreed pin slow.old.view slow.new.view) }
        ensures pinned { IfErr result (λ e. (e.1 ≡ pin) × IsHeldBack pin slow.old.view slow.new.view e.0.0) }
    {
        let flow = pin.flow;
        let item = match self.free_word(&mut slow.pass, &pin) {
            Ok(item) => item,
            Err(pinned) => return Err((pinned, pin)),
        };
        let mark = Mark {
            generation: flow.generation,
            live: false,
            doomed: false,
        };
        put_mark(&mut slow.marks, flow.slot as usize, mark);
        Ok(item)
    }

    fn free_word(&self, pass: &mut Pass<R>, pin: &Pin) -> Result<R, Pinned>
        requires slot { pin.now.slot < self.now.slots }
        requires pass { (pass.old.table ≡ self.now) × HasPin pass.old.view pin.now × MayAct pass.old.view
            × (pass.old.view.slow ≡ true) }
        requires doomed { get_elem? pass.old.view.marks pin.now.slot ≡ some (mark pin.now.generation true true) }
        requires idle { holds_on pin.now.slot pass.old.view ≡ 0 }
        ensures table { pass.new.table ≡ pass.old.table }
        ensures own { IfOk result (λ r. (R.id r ≡ pin.now)
            × HasSeen pass.old.view pin.now (history_of R.tuple R.params R.entries r)) }
        ensures known { IfOk result (λ r. IsKnownOf pass.old.view pin.now (history_of R.tuple R.params R.entries r)) }
        ensures freed { IfOk result (λ _. IsFreed pin.now pass.old.view pass.new.view) }
        ensures pinned { IfErr result (λ e. IsHeldBack pin.now pass.old.view pass.new.view e.0) }
    {
        let at = pin.flow.slot as usize;
        let shared = &self.table.shared;
        let old = shared.load::<Inspect>(&mut pass.seat, at);
        let pins = read_word(old).pins;
        if pins != SOLE {
            return Err(Pinned(pins));
        }
        let dead = write_word(pin.flow.generation, 0, false);
        let found = shared.compare_exchange::<TryFree<R>>(&mut pass.seat, at, old, dead);
        if found != old {
            return Err(Pinned(read_word(found).pins));
        }
        let Some(item) = shared.exchange(&mut pass.seat, at, None) else {
            unreachable!()
        };
        shared.load::<Restore<R>>(&mut pass.seat, at);
        Ok(item)
    }

    /// `pin` by the slow path.
    pub fn slow_pin(&self, slow: &mut SlowPass<R>, id: FlowId) -> Result<Pin, PinRefused>
        requires slot { id.slot < self.now.slots }
        requires slow { (slow.old.table ≡ self.now) × MayAct slow.old.view }
        requires unpinned { pins_on id.slot slow.old.view ≡ 0 }
        ensures table { slow.new.table ≡ slow.old.table }
        ensures pinned { IfOk result (λ p. (p ≡ id) × IsPinned id slow.old.view slow.new.view) }
        ensures refused { IfErr result (IsRefused id slow.old.view slow.new.view) }
    {
        self.pin(&mut slow.pass, id)
    }

    /// `unpin` by the slow path.
    pub fn slow_unpin(&self, slow: &mut SlowPass<R>, pin: Pin)
        requires slot { pin.slot < self.now.slots }
        requires slow { (slow.old.table ≡ self.now) × HasPin slow.old.view pin × MayAct slow.old.view }
        requires idle { holds_on pin.slot slow.old.view ≡ 0 }
        ensures { slow.new ≡ record slow.old { view = unpinned pin slow.old.view } }
    {
        self.unpin(&mut slow.pass, pin);
    }

    /// `take` by the slow path.
    pub fn slow_take(&self, slow: &mut SlowPass<R>, pin: &Pin) -> Result<R, Word>
        requires slot { pin.now.slot < self.now.slots }
        requires slow { (slow.old.table ≡ self.now) × HasPin slow.old.view pin.now × MayAct slow.old.view }
        requires free { slow.old.view.held ≡ [] }
        ensures table { slow.new.table ≡ slow.old.table }
        ensures own { IfOk result (λ r. R.id r ≡ pin.now) }
        ensures seen { IfOk result (λ r. HasSeen slow.old.view pin.now (history_of R.tuple R.params R.entries r)) }
        ensures taken { IfOk result (λ r. IsTaken pin.now
            (history_of R.tuple R.params R.entries r) slow.old.view slow.new.view) }
        ensures busy { IfErr result (IsBusy pin.now slow.old.view slow.new.view) }
        ensures alone { IfErr result (λ _. ¬ IsAlone slow.old.view) }
        ensures known { IfOk result (λ r. IsKnownOf slow.old.view pin.now (history_of R.tuple R.params R.entries r)) }
    {
        self.take(&mut slow.pass, pin)
    }

    /// `give` by the slow path.
    pub fn slow_give(&self, slow: &mut SlowPass<R>, pin: &Pin, item: R)
        requires slot { pin.now.slot < self.now.slots }
        requires slow { (slow.old.table ≡ self.now) × MayAct slow.old.view }
        requires held { Holds slow.old.view pin.now (history_of R.tuple R.params R.entries item) }
        requires own { R.id item ≡ pin.now }
        ensures { slow.new ≡ record slow.old {
          view = gave pin.now
              (history_of R.tuple R.params R.entries item) slow.old.view;
        } }
    {
        self.give(&mut slow.pass, pin, item);
    }
}

fn put_mark(marks: &mut Vec<Mark>, at: usize, mark: Mark)
    requires { at < length marks.old.items }
    ensures { marks.new.items ≡ Rattle.std.specs.Prelude.slice_set marks.old.items at mark }
{
    marks.as_mut_slice()[at] = mark;
}
