//! Runs of quiet ticks, each ended by a Control.

ghost use Rattle.std.specs.Prelude.{◌≡◌, ℕ, ◌+◌, ◌-◌, ◌≤◌, ◌<◌, ◌++◌, ◌∷◌, [], length, take, slice_get, Some};
ghost use Rattle.std.specs.Prelude.{IfOk, IfErr, IfSome, IfNone};
ghost use Rattle.tas_model.specs.LegalHistory.{last_tick};
ghost use Rattle.flow_state.specs.Arena.{Memory};
ghost use Rattle.flow_state.specs.Slots.{entry_of};
ghost use Rattle.flow_state.specs.Stretches.{entries_of, run_entries, paced_entries, first_paced, control_entry, paced};
ghost use Rattle.flow_state.specs.Stretches.{IsPacedRun, ArePlaced, follows_run as model_follows};
ghost use Rattle.flow_state.specs.Stretches.{paces_on as model_on};
ghost use Rattle.flow_state.specs.Views.{seen_entry};

use crate::counts::is_same;
use crate::slot::{CallSlot, ReplySlot, Slot};
use crate::stretch::{QuietRun, Stretch};
use crate::view::{CallView, EntryView, ReplyView};

/// Runs of quiet ticks that are equally long, in the last tick of each a Control of the same answer, all by one caller,
/// and each run from the tick after the one before. So stands the history of a flow that nothing comes to and whose
/// rate is controlled, however long it lasts.
#[derive(Clone, Copy, PartialEq, Eq, Debug)]
pub struct PacedRun {
    /// The first run.
    pub run: QuietRun,
    /// How many more there are.
    pub more: u32,
    /// The window that each Control gave, in bytes.
    pub cwnd: u32,
    /// The threshold that each Control gave, in bytes.
    pub ssthresh: u32,
    /// The caller's number of what follows.
    pub number: u64,
    /// The tick after the last.
    pub tick: u32,
}

impl PacedRun {
    /// The Control behind the first run.
    pub fn control(&self) -> EntryView<'static>
        requires { IsPacedRun self.now }
        ensures { seen_entry result ≡ control_entry self.now.run.caller (self.now.run.number + self.now.run.more + 1)
            (self.now.run.tick + self.now.run.more) self.now.cwnd self.now.ssthresh }
    {
        EntryView {
            caller: self.run.caller,
            number: self.run.number + u64::from(self.run.more) + 1,
            tick: self.run.tick + self.run.more,
            call: CallView::Control,
            reply: ReplyView::Window {
                cwnd: self.cwnd,
                ssthresh: self.ssthresh,
            },
        }
    }

    /// The runs behind the first, where there are any.
    pub fn rest(&self) -> Option<PacedRun>
        requires { IsPacedRun self.now }
        ensures rest { IfSome result (λ rest. paced_entries self.now ≡ first_paced self.now ++ paced_entries rest) }
        ensures fits { IfSome result IsPacedRun }
        ensures fewer { IfSome result (λ rest. rest.more + 1 ≡ self.now.more) }
        ensures last { IfNone result (paced_entries self.now ≡ first_paced self.now) }
    {
        let more = self.more.checked_sub(1)?;
        let run = QuietRun {
            number: self.run.number + u64::from(self.run.more) + 2,
            tick: self.run.tick + self.run.more + 1,
            ..self.run
        };
        Some(PacedRun { run, more, ..*self })
    }

    /// The `j`-th entry of the first run and its Control, counted from 0. The error says how far `j` is past them.
    fn first_entry(&self, j: usize) -> Result<EntryView<'static>, usize>
        requires { IsPacedRun self.now }
        ensures found { IfOk result (λ x. slice_get (first_paced self.now) j ≡ Some (seen_entry x)) }
        ensures past { IfErr result (λ n. length (first_paced self.now) + n ≡ j) }
    {
        let ticks = self.run.more as usize + 1;
        if j < ticks {
            return Ok(self.run.entry(j as u32));
        }
        if j == ticks {
            Ok(self.control())
        } else {
            Err(j - ticks - 1)
        }
    }

    /// The `j`-th entry, counted from 0. The error says how far `j` is past the end.
    pub(crate) fn entry(&self, j: usize) -> Result<EntryView<'static>, usize>
        requires { IsPacedRun self.now }
        ensures found { IfOk result (λ x. slice_get (paced_entries self.now) j ≡ Some (seen_entry x)) }
        ensures past { IfErr result (λ n. length (paced_entries self.now) + n ≡ j) }
    {
        let mut runs = *self;
        let mut left = j;
        loop {
            match runs.first_entry(left) {
                Ok(entry) => return Ok(entry),
                Err(past) => left = past,
            }
            match runs.rest() {
                Some(rest) => runs = rest,
                None => return Err(left),
            }
        }
    }
}

/// Whether the entry of this slot, at this tick, is by the caller of the run, in its last tick and next behind it.
fn follows_run(run: &QuietRun, tick: u32, slot: &Slot) -> bool
    ensures { result ≡ model_follows run.now tick slot.now }
{
    is_same(run.caller, slot.caller)
        && u128::from(slot.number) == u128::from(run.number) + u128::from(run.more) + 1
        && u64::from(tick) == u64::from(run.tick) + u64::from(run.more)
}

/// The run with the Control behind it, where the slot at this tick is one.
fn paced_by(run: &QuietRun, tick: u32, slot: &Slot) -> Option<PacedRun>
    ensures entries { IfSome result (λ p. (memory : Memory) → run_entries run.now ++ entry_of memory tick slot.now ∷ []
        ≡ paced_entries p) }
    ensures fits { IfSome result IsPacedRun }
    ensures one { IfSome result (λ p. p.more ≡ 0) }
{
    let (CallSlot::Control, ReplySlot::Window { cwnd, ssthresh }) = (slot.call, slot.reply) else {
        return None;
    };
    if !follows_run(run, tick, slot) {
        return None;
    }
    let number = slot.number.checked_add(1)?;
    let tick = tick.checked_add(1)?;
    Some(PacedRun {
        run: *run,
        more: 0,
        cwnd,
        ssthresh,
        number,
        tick,
    })
}

/// The run of quiet ticks and the Control that the stretches end with, where they do and this tick is a later one.
pub fn last_paced(stretches: &[Stretch], tick: u32) -> Option<PacedRun>
    ensures entries { IfSome result (λ p. (memory : Memory) → entries_of memory stretches.now
        ≡ entries_of memory (take (length stretches.now - 2) stretches.now) ++ paced_entries p) }
    ensures two { IfSome result (λ p. 2 ≤ length stretches.now) }
    ensures later { IfSome result (λ p. (memory : Memory) → last_tick 0 (entries_of memory stretches.now) < tick) }
    ensures fits { IfSome result IsPacedRun }
    ensures one { IfSome result (λ p. p.more ≡ 0) }
{
    let count = stretches.len();
    if count < 2 {
        return None;
    }
    match (&stretches[count - 2], &stretches[count - 1]) {
        (Stretch::Quiet(run), Stretch::One { tick: at, slot }) if *at < tick => {
            paced_by(run, *at, slot)
        }
        _ => None,
    }
}

/// Whether the runs `next` are of the same pace as these, and the first of them is their next one.
fn paces_on(runs: &PacedRun, next: &PacedRun) -> bool
    ensures { result ≡ model_on runs.now next.now }
{
    is_same(runs.run.caller, next.run.caller)
        && runs.run.more == next.run.more
        && runs.cwnd == next.cwnd
        && runs.ssthresh == next.ssthresh
        && runs.number == next.run.number
        && runs.tick == next.run.tick
}

/// The runs and the one behind them as one, where that is of their pace and the next one.
fn joined(runs: &PacedRun, next: &PacedRun) -> Option<PacedRun>
    requires runs { IsPacedRun runs.now }
    requires next { IsPacedRun next.now }
    requires one { next.now.more ≡ 0 }
    ensures entries { IfSome result (λ p. paced_entries runs.now ++ paced_entries next.now ≡ paced_entries p) }
    ensures fits { IfSome result IsPacedRun }
{
    if !paces_on(runs, next) {
        return None;
    }
    let more = runs.more.checked_add(1)?;
    Some(PacedRun {
        more,
        number: next.number,
        tick: next.tick,
        ..*runs
    })
}

/// The runs that the stretches end with and the one behind them as one, where that is of their pace and the next one.
pub fn joined_last(stretches: &[Stretch], next: &PacedRun) -> Option<PacedRun>
    requires placed { ArePlaced stretches.now }
    requires next { IsPacedRun next.now }
    requires one { next.now.more ≡ 0 }
    ensures entries { IfSome result (λ p. (memory : Memory)
        → entries_of memory stretches.now ++ paced_entries next.now
        ≡ entries_of memory (take (length stretches.now - 1) stretches.now) ++ paced_entries p) }
    ensures any { IfSome result (λ p. 1 ≤ length stretches.now) }
    ensures fits { IfSome result IsPacedRun }
{
    match stretches.last() {
        Some(Stretch::Paced(runs)) => joined(runs, next),
        _ => None,
    }
}
