//! A run of quiet ticks.

ghost use Rattle.std.specs.Prelude.{◌≡◌, ℕ, ◌+◌, ◌*◌, ◌^◌, ◌≤◌, ◌<◌, ◌++◌, ◌∷◌, [], List, length, true, false};
ghost use Rattle.std.specs.Prelude.{◌-◌, take};
ghost use Rattle.std.specs.Prelude.{slice_get, Some, vec_len, vec_capacity, IsTrue, IsFalse};
ghost use Rattle.tas_model.specs.LegalHistory.{last_tick};
ghost use Rattle.flow_state.specs.Arena.{Memory};
ghost use Rattle.flow_state.specs.Slots.{IsWithin, entry_of};
ghost use Rattle.flow_state.specs.Stretches.{AllWithin, entries_of, entries_in, StretchWithin, IsRun};
ghost use Rattle.flow_state.specs.Stretches.{is_quiet_tick as model_quiet, comes_next as model_next};
ghost use Rattle.flow_state.specs.Stretches.{quiet_tick, AddedTick, AddedTicks, goes_on as model_goes_on};
ghost use Rattle.flow_state.specs.Stretches.{paced_entries, IsPacedRun, ArePlaced};
ghost use Rattle.flow_state.specs.declared.call.Answer.TheVariants as answers;
ghost use Rattle.flow_state.specs.Calls.{answer_len};

use crate::call::Answer;
use crate::counts::is_same;
use crate::paced::{PacedRun, joined_last, last_paced};
use crate::slot::{CallSlot, ReplySlot, Slot, tick_slot};
use tas_model::Caller;

/// A run of quiet ticks: calls of Tick by one caller that nothing came of, each at the tick after the one before.
#[derive(Clone, Copy, PartialEq, Eq, Debug)]
pub struct QuietRun {
    pub caller: Caller,
    /// The caller's number of the first.
    pub number: u64,
    /// The tick of the first.
    pub tick: u32,
    /// How many more there are.
    pub more: u32,
}

/// Entries that stand together in the record's memory.
#[derive(Clone, Copy)]
pub enum Stretch {
    /// One entry. Its tick stands here, where there is room for it before the slot.
    One { tick: u32, slot: Slot },
    /// Quiet ticks.
    Quiet(QuietRun),
    /// Quiet ticks with Controls between them.
    Paced(PacedRun),
}

/// Whether it is the entry of a quiet tick.
fn is_quiet_tick(slot: &Slot) -> bool
    ensures { result ≡ model_quiet slot.now }
{
    matches!((slot.call, slot.reply), (CallSlot::Tick, ReplySlot::Quiet))
}

/// Whether a quiet tick with this caller, number and tick is the next one of the run.
#[inline(always)]
fn comes_next(run: &QuietRun, caller: Caller, number: u64, tick: u32) -> bool
    ensures { result ≡ model_next run.now caller number tick }
{
    is_same(run.caller, caller)
        && u128::from(number) == u128::from(run.number) + u128::from(run.more) + 1
        && u64::from(tick) == u64::from(run.tick) + u64::from(run.more) + 1
}

/// Whether a quiet tick with this caller, number and tick is the next one of the run that the stretches end with.
#[inline(always)]
pub fn goes_on(stretches: &[Stretch], caller: Caller, number: u64, tick: u32) -> bool
    ensures { result ≡ model_goes_on stretches.now caller number tick }
{
    match stretches.last() {
        Some(Stretch::Quiet(run)) => comes_next(run, caller, number, tick),
        _ => false,
    }
}

/// Lengthens the last run by so many quiet ticks, of which the first has this caller, number and tick.
#[inline(always)]
pub fn go_on(stretches: &mut Vec<Stretch>, caller: Caller, number: u64, tick: u32, count: u32)
    requires next { model_goes_on stretches.old.items caller number tick ≡ true }
    requires number { number + count ≤ 2 ^ 64 }
    requires tick { tick + count ≤ 2 ^ 32 }
    ensures added { AddedTicks stretches.old.items stretches.new.items caller number tick count }
    ensures len { vec_len stretches.new ≡ vec_len stretches.old }
    ensures capacity { vec_capacity stretches.new ≡ vec_capacity stretches.old }
{
    let last = stretches.len() - 1;
    let Stretch::Quiet(run) = stretches[last] else {
        unreachable!()
    };
    stretches[last] = Stretch::Quiet(QuietRun {
        more: run.more + count,
        ..run
    });
}

/// Lengthens the last run by a quiet tick, where it is its next one, and tells whether it is.
#[inline(always)]
fn lengthen(stretches: &mut Vec<Stretch>, caller: Caller, number: u64, tick: u32) -> bool
    ensures entries { (memory : Memory) → result ≡ true → entries_of memory stretches.new.items
        ≡ entries_of memory stretches.old.items ++ quiet_tick caller number tick ∷ [] }
    ensures tick { (memory : Memory) → result ≡ true
        → tick ≡ last_tick 0 (entries_of memory stretches.old.items) + 1 }
    ensures within { (n k : ℕ) → AllWithin n k stretches.old.items → AllWithin n k stretches.new.items }
    ensures unmade { result ≡ false → stretches.new ≡ stretches.old }
    ensures len { vec_len stretches.new ≡ vec_len stretches.old }
    ensures capacity { vec_capacity stretches.new ≡ vec_capacity stretches.old }
{
    if !goes_on(stretches, caller, number, tick) {
        return false;
    }
    go_on(stretches, caller, number, tick, 1);
    true
}

/// Adds a stretch behind the others, which have room for it.
fn push(stretches: &mut Vec<Stretch>, stretch: Stretch)
    requires { vec_len stretches.old < vec_capacity stretches.old }
    ensures items { stretches.new.items ≡ stretches.old.items ++ stretch ∷ [] }
    ensures len { vec_len stretches.new ≡ vec_len stretches.old + 1 }
    ensures capacity { vec_capacity stretches.old ≤ vec_capacity stretches.new }
{
    match stretches.push(stretch) {
        Ok(()) => {}
        Err(_) => unreachable!(),
    }
}

/// A run of one quiet tick.
fn first_of(caller: Caller, number: u64, tick: u32) -> QuietRun
    ensures run { result ≡ record { caller = caller; number = number; tick = tick; more = 0 } }
    ensures fits { IsRun result }
{
    QuietRun {
        caller,
        number,
        tick,
        more: 0,
    }
}

/// Adds runs of a pace behind the others, which have room for them: to those before them, where they go on with these.
fn add_paced(stretches: &mut Vec<Stretch>, next: PacedRun)
    requires room { vec_len stretches.old < vec_capacity stretches.old }
    requires placed { ArePlaced stretches.old.items }
    requires next { IsPacedRun next }
    requires one { next.more ≡ 0 }
    ensures entries { (memory : Memory) → entries_of memory stretches.new.items
        ≡ entries_of memory stretches.old.items ++ paced_entries next }
    ensures within { (n k : ℕ) → AllWithin n k stretches.old.items → AllWithin n k stretches.new.items }
    ensures longer { vec_len stretches.old ≤ vec_len stretches.new }
    ensures len { vec_len stretches.new ≤ vec_len stretches.old + 1 }
    ensures capacity { vec_capacity stretches.old ≤ vec_capacity stretches.new }
{
    if let Some(runs) = joined_last(stretches, &next) {
        stretches.pop();
        push(stretches, Stretch::Paced(runs));
    } else {
        push(stretches, Stretch::Paced(next));
    }
}

/// Drops the last two.
fn drop_two(stretches: &mut Vec<Stretch>)
    requires { 2 ≤ length stretches.old.items }
    ensures items { stretches.new.items ≡ take (length stretches.old.items - 2) stretches.old.items }
    ensures len { vec_len stretches.new + 2 ≡ vec_len stretches.old }
    ensures capacity { vec_capacity stretches.new ≡ vec_capacity stretches.old }
{
    stretches.pop();
    stretches.pop();
}

/// Where the others end with a run of quiet ticks and a Control in its last tick, and this tick is a later one, both
/// become one stretch, or part of the one before.
fn close_run(stretches: &mut Vec<Stretch>, tick: u32)
    requires placed { ArePlaced stretches.old.items }
    ensures entries { (memory : Memory) → entries_of memory stretches.new.items
        ≡ entries_of memory stretches.old.items }
    ensures within { (n k : ℕ) → AllWithin n k stretches.old.items → AllWithin n k stretches.new.items }
    // At most two stretches go, and where one does a tick passed.
    ensures few { (memory : Memory) → last_tick 0 (entries_of memory stretches.old.items) ≤ tick
        → vec_len stretches.old + 2 * last_tick 0 (entries_of memory stretches.old.items)
        ≤ vec_len stretches.new + 2 * tick }
    ensures len { vec_len stretches.new ≤ vec_len stretches.old }
    ensures capacity { vec_capacity stretches.old ≤ vec_capacity stretches.new }
{
    if let Some(run) = last_paced(stretches, tick) {
        drop_two(stretches);
        add_paced(stretches, run);
    }
}

/// Adds a quiet tick behind the others, which have room for one: to the run before it, where it is the next of that.
fn add_quiet(stretches: &mut Vec<Stretch>, caller: Caller, number: u64, tick: u32)
    requires room { vec_len stretches.old < vec_capacity stretches.old }
    requires placed { ArePlaced stretches.old.items }
    ensures entries { (memory : Memory) → entries_of memory stretches.new.items
        ≡ entries_of memory stretches.old.items ++ quiet_tick caller number tick ∷ [] }
    ensures within { (n k : ℕ) → AllWithin n k stretches.old.items → AllWithin n k stretches.new.items }
    ensures few { (memory : Memory) → last_tick 0 (entries_of memory stretches.old.items) ≤ tick
        → vec_len stretches.old + 2 * last_tick 0 (entries_of memory stretches.old.items) + 1
        ≤ vec_len stretches.new + 2 * tick }
    ensures len { vec_len stretches.new ≤ vec_len stretches.old + 1 }
    ensures capacity { vec_capacity stretches.old ≤ vec_capacity stretches.new }
{
    if !lengthen(stretches, caller, number, tick) {
        close_run(stretches, tick);
        push(stretches, Stretch::Quiet(first_of(caller, number, tick)));
    }
}

/// Adds an entry at this tick behind the others, which have room for one.
pub fn add(stretches: &mut Vec<Stretch>, tick: u32, slot: &Slot)
    requires room { vec_len stretches.old < vec_capacity stretches.old }
    requires placed { ArePlaced stretches.old.items }
    ensures entries { (memory : Memory) → entries_of memory stretches.new.items ≡ entries_of memory stretches.old.items
        ++ entry_of memory tick slot.now ∷ [] }
    ensures within { (n k : ℕ) → AllWithin n k stretches.old.items → IsWithin n k slot.now
        → AllWithin n k stretches.new.items }
    // Where no stretch came to the others, a tick passed, and also where one went.
    ensures few { (memory : Memory) → last_tick 0 (entries_of memory stretches.old.items) ≤ tick
        → vec_len stretches.old + 2 * last_tick 0 (entries_of memory stretches.old.items) + 1
        ≤ vec_len stretches.new + 2 * tick }
    ensures len { vec_len stretches.new ≤ vec_len stretches.old + 1 }
    ensures capacity { vec_capacity stretches.old ≤ vec_capacity stretches.new }
{
    if is_quiet_tick(slot) {
        add_quiet(stretches, slot.caller, slot.number, tick);
    } else {
        push(stretches, Stretch::One { tick, slot: *slot });
    }
}

/// Adds the entry of a Tick that was answered so, without bytes, behind the others, which have room for one.
pub fn add_tick(
    stretches: &mut Vec<Stretch>,
    caller: Caller,
    number: u64,
    tick: u32,
    answer: &Answer,
)
    requires room { vec_len stretches.old < vec_capacity stretches.old }
    requires placed { ArePlaced stretches.old.items }
    requires bare { answer_len answer.now ≡ 0 }
    ensures added { AddedTick stretches.old.items stretches.new.items caller number tick answer.now }
    ensures len { vec_len stretches.new ≤ vec_len stretches.old + 1 }
    ensures capacity { vec_capacity stretches.old ≤ vec_capacity stretches.new }
{
    match answer {
        Answer::Quiet => add_quiet(stretches, caller, number, tick),
        _ => add(stretches, tick, &tick_slot(caller, number, answer)),
    }
}
