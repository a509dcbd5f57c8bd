//! Ticks that a flow sleeps through.

ghost use Rattle.std.specs.Prelude.{◌≡◌, ◌+◌, ◌^◌, ◌<◌, ◌≤◌, true, false, [], IfOk, OnOk};
ghost use Rattle.tas_model.specs.declared.entry.Call.TheVariants as calls;
ghost use Rattle.tas_model.specs.declared.entry.Caller.TheVariants.{Slow};
ghost use Rattle.tas_model.specs.Endpoint.{Endpoint, is_closed};
ghost use Rattle.tas_model.specs.LegalHistory.{replay};
ghost use Rattle.tas_model.specs.Valid.{Valid};
ghost use Rattle.flow_state.specs.Stands.{Stands};
ghost use Rattle.local_host.specs.Live.{flow_in, called};
ghost use Rattle.local_host.specs.Sleep.{IsRested, MaySleep, is_still as model_still, with_ticks, ticked_flow};

use crate::calls::pass_one;
use crate::reading::is_closed;
use flow_state::{FlowRecord, Parts, Stage};
use slow_timeout::{TimerWork, early_ticks};
use std::alloc::AllocError;

/// Ticks that a flow sleeps through. Its record gets them when it wakes.
#[derive(Clone, Copy, Debug)]
pub struct Sleep {
    /// The first tick that the record lacks.
    pub next: u32,
    /// How many it lacks.
    pub missed: u32,
    /// How many more it may sleep through.
    pub left: u32,
}

/// It lacks no tick, and may sleep through none.
pub const AWAKE: Sleep = Sleep {
    next: 0,
    missed: 0,
    left: 0,
};

impl Sleep {
    /// Whether nothing comes of the next tick, or of one that the record lacks.
    pub fn is_asleep(&self) -> bool
        ensures asleep { result ≡ true → 0 < self.now.missed + self.now.left }
        ensures awake { result ≡ false → self.now.missed + self.now.left ≡ 0 }
    {
        self.missed > 0 || self.left > 0
    }

    /// Sleeps through one tick more, and says whether that may be. Else nothing changes.
    pub fn pass(&mut self, tick: u32) -> bool
        ensures some { result ≡ true → 0 < self.old.left }
        ensures next { result ≡ true → self.new.next + self.old.missed ≡ tick }
        ensures first { result ≡ true → 0 < self.old.missed → self.new.next ≡ self.old.next }
        ensures missed { result ≡ true → self.new.missed ≡ self.old.missed + 1 }
        ensures left { result ≡ true → self.new.left + 1 ≡ self.old.left }
        ensures same { result ≡ false → self.new ≡ self.old }
    {
        if self.left == 0 || self.missed == u32::MAX {
            return false;
        }
        if self.missed == 0 {
            self.next = tick;
        } else if tick.checked_sub(self.next) != Some(self.missed) {
            return false;
        }
        self.missed += 1;
        self.left -= 1;
        true
    }
}

/// The record gets the ticks that it lacks. The error is want of memory.
pub fn wake(history: &mut FlowRecord, slept: &Sleep) -> Result<(), AllocError>
    requires { IsRested slept.now (flow_in history.old) }
    ensures { OnOk result (flow_in history.new ≡ ticked_flow slept.now (flow_in history.old)) }
{
    pass_all(history, slept.next, slept.missed)
}

/// So many ticks pass from this one on, of which nothing comes. The error is want of memory.
fn pass_all(history: &mut FlowRecord, next: u32, missed: u32) -> Result<(), AllocError>
    requires far { next + missed ≤ 2 ^ 32 }
    requires rests { 0 < missed → MaySleep (replay history.old.params history.old.entries) missed }
    ensures made { OnOk result (flow_in history.new ≡ with_ticks (flow_in history.old) next missed) }
{
    // Its history is legal.
    let _parts = history.parts();
    let mut done = 0;
    while done < missed {
        done += pass_some(history, next + done, missed - done)?;
    }
    Ok(())
}

/// So many ticks at most, and one at least, pass from this one on for a flow that is not closed: all that lengthen a
/// run, and else one. Answers how many passed. The error is want of memory.
fn pass_some(history: &mut FlowRecord, next: u32, most: u32) -> Result<u32, AllocError>
    requires some { 0 < most }
    requires far { next + most ≤ 2 ^ 32 }
    requires open { is_closed (replay history.old.params history.old.entries) ≡ false }
    ensures made { IfOk result (λ n. flow_in history.new ≡ with_ticks (flow_in history.old) next n) }
    ensures some { IfOk result (λ n. 0 < n) }
    ensures most { IfOk result (λ n. n ≤ most) }
{
    // Its phase tells that it is not.
    let _closed = is_closed(history);
    let passed = history.pass_quietly(next, most, &TimerWork);
    if passed > 0 {
        return Ok(passed);
    }
    pass_next(history, next)?;
    Ok(1)
}

/// A tick passes for a flow that is not closed. The error is want of memory.
fn pass_next(history: &mut FlowRecord, tick: u32) -> Result<(), AllocError>
    requires { is_closed (replay history.old.params history.old.entries) ≡ false }
    ensures { OnOk result (flow_in history.new ≡ called (flow_in history.old) Slow tick calls.Tick []) }
{
    // Its phase tells that it is not.
    let _closed = is_closed(history);
    pass_one(history, tick)
}

/// How long a flow may sleep that is awake.
pub fn rest(history: &FlowRecord) -> Sleep
    ensures rested { IsRested result (flow_in history.now) }
    ensures missed { result.missed ≡ 0 }
{
    let parts = history.parts();
    if !is_still(parts) {
        return AWAKE;
    }
    Sleep {
        next: 0,
        missed: 0,
        left: early_ticks(parts),
    }
}

/// Whether nothing is left to send until something comes or is asked.
fn is_still(parts: &Parts) -> bool
    ensures { (e : Endpoint) → Valid e → Stands parts.now e → result ≡ true → model_still e ≡ true }
{
    match parts.stage() {
        Stage::Opening => parts.nxt.0 != parts.iss.0,
        Stage::Over(_) => false,
        Stage::Running => parts.tx.len() == 0 && !parts.is_shut(),
    }
}
