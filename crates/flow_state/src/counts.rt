//! How many entries each caller has made.

ghost use Rattle.std.specs.Prelude.{◌≡◌, ℕ, ◌+◌, ◌-◌, ◌^◌, ◌<◌, ◌≤◌, if◌then◌else◌, vec_len, vec_capacity, position};
ghost use Rattle.std.specs.Prelude.{IfOk, IsOk, OnOk};
ghost use Rattle.tas_model.specs.declared.entry.Caller.{Caller};
ghost use Rattle.tas_model.specs.declared.entry.Caller.TheVariants.{Slow};
ghost use Rattle.tas_model.specs.LegalHistory.{same_caller};
ghost use Rattle.flow_state.specs.Counts.{counted_for, is_for};

use std::alloc::{AllocError, Global};
use std::marker::Model;
use tas_model::Caller;

/// How many of a flow's entries a caller has made.
#[derive(Clone, Copy)]
pub struct CallerCount {
    pub caller: Caller,
    pub made: u64,
}

/// Whether they are one caller.
pub fn is_same(one: Caller, other: Caller) -> bool
    ensures { result ≡ same_caller one other }
{
    match (one, other) {
        (Caller::Slow, Caller::Slow) => true,
        (Caller::Core(k), Caller::Core(j)) => k == j,
        (Caller::App(k), Caller::App(j)) => k == j,
        _ => false,
    }
}

/// Where the caller's count stands. A flow has few callers.
fn place_of(counts: &[CallerCount], caller: Caller) -> Option<usize>
    ensures { result ≡ position (is_for caller) counts.now }
{
    counts
        .iter()
        .position(|count| is_same(count.caller, caller))
}

/// How many entries the caller has made, by these counts.
fn number_in(counts: &[CallerCount], caller: Caller) -> u64
    ensures { result ≡ counted_for caller counts.now }
{
    match place_of(counts, caller) {
        Some(i) => counts[i].made,
        None => 0,
    }
}

/// Counts one entry more of the caller among these.
fn count_in(counts: &mut Vec<CallerCount>, caller: Caller)
    requires small { counted_for caller counts.old.items < 2 ^ 64 - 1 }
    requires room { vec_len counts.old < vec_capacity counts.old }
    ensures counted { (other : Caller)
        → counted_for other counts.new.items ≡ counted_for other counts.old.items + (if same_caller caller other then 1
        else 0) }
    ensures size { vec_len counts.new ≤ vec_len counts.old + 1 }
    ensures capacity { vec_capacity counts.old ≤ vec_capacity counts.new }
{
    match place_of(counts, caller) {
        Some(i) => counts[i].made += 1,
        None => match counts.push(CallerCount { caller, made: 1 }) {
            Ok(()) => {}
            Err(_) => unreachable!(),
        },
    }
}

/// How many of a flow's entries each caller has made. The slow path makes one in each tick: its count stands in place,
/// so that a quiet tick looks for no other memory.
#[derive(Drop)]
pub struct CallerCounts {
    slow: u64,
    others: Vec<CallerCount>,
}

impl Model for CallerCounts {
    ghost use Rattle.std.specs.Prelude.{◌-◌, vec_len, vec_capacity};
    ghost use Rattle.flow_state.specs.Counts.{Counted, with_slow};

    ghost Value = { Counted };

    ghost view = { λ c. record {
      counts = with_slow c.slow c.others.items;
      spare = vec_capacity c.others - vec_len c.others;
    } };
}

impl CallerCounts {
    /// The counts of one entry. The error is want of memory.
    pub fn of_first(alloc: Global, caller: Caller) -> Result<CallerCounts, AllocError>
        ensures { IfOk result (λ c. (other : Caller)
            → counted_for other c.counts ≡ (if same_caller caller other then 1 else 0)) }
    {
        let mut others = Vec::new(alloc);
        if let Caller::Slow = caller {
            return Ok(CallerCounts { slow: 1, others });
        }
        others.push(CallerCount { caller, made: 1 })?;
        Ok(CallerCounts { slow: 0, others })
    }

    /// Makes room for the counts of so many callers more. The error is want of memory, and leaves all as it was.
    pub fn reserve(&mut self, more: usize) -> Result<(), AllocError>
        ensures counts { self.new.counts ≡ self.old.counts }
        ensures room { OnOk result (more ≤ self.new.spare) }
        ensures longer { self.old.spare ≤ self.new.spare }
        ensures spare { more ≤ self.old.spare → IsOk result }
    {
        self.others.reserve(more)
    }

    /// Gives back the room that no count needs.
    pub fn trim(&mut self)
        ensures { self.new.counts ≡ self.old.counts }
    {
        self.others.shrink_to_fit();
    }

    /// How many entries the caller has made.
    pub fn number_of(&self, caller: Caller) -> u64
        ensures { result ≡ counted_for caller self.now.counts }
    {
        match caller {
            Caller::Slow => self.slow,
            _ => number_in(&self.others, caller),
        }
    }

    /// How many entries the slow path has made.
    pub fn slow(&self) -> u64
        ensures { result ≡ counted_for Slow self.now.counts }
    {
        self.slow
    }

    /// Counts so many entries more of the slow path, whose count has its place.
    pub fn count_slow(&mut self, count: u32)
        requires small { counted_for Slow self.old.counts + count < 2 ^ 64 }
        ensures counted { (other : Caller)
            → counted_for other self.new.counts ≡ counted_for other self.old.counts + (if same_caller Slow other then
            count else 0) }
        ensures spare { self.new.spare ≡ self.old.spare }
    {
        self.slow += u64::from(count);
    }

    /// Counts one entry more of the caller.
    pub fn count_one(&mut self, caller: Caller)
        requires small { counted_for caller self.old.counts < 2 ^ 64 - 1 }
        requires room { 0 < self.old.spare }
        ensures counted { (other : Caller)
            → counted_for other self.new.counts ≡ counted_for other self.old.counts + (if same_caller caller other then
            1 else 0) }
        ensures spent { self.old.spare ≤ self.new.spare + 1 }
    {
        match caller {
            Caller::Slow => self.slow += 1,
            _ => count_in(&mut self.others, caller),
        }
    }
}
