//! Scripts that only wait sleep.

ghost use Rattle.std.specs.Prelude.{◌≡◌, ◌<◌, ◌≤◌, ◌+◌, false, [], length, slice_get, unwrap_or, IfOk, OnOk};
ghost use Rattle.scenario_host.specs.Resting.{IsLongerThan, MayRest, rested, seen, AreResting, awake_from};
ghost use Rattle.scenario_host.specs.Resting.{scripts_in, AreKept};

use crate::script::AppScript;
use scenario_text::Step;
use std::alloc::{AllocError, Global};

/// A script sleeps where it may rest for so many turns at least, and all scripts are looked at no more often.
pub const LEAST_REST: u32 = 16;

/// The scripts of a host, of which those that only wait, or have ended, sleep: no turn looks at them.
#[derive(Drop)]
pub struct AppScripts<'a> {
    pub items: Vec<AppScript<'a>>,
    /// Whether each of them sleeps; those behind the last mark don't.
    pub asleep: Vec<bool>,
    /// The places of those that don't, from the first one on.
    pub awake: Vec<usize>,
    /// So many turns passed since all were looked at: the sleepers' own are still to be counted.
    pub passed: u32,
    /// Before so many turns no sleeper goes on.
    pub turns: u32,
}

impl<'a> AppScripts<'a> {
    /// None of them sleeps yet. It takes no memory.
    pub fn new(alloc: Global, items: Vec<AppScript<'a>>) -> AppScripts<'a>
        ensures items { result.items.items ≡ items.entry.items }
        ensures seen { scripts_in result ≡ items.entry.items }
        ensures kept { AreKept result }
    {
        AppScripts {
            items,
            asleep: Vec::new(alloc),
            awake: Vec::new(alloc),
            passed: 0,
            turns: 0,
        }
    }

    /// All are awake, and their turns counted.
    pub fn wake_all(&mut self)
        requires { AreKept self.old }
        ensures items { self.new.items.items ≡ scripts_in self.old }
        ensures seen { scripts_in self.new ≡ scripts_in self.old }
        ensures asleep { self.new.asleep.items ≡ [] }
        ensures awake { self.new.awake.items ≡ [] }
        ensures passed { self.new.passed ≡ 0 }
        ensures turns { self.new.turns ≡ 0 }
    {
        count_turns(
            &mut self.items,
            self.asleep.as_slice(),
            self.passed,
            self.turns,
        );
        self.asleep.clear();
        self.awake.clear();
        self.passed = 0;
        self.turns = 0;
    }

    /// All are looked at, where one goes on or may fall asleep. The error is want of memory.
    pub fn look_where_due(&mut self) -> Result<(), AllocError>
        requires { AreKept self.old }
        ensures seen { OnOk result (scripts_in self.new ≡ scripts_in self.old) }
        ensures kept { OnOk result (AreKept self.new) }
        ensures turns { OnOk result (self.new.passed < self.new.turns) }
    {
        if self.passed == self.turns {
            self.look_at_all()
        } else {
            Ok(())
        }
    }

    /// A turn of all is over, after which one may fall asleep: it does where all were not looked at for a while.
    pub fn end_turn(&mut self, one_rests: bool)
        requires kept { AreKept self.old }
        requires turns { self.old.passed < self.old.turns }
        ensures seen { scripts_in self.new ≡ seen (self.old.passed + 1) self.old.asleep.items self.old.items.items }
        ensures kept { AreKept self.new }
    {
        let _turns = self.turns;
        self.passed += 1;
        if one_rests && self.passed >= LEAST_REST {
            self.turns = self.passed;
        }
    }

    /// All are looked at: which of them sleep from now on, and for how many turns. The error is want of memory.
    fn look_at_all(&mut self) -> Result<(), AllocError>
        requires { AreKept self.old }
        ensures seen { OnOk result (scripts_in self.new ≡ scripts_in self.old) }
        ensures kept { OnOk result (AreKept self.new) }
        ensures turns { OnOk result (self.new.passed < self.new.turns) }
    {
        self.wake_all();
        self.turns = mark_all(self.items.as_slice(), &mut self.asleep, &mut self.awake)?;
        Ok(())
    }
}

impl AppScript<'_> {
    /// For how many turns it may rest.
    pub fn rest(&self) -> u32
        ensures { 0 < result → MayRest result self.now }
    {
        if self.is_to_be_killed() {
            return 0;
        }
        match self.left() {
            [] => u32::MAX,
            [Step::Wait(ticks), ..] => ticks.saturating_sub(self.done()).saturating_sub(1),
            _ => 0,
        }
    }

    /// It rested for so many turns.
    fn rest_for(&mut self, turns: u32)
        requires { IsLongerThan self.old.left (self.old.done + turns) }
        ensures { self.new ≡ rested turns self.old }
    {
        if let [Step::Wait(ticks), ..] = self.left() {
            let _ticks = *ticks;
            self.go_on(false, self.done() + turns);
        }
    }
}

/// The turns in which the sleepers rested are counted, where they rest for no fewer.
fn count_turns(scripts: &mut Vec<AppScript<'_>>, asleep: &[bool], passed: u32, turns: u32)
    requires resting { AreResting turns asleep.now scripts.old.items }
    requires bound { passed ≤ turns }
    ensures { scripts.new.items ≡ seen passed asleep.now scripts.old.items }
{
    for (place, script) in scripts.iter_mut().enumerate() {
        if is_marked(asleep, place) {
            script.rest_for(passed);
        }
    }
}

/// Whether the script at a place sleeps.
fn is_marked(asleep: &[bool], place: usize) -> bool
    ensures { result ≡ unwrap_or (slice_get asleep.now place) false }
{
    match asleep.get(place) {
        Some(marked) => *marked,
        None => false,
    }
}

/// Marks the scripts that sleep from now on, and lists the others. The answer is how many turns the sleepers rest. The
/// error is want of memory.
fn mark_all(
    scripts: &[AppScript<'_>],
    asleep: &mut Vec<bool>,
    awake: &mut Vec<usize>,
) -> Result<u32, AllocError>
    requires asleep { asleep.old.items ≡ [] }
    requires awake { awake.old.items ≡ [] }
    ensures resting { IfOk result (λ turns. AreResting turns asleep.new.items scripts.now) }
    ensures turns { IfOk result (λ turns. 0 < turns) }
    ensures marks { OnOk result (length asleep.new.items ≡ length scripts.now) }
    ensures places { OnOk result (awake.new.items ≡ awake_from 0 asleep.new.items) }
{
    let mut turns = u32::MAX;
    for (place, script) in scripts.iter().enumerate() {
        let rest = script.rest();
        let sleeps = rest >= LEAST_REST;
        asleep.push(sleeps)?;
        if sleeps {
            turns = turns.min(rest);
        } else {
            awake.push(place)?;
        }
    }
    Ok(turns)
}
