//! Numbers whose places are found by a map.
ghost use Rattle.std.specs.Prelude.{◌≡◌, ℕ, ◌+◌, ◌<◌, ◌≤◌, ◌==◌, ◌++◌, ◌∷◌, [], true, length, max, nat_eq, remove};
ghost use Rattle.std.specs.Prelude.{OnOk, OnErr, IsOk, position};
ghost use Rattle.std.specs.HashMap.{get, hash_map_len, spare};
ghost use Rattle.app_reaper.specs.Numbers.{is_number, or_place};

use std::alloc::{AllocError, Global};
use std::collections::HashMap;
use std::marker::Model;

/// Numbers in the order in which they were put. Where one stands first is found by a map, however many there are; but
/// after one was taken out by a walk, until `index` is called.
#[derive(Drop)]
pub struct NumberList {
    numbers: Vec<u32>,
    /// Where each number stands first; empty where the list isn't indexed.
    places: HashMap<u32, usize>,
    is_indexed: bool,
    /// How many numbers the list takes without memory.
    room: usize,
}

impl Model for NumberList {
    ghost use Rattle.std.specs.Prelude.{ℕ, ◌-◌, nat_eq, vec_len, vec_capacity};
    ghost use Rattle.std.specs.HashMap.{get, hash_map_len, spare};
    ghost use Rattle.app_reaper.specs.Lists.{Roomy};
    ghost use Rattle.app_reaper.specs.Numbers.{AreNumbers};

    ghost Value = { Roomy ℕ };

    ghost view = { λ l. record { list = l.numbers.items; spare = l.room - vec_len l.numbers } };

    ghost invariant = { λ l. AreNumbers l.numbers.items l.is_indexed l.room (vec_capacity l.numbers)
        (get nat_eq l.places) (hash_map_len l.places) (spare l.places) };
}

impl NumberList {
    /// No numbers. It takes no memory.
    pub fn new(alloc: Global) -> NumberList
        ensures list { result.list ≡ [] }
        ensures spare { result.spare ≡ 0 }
    {
        NumberList {
            numbers: Vec::new(alloc),
            places: HashMap::new(alloc),
            is_indexed: true,
            room: 0,
        }
    }

    /// Makes room for one number more, where there is none. The error is want of memory.
    pub fn reserve(&mut self) -> Result<(), AllocError>
        ensures list { self.new.list ≡ self.old.list }
        ensures room { OnOk result (self.new.spare ≡ max 1 self.old.spare) }
        ensures err { OnErr result (self.new ≡ self.old) }
        ensures spare { 0 < self.old.spare → IsOk result }
    {
        let len = self.numbers.len();
        if len < self.room {
            return Ok(());
        }
        self.numbers.reserve(1)?;
        self.places.reserve(1 + len - self.places.len())?;
        self.room = len + 1;
        Ok(())
    }

    /// Appends a number.
    pub fn put(&mut self, number: u32)
        requires room { 0 < self.old.spare }
        ensures list { self.new.list ≡ self.old.list ++ number ∷ [] }
        ensures spare { self.new.spare + 1 ≡ self.old.spare }
    {
        if !self.is_indexed {
            self.numbers.push_reserved(number);
            return;
        }
        note(&mut self.places, number, self.numbers.len());
        self.numbers.push_reserved(number);
    }

    /// The place of the first one that is this number, counted from 0; `None` exactly where there is none.
    pub fn place_of(&self, number: u32) -> Option<usize>
        ensures { result ≡ position (is_number number) self.now.list }
    {
        if self.is_indexed {
            return self.places.get(&number).copied();
        }
        self.numbers.iter().position(|n| *n == number)
    }

    /// Takes the number at a place out, counted from 0. Places are then found by walks.
    pub fn remove(&mut self, i: usize)
        requires { i < length self.old.list }
        ensures list { self.new.list ≡ remove self.old.list i }
        ensures spare { self.new.spare ≡ self.old.spare + 1 }
    {
        self.numbers.remove(i);
        if self.is_indexed {
            self.places.clear();
            self.is_indexed = false;
        }
    }

    /// Places are found by the map from now on. It looks at each number once, where one was taken out before.
    pub fn index(&mut self)
        ensures { self.new ≡ self.old }
    {
        if self.is_indexed {
            return;
        }
        note_all(&mut self.places, &self.numbers);
        self.is_indexed = true;
    }
}

/// Notes the place of one number more, where none is noted for it.
fn note(places: &mut HashMap<u32, usize>, number: u32, place: usize)
    requires room { 0 < spare places.old }
    ensures places { (n : ℕ) → get nat_eq places.new n ≡ or_place (get nat_eq places.old n) (number == n) place }
    ensures few { hash_map_len places.new ≤ hash_map_len places.old + 1 }
    ensures room { hash_map_len places.old + spare places.old ≤ hash_map_len places.new + spare places.new }
{
    if places.contains_key(&number) {
        return;
    }
    match places.insert(number, place) {
        Ok(_) => {}
        Err(_) => unreachable!(),
    }
}

/// Notes the first places of these numbers, and no others.
fn note_all(places: &mut HashMap<u32, usize>, numbers: &Vec<u32>)
    requires room { length numbers.now.items ≤ hash_map_len places.old + spare places.old }
    ensures places { (n : ℕ) → get nat_eq places.new n ≡ position (is_number n) numbers.now.items }
    ensures few { hash_map_len places.new ≤ length numbers.now.items }
    ensures room { hash_map_len places.old + spare places.old ≤ hash_map_len places.new + spare places.new }
{
    places.clear();
    for place in 0..numbers.len() {
        note(places, numbers[place], place);
    }
}
