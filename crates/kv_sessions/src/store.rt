//! The store of a server's sessions.

ghost use Rattle.std.specs.Prelude.{◌≡◌, IsOk, IfOk, OnOk, OnErr, option_map, option_copied};
ghost use Rattle.std.specs.FinMap as map;
ghost use Rattle.kv_sessions.specs.Shown.{item_of};

use std::alloc::{AllocError, Global};
use std::collections::HashMap;
use std::marker::Model;

/// What a set stores at its key.
#[derive(Drop)]
pub(crate) struct Held {
    pub flags: u32,
    pub bytes: Vec<u8>,
}

/// What the sessions of a server share: a map from keys to flags and data.
#[derive(Drop)]
pub struct Store {
    held: HashMap<Vec<u8>, Held>,
}

impl Model for Store {
    ghost use Rattle.kv_sessions.specs.Stored.{Map, map_code};

    ghost Value = { Map };

    ghost coded = { map_code };

    ghost use Rattle.kv_sessions.specs.Shown.{map_of};

    ghost view = { λ s. map_of s.held.entries };
}

impl Store {
    /// A store that holds no key. It takes no memory, and never fails.
    pub fn new(alloc: Global) -> Result<Store, AllocError>
        ensures made { IsOk result }
        ensures empty { IfOk result (λ store. store ≡ map.empty) }
    {
        Ok(Store {
            held: HashMap::new(alloc),
        })
    }

    /// How many keys are held.
    pub(crate) fn len(&self) -> usize
        ensures { result ≡ map.len self.now }
    {
        self.held.len()
    }

    /// What is held at a key.
    pub(crate) fn get(&self, key: &[u8]) -> Option<&Held>
        ensures { option_map item_of (option_copied result) ≡ map.get self.now key.now }
    {
        self.held.get(key)
    }

    /// Holds this at a key from now on. The error is want of memory, and then nothing changed.
    pub(crate) fn put(&mut self, key: Vec<u8>, held: Held) -> Result<(), AllocError>
        ensures put { OnOk result (self.new ≡ map.insert self.old key.items (item_of held)) }
        ensures err { OnErr result (self.new ≡ self.old) }
    {
        self.held.insert(key, held)?;
        Ok(())
    }

    /// Forgets a key.
    pub(crate) fn remove(&mut self, key: &[u8])
        ensures { self.new ≡ map.remove self.old key.now }
    {
        self.held.remove(key);
    }
}
