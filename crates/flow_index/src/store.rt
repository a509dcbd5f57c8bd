// The map, of which a writer has two copies.
ghost use Rattle.std.specs.Prelude.{◌≡◌};
ghost use Rattle.flow_index.specs.Entries.{key_of, found_in};

use crate::change::{Change, Found};
use left_right::Absorb;
use std::alloc::AllocError;
use std::collections::BTreeMap;
use tas_model::{FlowId, FourTuple};

/// A four-tuple as the map orders it.
#[derive(Clone, Copy, PartialEq, Eq, PartialOrd, Ord)]
pub struct Key {
    pub laddr: u32,
    pub lport: u16,
    pub raddr: u32,
    pub rport: u16,
}

impl Key {
    pub fn of(t: FourTuple) -> Key
        ensures { result ≡ key_of t }
    {
        Key {
            laddr: t.laddr,
            lport: t.lport,
            raddr: t.raddr,
            rport: t.rport,
        }
    }
}

#[derive(Drop)]
pub struct Store {
    pub map: BTreeMap<Key, FlowId>,
}

impl Store {
    pub fn find(&self, t: FourTuple) -> Found
        ensures { result ≡ found_in self.now.map.entries t }
    {
        match self.map.get(&Key::of(t)) {
            Some(flow) => Found::Flow(*flow),
            None => Found::Absent,
        }
    }
}

impl Absorb<Change> for Store {
    ghost use Rattle.flow_index.specs.Entries.{changed};

    // A clause reads an array as a list, of any length.
    type State = [(Key, FlowId); 0];

    ghost state = { λ s. s.map.entries };

    ghost applied = { changed };

    fn absorb_first(&mut self, operation: &Change, _other: &Store) -> Result<(), AllocError> {
        match *operation {
            Change::Put(t, flow) => match self.map.insert(Key::of(t), flow) {
                Ok(_) => Ok(()),
                Err(_) => Err(AllocError),
            },
            Change::Remove(t) => {
                self.map.remove(&Key::of(t));
                Ok(())
            }
        }
    }
}
