//! What a pass knows. It exists in proofs alone: no value of these types is made but of `Mark`.
use crate::word::Word;
use std::collections::LinkedList;
use tas_model::{Entry, FlowId, FourTuple, HostParams};

/// A flow's history: the connection's ends, the parameters that it was opened with, and its entries, the oldest first.
pub struct History {
    pub tuple: FourTuple,
    pub params: HostParams,
    pub entries: LinkedList<Entry>,
}

/// A flow with a history of it.
pub struct Held {
    pub flow: FlowId,
    pub history: History,
}

/// Places of a flow's history, from one up to below another.
pub struct Span {
    pub flow: FlowId,
    pub from: u64,
    pub upto: u64,
}

/// A word that was found at a slot.
pub struct Sight {
    pub slot: u64,
    pub word: Word,
}

/// What the slow path remembers of a slot: how often it was opened, and whether it has a flow, and a doomed one.
#[derive(Clone, Copy, Drop, PartialEq, Eq, Debug)]
pub struct Mark {
    pub generation: u32,
    pub live: bool,
    pub doomed: bool,
}

/// One entry, added to one flow, whose history was the one before.
pub struct Deed {
    pub flow: FlowId,
    pub before: History,
    pub entry: Entry,
}

/// The right to act until the next barrier, with what was done by it: entries in their order, pins won and given up.
pub struct Turn {
    pub name: u64,
    pub deeds: LinkedList<Deed>,
    pub pinned: LinkedList<FlowId>,
    pub unpinned: LinkedList<FlowId>,
}

/// A pass's view.
pub struct View {
    /// How many passes it stands for: 1, for the slow path's all that aren't split off, and 0 once it was joined.
    pub parts: u64,
    /// It is the slow path's, which opens, dooms and frees.
    pub slow: bool,
    pub pins: LinkedList<FlowId>,
    /// The record that it holds, with the history at the take.
    pub held: LinkedList<Held>,
    /// Histories that it has seen, the newest first.
    pub seen: LinkedList<Held>,
    /// Places that it added.
    pub mine: LinkedList<Span>,
    /// What the slow path remembers of each slot.
    pub marks: LinkedList<Mark>,
    /// The slots whose empty value is out with it.
    pub out: LinkedList<u64>,
    /// How many flows it opened.
    pub opened: u64,
    /// How many of its steps were counted, how many changed a word, and what the last two counted ones found.
    pub steps: u64,
    pub moves: u64,
    pub before: LinkedList<Sight>,
    pub found: LinkedList<Sight>,
    pub turns: LinkedList<Turn>,
    /// It has the baton: the one right to give turns, and to act where there is none about. With it go the number of
    /// turns since the last barrier, and the histories and words at it.
    pub baton: bool,
    pub made: u64,
    pub base: LinkedList<Held>,
    pub words: LinkedList<Word>,
}
