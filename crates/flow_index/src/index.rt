//! The index of flows by their four-tuples: one writer, and readers that never hold it up.

ghost use Rattle.std.specs.Prelude.{◌≡◌, ◌<◌, ◌+◌, [], ◌∷◌, ◌++◌, IfOk, IsOk, OnOk, OnErr, drop};
ghost use Rattle.left_right.specs.Sides.{view};
ghost use Rattle.flow_index.specs.declared.change.Change.TheVariants.{Put, Remove};
ghost use Rattle.flow_index.specs.Changes.{Begins, AnswerAlike, found_after};
ghost use Rattle.flow_index.specs.Published.{newcomer, IsMadeBy, Shows};

use crate::change::{Change, Found};
use crate::order::{Look, Order, Sight};
use crate::store::Store;
use core::mem::replace_with;
use left_right::reader::{Factory, Reader};
use left_right::writer::Writer;
use std::alloc::{AllocError, Global};
use std::collections::BTreeMap;
use std::marker::Model;
use std::sync::Wait;
use tas_model::{FlowId, FourTuple};

type StoreWriter = Writer<Store, Change, Sight, Order>;

type StoreReader = Reader<Store, Sight, Order>;

/// The one writer of an index. Its changes are pending until they are published.
///
/// It is seen as the changes that are published, those that are pending, and how many readers may still be made.
/// It is no `Drop`: `end` it.
pub struct IndexWriter {
    writer: StoreWriter,
    left: u32,
}

impl Model for IndexWriter {
    ghost use Rattle.std.specs.Prelude.{◌≡◌, drop};
    ghost use Rattle.flow_index.specs.Changes.{Writing, writing};
    ghost use Rattle.flow_index.specs.Entries.{entries_of};

    ghost Value = { Writing };

    ghost view = { λ w. writing w.writer.desk.place.me.0.client.seen (drop w.writer.behind w.writer.log.items) w.left };

    ghost invariant = { λ w. w.writer.desk.shown.value.map.entries ≡ entries_of w.writer.desk.place.me.0.client.seen };
}

/// A reader of an index, for one thread. It is seen as the published changes that it has seen, the oldest first.
#[derive(Drop)]
pub struct IndexReader {
    reader: StoreReader,
}

impl Model for IndexReader {
    ghost use Rattle.std.specs.Prelude.{List};
    ghost use Rattle.flow_index.specs.declared.change.Change.{Change};

    ghost Value = { List Change };

    ghost view = { λ r. r.reader.place.me.0.client.seen };
}

// Where the board refuses a place it is asked again.
fn sit_down<R: Wait>(rt: &R, factory: &Factory<Store, Sight, Order>) -> StoreReader
    ensures { view result.place ≡ newcomer }
{
    for _ in rt.forever() {
        if let Ok(reader) = factory.reader() {
            return reader;
        }
    }
    unreachable!()
}

fn publish_all<R: Wait>(rt: &R, writer: StoreWriter) -> (StoreWriter, Result<(), AllocError>)
    ensures later { Begins (view writer.desk.place).seen (view result.0.desk.place).seen }
    ensures published { IsMadeBy writer.desk.shown.value (view writer.desk.place)
        → OnOk result.1
        (Shows (view writer.desk.place) (drop writer.behind writer.log.items) (view result.0.desk.place)) }
    ensures pending { OnOk result.1 (drop result.0.behind result.0.log.items ≡ []) }
    ensures seen { OnErr result.1 (view result.0.desk.place ≡ view writer.desk.place) }
    ensures kept { OnErr result.1 (drop result.0.behind result.0.log.items ≡ drop writer.behind writer.log.items) }
    ensures made { IsMadeBy writer.desk.shown.value (view writer.desk.place)
        → IsMadeBy result.0.desk.shown.value (view result.0.desk.place) }
{
    writer.publish_as::<Look, R>(rt)
}

impl IndexWriter {
    /// The writer of an empty index, for at most so many readers, which is at least 1. The error is want of memory.
    pub fn new(alloc: Global, readers: u32) -> Result<IndexWriter, AllocError>
        requires readers { 0 < readers }
        ensures empty { IfOk result (λ w. w.published ≡ []) }
        ensures pending { IfOk result (λ w. w.pending ≡ []) }
        ensures left { IfOk result (λ w. w.left ≡ readers) }
    {
        let first = Store {
            map: BTreeMap::new(alloc),
        };
        let second = Store {
            map: BTreeMap::new(alloc),
        };
        let writer = StoreWriter::new(alloc, first, second, readers as usize)?;
        Ok(IndexWriter {
            writer,
            left: readers,
        })
    }

    /// A further reader, which has seen nothing yet; `new` was told of more readers than were made before.
    /// It takes no memory, and never fails.
    pub fn reader<R: Wait>(&mut self, rt: &R) -> Result<IndexReader, AllocError>
        requires left { 0 < self.old.left }
        ensures made { IsOk result }
        ensures new { IfOk result (λ reader. reader ≡ []) }
        ensures kept { (self.new.published ≡ self.old.published) × (self.new.pending ≡ self.old.pending) }
        ensures left { self.new.left + 1 ≡ self.old.left }
    {
        let reader = sit_down(rt, self.writer.factory());
        self.left -= 1;
        Ok(IndexReader { reader })
    }

    /// Gives the four-tuple to a flow, once it is published. The error is want of memory, and changes nothing.
    pub fn put(&mut self, t: FourTuple, id: FlowId) -> Result<(), AllocError>
        ensures published { (self.new.published ≡ self.old.published) × (self.new.left ≡ self.old.left) }
        ensures pending { OnOk result (self.new.pending ≡ self.old.pending ++ Put t id ∷ []) }
        ensures err { OnErr result (self.new.pending ≡ self.old.pending) }
    {
        self.writer
            .append(Change::Put(t, id))
            .map_err(|_| AllocError)
    }

    /// Takes the four-tuple from its flow, once it is published. The error is want of memory, and changes nothing.
    pub fn remove(&mut self, t: FourTuple) -> Result<(), AllocError>
        ensures published { (self.new.published ≡ self.old.published) × (self.new.left ≡ self.old.left) }
        ensures pending { OnOk result (self.new.pending ≡ self.old.pending ++ Remove t ∷ []) }
        ensures err { OnErr result (self.new.pending ≡ self.old.pending) }
    {
        self.writer
            .append(Change::Remove(t))
            .map_err(|_| AllocError)
    }

    /// Shows readers all pending changes at once. It waits for those that still read the older of its two copies.
    /// The error is want of memory, and leaves what was published and what is pending.
    pub fn publish<R: Wait>(&mut self, rt: &R) -> Result<(), AllocError>
        ensures later { Begins self.old.published self.new.published }
        ensures published { OnOk result (AnswerAlike self.new.published (self.old.published ++ self.old.pending)) }
        ensures pending { OnOk result (self.new.pending ≡ []) }
        ensures err { OnErr result ((self.new.published ≡ self.old.published) × (self.new.pending ≡ self.old.pending)) }
        ensures left { self.new.left ≡ self.old.left }
    {
        replace_with(&mut self.writer, rt, |writer, rt| publish_all(rt, writer))
    }

    /// Ends the writer. It waits for the readers that read; those that look later wait for ever.
    pub fn end<R: Wait>(self, rt: &R) {
        let IndexWriter { writer, left: _ } = self;
        drop(writer.take(rt));
    }
}

fn find_by<R: Wait>(rt: &R, reader: IndexReader, t: FourTuple) -> (IndexReader, Found)
    ensures later { Begins reader result.0 }
    ensures found { result.1 ≡ found_after t result.0 }
{
    let IndexReader { mut reader } = reader;
    for _ in rt.forever() {
        match reader.enter_as::<Look>() {
            Ok(reading) => {
                let found = reading.get().find(t);
                let reader = reading.leave();
                return (IndexReader { reader }, found);
            }
            Err(back) => reader = back,
        }
    }
    unreachable!()
}

impl IndexReader {
    /// The answer for a four-tuple after some published changes, which begin with all that this reader had seen.
    pub fn find<R: Wait>(&mut self, rt: &R, t: FourTuple) -> Found
        ensures later { Begins self.old self.new }
        ensures found { result ≡ found_after t self.new }
    {
        replace_with(self, rt, |reader, rt| find_by(rt, reader, t))
    }
}
