//! The table is closed, and its records come out.
ghost use Rattle.std.specs.Prelude.{◌≡◌, ◌≢◌, ℕ, ◌+◌, ◌<◌, ◌≤◌, ◌∷◌, [], List, true, MatchOption, map, length, All};
ghost use Rattle.std.specs.Prelude.{IfOk, IfErr, vec_capacity};
ghost use Rattle.std.specs.Vec.Iter.{into_iter_items};
ghost use Rattle.flow_lock.specs.Histories.{history_of};
ghost use Rattle.flow_lock.specs.Passes.{Seen};
ghost use Rattle.flow_lock.specs.Last.{IsLast, flows_from};
ghost use Rattle.flow_lock.specs.Answers.{IsCloseRefused};

use crate::pass::{Pass, SlowPass};
use crate::table::FlowTable;
use std::alloc::Global;
use std::marker::Model;
use std::vec::IntoIter;
use tas_model::Recorded;

/// Why a table wasn't closed.
#[derive(Clone, Copy, PartialEq, Eq, Debug)]
pub enum CloseRefused {
    OutOfMemory,
    /// So many passes aren't joined.
    StillOut(u32),
}

/// The records of a table that was closed, by slots. It is seen as the list of those that are left.
#[derive(Drop)]
pub struct Closed<R: Drop> {
    records: IntoIter<R>,
}

impl<R: Drop> Model for Closed<R> {
    ghost Value = { List R };

    ghost view = { λ c. into_iter_items c.records };
}

impl<R: Drop> Closed<R> {
    /// The next record; `None` exactly where all were handed out.
    pub fn next(&mut self) -> Option<R>
        ensures { MatchOption result ((self.old ≡ []) × (self.new ≡ [])) (λ r. self.old ≡ r ∷ self.new) }
    {
        self.records.next()
    }
}

impl<R: Recorded + Drop> FlowTable<R> {
    /// Closes the table once every pass was joined, and hands out the records of its live flows. `StillOut` comes
    /// exactly where passes are out. After either refusal table and pass are as they were.
    pub fn close(
        self,
        alloc: Global,
        slow: SlowPass<R>,
    ) -> Result<Closed<R>, (CloseRefused, FlowTable<R>, SlowPass<R>)>
        requires { (slow.table ≡ self) × (slow.view.held ≡ []) }
        ensures flows { IfOk result (λ c. map R.id c ≡ flows_from 0 slow.view.marks) }
        ensures last { IfOk result (λ c. All (IsLast R.id (history_of R.tuple R.params R.entries) slow.view) c) }
        ensures joined { IfOk result (λ _. slow.view.parts ≡ 4097) }
        ensures refused { IfErr result (λ e. IsCloseRefused slow.view e.0 × (e.1 ≡ self) × (e.2 ≡ slow)) }
    {
        if slow.passes != 0 {
            return Err((CloseRefused::StillOut(slow.passes), self, slow));
        }
        let Ok(room) = Vec::with_capacity(alloc, slow.marks.len()) else {
            return Err((CloseRefused::OutOfMemory, self, slow));
        };
        let SlowPass { pass, .. } = slow;
        let records = self.close_into(pass, room);
        Ok(Closed {
            records: records.into_iter(),
        })
    }

    /// The records by slots, put into `room`.
    fn close_into(self, pass: Pass<R>, room: Vec<R>) -> Vec<R>
        requires pass { (pass.table ≡ self) × (pass.view.slow ≡ true) × (pass.view.parts ≡ 4097)
            × (pass.view.held ≡ []) }
        requires marks { length pass.view.marks ≡ self.slots }
        requires room { (room.items ≡ []) × (self.slots ≤ vec_capacity room) }
        ensures flows { map R.id result.items ≡ flows_from 0 pass.view.marks }
        ensures last { All (IsLast R.id (history_of R.tuple R.params R.entries) pass.view) result.items }
    {
        let FlowTable { table, .. } = self;
        let Pass { seat } = pass;
        let mut closed = table.close_with(seat);
        let mut room = room;
        let mut at = 0;
        while at < closed.slot_count() {
            if let Some(item) = closed.take(at) {
                room.push_reserved(item);
            }
            at += 1;
        }
        closed.free();
        room
    }
}
