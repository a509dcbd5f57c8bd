//! The record of one flow: its compact parts, and its history.

ghost use Rattle.std.specs.Prelude.{◌≡◌, ℕ, ◌+◌, ◌-◌, ◌^◌, ◌<◌, ◌≤◌, ◌++◌, ◌∷◌, ◌↔◌, [], List, length, take, slice_get};
ghost use Rattle.std.specs.Prelude.{Some, replicate, max, vec_len, vec_capacity, flat_map, IfOk, IfSome, IfNone};
ghost use Rattle.std.specs.Prelude.{IsSome, OnErr, OnOk, IsOk, None, false};
ghost use Rattle.tas_model.specs.declared.entry.Call.TheVariants as calls;
ghost use Rattle.tas_model.specs.declared.entry.Caller.TheVariants.{Slow};
ghost use Rattle.tas_model.specs.Endpoint.{phase};
ghost use Rattle.tas_model.specs.LegalHistory.{Legal, replay, extended_by};
ghost use Rattle.tas_model.specs.Outputs.{sent};
ghost use Rattle.tas_model.specs.Valid.{InRange};
ghost use Rattle.flow_state.specs.Stands.{Stands, IsNear, HasRings};
ghost use Rattle.flow_state.specs.Calls.{call_of, offer_of, answer_of, reply_bytes, payload_of, seg_of, cost_of};
ghost use Rattle.flow_state.specs.Calls.{IsSmall, IsTimely};
ghost use Rattle.flow_state.specs.Flow.{Flow, left_of, reply_to, last_reply, first_passive, first_connect};
ghost use Rattle.flow_state.specs.Flow.{ticked_on};
ghost use Rattle.flow_state.specs.Released.{released_parts};
ghost use Rattle.flow_state.specs.Application.{application_of};
ghost use Rattle.flow_state.specs.Stretches.{entries_of, entries_in, StretchWithin};
ghost use Rattle.flow_state.specs.declared.call.CallIn.TheVariants as ins;
ghost use Rattle.flow_state.specs.Arena.{memory_of};
ghost use Rattle.flow_state.specs.Made.{IsMadeAt, is_quiet};
ghost use Rattle.flow_state.specs.Views.{seen_entry};

use crate::application::got_by;
use crate::arena::Arena;
use crate::call::{Answer, CallIn};
use crate::came::came_by;
use crate::counts::CallerCounts;
use crate::engine::{Clock, Engine, need};
use crate::history::FlowHistory;
use crate::open::{connect_parts, passive_parts};
use crate::parts::Parts;
use crate::slot::{CameSlot, connect_slot, passive_slot};
use crate::stretch::{Stretch, add, add_tick, go_on, goes_on};
use crate::stretches::Stretches;
use crate::view::{EntryAt, EntryView};
use segment_fields::Segment;
use std::alloc::{AllocError, Global};
use std::marker::Model;
use tas_model::{Caller, FlowId, FourTuple, FrameId, HostParams, Recorded};
use tas_num::Seq;

/// The record of one flow, seen as its history.
///
/// The parts hold the present endpoint; the history stands in stretches of one size: an entry each, or a run of quiet
/// ticks, so that a flow that nothing comes to takes no memory with time. Their bytes stand in one piece of memory, and
/// the segments that came in another.
#[derive(Drop)]
pub struct FlowRecord {
    id: FlowId,
    /// How many entries there are.
    made: usize,
    /// The tick of the last.
    last: u32,
    stretches: Vec<Stretch>,
    counts: CallerCounts,
    parts: Parts,
    arena: Arena,
    /// The application that the flow is of.
    application: Option<u32>,
    /// How many segments they sent.
    sent: u64,
}

impl Model for FlowRecord {
    ghost use Rattle.flow_state.specs.Flow.{Flow};

    ghost Value = { Flow };

    ghost use Rattle.flow_state.specs.Inside.{flow_of, IsKept};

    ghost view = { flow_of };

    ghost invariant = { IsKept };
}

impl Recorded for FlowRecord {
    ghost id = { λ r. r.id };

    ghost tuple = { λ r. r.tuple };

    ghost params = { λ r. r.params };

    ghost entries = { λ r. r.entries };
}

impl FlowRecord {
    /// The record of a flow that a peer's SYN opens, with its first entry. The error is want of memory.
    pub fn passive(
        alloc: Global,
        id: FlowId,
        tuple: FourTuple,
        params: &HostParams,
        iss: Seq,
        frame: FrameId,
        seg: &Segment<'_>,
        tick: u32,
    ) -> Result<FlowRecord, AllocError>
        requires ranges { InRange params.now }
        ensures id { IfOk result (λ r. r.id ≡ id) }
        ensures tuple { IfOk result (λ r. r.tuple ≡ tuple) }
        ensures params { IfOk result (λ r. r.params ≡ params.now) }
        ensures entries { IfOk result (λ r. r.entries ≡ first_passive tick frame iss (seg_of seg.now) ∷ []) }
    {
        let parts = passive_parts(alloc, tuple, params, iss, seg)?;
        let arena = Arena::of_segment(alloc, frame, iss, seg)?;
        let mut stretches = Vec::new(alloc);
        stretches.push(Stretch::One {
            tick,
            slot: passive_slot(seg),
        })?;
        let counts = CallerCounts::of_first(alloc, Caller::Slow)?;
        Ok(FlowRecord {
            id,
            parts,
            stretches,
            arena,
            counts,
            application: None,
            made: 1,
            last: tick,
            sent: 0,
        })
    }

    /// The record of a flow that its own host opens, with its first entry. The error is want of memory.
    pub fn connect(
        alloc: Global,
        id: FlowId,
        tuple: FourTuple,
        params: &HostParams,
        iss: Seq,
        caller: Caller,
        tick: u32,
    ) -> Result<FlowRecord, AllocError>
        requires ranges { InRange params.now }
        ensures id { IfOk result (λ r. r.id ≡ id) }
        ensures tuple { IfOk result (λ r. r.tuple ≡ tuple) }
        ensures params { IfOk result (λ r. r.params ≡ params.now) }
        ensures entries { IfOk result (λ r. r.entries ≡ first_connect caller tick iss ∷ []) }
    {
        let parts = connect_parts(alloc, tuple, params, iss)?;
        let mut stretches = Vec::new(alloc);
        stretches.push(Stretch::One {
            tick,
            slot: connect_slot(caller, iss),
        })?;
        let counts = CallerCounts::of_first(alloc, caller)?;
        Ok(FlowRecord {
            id,
            parts,
            stretches,
            arena: Arena::new(alloc),
            counts,
            application: got_by(caller, &CallIn::Connect { iss }, &Answer::Ok),
            made: 1,
            last: tick,
            sent: 0,
        })
    }

    /// Makes both spares at least so much. The error is want of memory, and leaves the record as it was.
    pub fn reserve(&mut self, entries: usize, bytes: usize) -> Result<(), AllocError>
        ensures spare_entries { OnOk result (entries ≤ self.new.spare_entries) }
        ensures spare_bytes { OnOk result (bytes ≤ self.new.spare_bytes) }
        ensures id { self.new.id ≡ self.old.id }
        ensures tuple { self.new.tuple ≡ self.old.tuple }
        ensures params { self.new.params ≡ self.old.params }
        ensures entries { self.new.entries ≡ self.old.entries }
        ensures parts { self.new.parts ≡ self.old.parts }
    {
        self.stretches.reserve(entries)?;
        self.counts.reserve(entries)?;
        self.arena.reserve(entries, bytes)
    }

    /// Gives back the memory that a closed flow has no use for: that of each ring that holds no byte, and room that no
    /// entry needs. Where the flow isn't closed nothing changes.
    pub fn release(&mut self)
        ensures closed { IsSome self.old.parts.reason → self.new.parts ≡ released_parts self.old.parts }
        ensures open { self.old.parts.reason ≡ None → self.new ≡ self.old }
        ensures legal { Legal self.new.params self.new.entries }
        ensures stands { Stands self.new.parts (replay self.new.params self.new.entries) }
        ensures id { self.new.id ≡ self.old.id }
        ensures tuple { self.new.tuple ≡ self.old.tuple }
        ensures params { self.new.params ≡ self.old.params }
        ensures entries { self.new.entries ≡ self.old.entries }
    {
        if self.parts.reason.is_none() {
            return;
        }
        self.parts.release();
        self.stretches.shrink_to_fit();
        self.counts.trim();
        self.arena.trim();
    }

    /// Its history, which is all that is left of it. The memory of its endpoint is given back.
    #[inline(always)]
    pub fn into_history(self) -> FlowHistory
        ensures { result ≡ left_of self }
    {
        let parts = self.parts;
        let (bytes, came) = self.arena.into_lists();
        FlowHistory {
            id: self.id,
            tuple: parts.tuple,
            params: parts.params,
            phase: parts.phase,
            reason: parts.reason,
            read: parts.rx.base(),
            made: self.made,
            stretches: self.stretches,
            bytes,
            came,
        }
    }

    /// Which flow it is.
    pub fn id(&self) -> FlowId
        ensures { result ≡ self.now.id }
    {
        self.id
    }

    /// The connection's ends.
    pub fn tuple(&self) -> FourTuple
        ensures { result ≡ self.now.tuple }
    {
        self.parts.tuple
    }

    /// The host's parameters.
    pub fn params(&self) -> &HostParams
        ensures { result.now ≡ self.now.params }
    {
        &self.parts.params
    }

    /// The application that the flow is of: the first whose Connect opened it, or whose Accept was answered Ok.
    pub fn application(&self) -> Option<u32>
        ensures { result ≡ application_of self.now.entries }
    {
        self.application
    }

    /// How many entries its history has.
    pub fn entries(&self) -> usize
        ensures count { result ≡ length self.now.entries }
        ensures legal { Legal self.now.params self.now.entries }
    {
        self.made
    }

    /// How many segments it sent.
    pub fn sent(&self) -> u64
        ensures { result ≡ length (sent self.now.entries) }
    {
        self.sent
    }

    /// Its history in stretches, the oldest first: to look at all entries takes time by their number.
    pub fn stretches(&self) -> Stretches<'_>
        ensures { flat_map (λ xs. xs) result ≡ self.now.entries }
    {
        Stretches::new(self.arena.as_slice(), self.arena.came(), &self.stretches)
    }

    /// The `i`-th entry of its history, counted from 0, the oldest first. It looks for it from the first stretch on.
    pub fn entry(&self, i: usize) -> EntryView<'_>
        requires { i < length self.now.entries }
        ensures { slice_get self.now.entries i ≡ Some (seen_entry result) }
    {
        self.stretches().entry(i)
    }

    /// The bytes of the last entry's reply.
    pub fn last_bytes(&self) -> &[u8]
        ensures { result.now ≡ reply_bytes (last_reply self.now.entries) }
    {
        match self.stretches.last() {
            Some(stretch) => last_bytes_of(self.arena.as_slice(), self.arena.came(), stretch),
            None => &[],
        }
    }

    /// The present endpoint in its compact form.
    pub fn parts(&self) -> &Parts
        ensures parts { result.now ≡ self.now.parts }
        ensures ranges { InRange self.now.params }
        ensures legal { Legal self.now.params self.now.entries }
        ensures stands { Stands self.now.parts (replay self.now.params self.now.entries) }
        ensures phase { self.now.parts.phase ≡ phase (replay self.now.params self.now.entries) }
        ensures near { IsNear self.now.parts }
        ensures rings { HasRings self.now.parts }
        ensures tuple { self.now.parts.tuple ≡ self.now.tuple }
        ensures params { self.now.parts.params ≡ self.now.params }
    {
        &self.parts
    }

    /// Makes the call by the engine, and appends its entry. The entry's tick is the greater of `tick` and the last
    /// entry's. Where the engine does not answer the call, nothing changes. The error is want of memory; then nothing
    /// changed either.
    pub fn act<E: Engine>(
        &mut self,
        caller: Caller,
        tick: u32,
        call: &CallIn<'_>,
        engine: &E,
    ) -> Result<Option<Answer>, AllocError>
        requires small { IsSmall call.now }
        requires timely { IsTimely self.old.parts.phase call.now }
        ensures exact { IfOk result
            (λ r. IfSome r (λ a. self.new.entries ≡ extended_by self.old.params self.old.entries caller tick
            (call_of call.now) (offer_of call.now))) }
        ensures answer { IfOk result
            (λ r. IfSome r
            (λ a. a ≡ answer_of (reply_to self.old.params self.old.entries tick (call_of call.now)
            (offer_of call.now)))) }
        ensures unmade { IfOk result (λ r. IfNone r (self.new.entries ≡ self.old.entries)) }
        ensures unmade_parts { IfOk result (λ r. IfNone r (self.new.parts ≡ self.old.parts)) }
        ensures err { OnErr result (self.new.entries ≡ self.old.entries) }
        ensures err_parts { OnErr result (self.new.parts ≡ self.old.parts) }
        ensures serves { IfOk result (λ r. IsSome r ↔ E.serves engine.now self.old.parts call.now) }
        ensures spare { 1 ≤ self.old.spare_entries → cost_of self.old.parts.smss call.now ≤ self.old.spare_bytes
            → IsOk result }
        ensures spent_entries { self.old.spare_entries ≤ self.new.spare_entries + 1 }
        ensures spent_bytes { self.old.spare_bytes ≤ self.new.spare_bytes + cost_of self.old.parts.smss call.now }
        ensures legal { Legal self.new.params self.new.entries }
        ensures stands { Stands self.new.parts (replay self.new.params self.new.entries) }
        ensures id { self.new.id ≡ self.old.id }
        ensures tuple { self.new.tuple ≡ self.old.tuple }
        ensures params { self.new.params ≡ self.old.params }
    {
        if let CallIn::Tick = call {
            return self.act_tick(caller, tick, engine);
        }
        let tick = tick.max(self.last);
        let number = self.counts.number_of(caller);
        self.stretches.reserve(1)?;
        self.counts.reserve(1)?;
        self.arena.reserve(came_by(call), need(&self.parts, call))?;
        let Some((answer, slot)) = self
            .arena
            .answer(engine, &mut self.parts, caller, number, tick, call)
        else {
            return Ok(None);
        };
        self.made += 1;
        self.sent += answer.segments();
        self.last = tick;
        self.application = self.application.or(got_by(caller, call, &answer));
        self.counts.count_one(caller);
        add(&mut self.stretches, tick, &slot);
        Ok(Some(answer))
    }

    /// Ticks by the slow path, from this one on, as long as each lengthens the run of quiet ticks that the history ends
    /// with, and at most so many. Answers how many passed; the next one is to be made by `act`. Where some passed and
    /// not all, something comes of it. It takes no memory.
    pub fn pass_quietly<C: Clock>(&mut self, tick: u32, count: u32, clock: &C) -> u32
        requires timely { IsTimely self.old.parts.phase ins.Tick }
        requires room { tick + count ≤ 2 ^ 32 }
        ensures made { self.new.entries ≡ ticked_on self.old.params self.old.entries tick result }
        ensures most { result ≤ count }
        ensures all { 0 < result → result < count
            → is_quiet (reply_to self.new.params self.new.entries (tick + result) calls.Tick []) ≡ false }
        ensures unmade_parts { result ≡ 0 → self.new.parts ≡ self.old.parts }
        ensures spare_entries { self.new.spare_entries ≡ self.old.spare_entries }
        ensures spare_bytes { self.new.spare_bytes ≡ self.old.spare_bytes }
        ensures legal { Legal self.new.params self.new.entries }
        ensures stands { Stands self.new.parts (replay self.new.params self.new.entries) }
        ensures id { self.new.id ≡ self.old.id }
        ensures tuple { self.new.tuple ≡ self.old.tuple }
        ensures params { self.new.params ≡ self.old.params }
    {
        let first = self.counts.slow();
        if !goes_on(&self.stretches, Caller::Slow, first, tick) {
            return 0;
        }
        let done = clock.pass(&mut self.parts, tick, count);
        go_on(&mut self.stretches, Caller::Slow, first, tick, done);
        self.counts.count_slow(done);
        self.made += done as usize;
        self.last += done;
        done
    }

    /// `act` of a Tick. It has no bytes, and most are quiet: these lengthen the last run.
    fn act_tick<E: Engine>(
        &mut self,
        caller: Caller,
        tick: u32,
        engine: &E,
    ) -> Result<Option<Answer>, AllocError>
        requires timely { IsTimely self.old.parts.phase ins.Tick }
        ensures exact { IfOk result
            (λ r. IfSome r (λ a. self.new.entries ≡ extended_by self.old.params self.old.entries caller tick
            calls.Tick [])) }
        ensures answer { IfOk result
            (λ r. IfSome r
            (λ a. a ≡ answer_of (reply_to self.old.params self.old.entries tick calls.Tick
            []))) }
        ensures unmade { IfOk result (λ r. IfNone r (self.new.entries ≡ self.old.entries)) }
        ensures unmade_parts { IfOk result (λ r. IfNone r (self.new.parts ≡ self.old.parts)) }
        ensures err { OnErr result (self.new.entries ≡ self.old.entries) }
        ensures err_parts { OnErr result (self.new.parts ≡ self.old.parts) }
        ensures serves { IfOk result (λ r. IsSome r ↔ E.serves engine.now self.old.parts ins.Tick) }
        ensures spare { 1 ≤ self.old.spare_entries → cost_of self.old.parts.smss ins.Tick ≤ self.old.spare_bytes
            → IsOk result }
        ensures spent_entries { self.old.spare_entries ≤ self.new.spare_entries + 1 }
        ensures spent_bytes { self.old.spare_bytes ≤ self.new.spare_bytes + cost_of self.old.parts.smss ins.Tick }
        ensures legal { Legal self.new.params self.new.entries }
        ensures stands { Stands self.new.parts (replay self.new.params self.new.entries) }
        ensures id { self.new.id ≡ self.old.id }
        ensures tuple { self.new.tuple ≡ self.old.tuple }
        ensures params { self.new.params ≡ self.old.params }
    {
        let tick = tick.max(self.last);
        let number = self.counts.number_of(caller);
        self.stretches.reserve(1)?;
        self.counts.reserve(1)?;
        let Some(answer) = engine.run(&mut self.parts, tick, &CallIn::Tick, &mut []) else {
            return Ok(None);
        };
        self.made += 1;
        self.sent += answer.segments();
        self.last = tick;
        self.counts.count_one(caller);
        add_tick(&mut self.stretches, caller, number, tick, &answer);
        Ok(Some(answer))
    }
}

/// The bytes of the reply of a stretch's last entry.
fn last_bytes_of<'a>(arena: &'a [u8], came: &'a [CameSlot], stretch: &'a Stretch) -> &'a [u8]
    requires { StretchWithin (length arena.now) (length came.now) stretch.now }
    ensures { result.now ≡ reply_bytes (last_reply (entries_in (memory_of arena.now came.now) stretch.now)) }
{
    match stretch {
        Stretch::One { tick, slot } => EntryAt::new(arena, came, *tick, slot).reply().bytes(),
        Stretch::Quiet(_) => &[],
        Stretch::Paced(_) => &[],
    }
}
