//! The memory of a history's bytes.

ghost use Rattle.std.specs.Prelude.{◌≡◌, ◌↔◌, ℕ, List, ◌+◌, ◌-◌, ◌≤◌, ◌++◌, ◌∷◌, [], length, take, drop, vec_len};
ghost use Rattle.std.specs.Prelude.{vec_capacity, IfOk, IfSome, IfNone, IsSome, OnOk, IsOk};
ghost use Rattle.flow_state.specs.Calls.{call_of, reply_of, payload_of, answer_len, need_of, IsSmall, IsTimely};
ghost use Rattle.flow_state.specs.declared.slot.CameSlot.{CameSlot};
ghost use Rattle.flow_state.specs.Arena.{memory_of, Grows};
ghost use Rattle.flow_state.specs.Made.{IsMadeAt};
ghost use Rattle.flow_state.specs.Slots.{entry_of, IsWithin, IsBare, HasCame, came_of, came_count};
ghost use Rattle.flow_state.specs.Stands.{IsNear, HasRings};

use crate::call::{Answer, CallIn};
use crate::came::{keep_came, reserve_came};
use crate::engine::{Engine, need};
use crate::parts::Parts;
use crate::sharing::{Kept, Known, keep, next_bytes};
use crate::slot::{CameSlot, Slot, call_slot, came_slot, reply_slot};
use payload_ring::fill_with_zeros;
use segment_fields::Segment;
use std::alloc::{AllocError, Global};
use std::marker::Model;
use tas_model::{Caller, FrameId};
use tas_num::Seq;

/// A record with so many bytes will have many.
const MANY: usize = 8192;

/// The room in bytes that is taken for many, at once: to move them whenever they have doubled costs more than room
/// that is never used, which takes no memory.
const ROOM_FOR_MANY: usize = 131_072;

/// The bytes of a record's entries, one after the other, and room behind them; and the segments that came.
///
/// An engine puts the bytes of its reply there. The room keeps what was written to it, so that it is filled once and
/// not anew for each call.
///
/// A reply shares its bytes with an earlier entry, where they are those that were kept last, or stand where it is
/// guessed that they do: what is sent where a Send took it, however often it is sent again, and what is read where it
/// came. They are compared, so nothing hangs on the guess but memory.
#[derive(Drop)]
pub struct Arena {
    bytes: Vec<u8>,
    /// How many bytes are kept. The others are room.
    used: usize,
    /// Where to look for bytes that an entry shares.
    known: Known,
    /// The segments that came, but for their payloads.
    came: Vec<CameSlot>,
}

impl Model for Arena {
    ghost use Rattle.std.specs.Prelude.{ℕ, ◌<◌, ◌≤◌, ◌-◌, ◌^◌, take, vec_len, vec_capacity};
    ghost use Rattle.flow_state.specs.Arena.{Held, memory_of, came_room};

    ghost Value = { Held };

    ghost view = { λ a. record {
      memory = memory_of (take a.used a.bytes.items) a.came.items;
      spare = vec_capacity a.bytes - a.used;
      spare_came = came_room (vec_capacity a.came) (vec_len a.came);
    } };

    ghost invariant = { λ a. (a.used ≤ vec_len a.bytes) × (vec_len a.came < 2 ^ 32) };
}

impl Arena {
    /// No bytes and no room. It takes no memory.
    pub fn new(alloc: Global) -> Arena
        ensures { result.memory ≡ memory_of [] [] }
    {
        Arena {
            bytes: Vec::new(alloc),
            used: 0,
            known: Known::new(),
            came: Vec::new(alloc),
        }
    }

    /// The memory of a segment that came in this frame, and opens a flow with this own first number. The error is want
    /// of memory.
    pub fn of_segment(
        alloc: Global,
        frame: FrameId,
        iss: Seq,
        seg: &Segment<'_>,
    ) -> Result<Arena, AllocError>
        ensures { IfOk result (λ a. a.memory ≡ memory_of seg.now.payload.now (came_of frame iss seg.now ∷ [])) }
    {
        let mut came = Vec::new(alloc);
        came.push(came_slot(frame, iss, seg))?;
        Ok(Arena {
            bytes: Vec::from_slice(alloc, seg.payload)?,
            used: seg.payload.len(),
            known: Known::new(),
            came,
        })
    }

    /// The bytes that are kept.
    pub fn as_slice(&self) -> &[u8]
        ensures { result.now ≡ self.now.memory.bytes }
    {
        &self.bytes[..self.used]
    }

    /// The segments that came.
    pub fn came(&self) -> &[CameSlot]
        ensures { result.now ≡ self.now.memory.came }
    {
        &self.came
    }

    /// Makes room for so many segments and bytes more. The error is want of memory, and leaves what is kept as it was.
    pub fn reserve(&mut self, came: usize, bytes: usize) -> Result<(), AllocError>
        ensures memory { self.new.memory ≡ self.old.memory }
        ensures room { OnOk result (bytes ≤ self.new.spare) }
        ensures room_came { OnOk result (came ≤ self.new.spare_came) }
        ensures longer { self.old.spare ≤ self.new.spare }
        ensures longer_came { self.old.spare_came ≤ self.new.spare_came }
        ensures spare { came ≤ self.old.spare_came → bytes ≤ self.old.spare → IsOk result }
    {
        reserve_came(&mut self.came, came)?;
        reserve_bytes(&mut self.bytes, self.used, bytes)
    }

    /// Gives the room back.
    pub fn trim(&mut self)
        ensures { self.new.memory ≡ self.old.memory }
    {
        self.bytes.truncate(self.used);
        self.bytes.shrink_to_fit();
        self.came.shrink_to_fit();
    }

    /// The bytes and the segments that are kept. The room behind the bytes is given back with them.
    pub fn into_lists(self) -> (Vec<u8>, Vec<CameSlot>)
        ensures bytes { result.0.items ≡ self.memory.bytes }
        ensures came { result.1.items ≡ self.memory.came }
    {
        let mut bytes = self.bytes;
        bytes.truncate(self.used);
        (bytes, self.came)
    }

    /// Makes the call by the engine, and keeps the bytes of its entry and the segment that it brings. Where the engine
    /// does not answer the call, nothing changes.
    pub fn answer<E: Engine>(
        &mut self,
        engine: &E,
        parts: &mut Parts,
        caller: Caller,
        number: u64,
        tick: u32,
        call: &CallIn<'_>,
    ) -> Option<(Answer, Slot)>
        requires small { IsSmall call.now }
        requires timely { IsTimely parts.old.phase call.now }
        requires near { IsNear parts.old }
        requires rings { HasRings parts.old }
        requires room { need_of parts.old call.now ≤ self.old.spare }
        requires room_came { came_count call.now ≤ self.old.spare_came }
        ensures made { IfSome result
            (λ r. IsMadeAt parts.old parts.new self.new.memory caller number tick call.now r.0 r.1) }
        ensures unmade { IfNone result (parts.new ≡ parts.old) }
        ensures unmade_memory { IfNone result (self.new.memory ≡ self.old.memory) }
        ensures serves { IsSome result ↔ E.serves engine.now parts.old call.now }
        ensures kept { Grows self.old.memory self.new.memory }
        ensures spent { self.old.spare ≤ self.new.spare + need_of parts.old call.now }
        ensures spent_came { self.old.spare_came ≤ self.new.spare_came + came_count call.now }
        ensures params { parts.new.params ≡ parts.old.params }
        ensures tuple { parts.new.tuple ≡ parts.old.tuple }
    {
        let (answer, slot, end) = answer_behind(
            engine,
            parts,
            &mut self.bytes,
            self.used,
            &mut self.known,
            Stamp {
                caller,
                number,
                tick,
                at: self.came.len() as u32,
            },
            call,
        )?;
        self.used = end;
        keep_came(&mut self.came, call);
        Some((answer, slot))
    }
}

/// Who makes an entry, and when, and at which place its segment stands among those that came, where it brings one.
#[derive(Clone, Copy)]
struct Stamp {
    caller: Caller,
    number: u64,
    tick: u32,
    at: u32,
}

/// Makes room for so many bytes more behind the first `used`. The error is want of memory, and leaves all as it was.
fn reserve_bytes(bytes: &mut Vec<u8>, used: usize, more: usize) -> Result<(), AllocError>
    requires within { used ≤ vec_len bytes.old }
    ensures items { bytes.new.items ≡ bytes.old.items }
    ensures len { vec_len bytes.new ≡ vec_len bytes.old }
    ensures room { OnOk result (more ≤ vec_capacity bytes.new - used) }
    ensures longer { vec_capacity bytes.old ≤ vec_capacity bytes.new }
    ensures spare { more ≤ vec_capacity bytes.old - used → IsOk result }
{
    if more <= bytes.capacity() - used {
        return Ok(());
    }
    let behind = bytes.len() - used;
    bytes.reserve(room_to_take(used, more).saturating_sub(behind))
}

/// How much room to take behind the first `used` bytes, where so many more need it.
fn room_to_take(used: usize, more: usize) -> usize
    ensures { more ≤ result }
{
    if MANY <= used.saturating_add(more) {
        more.max(ROOM_FOR_MANY.saturating_sub(used))
    } else {
        more
    }
}

/// Makes the call, and keeps the bytes of its entry behind the first `used`, or its reply's among these. Also gives how
/// many are kept then.
fn answer_behind<E: Engine>(
    engine: &E,
    parts: &mut Parts,
    bytes: &mut Vec<u8>,
    used: usize,
    known: &mut Known,
    stamp: Stamp,
    call: &CallIn<'_>,
) -> Option<(Answer, Slot, usize)>
    requires small { IsSmall call.now }
    requires timely { IsTimely parts.old.phase call.now }
    requires near { IsNear parts.old }
    requires rings { HasRings parts.old }
    requires within { used ≤ vec_len bytes.old }
    requires room { used + need_of parts.old call.now ≤ vec_capacity bytes.old }
    ensures made { IfSome result (λ r. (came : List CameSlot) → HasCame came stamp.at call.now
        → IsMadeAt parts.old parts.new (memory_of (take r.2 bytes.new.items) came) stamp.caller stamp.number stamp.tick
        call.now r.0 r.1) }
    ensures few { IfSome result (λ r. r.2 ≤ vec_len bytes.new) }
    ensures past { IfSome result (λ r. used ≤ r.2) }
    ensures need { IfSome result (λ r. r.2 ≤ used + need_of parts.old call.now) }
    ensures unmade { IfNone result (parts.new ≡ parts.old) }
    ensures serves { IsSome result ↔ E.serves engine.now parts.old call.now }
    ensures kept { take used bytes.new.items ≡ take used bytes.old.items }
    ensures len { vec_len bytes.old ≤ vec_len bytes.new }
    ensures capacity { vec_capacity bytes.old ≤ vec_capacity bytes.new }
    ensures params { parts.new.params ≡ parts.old.params }
    ensures tuple { parts.new.tuple ≡ parts.old.tuple }
{
    fill_with_zeros(bytes, used + need(parts, call));
    let next = next_bytes(parts);
    let answer = engine.run(parts, stamp.tick, call, &mut bytes[used..])?;
    let (slot, kept) = keep_entry(
        bytes,
        used,
        known.guess(&answer, next),
        call,
        &answer,
        stamp,
    );
    known.note(call, &answer, next, kept);
    Some((answer, slot, kept.end + call.payload().len()))
}

/// The slot of an entry whose reply's bytes stand in memory from `used` on, and perhaps also from `guess` on; the
/// call's bytes are put behind what is kept. Also gives where the reply's are kept.
fn keep_entry(
    bytes: &mut Vec<u8>,
    used: usize,
    guess: Option<usize>,
    call: &CallIn<'_>,
    answer: &Answer,
    stamp: Stamp,
) -> (Slot, Kept)
    requires small { IsSmall call.now }
    requires bare { IsBare call.now (answer_len answer.now) }
    requires room { used + answer_len answer.now + length (payload_of call.now) ≤ vec_len bytes.old }
    ensures kept { take used bytes.new.items ≡ take used bytes.old.items }
    ensures entry { (came : List CameSlot) → HasCame came stamp.at call.now
        → entry_of (memory_of (take (result.1.end + length (payload_of call.now)) bytes.new.items) came) stamp.tick
        result.0
        ≡ record {
          caller = stamp.caller;
          number = stamp.number;
          tick = stamp.tick;
          call = call_of call.now;
          reply = reply_of answer.now (drop used bytes.old.items);
        } }
    ensures before { used ≤ result.1.end }
    ensures past { result.1.end ≤ used + answer_len answer.now }
    ensures len { vec_len bytes.new ≡ vec_len bytes.old }
    ensures capacity { vec_capacity bytes.new ≡ vec_capacity bytes.old }
    ensures within { (came : List CameSlot) → HasCame came stamp.at call.now
        → IsWithin (result.1.end + length (payload_of call.now)) (length came) result.0 }
{
    let kept = keep(bytes, used, answer.bytes(), guess);
    let slot = close_entry(bytes, kept, call, answer, stamp);
    (slot, kept)
}

/// The slot of an entry whose reply's bytes are kept there, the call's bytes put behind all that are.
fn close_entry(
    bytes: &mut Vec<u8>,
    kept: Kept,
    call: &CallIn<'_>,
    answer: &Answer,
    stamp: Stamp,
) -> Slot
    requires small { IsSmall call.now }
    requires bare { IsBare call.now (answer_len answer.now) }
    requires within { kept.start + answer_len answer.now ≤ kept.end }
    requires room { kept.end + length (payload_of call.now) ≤ vec_len bytes.old }
    ensures kept { take kept.end bytes.new.items ≡ take kept.end bytes.old.items }
    ensures entry { (came : List CameSlot) → HasCame came stamp.at call.now
        → entry_of (memory_of (take (kept.end + length (payload_of call.now)) bytes.new.items) came) stamp.tick result
        ≡ record {
          caller = stamp.caller;
          number = stamp.number;
          tick = stamp.tick;
          call = call_of call.now;
          reply = reply_of answer.now (drop kept.start bytes.old.items);
        } }
    ensures len { vec_len bytes.new ≡ vec_len bytes.old }
    ensures capacity { vec_capacity bytes.new ≡ vec_capacity bytes.old }
    ensures within { (came : List CameSlot) → HasCame came stamp.at call.now
        → IsWithin (kept.end + length (payload_of call.now)) (length came) result }
{
    put(bytes, kept.end, call.payload());
    let (call, span) = call_slot(call, stamp.at, kept.start, answer.bytes(), kept.end);
    Slot {
        caller: stamp.caller,
        number: stamp.number,
        bytes: span,
        reply: reply_slot(answer),
        call,
    }
}

/// Writes a piece over the bytes from `at` on.
fn put(bytes: &mut Vec<u8>, at: usize, piece: &[u8])
    requires { at + length piece.now ≤ vec_len bytes.old }
    ensures items { bytes.new.items ≡ take at bytes.old.items
        ++ (piece.now ++ drop (at + length piece.now) bytes.old.items) }
    ensures len { vec_len bytes.new ≡ vec_len bytes.old }
    ensures capacity { vec_capacity bytes.new ≡ vec_capacity bytes.old }
{
    bytes[at..at + piece.len()].copy_from_slice(piece);
}
