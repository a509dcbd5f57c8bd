//! The segments that came, apart from the entries that tell of them.

ghost use Rattle.std.specs.Prelude.{◌≡◌, ℕ, ◌+◌, ◌-◌, ◌<◌, ◌≤◌, ◌++◌, ◌∷◌, [], take, vec_len, vec_capacity, OnOk, IsOk};
ghost use Rattle.flow_state.specs.Arena.{came_room};
ghost use Rattle.flow_state.specs.Slots.{came_of, came_count, HasCame};

use crate::call::CallIn;
use crate::slot::{CameSlot, came_slot};
use std::alloc::AllocError;
use tas_num::Seq;

/// How many segments the call brings.
pub fn came_by(call: &CallIn<'_>) -> usize
    ensures count { result ≡ came_count call.now }
    ensures few { result ≤ 1 }
{
    match call {
        CallIn::Passive { .. } | CallIn::Rx { .. } => 1,
        _ => 0,
    }
}

/// Makes room for so many segments more. The error is want of memory, or of numbers for them, which have 32 bits. It
/// leaves all as it was.
pub fn reserve_came(came: &mut Vec<CameSlot>, more: usize) -> Result<(), AllocError>
    ensures items { came.new.items ≡ came.old.items }
    ensures len { vec_len came.new ≡ vec_len came.old }
    ensures room { OnOk result (more ≤ came_room (vec_capacity came.new) (vec_len came.new)) }
    ensures longer { vec_capacity came.old ≤ vec_capacity came.new }
    ensures spare { more ≤ came_room (vec_capacity came.old) (vec_len came.old) → IsOk result }
{
    if 0xffff_ffff_usize.saturating_sub(came.len()) < more {
        return Err(AllocError);
    }
    came.reserve(more)
}

/// Keeps the segment that the call brings behind those that came, which have room for it.
pub fn keep_came(came: &mut Vec<CameSlot>, call: &CallIn<'_>)
    requires { came_count call.now ≤ came_room (vec_capacity came.old) (vec_len came.old) }
    ensures has { HasCame came.new.items (vec_len came.old) call.now }
    ensures kept { take (vec_len came.old) came.new.items ≡ came.old.items }
    ensures len { vec_len came.new ≡ vec_len came.old + came_count call.now }
    ensures capacity { vec_capacity came.old ≤ vec_capacity came.new }
{
    match call {
        CallIn::Passive { frame, iss, seg } => push(came, came_slot(*frame, *iss, seg)),
        CallIn::Rx { frame, seg } => push(came, came_slot(*frame, Seq(0), seg)),
        _ => {}
    }
}

/// Puts a segment behind those that came, which have room for it.
fn push(came: &mut Vec<CameSlot>, slot: CameSlot)
    requires { vec_len came.old < vec_capacity came.old }
    ensures items { came.new.items ≡ came.old.items ++ slot ∷ [] }
    ensures len { vec_len came.new ≡ vec_len came.old + 1 }
    ensures capacity { vec_capacity came.old ≤ vec_capacity came.new }
{
    match came.push(slot) {
        Ok(()) => {}
        Err(_) => unreachable!(),
    }
}
