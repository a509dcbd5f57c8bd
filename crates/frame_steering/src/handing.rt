//! The frames of a tick are handed out to the cores of their groups, while groups move.
ghost use Rattle.std.specs.Prelude.{◌≡◌, ◌<◌, ◌≤◌, ◌+◌, ◌++◌, ◌∷◌, [], All, List, length, filter, IfOk, OnErr};
ghost use Rattle.std.specs.Prelude.{vec_len, vec_capacity};
ghost use Rattle.frame_steering.specs.Handing.{is_of, moves_of, moves_but, waits, IsMovedIf, AreMoved, AreHandedOut};

use std::alloc::{AllocError, Global};
use std::sync::Wait;
use steering::{SteerPass, Steering};

/// A group of flows goes to another core, by its number modulo the number of cores.
#[derive(Clone, Copy, Drop, Debug)]
pub struct GroupMove {
    /// Below 64.
    pub group: u32,
    pub core: u32,
}

/// Hands out the frames of a tick, of these groups, among so many cores: the core of each frame, in their order. It is
/// the one that the table names then. A group moves after its first frame, or after all frames where it has none. The
/// error is want of memory, and then nothing was moved.
pub fn hand_out<R: Wait>(
    rt: &R,
    alloc: Global,
    steering: &Steering,
    steer: &mut SteerPass,
    cores: u32,
    groups: &[u32],
    moves: &[GroupMove],
) -> Result<Vec<u32>, AllocError>
    requires own { steer.old.place ≡ steering.now }
    requires cores { (cores ≡ steering.now.cores) × (0 < cores) }
    requires groups { All (λ group. group < 64) groups.now }
    requires moves { All (λ (m : GroupMove). m.group < 64) moves.now }
    ensures own { steer.new.place ≡ steer.old.place }
    ensures len { IfOk result (λ handed. length handed.items ≡ length groups.now) }
    ensures below { IfOk result (λ handed. All (λ core. core < cores) handed.items) }
    ensures handed { IfOk result (λ handed.
        AreHandedOut cores steer.old.tables moves.now groups.now handed.items steer.new.tables) }
    ensures err { OnErr result (steer.new ≡ steer.old) }
{
    let mut handed = Vec::with_capacity(alloc, groups.len())?;
    let mut waiting = all_wait();
    for group in groups {
        let core = steering.core_of(rt, steer, *group);
        note(&mut handed, core);
        move_group(rt, steering, steer, cores, &mut waiting, *group, moves);
    }
    move_waiting(rt, steering, steer, cores, &waiting, moves);
    Ok(handed)
}

/// A core more, where there is room for it.
fn note(handed: &mut Vec<u32>, core: u32)
    requires { vec_len handed.old < vec_capacity handed.old }
    ensures items { handed.new.items ≡ handed.old.items ++ core ∷ [] }
    ensures len { vec_len handed.new ≡ vec_len handed.old + 1 }
    ensures room { vec_capacity handed.old ≤ vec_capacity handed.new }
{
    handed.push(core).unwrap();
}

/// All groups wait.
fn all_wait() -> [bool; 64]
    ensures { (moves : List GroupMove) → All (λ (m : GroupMove). m.group < 64) moves
        → filter (waits result) moves ≡ moves }
{
    [true; 64]
}

/// The moves of a group are made, where it waits.
fn move_group<R: Wait>(
    rt: &R,
    steering: &Steering,
    steer: &mut SteerPass,
    cores: u32,
    waiting: &mut [bool; 64],
    group: u32,
    moves: &[GroupMove],
)
    requires own { steer.old.place ≡ steering.now }
    requires cores { (cores ≡ steering.now.cores) × (0 < cores) }
    requires group { group < 64 }
    requires moves { All (λ (m : GroupMove). m.group < 64) moves.now }
    ensures own { steer.new.place ≡ steer.old.place }
    ensures moved { AreMoved cores steer.old.tables
        (moves_of group (filter (waits waiting.old) moves.now)) steer.new.tables }
    ensures left { filter (waits waiting.new) moves.now ≡ moves_but group (filter (waits waiting.old) moves.now) }
{
    if !waiting[group as usize] {
        return;
    }
    move_waiting(rt, steering, steer, cores, &only(group), moves);
    waiting[group as usize] = false;
}

/// Of all groups, this one.
fn only(group: u32) -> [bool; 64]
    requires { group < 64 }
    ensures { (m : GroupMove) → waits result m ≡ is_of group m }
{
    let mut groups = [false; 64];
    groups[group as usize] = true;
    groups
}

/// The moves of all groups that wait are made, one after the other.
fn move_waiting<R: Wait>(
    rt: &R,
    steering: &Steering,
    steer: &mut SteerPass,
    cores: u32,
    waiting: &[bool; 64],
    moves: &[GroupMove],
)
    requires own { steer.old.place ≡ steering.now }
    requires cores { (cores ≡ steering.now.cores) × (0 < cores) }
    requires moves { All (λ (m : GroupMove). m.group < 64) moves.now }
    ensures own { steer.new.place ≡ steer.old.place }
    ensures moved { AreMoved cores steer.old.tables (filter (waits waiting.now) moves.now) steer.new.tables }
{
    for moving in moves {
        move_one(rt, steering, steer, cores, waiting, moving);
    }
}

/// The move is made, where its group waits.
fn move_one<R: Wait>(
    rt: &R,
    steering: &Steering,
    steer: &mut SteerPass,
    cores: u32,
    waiting: &[bool; 64],
    moving: &GroupMove,
)
    requires own { steer.old.place ≡ steering.now }
    requires cores { (cores ≡ steering.now.cores) × (0 < cores) }
    requires group { moving.now.group < 64 }
    ensures own { steer.new.place ≡ steer.old.place }
    ensures moved { IsMovedIf (waits waiting.now moving.now) cores moving.now steer.old.tables steer.new.tables }
{
    if waiting[moving.group as usize] {
        steering.assign(rt, steer, moving.group, moving.core % cores);
    }
}
