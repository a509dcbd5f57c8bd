//! The groups of flows that move in a tick, by the lines of a scenario.

ghost use Rattle.std.specs.Prelude.{◌≡◌, ◌<◌, ◌++◌, ◌∷◌, [], All, map, filter, IfOk, OnOk};
ghost use Rattle.scenario_host.specs.GroupMoves.{is_move_of, group_move};

use local_host::GroupMove;
use scenario_text::MoveLine;
use std::alloc::{AllocError, Global};

/// How many groups of flows there are.
const GROUPS: u32 = 64;

/// The moves of a tick, of the groups of the host with this name. The error is want of memory.
pub fn moves_at(
    alloc: Global,
    lines: &[MoveLine],
    name: &[u8],
    tick: u32,
) -> Result<Vec<GroupMove>, AllocError>
    ensures moves { IfOk result (λ moves. moves.items ≡ map group_move (filter (is_move_of name.now tick) lines.now)) }
    ensures below { IfOk result (λ moves. All (λ (m : GroupMove). m.group < 64) moves.items) }
{
    let mut moves = Vec::new(alloc);
    for line in lines {
        take_move(&mut moves, line, name, tick)?;
    }
    Ok(moves)
}

/// Takes the move of a line, where it is of a group of the host with this name in the tick. The error is want of
/// memory.
fn take_move(
    moves: &mut Vec<GroupMove>,
    line: &MoveLine,
    name: &[u8],
    tick: u32,
) -> Result<(), AllocError>
    ensures moves { OnOk result (moves.new.items
        ≡ moves.old.items ++ map group_move (filter (is_move_of name.now tick) (line.now ∷ []))) }
    ensures below { OnOk result (All (λ (m : GroupMove). m.group < 64) moves.old.items
        → All (λ (m : GroupMove). m.group < 64) moves.new.items) }
{
    if line.at != tick || line.group >= GROUPS {
        return Ok(());
    }
    if line.host.as_slice() != name {
        return Ok(());
    }
    moves.push(GroupMove {
        group: line.group,
        core: line.core,
    })?;
    Ok(())
}
