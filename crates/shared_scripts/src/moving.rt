//! The groups of flows that move in a tick, by the lines of a scenario.
ghost use Rattle.std.specs.Prelude.{◌≡◌, ◌<◌, All, map, filter, IfOk};
ghost use Rattle.frame_steering.specs.declared.handing.GroupMove.{GroupMove};
ghost use Rattle.local_host.specs.declared.steer.GroupMove as local;
ghost use Rattle.scenario_host.specs.GroupMoves.{is_move_of};
ghost use Rattle.shared_scripts.specs.Begun.{group_move, handed_move};

use frame_steering::GroupMove;
use scenario_text::MoveLine;
use std::alloc::{AllocError, Global};

/// The moves of a tick, of the groups of the host with this name. The error is want of memory.
pub(crate) fn moves_at(
    alloc: Global,
    lines: &[MoveLine],
    name: &[u8],
    tick: u32,
) -> Result<Vec<GroupMove>, AllocError>
    ensures moves { IfOk result (λ moves. moves.items ≡ map group_move (filter (is_move_of name.now tick) lines.now)) }
    ensures below { IfOk result (λ moves. All (λ (m : GroupMove). m.group < 64) moves.items) }
{
    let moves = scenario_host::moves_at(alloc, lines, name, tick)?;
    handed_moves(alloc, moves.as_slice())
}

/// The same moves, as frames are handed out by them. The error is want of memory.
fn handed_moves(
    alloc: Global,
    moves: &[local_host::GroupMove],
) -> Result<Vec<GroupMove>, AllocError>
    ensures { IfOk result (λ handed. handed.items ≡ map handed_move moves.now) }
{
    let mut handed = Vec::with_capacity(alloc, moves.len())?;
    for m in moves {
        handed.push(GroupMove {
            group: m.group,
            core: m.core,
        })?;
    }
    Ok(handed)
}
