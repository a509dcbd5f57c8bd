//! The engine of Emit.

ghost use Rattle.std.specs.Prelude.{◌≡◌, ℕ, ◌≤◌, ◌↔◌, length, IfSome, IfNone, IsSome};
ghost use Rattle.tas_model.specs.Endpoint.{Endpoint};
ghost use Rattle.tas_model.specs.NextSegment.{going as model_going, emitted};
ghost use Rattle.tas_model.specs.Valid.{Valid};
ghost use Rattle.flow_state.specs.Stands.{Stands};
ghost use Rattle.flow_state.specs.Calls.{answer_len, reply_room};
ghost use Rattle.flow_state.specs.declared.call.CallIn.TheVariants as ins;
ghost use Rattle.flow_state.specs.Made.{IsStep};
ghost use Rattle.fast_tx.specs.Piece.{next_piece as piece_of};

use crate::emission::send;
use crate::piece::next_piece;
use flow_state::{Answer, CallIn, Engine, Parts};

/// The engine of Emit. It answers `None` exactly on the other calls, and where nothing may go.
#[derive(Clone, Copy)]
pub struct FastTx;

/// Emits where something may go.
fn emit_next(parts: &mut Parts, out: &mut [u8]) -> Option<Answer>
    requires room { reply_room parts.old ins.Emit ≤ length out.old }
    ensures made { IfSome result (λ answer. (e : Endpoint) → Valid e → Stands parts.old e
        → IsStep parts.new answer out.new (emitted (model_going e))) }
    ensures bytes { IfSome result (λ answer. answer_len answer ≤ reply_room parts.old ins.Emit) }
    ensures tuple { parts.new.tuple ≡ parts.old.tuple }
    ensures params { parts.new.params ≡ parts.old.params }
    ensures unmade { IfNone result (parts.new ≡ parts.old) }
    ensures some { IsSome result ↔ IsSome (piece_of parts.old) }
{
    match next_piece(parts) {
        Some(piece) => {
            let sent = send(parts, piece, out);
            Some(Answer::Sent {
                head: sent.head,
                len: sent.len,
            })
        }
        None => None,
    }
}

impl Engine for FastTx {
    ghost use Rattle.fast_tx.specs.Piece.{IsEmission};

    ghost serves = { λ _ parts call. IsEmission parts call };

    #[tactic(auto, unfolding(tas_model::specs::LegalHistory::step))]
    fn run(
        &self,
        parts: &mut Parts,
        _tick: u32,
        call: &CallIn<'_>,
        out: &mut [u8],
    ) -> Option<Answer> {
        match call {
            CallIn::Emit => emit_next(parts, out),
            _ => None,
        }
    }
}
