//! What goes next, told by the record alone.

ghost use Rattle.std.specs.Prelude.{◌≡◌, ℕ, ◌+◌, ◌-◌, ◌↔◌, min, length, Some, IsSome};
ghost use Rattle.payload_ring.specs.Window.{end_of};
ghost use Rattle.tas_model.specs.Endpoint.{Endpoint};
ghost use Rattle.tas_model.specs.NextSegment.{going as model_going};
ghost use Rattle.tas_model.specs.Valid.{Valid};
ghost use Rattle.flow_state.specs.declared.parts.Parts.{Parts};
ghost use Rattle.flow_state.specs.Stands.{Stands};
ghost use Rattle.fast_tx.specs.Piece.{next_piece as piece_of, running_piece as running_of, in_flight as flight_of};
ghost use Rattle.fast_tx.specs.Piece.{bytes_waiting as waiting_of, bytes_due as due_of, is_next as is_next_at};
ghost use Rattle.fast_tx.specs.Piece.{is_probe_due as probe_due, is_fin_due as fin_due, IsEmission};
ghost use Rattle.flow_state.specs.declared.call.CallIn.TheVariants as ins;
ghost use Rattle.fast_tx.specs.Going.{going_by};

use flow_state::{Parts, Stage};

/// What goes next.
#[derive(Clone, Copy, PartialEq, Eq, Debug)]
pub enum Piece {
    /// The SYN of the opening, with ACK where the peer's was taken (RFC 9293, section 3.5).
    Syn,
    /// So many bytes of the stream.
    Data { len: u32 },
    /// One byte at a window of 0 (section 3.8.6.1).
    Probe,
    /// The FIN, behind all bytes.
    Fin,
}

/// The piece that goes next; `None` where nothing may.
#[inline(always)]
pub fn next_piece(parts: &Parts) -> Option<Piece>
    ensures { result ≡ piece_of parts.now }
{
    match parts.stage() {
        Stage::Opening if is_next(parts, 0) => Some(Piece::Syn),
        Stage::Running => running_piece(parts),
        _ => None,
    }
}

/// The piece that goes next past the opening.
#[inline(always)]
fn running_piece(parts: &Parts) -> Option<Piece>
    ensures { result ≡ running_of parts.now }
{
    let len = bytes_due(parts);
    if len > 0 {
        return Some(Piece::Data { len });
    }
    if is_probe_due(parts) {
        return Some(Piece::Probe);
    }
    if is_fin_due(parts) {
        return Some(Piece::Fin);
    }
    None
}

/// Whether the next place is this one.
fn is_next(parts: &Parts, place: u128) -> bool
    ensures { result ≡ is_next_at parts.now place }
{
    parts.nxt.0 == parts.iss.plus((place % 0x1_0000_0000) as u32).0
}

/// How many places are sent and not acknowledged, up to the next one.
pub fn in_flight(parts: &Parts) -> u32
    ensures { result ≡ flight_of parts.now }
{
    parts.nxt.minus(parts.una)
}

/// How many bytes wait to be sent.
pub fn bytes_waiting(parts: &Parts) -> u32
    ensures { result ≡ waiting_of parts.now }
{
    parts.tx.len().saturating_sub(in_flight(parts))
}

/// How many bytes may go.
fn bytes_due(parts: &Parts) -> u32
    ensures { result ≡ due_of parts.now }
{
    let waiting = bytes_waiting(parts);
    // Mostly none waits, and nothing else has to be looked at.
    if waiting == 0 {
        return 0;
    }
    let flight = in_flight(parts);
    u32::from(parts.smss)
        .min(waiting)
        .min(parts.window.saturating_sub(flight))
        .min(parts.cwnd.saturating_sub(flight))
        .min(parts.bucket.tokens)
}

/// Whether a byte is to probe a window of 0.
fn is_probe_due(parts: &Parts) -> bool
    ensures { result ≡ probe_due parts.now }
{
    if !parts.probe || parts.window != 0 {
        return false;
    }
    in_flight(parts) == 0 && bytes_waiting(parts) > 0 && parts.smss > 0
}

/// Whether the FIN is due.
fn is_fin_due(parts: &Parts) -> bool
    ensures { result ≡ fin_due parts.now }
{
    parts.is_shut() && is_next(parts, 1 + parts.tx.end())
}

/// The piece that the parts tell is the segment of the model: nothing may go exactly where the endpoint that they stand
/// for has no next segment.
pub fn piece_is_next_segment()
    ensures segment { (p : Parts) (e : Endpoint) → Valid e → Stands p e → model_going e ≡ going_by (piece_of p) e }
    ensures serves { (p : Parts) (e : Endpoint) → Valid e → Stands p e
        → (IsEmission p ins.Emit ↔ IsSome (model_going e)) }
{}
