//! The next segment is sent.

ghost use Rattle.std.specs.Prelude.{◌≡◌, ℕ, ◌+◌, ◌-◌, ◌^◌, ◌==◌, ◌≤◌, ◌<◌, ◌↔◌, max, List, length, take, drop, Some};
ghost use Rattle.std.specs.Prelude.{None, IsSome, IfSome, if◌then◌else◌};
ghost use Rattle.tas_model.specs.declared.entry.Phase.TheVariants as phases;
ghost use Rattle.tas_model.specs.Endpoint.{Endpoint, window_field, phase};
ghost use Rattle.tas_model.specs.Segments.{seq_of, ack_of};
ghost use Rattle.tas_model.specs.ApplicationCalls.{column, Opening, Running};
ghost use Rattle.tas_model.specs.NextSegment.{Going, going as model_going, past, syn_head, waiting, going_data};
ghost use Rattle.tas_model.specs.NextSegment.{going_probe, going_fin};
ghost use Rattle.tas_model.specs.Valid.{Valid};
ghost use Rattle.flow_state.specs.declared.parts.Parts.{Parts};
ghost use Rattle.flow_state.specs.Stands.{Stands};
ghost use Rattle.fast_tx.specs.declared.piece.Piece.TheVariants as pieces;
ghost use Rattle.fast_tx.specs.Piece.{next_piece as piece_of, piece_len, len_of, in_flight as flight_of};
ghost use Rattle.fast_tx.specs.Piece.{bytes_waiting as waiting_of, left_of};
ghost use Rattle.fast_tx.specs.Going.{going_as, going_by, out_of, next_out_of, HasGone, WasNext, left_in};

use crate::piece::{Piece, bytes_waiting, in_flight, next_piece};
use flow_state::Parts;
use tas_model::{Head, Phase};
use tas_num::Seq;

/// A segment that goes: its header, and the number of its bytes.
#[derive(Clone, Copy, PartialEq, Eq, Debug)]
pub struct Out {
    pub head: Head,
    pub len: u32,
}

/// The next segment, which `emit` would send. `None` exactly where nothing may go.
pub fn next_out(parts: &Parts) -> Option<Out>
    ensures segment { (e : Endpoint) → Valid e → Stands parts.now e → result ≡ next_out_of (model_going e) }
    ensures none { result ≡ None ↔ piece_of parts.now ≡ None }
    ensures len { IfSome result (λ out. out.len ≡ len_of (piece_of parts.now)) }
{
    match next_piece(parts) {
        Some(piece) => Some(out_for(parts, piece)),
        None => None,
    }
}

/// Sends the next segment: `out` then begins with its bytes, copied once from the flow's ring.
pub fn emit(parts: &mut Parts, out: &mut [u8]) -> Out
    requires some { IsSome (piece_of parts.old) }
    requires room { len_of (piece_of parts.old) ≤ length out.old }
    ensures made { (e : Endpoint) → Valid e → Stands parts.old e → WasNext parts.new result out.new (model_going e) }
    ensures len { result.len ≡ len_of (piece_of parts.old) }
    ensures falls { (e : Endpoint) → Valid e → Stands parts.old e → left_of parts.new < left_of parts.old }
    ensures tuple { parts.new.tuple ≡ parts.old.tuple }
    ensures params { parts.new.params ≡ parts.old.params }
{
    match next_piece(parts) {
        Some(piece) => send(parts, piece, out),
        None => unreachable!(),
    }
}

/// How many bytes a piece has.
fn len_for(piece: Piece) -> u32
    ensures { result ≡ piece_len piece }
{
    match piece {
        Piece::Syn | Piece::Fin => 0,
        Piece::Data { len } => len,
        Piece::Probe => 1,
    }
}

/// A header of the next place.
fn head_with(parts: &Parts, flags: u8) -> Head
    ensures { (e : Endpoint) → Stands parts.now e
        → result ≡ record {
          flags = flags;
          seq = seq_of e e.tx.nxt;
          ack = ack_of e;
          window = window_field e;
          mss = None;
          scale = None;
        } }
{
    Head {
        flags,
        seq: parts.nxt,
        ack: parts.rcv,
        window: parts.window_field(),
        mss: None,
        scale: None,
    }
}

/// The shift that the answer to a SYN bears: the own one, where the SYN bore one (RFC 7323, section 2.2).
fn scale_in_answer(parts: &Parts) -> Option<u8>
    ensures { (e : Endpoint) → Stands parts.now e
        → result ≡ (if e.scaling.agreed then e.params.scale else None) }
{
    if parts.scaling.agreed {
        parts.params.scale
    } else {
        None
    }
}

/// The header of the SYN, or of SYN and ACK (RFC 9293, section 3.5), with the own MSS and shift.
fn syn_header(parts: &Parts) -> Head
    ensures { (e : Endpoint) → Stands parts.now e → column e ≡ Opening → e.tx.nxt ≡ 0 → result ≡ syn_head e e.peer }
{
    let mss = Some(parts.params.mss);
    match parts.phase {
        Phase::SynSent => Head {
            flags: 2,
            seq: parts.nxt,
            ack: Seq(0),
            window: parts.syn_window_field(),
            mss,
            scale: parts.params.scale,
        },
        _ => Head {
            flags: 18,
            seq: parts.nxt,
            ack: parts.rcv,
            window: parts.syn_window_field(),
            mss,
            scale: scale_in_answer(parts),
        },
    }
}

/// The flags of a segment with so many bytes: PSH where they end all that was accepted.
fn data_flags(parts: &Parts, len: u32) -> u8
    ensures { result ≡ (if len == waiting_of parts.now then 24 else 16) }
{
    if len == bytes_waiting(parts) { 24 } else { 16 }
}

/// The header of the piece that goes next.
fn head_for(parts: &Parts, piece: Piece) -> Head
    ensures { (e : Endpoint) → Valid e → Stands parts.now e → piece_of parts.now ≡ Some piece
        → result ≡ (going_as piece e).seg.head }
{
    match piece {
        Piece::Syn => syn_header(parts),
        Piece::Data { len } => head_with(parts, data_flags(parts, len)),
        Piece::Probe => head_with(parts, data_flags(parts, 1)),
        Piece::Fin => head_with(parts, 17),
    }
}

/// The segment of the piece that goes next.
fn out_for(parts: &Parts, piece: Piece) -> Out
    ensures segment { (e : Endpoint) → Valid e → Stands parts.now e → piece_of parts.now ≡ Some piece
        → result ≡ out_of (going_as piece e) }
    ensures len { result.len ≡ piece_len piece }
{
    Out {
        head: head_for(parts, piece),
        len: len_for(piece),
    }
}

/// Sends the piece that goes next.
pub fn send(parts: &mut Parts, piece: Piece, out: &mut [u8]) -> Out
    requires next { piece_of parts.old ≡ Some piece }
    requires room { piece_len piece ≤ length out.old }
    ensures made { (e : Endpoint) → Valid e → Stands parts.old e → HasGone parts.new result out.new (going_as piece e) }
    ensures len { result.len ≡ piece_len piece }
    ensures tuple { parts.new.tuple ≡ parts.old.tuple }
    ensures params { parts.new.params ≡ parts.old.params }
{
    let sent = out_for(parts, piece);
    copy_next(parts, sent.len, out);
    move_past(parts, piece);
    sent
}

/// Copies the next bytes to the beginning of `out`.
fn copy_next(parts: &Parts, len: u32, out: &mut [u8])
    requires waiting { len ≤ waiting_of parts.now }
    requires room { len ≤ length out.old }
    ensures { take len out.new ≡ take len (drop (flight_of parts.now) parts.now.tx.bytes) }
{
    if len > 0 {
        let from = parts.tx.base() + u128::from(in_flight(parts));
        parts.tx.copy_out(from, &mut out[..len as usize]);
    }
}

/// What the sending of a piece leaves.
fn move_past(parts: &mut Parts, piece: Piece)
    requires next { piece_of parts.old ≡ Some piece }
    ensures after { (e : Endpoint) → Valid e → Stands parts.old e → Stands parts.new (going_as piece e).after }
    ensures tuple { parts.new.tuple ≡ parts.old.tuple }
    ensures params { parts.new.params ≡ parts.old.params }
{
    match piece {
        Piece::Syn | Piece::Fin => move_next(parts, 1),
        Piece::Data { len } => {
            pay(parts, len);
            move_next(parts, len);
        }
        Piece::Probe => note_probe(parts),
    }
}

/// Takes the tokens for so many bytes.
fn pay(parts: &mut Parts, len: u32)
    requires { len ≤ parts.old.bucket.tokens }
    ensures after { (e : Endpoint) → Stands parts.old e
        → Stands parts.new (record e { rate = record (e.rate) { tokens = e.rate.tokens - len } }) }
    ensures tuple { parts.new.tuple ≡ parts.old.tuple }
    ensures params { parts.new.params ≡ parts.old.params }
{
    parts.bucket.take(len);
}

/// Past the highest place sent, once so many places from the next one on are sent.
fn max_after(parts: &Parts, places: u32) -> Seq
    ensures { (e : Endpoint) → Stands parts.now e → e.tx.nxt ≤ e.tx.max → e.tx.max < e.tx.nxt + 2 ^ 32
        → result ≡ seq_of e (max e.tx.max (e.tx.nxt + places)) }
{
    if parts.max.minus(parts.nxt) < places {
        parts.nxt.plus(places)
    } else {
        parts.max
    }
}

/// So many places more are sent.
fn move_next(parts: &mut Parts, places: u32)
    ensures after { (e : Endpoint) → Stands parts.old e → e.tx.nxt ≤ e.tx.max → e.tx.max < e.tx.nxt + 2 ^ 32
        → Stands parts.new (record e { tx = past e.tx places }) }
    ensures tuple { parts.new.tuple ≡ parts.old.tuple }
    ensures params { parts.new.params ≡ parts.old.params }
{
    parts.max = max_after(parts, places);
    parts.nxt = parts.nxt.plus(places);
}

/// A probe was sent. Its byte stays the next.
fn note_probe(parts: &mut Parts)
    ensures after { (e : Endpoint) → Stands parts.old e → e.tx.nxt ≤ e.tx.max → e.tx.max < e.tx.nxt + 2 ^ 32
        → Stands parts.new (going_probe e).after }
    ensures tuple { parts.new.tuple ≡ parts.old.tuple }
    ensures params { parts.new.params ≡ parts.old.params }
{
    parts.max = max_after(parts, 1);
    parts.probe = false;
}

/// How much is left to send: the places up to past the FIN's, and a probe that is due. Each emission makes it less, so
/// a loop over `emit` ends.
pub fn left_to_send(parts: &Parts) -> u64
    ensures exact { result ≡ left_of parts.now }
    ensures left { (e : Endpoint) → Valid e → Stands parts.now e → result ≡ left_in e }
{
    let past_fin = (2 + parts.tx.end()) % 0x1_0000_0000;
    let places = parts.iss.plus(past_fin as u32).minus(parts.nxt);
    u64::from(places) + u64::from(parts.probe)
}

/// Each emission leaves less to send: of the endpoint, and so of the parts that stand for it.
pub fn emission_ends()
    ensures ends { (e : Endpoint) (g : Going) → model_going e ≡ Some g → left_in g.after < left_in e }
    ensures falls { (before after : Parts) (e : Endpoint) (g : Going) → Valid e → Stands before e
        → model_going e ≡ Some g → Stands after g.after → left_of after < left_of before }
{}
