//! Send (RFC 9293, section 3.9.1.2).

ghost use Rattle.std.specs.Prelude.{◌≡◌, ℕ, List, ◌+◌, ◌-◌, ◌^◌, ◌<◌, ◌≤◌, ◌++◌, true, false, length, take, min};
ghost use Rattle.payload_ring.specs.Window.{room_of};
ghost use Rattle.tas_model.specs.declared.entry.Reply.TheVariants as replies;
ghost use Rattle.tas_model.specs.Endpoint.{Endpoint, send_room};
ghost use Rattle.tas_model.specs.ApplicationCalls.{column, Running, send_in};
ghost use Rattle.tas_model.specs.Valid.{Valid};
ghost use Rattle.flow_state.specs.Stands.{Stands, IsNear, HasRings};
ghost use Rattle.flow_state.specs.Calls.{answer_len};
ghost use Rattle.flow_state.specs.Made.{IsOutcome, IsStep};

use crate::call::Answer;
use crate::parts::Parts;
use crate::stage::Stage;

/// Send in any phase.
pub fn send(parts: &mut Parts, bytes: &[u8], out: &mut [u8]) -> Answer
    requires room { min (length bytes.now) (room_of parts.old.tx) ≤ length out.old }
    requires small { length bytes.now < 2 ^ 32 }
    requires near { IsNear parts.old }
    requires rings { HasRings parts.old }
    ensures made { (e : Endpoint) → Valid e → Stands parts.old e
        → IsStep parts.new result out.new (send_in (column e) e (length bytes.now) (take (send_room e) bytes.now)) }
    ensures len { answer_len result ≤ min (length bytes.now) (room_of parts.old.tx) }
    ensures params { parts.new.params ≡ parts.old.params }
    ensures tuple { parts.new.tuple ≡ parts.old.tuple }
{
    match parts.stage() {
        Stage::Opening => Answer::NotOpen,
        Stage::Over(reason) => Answer::Closed { reason },
        Stage::Running => send_open(parts, bytes, out),
    }
}

/// Send where the connection stands: the first bytes that fit are taken.
fn send_open(parts: &mut Parts, bytes: &[u8], out: &mut [u8]) -> Answer
    requires room { min (length bytes.now) (room_of parts.old.tx) ≤ length out.old }
    requires small { length bytes.now < 2 ^ 32 }
    requires near { IsNear parts.old }
    requires ready { parts.old.tx.ready ≡ true }
    ensures made { (e : Endpoint) → Valid e → Stands parts.old e → column e ≡ Running
        → IsStep parts.new result out.new (send_in Running e (length bytes.now) (take (send_room e) bytes.now)) }
    ensures len { answer_len result ≤ min (length bytes.now) (room_of parts.old.tx) }
    ensures params { parts.new.params ≡ parts.old.params }
    ensures tuple { parts.new.tuple ≡ parts.old.tuple }
{
    if parts.is_shut() {
        return Answer::Shut;
    }
    let count = bytes.len().min(parts.tx.room() as usize);
    if count == 0 && !bytes.is_empty() {
        return Answer::NotYet;
    }
    take_bytes(parts, &bytes[..count], out)
}

/// Takes bytes for which there is room.
fn take_bytes(parts: &mut Parts, piece: &[u8], out: &mut [u8]) -> Answer
    requires room { length piece.now ≤ length out.old }
    requires fits { length piece.now ≤ parts.old.tx.size - length parts.old.tx.bytes }
    requires small { length piece.now < 2 ^ 32 }
    requires near { IsNear parts.old }
    requires ready { parts.old.tx.ready ≡ true }
    ensures made { (e : Endpoint) → Valid e → Stands parts.old e → e.tx.shut ≡ false
        → IsOutcome parts.new result out.new
        (record {
          state = record e { tx = record (e.tx) { out = e.tx.out ++ piece.now } };
          reply = replies.Took piece.now;
        }) }
    ensures len { answer_len result ≡ length piece.now }
    ensures params { parts.new.params ≡ parts.old.params }
    ensures tuple { parts.new.tuple ≡ parts.old.tuple }
{
    let _size = parts.tx.size();
    parts.tx.append(piece);
    out[..piece.len()].copy_from_slice(piece);
    Answer::Took {
        len: piece.len() as u32,
    }
}
