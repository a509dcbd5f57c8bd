//! What becomes of a segment's bytes and its FIN (RFC 9293, section 3.10.7.4, seventh and eighth).

ghost use Rattle.std.specs.Prelude.{◌≡◌, ℕ, ◌+◌, ◌-◌, ◌^◌, ◌<◌, ◌≤◌, Some, true, false, length, max, min};
ghost use Rattle.payload_ring.specs.Window.{end_of, room_of};
ghost use Rattle.tas_model.specs.Endpoint.{Endpoint, Island};
ghost use Rattle.tas_model.specs.Reassembly.{with_data, with_part, grown, kept_apart, trimmed as model_trimmed};
ghost use Rattle.tas_model.specs.Valid.{ValidReceiving};
ghost use Rattle.flow_state.specs.Stands.{Stands};
ghost use Rattle.fast_rx.specs.Islands.{bridge, rest};

use crate::acking::number_at;
use flow_state::Parts;

/// The part of a payload, whose first byte has the place `q`, from the next place to the end of the window.
fn trimmed(next: u128, window: u32, q: u128, payload: &[u8]) -> &[u8]
    requires next { next < 2 ^ 127 }
    ensures part { result.now ≡ model_trimmed next window q payload.now }
    ensures within { length result.now ≤ next + window - max q next }
{
    let skipped = next.saturating_sub(q).min(payload.len() as u128) as usize;
    let rest = &payload[skipped..];
    let room = (next + u128::from(window)).saturating_sub(q.max(next));
    let kept = room.min(rest.len() as u128) as usize;
    &rest[..kept]
}

/// Receives the bytes of a payload, whose first one has the place `q`, that lie in the window, where the peer's FIN was
/// not taken (RFC 9293, section 3.10.7.4, seventh). Those in order are received, and one stretch past a gap is kept.
pub fn take_data(parts: &mut Parts, q: u128, window: u32, payload: &[u8])
    requires ready { parts.old.rx.ready ≡ true }
    requires room { window ≤ room_of parts.old.rx }
    requires near { end_of parts.old.rx + 2 < 2 ^ 126 }
    ensures stands { (e : Endpoint) → ValidReceiving e.params.ring e.rx → e.rx.ended ≡ false → Stands parts.old e
        → Stands parts.new (record e { rx = with_data e.rx window q payload.now }) }
    ensures params { parts.new.params ≡ parts.old.params }
    ensures tuple { parts.new.tuple ≡ parts.old.tuple }
{
    let _size = parts.rx.size();
    let end = parts.rx.end();
    let part = trimmed(end + 1, window, q, payload);
    if part.is_empty() {
        return;
    }
    let at = q.max(end + 1) - 1;
    if at > end {
        keep_apart(parts, at, part);
    } else {
        grow(parts, part);
    }
}

/// How many bytes of what stands past a gap are in order, once `count` more bytes are; at most `room`.
fn bridge(island: Option<(u32, u32)>, count: u32, room: u32) -> u32
    ensures { result ≡ min (bridge island count) room }
{
    match island {
        Some((first, len)) if first <= count => {
            let end = u64::from(first) + u64::from(len);
            end.saturating_sub(u64::from(count)).min(u64::from(room)) as u32
        }
        _ => 0,
    }
}

/// What is left past a gap, once `count` more bytes are in order.
fn rest(island: Option<(u32, u32)>, count: u32) -> Option<(u32, u32)>
    ensures { result ≡ rest island count }
{
    match island {
        Some((first, len)) if first > count => Some((first - count, len)),
        _ => None,
    }
}

/// Receives bytes in order, and those past the gap that they close.
fn grow(parts: &mut Parts, part: &[u8])
    requires ready { parts.old.rx.ready ≡ true }
    requires room { length part.now ≤ room_of parts.old.rx }
    requires near { end_of parts.old.rx + 2 < 2 ^ 126 }
    ensures stands { (e : Endpoint) → ValidReceiving e.params.ring e.rx → e.rx.ended ≡ false → Stands parts.old e
        → Stands parts.new (record e { rx = grown e.rx part.now }) }
    ensures params { parts.new.params ≡ parts.old.params }
    ensures tuple { parts.new.tuple ≡ parts.old.tuple }
{
    let _size = parts.rx.size();
    let count = part.len() as u32;
    parts.rx.append(part);
    let more = bridge(parts.island, count, parts.rx.room());
    parts.rx.advance(more);
    parts.island = rest(parts.island, count);
    parts.rcv = number_at(parts.irs, parts.rx.end() + 1);
}

/// Keeps bytes past a gap, where they are the first or meet those that are kept.
fn keep_apart(parts: &mut Parts, at: u128, part: &[u8])
    requires ready { parts.old.rx.ready ≡ true }
    requires past { end_of parts.old.rx < at }
    requires within { at + length part.now ≤ parts.old.rx.base + parts.old.rx.size }
    ensures stands { (e : Endpoint) → ValidReceiving e.params.ring e.rx → 0 < length part.now → Stands parts.old e
        → Stands parts.new (record e { rx = record (e.rx) { island = kept_apart e.rx.island at part.now } }) }
    ensures params { parts.new.params ≡ parts.old.params }
    ensures tuple { parts.new.tuple ≡ parts.old.tuple }
{
    let _size = parts.rx.size();
    match parts.island {
        Some((first, len)) => join(parts, first, len, at, part),
        None => {
            let first = (at - parts.rx.end()) as u32;
            parts.rx.put_at(at, part);
            parts.island = Some((first, part.len() as u32));
        }
    }
}

/// Joins bytes to those that are kept, `len` bytes from `first` past the end on, where they overlap or touch. Bytes
/// that are held already stay.
fn join(parts: &mut Parts, first: u32, len: u32, at: u128, part: &[u8])
    requires ready { parts.old.rx.ready ≡ true }
    requires past { end_of parts.old.rx < at }
    requires within { at + length part.now ≤ parts.old.rx.base + parts.old.rx.size }
    ensures stands { (e : Endpoint) (i : Island) → ValidReceiving e.params.ring e.rx → e.rx.island ≡ Some i
        → 0 < length part.now → first ≡ i.at - end_of parts.old.rx → len ≡ length i.bytes → Stands parts.old e
        → Stands parts.new (record e { rx = record (e.rx) { island = kept_apart (Some i) at part.now } }) }
    ensures params { parts.new.params ≡ parts.old.params }
    ensures tuple { parts.new.tuple ≡ parts.old.tuple }
{
    let _size = parts.rx.size();
    let from = (at - parts.rx.end()) as u32;
    let to = from + part.len() as u32;
    let last = first.saturating_add(len);
    if from > last || first > to {
        return;
    }
    let before = (first.saturating_sub(from) as usize).min(part.len());
    let behind = ((last - from) as usize).min(part.len());
    parts.rx.put_at(at, &part[..before]);
    parts.rx.put_at(at + behind as u128, &part[behind..]);
    let start = first.min(from);
    parts.island = Some((start, last.max(to) - start));
}
