//! What an acknowledgement does (RFC 9293, section 3.10.7.4, fifth).

ghost use Rattle.std.specs.Prelude.{◌≡◌, ℕ, ◌+◌, ◌-◌, ◌<◌, ◌≤◌, ◌==◌, ◌&&◌, ◌||◌, Some, max, min, length, nat_lt};
ghost use Rattle.std.specs.Prelude.{nat_le, if◌then◌else◌};
ghost use Rattle.tas_model.specs.declared.entry.Phase.TheVariants as phases;
ghost use Rattle.tas_model.specs.declared.entry.Reason.TheVariants as reasons;
ghost use Rattle.tas_model.specs.Endpoint.{Endpoint, is_fin_acked, counted};
ghost use Rattle.tas_model.specs.Segments.{seq_at};
ghost use Rattle.tas_model.specs.Receive.{after_ack, after_advance, with_window, rate_after, closes, begins_wait};
ghost use Rattle.tas_model.specs.Receive.{ack_verdict, Good, is_duplicate as model_duplicate};
ghost use Rattle.tas_model.specs.Receive.{moves_window as model_moves};
ghost use Rattle.tas_model.specs.Valid.{Valid, ValidSending};
ghost use Rattle.flow_state.specs.Stands.{Stands};
ghost use Rattle.fast_rx.specs.Phases.{phase_after_ack as model_phase};

use flow_state::Parts;
use rate_bucket::Counters;
use tas_model::{Phase, Reason};
use tas_num::Seq;

/// The sequence number at a place, counted from the direction's first one.
pub fn number_at(first: Seq, place: u128) -> Seq
    ensures { result ≡ seq_at first.0 place }
{
    first.plus((place % 0x1_0000_0000) as u32)
}

/// Takes an acknowledgement of the place `a`, which may be acknowledged, in a segment of `len` places from `q` on (RFC
/// 9293, section 3.10.7.4, fifth; RFC 5681, sections 2 and 3.2). `window` is what it offers, in bytes, and `ended`
/// tells whether the peer's FIN was taken before.
pub fn take_ack(parts: &mut Parts, a: u128, q: u128, len: u128, window: u32, ended: bool, tick: u32)
    ensures stands { (e : Endpoint) → Valid e → Stands parts.old e → ended ≡ e.rx.ended → ack_verdict e.tx a ≡ Good
        → Stands parts.new (after_ack e tick a q len window) }
    ensures rx { parts.new.rx ≡ parts.old.rx }
    ensures params { parts.new.params ≡ parts.old.params }
    ensures tuple { parts.new.tuple ≡ parts.old.tuple }
{
    let (una, nxt, max) = (parts.una_place(), parts.nxt_place(), parts.max_place());
    let before = parts.phase;
    let duplicate = is_duplicate(una, max, parts.window, a, len, window);
    let moves = moves_window(una, parts.wl1, parts.wl2, a, q);
    let fin_acked = una.max(a) == parts.tx.end() + 2;
    count(parts, una, a, duplicate);
    advance(parts, una, nxt, a, ended);
    count_duplicate(parts, duplicate);
    take_window(parts, a, q, window, moves);
    settle(parts, before, fin_acked, tick);
}

/// Whether it acknowledges and offers the same again while data is in flight (RFC 5681, section 2).
fn is_duplicate(una: u128, max: u128, offered: u32, a: u128, len: u128, window: u32) -> bool
    ensures { result ≡ (nat_lt una max && nat_lt 0 offered && len == 0 && a == una && window == offered) }
{
    una < max && offered > 0 && len == 0 && a == una && window == offered
}

/// Whether the segment is at least as new as the one that the window is from.
fn moves_window(una: u128, wl1: u128, wl2: u128, a: u128, q: u128) -> bool
    ensures { result ≡ (una == 0 || (nat_le una a && (nat_lt wl1 q || (wl1 == q && nat_le wl2 a)))) }
{
    una == 0 || una <= a && (wl1 < q || wl1 == q && wl2 <= a)
}

/// The counter of the places acknowledged, after those from `una` to `a`.
fn acked_after(acked: u32, una: u128, a: u128) -> u32
    ensures { result ≡ (if nat_lt una a then counted (acked + (a - una)) else acked) }
{
    let gained = a.saturating_sub(una).min(0xffff_ffff) as u32;
    acked.saturating_add(gained)
}

/// The counter of the fast retransmissions, with one more where there is one.
fn fast_after(fast: u32, goes_back: bool) -> u32
    ensures { result ≡ (if goes_back then counted (fast + 1) else fast) }
{
    fast.saturating_add(u32::from(goes_back))
}

/// Counts what is acknowledged for the first time, and a third duplicate. The counts begin where the own SYN is
/// acknowledged.
fn count(parts: &mut Parts, una: u128, a: u128, duplicate: bool)
    ensures stands { (e : Endpoint) (len window : ℕ) → Stands parts.old e → una ≡ e.tx.una
        → duplicate ≡ model_duplicate e.tx a len window
        → Stands parts.new (record e { rate = rate_after e.rate e.tx a len window }) }
    ensures rx { parts.new.rx ≡ parts.old.rx }
    ensures params { parts.new.params ≡ parts.old.params }
    ensures tuple { parts.new.tuple ≡ parts.old.tuple }
{
    if una == 0 {
        parts.counters = Counters {
            acked: 0,
            fast: 0,
            timeouts: 0,
            flight: 0,
        };
        return;
    }
    parts.counters.acked = acked_after(parts.counters.acked, una, a);
    parts.counters.fast = fast_after(parts.counters.fast, duplicate && parts.dup == 2);
}

/// The state once the first place that is not acknowledged has moved (RFC 9293, section 3.3.2).
fn phase_after_ack(phase: Phase, ended: bool, fin_acked: bool) -> Phase
    ensures { result ≡ model_phase phase ended fin_acked }
{
    match phase {
        Phase::SynReceived if ended => Phase::CloseWait,
        Phase::SynReceived => Phase::Established,
        Phase::FinWait1 if fin_acked => Phase::FinWait2,
        Phase::Closing if fin_acked => Phase::TimeWait,
        other => other,
    }
}

/// Lets go what is acknowledged for the first time, where the place `a` is past `una`.
fn advance(parts: &mut Parts, una: u128, nxt: u128, a: u128, ended: bool)
    ensures stands { (e : Endpoint) → ValidSending e.params.ring e.tx → Stands parts.old e → una ≡ e.tx.una
        → nxt ≡ e.tx.nxt → ended ≡ e.rx.ended → a ≤ e.tx.max
        → Stands parts.new (record e { tx = after_advance e.tx a }) }
    ensures rx { parts.new.rx ≡ parts.old.rx }
    ensures params { parts.new.params ≡ parts.old.params }
    ensures tuple { parts.new.tuple ≡ parts.old.tuple }
{
    if a <= una {
        return;
    }
    let end = parts.tx.end();
    let gone = (a - 1).min(end).saturating_sub(parts.tx.base()) as u32;
    parts.tx.drop_front(gone);
    parts.una = number_at(parts.iss, a);
    parts.nxt = number_at(parts.iss, nxt.max(a));
    parts.dup = 0;
    parts.age = 0;
    parts.tries = 0;
    parts.phase = phase_after_ack(parts.phase, ended, a == end + 2);
}

/// Counts a duplicate. The third one goes back to the first place that is not acknowledged.
fn count_duplicate(parts: &mut Parts, duplicate: bool)
    ensures stands { (e : Endpoint) → Stands parts.old e
        → Stands parts.new (record e {
          tx = if duplicate
              then record (e.tx) { dup = min 3 (e.tx.dup + 1); nxt = if e.tx.dup == 2 then e.tx.una else e.tx.nxt }
              else e.tx;
        }) }
    ensures rx { parts.new.rx ≡ parts.old.rx }
    ensures params { parts.new.params ≡ parts.old.params }
    ensures tuple { parts.new.tuple ≡ parts.old.tuple }
{
    if !duplicate {
        return;
    }
    parts.nxt = if parts.dup == 2 { parts.una } else { parts.nxt };
    parts.dup = parts.dup.saturating_add(1).min(3);
}

/// 0 under the condition, else the number.
fn unless(condition: bool, number: u32) -> u32
    ensures { result ≡ (if condition then 0 else number) }
{
    if condition { 0 } else { number }
}

/// Takes the peer's window, where it is a newer one.
fn take_window(parts: &mut Parts, a: u128, q: u128, window: u32, moves: bool)
    ensures stands { (e : Endpoint) → Stands parts.old e
        → Stands parts.new (record e { tx = if moves then with_window e.tx a q window else e.tx }) }
    ensures rx { parts.new.rx ≡ parts.old.rx }
    ensures params { parts.new.params ≡ parts.old.params }
    ensures tuple { parts.new.tuple ≡ parts.old.tuple }
{
    if !moves {
        return;
    }
    let opens = parts.window == 0 && window > 0;
    parts.age = unless(opens, parts.age);
    parts.probe = parts.probe && !opens;
    parts.tries = unless(window == 0, u32::from(parts.tries)) as u8;
    parts.window = window;
    parts.wl1 = q;
    parts.wl2 = a;
}

/// The acknowledgement of the own FIN ends LAST-ACK, and begins TIME-WAIT in CLOSING.
fn settle(parts: &mut Parts, before: Phase, fin_acked: bool, tick: u32)
    ensures stands { (e : Endpoint) → Stands parts.old e → fin_acked ≡ is_fin_acked e.tx
        → Stands parts.new (record e {
          reason = if closes before e.tx then Some reasons.Done else e.reason;
          entered = if begins_wait before e.tx then tick else e.entered;
        }) }
    ensures rx { parts.new.rx ≡ parts.old.rx }
    ensures params { parts.new.params ≡ parts.old.params }
    ensures tuple { parts.new.tuple ≡ parts.old.tuple }
{
    if !fin_acked {
        return;
    }
    match before {
        Phase::LastAck => {
            parts.reason = Some(Reason::Done);
            parts.phase = Phase::Closed;
        }
        Phase::Closing => parts.entered = tick,
        _ => {}
    }
}
