//! Recv (RFC 9293, section 3.9.1.3).

ghost use Rattle.std.specs.Prelude.{◌≡◌, ℕ, List, ◌+◌, ◌-◌, ◌^◌, ◌<◌, ◌≤◌, length, take, drop, min};
ghost use Rattle.tas_model.specs.Endpoint.{Endpoint};
ghost use Rattle.tas_model.specs.ApplicationCalls.{column, recv_open as model_recv_open, recv_given, recv_in};
ghost use Rattle.tas_model.specs.ApplicationCalls.{empty_reply};
ghost use Rattle.tas_model.specs.Valid.{Valid};
ghost use Rattle.flow_state.specs.Stands.{Stands};
ghost use Rattle.flow_state.specs.Calls.{reply_of, answer_len};
ghost use Rattle.flow_state.specs.Made.{IsOutcome};
ghost use Rattle.flow_state.specs.App.{update_from};

use crate::call::Answer;
use crate::parts::Parts;
use crate::stage::Stage;
use payload_ring::Ring;
use tas_model::{Head, Reason};

/// Recv in any phase.
pub fn recv(parts: &mut Parts, most: u32, out: &mut [u8]) -> Answer
    requires { min most (length parts.old.rx.bytes) ≤ length out.old }
    ensures made { (e : Endpoint) → Valid e → Stands parts.old e
        → IsOutcome parts.new result out.new (recv_in (column e) e most) }
    ensures len { answer_len result ≤ min most (length parts.old.rx.bytes) }
    ensures params { parts.new.params ≡ parts.old.params }
    ensures tuple { parts.new.tuple ≡ parts.old.tuple }
{
    match parts.stage() {
        Stage::Opening => Answer::NotOpen,
        Stage::Over(Reason::Done) | Stage::Running => recv_open(parts, most, out),
        Stage::Over(reason) => Answer::Closed { reason },
    }
}

/// Recv where bytes may be left.
fn recv_open(parts: &mut Parts, most: u32, out: &mut [u8]) -> Answer
    requires { min most (length parts.old.rx.bytes) ≤ length out.old }
    ensures made { (e : Endpoint) → Valid e → Stands parts.old e
        → IsOutcome parts.new result out.new (model_recv_open e most) }
    ensures len { answer_len result ≤ min most (length parts.old.rx.bytes) }
    ensures params { parts.new.params ≡ parts.old.params }
    ensures tuple { parts.new.tuple ≡ parts.old.tuple }
{
    if parts.rx.len() == 0 {
        return empty_answer(parts);
    }
    recv_some(parts, most, out)
}

/// The answer where nothing is unread.
fn empty_answer(parts: &Parts) -> Answer
    ensures made { (out : List ℕ) (e : Endpoint) → Valid e → Stands parts.now e
        → reply_of result out ≡ empty_reply e.reason e.rx.ended }
    ensures len { answer_len result ≡ 0 }
{
    if parts.is_ended() {
        return Answer::End;
    }
    match parts.reason {
        Some(reason) => Answer::Closed { reason },
        None => Answer::NotYet,
    }
}

/// Gives the first unread bytes.
fn recv_some(parts: &mut Parts, most: u32, out: &mut [u8]) -> Answer
    requires room { min most (length parts.old.rx.bytes) ≤ length out.old }
    ensures made { (e : Endpoint) → Valid e → Stands parts.old e
        → IsOutcome parts.new result out.new (recv_given e most) }
    ensures len { answer_len result ≤ min most (length parts.old.rx.bytes) }
    ensures params { parts.new.params ≡ parts.old.params }
    ensures tuple { parts.new.tuple ≡ parts.old.tuple }
{
    let count = most.min(parts.rx.len());
    let before = parts.rx.room();
    copy_front(&parts.rx, count, out);
    parts.rx.drop_front(count);
    rewind_empty(parts);
    Answer::Got {
        len: count,
        update: update(parts, before),
    }
}

/// Where all was read and nothing stands past a gap, what comes next goes to the ring's first cells again.
fn rewind_empty(parts: &mut Parts)
    ensures same { (e : Endpoint) → Stands parts.old e → Stands parts.new e }
    ensures len { parts.new.rx.bytes ≡ parts.old.rx.bytes }
    ensures params { parts.new.params ≡ parts.old.params }
    ensures tuple { parts.new.tuple ≡ parts.old.tuple }
{
    if parts.rx.len() == 0 && parts.island.is_none() {
        parts.rx.rewind();
    }
}

/// Copies the first bytes that stand in order.
fn copy_front(rx: &Ring, count: u32, out: &mut [u8])
    requires room { count ≤ length out.old }
    requires there { count ≤ length rx.now.bytes }
    ensures { take count out.new ≡ take count rx.now.bytes }
{
    rx.copy_out(rx.base(), &mut out[..count as usize]);
}

/// The update that reopens a window which had this room before (RFC 9293, section 3.8.6.2.2).
fn update(parts: &Parts, before: u32) -> Option<Head>
    ensures { (e : Endpoint) → Valid e → Stands parts.now e → result ≡ update_from before e }
{
    let least = parts.least_update();
    if !parts.is_ended() && before < least && least <= parts.rx.room() {
        Some(parts.ack_head())
    } else {
        None
    }
}
