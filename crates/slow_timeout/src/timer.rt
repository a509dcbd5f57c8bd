//! The retransmission timer, and the end of TIME-WAIT (RFC 9293, sections 3.8.1 and 3.10.8).

ghost use Rattle.std.specs.Prelude.{◌≡◌, ℕ, ◌+◌, ◌-◌, ◌*◌, ◌^◌, ◌≤◌, ◌<◌, nat_le, List, min, true, false, Some, None};
ghost use Rattle.tas_model.specs.declared.entry.Reason.TheVariants as reasons;
ghost use Rattle.tas_model.specs.Endpoint.{Endpoint};
ghost use Rattle.tas_model.specs.Timers.{ticks, filled, aged, ticked, waited, expired, is_armed as model_is_armed};
ghost use Rattle.tas_model.specs.Timers.{patience as model_patience, probes as model_probes};
ghost use Rattle.tas_model.specs.Valid.{Valid};
ghost use Rattle.flow_state.specs.Stands.{Stands};
ghost use Rattle.flow_state.specs.Calls.{answer_len, is_closed_phase};
ghost use Rattle.tas_model.specs.declared.entry.Phase.TheVariants as phases;
ghost use Rattle.flow_state.specs.Made.{IsOutcome, IsStep, AreQuietTicks, IsLoudTick};
ghost use Rattle.flow_state.specs.declared.call.Answer.TheVariants as answers;
ghost use Rattle.slow_timeout.specs.Passing.{MayPass};
ghost use Rattle.slow_timeout.specs.Age.{next_age as model_next_age, early_ticks as model_early_ticks};

use flow_state::{Answer, Parts};
use tas_model::{Phase, Reason};

/// One tick of a flow that is not closed: the bucket's fill, then TIME-WAIT or the retransmission timer (RFC 9293,
/// sections 3.8.1 and 3.10.8).
pub fn tick(parts: &mut Parts, now: u32) -> Answer
    requires { is_closed_phase parts.old.phase ≡ false }
    ensures made { (out : List ℕ) (e : Endpoint) → Valid e → Stands parts.old e
        → IsStep parts.new result out (ticks e now) }
    ensures len { answer_len result ≡ 0 }
    ensures tuple { parts.new.tuple ≡ parts.old.tuple }
    ensures params { parts.new.params ≡ parts.old.params }
{
    fill(parts);
    match parts.phase {
        Phase::TimeWait => wait(parts, now),
        _ => run_timer(parts),
    }
}

/// Ticks of a flow that is not closed, from this one on, as long as nothing comes of them but the bucket's fill and the
/// timer's age, and at most so many. Answers how many passed.
#[inline(always)]
pub fn pass_quietly(parts: &mut Parts, from: u32, count: u32) -> u32
    requires open { is_closed_phase parts.old.phase ≡ false }
    requires room { from + count ≤ 2 ^ 32 }
    ensures made { AreQuietTicks parts.old from result parts.new }
    ensures most { result ≤ count }
    ensures all { result < count → IsLoudTick parts.new (from + result) }
    ensures tuple { parts.new.tuple ≡ parts.old.tuple }
    ensures params { parts.new.params ≡ parts.old.params }
{
    let mut done = 0;
    while done < count {
        if !pass_one(parts, from + done) {
            return done;
        }
        done += 1;
    }
    done
}

/// One tick of a flow that is not closed, where nothing comes of it but the bucket's fill and the timer's age, and says
/// whether that is so. Else nothing changes.
#[inline(always)]
fn pass_one(parts: &mut Parts, now: u32) -> bool
    requires { is_closed_phase parts.old.phase ≡ false }
    ensures { MayPass parts.old now result parts.new }
{
    if let Phase::TimeWait = parts.phase {
        return wait_on(parts, now);
    }
    let Some(age) = next_age(parts) else {
        return false;
    };
    fill(parts);
    set_age(parts, age);
    true
}

/// The same in TIME-WAIT.
fn wait_on(parts: &mut Parts, now: u32) -> bool
    requires { parts.old.phase ≡ phases.TimeWait }
    ensures { MayPass parts.old now result parts.new }
{
    if has_waited(parts, now) {
        return false;
    }
    fill(parts);
    true
}

/// The bucket gets its fill.
fn fill(parts: &mut Parts)
    ensures after { (e : Endpoint) → Stands parts.old e → Stands parts.new (record e { rate = filled e.rate }) }
    ensures phase { parts.new.phase ≡ parts.old.phase }
    ensures tuple { parts.new.tuple ≡ parts.old.tuple }
    ensures params { parts.new.params ≡ parts.old.params }
{
    parts.bucket.tick();
}

/// A tick of TIME-WAIT, which ends four timeouts after it began.
fn wait(parts: &mut Parts, now: u32) -> Answer
    ensures made { (out : List ℕ) (e : Endpoint) → Stands parts.old e → IsOutcome parts.new result out (waited e now) }
    ensures len { answer_len result ≡ 0 }
    ensures tuple { parts.new.tuple ≡ parts.old.tuple }
    ensures params { parts.new.params ≡ parts.old.params }
{
    if !has_waited(parts, now) {
        return Answer::Quiet;
    }
    end_wait(parts);
    Answer::Expired
}

/// Whether TIME-WAIT has lasted for four timeouts.
fn has_waited(parts: &Parts, now: u32) -> bool
    ensures { (e : Endpoint) → Stands parts.now e → result ≡ nat_le (4 * e.params.rto) (now - e.entered) }
{
    let waited = u64::from(now.saturating_sub(parts.entered));
    waited >= 4 * u64::from(parts.params.rto)
}

/// TIME-WAIT is over.
fn end_wait(parts: &mut Parts)
    ensures after { (e : Endpoint) → Stands parts.old e → Stands parts.new (record e { reason = Some reasons.Done }) }
    ensures tuple { parts.new.tuple ≡ parts.old.tuple }
    ensures params { parts.new.params ≡ parts.old.params }
{
    parts.reason = Some(Reason::Done);
    parts.phase = Phase::Closed;
}

/// A tick of the retransmission timer.
fn run_timer(parts: &mut Parts) -> Answer
    ensures made { (out : List ℕ) (e : Endpoint) → Valid e → Stands parts.old e → e.reason ≡ None
        → IsOutcome parts.new result out (ticked e) }
    ensures len { answer_len result ≡ 0 }
    ensures tuple { parts.new.tuple ≡ parts.old.tuple }
    ensures params { parts.new.params ≡ parts.old.params }
{
    match next_age(parts) {
        Some(age) => {
            set_age(parts, age);
            Answer::Quiet
        }
        None => expire(parts),
    }
}

/// For how many ticks the timer has run after this one; `None` where it runs out.
#[inline(always)]
fn next_age(parts: &Parts) -> Option<u32>
    ensures { (e : Endpoint) → Valid e → Stands parts.now e → result ≡ model_next_age e }
{
    if !is_armed(parts) {
        return Some(0);
    }
    let age = parts.age.saturating_add(1);
    if u64::from(age) < patience(parts) {
        Some(age)
    } else {
        None
    }
}

/// In how many ticks more the timer doesn't run out; where it doesn't run, in as many as can be told.
pub fn early_ticks(parts: &Parts) -> u32
    ensures { (e : Endpoint) → Valid e → Stands parts.now e → result ≡ model_early_ticks e }
{
    if !is_armed(parts) {
        return u32::MAX;
    }
    let left = patience(parts).saturating_sub(u64::from(parts.age) + 1);
    left.min(u64::from(u32::MAX)) as u32
}

/// The timer has run for so many ticks.
fn set_age(parts: &mut Parts, age: u32)
    ensures after { (e : Endpoint) → Stands parts.old e → Stands parts.new (aged e age) }
    ensures phase { parts.new.phase ≡ parts.old.phase }
    ensures tuple { parts.new.tuple ≡ parts.old.tuple }
    ensures params { parts.new.params ≡ parts.old.params }
{
    parts.age = age;
}

/// Whether the timer runs: something sent is not acknowledged, or data waits at a window of 0.
#[inline(always)]
fn is_armed(parts: &Parts) -> bool
    ensures { (e : Endpoint) → Valid e → Stands parts.now e → result ≡ model_is_armed e.tx }
{
    if parts.una.0 != parts.max.0 {
        return true;
    }
    parts.window == 0 && parts.tx.end() > parts.nxt_place().saturating_sub(1)
}

/// How many ticks the timer runs: twice as many after each time in a row, up to 16 times the first (RFC 6298, section
/// 5.5).
fn patience(parts: &Parts) -> u64
    ensures ticks { (e : Endpoint) → Stands parts.now e → result ≡ model_patience e }
    ensures small { (e : Endpoint) → Valid e → Stands parts.now e → result ≤ 16000 }
{
    u64::from(parts.params.rto) * doubled(parts.tries)
}

/// 2 to the number of times that the timer ran out, up to 16.
fn doubled(tries: u8) -> u64
    ensures value { result ≡ 2 ^ min tries 4 }
    ensures small { result ≤ 16 }
{
    match tries {
        0 => 1,
        1 => 2,
        2 => 4,
        3 => 8,
        _ => 16,
    }
}

/// The timer has run out. The ninth time in a row ends the connection.
fn expire(parts: &mut Parts) -> Answer
    ensures made { (out : List ℕ) (e : Endpoint) → Valid e → Stands parts.old e → e.reason ≡ None
        → IsOutcome parts.new result out (expired e) }
    ensures len { answer_len result ≡ 0 }
    ensures tuple { parts.new.tuple ≡ parts.old.tuple }
    ensures params { parts.new.params ≡ parts.old.params }
{
    let tries = parts.tries.saturating_add(1);
    if tries == 9 {
        give_up(parts, tries);
        return Answer::TimedOut;
    }
    let probes = is_probing(parts);
    parts.tries = tries;
    parts.age = 0;
    parts.nxt = parts.una;
    if probes {
        parts.probe = true;
        return Answer::Probe;
    }
    parts.counters.timeouts = parts.counters.timeouts.saturating_add(1);
    Answer::Resend
}

/// The connection is over, after so many timeouts in a row.
fn give_up(parts: &mut Parts, tries: u8)
    ensures after { (e : Endpoint) → Stands parts.old e
        → Stands parts.new (record e {
          tx = record (e.tx) { tries = tries; age = 0 };
          reason = Some reasons.TimedOut;
        }) }
    ensures tuple { parts.new.tuple ≡ parts.old.tuple }
    ensures params { parts.new.params ≡ parts.old.params }
{
    parts.tries = tries;
    parts.age = 0;
    parts.reason = Some(Reason::TimedOut);
    parts.phase = Phase::Closed;
}

/// Whether it is the peer's window that bytes wait for.
fn is_probing(parts: &Parts) -> bool
    ensures { (e : Endpoint) → Valid e → Stands parts.now e → e.reason ≡ None → result ≡ model_probes e }
{
    if parts.window != 0 || !parts.is_running() {
        return false;
    }
    parts.tx.len() > 0
}
