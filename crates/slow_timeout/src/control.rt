//! The rate is adjusted (RFC 5681, section 3).

ghost use Rattle.std.specs.Prelude.{◌≡◌, ℕ, ◌-◌, List};
ghost use Rattle.tas_model.specs.Endpoint.{Endpoint};
ghost use Rattle.tas_model.specs.ApplicationCalls.{column, Running};
ghost use Rattle.tas_model.specs.Timers.{control as model_control, controlled};
ghost use Rattle.tas_model.specs.Valid.{Valid};
ghost use Rattle.flow_state.specs.Stands.{Stands};
ghost use Rattle.flow_state.specs.Calls.{answer_len};
ghost use Rattle.flow_state.specs.Made.{IsOutcome};
ghost use Rattle.slow_timeout.specs.Rate.{rate_with};

use flow_state::{Answer, Parts};
use rate_bucket::{Counters, interval};

/// Adjusts the rate by what was counted since the last time, and counts anew (RFC 5681, sections 3.1 and 3.2).
pub fn control(parts: &mut Parts) -> Answer
    ensures made { (out : List ℕ) (e : Endpoint) → Valid e → Stands parts.old e → column e ≡ Running
        → IsOutcome parts.new result out (model_control e) }
    ensures len { answer_len result ≡ 0 }
    ensures tuple { parts.new.tuple ≡ parts.old.tuple }
    ensures params { parts.new.params ≡ parts.old.params }
{
    let (cwnd, ssthresh) = next_windows(parts);
    set_rate(parts, cwnd, ssthresh);
    Answer::Window { cwnd, ssthresh }
}

/// The congestion window and the threshold after this interval, with what is in flight now.
fn next_windows(parts: &Parts) -> (u32, u32)
    ensures cwnd { (e : Endpoint) → Valid e → Stands parts.now e → column e ≡ Running
        → result.0 ≡ (controlled e.rate (e.tx.max - e.tx.una)).cwnd }
    ensures ssthresh { (e : Endpoint) → Valid e → Stands parts.now e → column e ≡ Running
        → result.1 ≡ (controlled e.rate (e.tx.max - e.tx.una)).ssthresh }
{
    let counters = Counters {
        flight: parts.max.minus(parts.una),
        ..parts.counters
    };
    // The window is never closed once the peer's SYN was taken.
    interval(&counters, parts.smss, parts.cwnd.max(1), parts.ssthresh)
}

/// Sets both windows and sizes the bucket by them, and counts anew.
fn set_rate(parts: &mut Parts, cwnd: u32, ssthresh: u32)
    ensures after { (e : Endpoint) → Stands parts.old e
        → Stands parts.new (record e { rate = rate_with e.rate cwnd ssthresh }) }
    ensures tuple { parts.new.tuple ≡ parts.old.tuple }
    ensures params { parts.new.params ≡ parts.old.params }
{
    parts.cwnd = cwnd;
    parts.ssthresh = ssthresh;
    parts.bucket.resize(cwnd, parts.smss);
    parts.counters = Counters {
        acked: 0,
        fast: 0,
        timeouts: 0,
        flight: 0,
    };
}
