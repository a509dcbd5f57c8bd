//! Who called, why a connection ended, and which frame it was.

ghost use Rattle.std.specs.Prelude.{◌≡◌, ◌<◌, ◌≤◌, ◌+◌, not, map, length, position};
ghost use Rattle.std.specs.Prelude.{bytes_eq, codes, None, Some, MatchOption, IfSome};
ghost use Rattle.std.specs.List.{prefix_len};
ghost use Rattle.report_lines.specs.Fronts as fronts;
ghost use Rattle.report_lines.specs.Origins as rules;

use crate::fronts::{behind, number_at};
use crate::segments::{u16_at, u32_at};
use tas_model::{CAPTURE, Caller, FrameId, NO_FLOW, Reason};

/// The slow path, a core or an application.
#[tactic(auto, unfolding(crate::specs::Origins::caller, crate::specs::Fronts::or, crate::specs::Fronts::with))]
pub(crate) fn caller_at(text: &[u8]) -> Option<(Caller, &[u8])>
    ensures { MatchOption result (rules.caller text.now ≡ None)
        (λ x. rules.caller text.now ≡ Some (x.0, x.1.now)) }
{
    if let Some(rest) = behind(text, b"s") {
        return Some((Caller::Slow, rest));
    }
    if let Some((k, rest)) = core_at(text) {
        return Some((Caller::Core(k), rest));
    }
    let (k, rest) = u32_at(behind(text, b"p")?)?;
    Some((Caller::App(k), rest))
}

/// The number of a core.
#[tactic(auto, unfolding(crate::specs::Fronts::with))]
fn core_at(text: &[u8]) -> Option<(u32, &[u8])>
    ensures { MatchOption result (fronts.after (codes "c") fronts.u32 text.now ≡ None)
        (λ x. fronts.after (codes "c") fronts.u32 text.now ≡ Some (x.0, x.1.now)) }
{
    u32_at(behind(text, b"c")?)
}

/// Why an endpoint is closed.
#[tactic(auto, unfolding(crate::specs::Origins::reason, crate::specs::Fronts::or, crate::specs::Fronts::with))]
pub(crate) fn reason_at(text: &[u8]) -> Option<(Reason, &[u8])>
    ensures { MatchOption result (rules.reason text.now ≡ None)
        (λ x. rules.reason text.now ≡ Some (x.0, x.1.now)) }
{
    if let Some(rest) = behind(text, b"done") {
        return Some((Reason::Done, rest));
    }
    if let Some(rest) = behind(text, b"reset") {
        return Some((Reason::Reset, rest));
    }
    if let Some(rest) = behind(text, b"refused") {
        return Some((Reason::Refused, rest));
    }
    if let Some(rest) = behind(text, b"timedout") {
        return Some((Reason::TimedOut, rest));
    }
    let rest = behind(text, b"aborted")?;
    Some((Reason::Aborted, rest))
}

/// The place of the first byte that is not of a host's name.
#[inline(always)]
fn name_end(text: &[u8]) -> Option<usize>
    ensures { result ≡ position (λ c. not (rules.is_named c)) text.now }
{
    text.iter().position(|c| !(*c != b':'))
}

/// How many bytes of a host's name a text begins with.
#[inline(always)]
fn name_length(text: &[u8]) -> usize
    ensures count { result ≡ prefix_len rules.is_named text.now }
    ensures within { result ≤ length text.now }
{
    name_end(text).unwrap_or(text.len())
}

/// Whether these are the same bytes.
#[inline(always)]
fn is(name: &[u8], other: &[u8]) -> bool
    ensures { result ≡ bytes_eq name.now other.now }
{
    name == other
}

/// The place of a name where names stand.
#[inline(always)]
fn place_in(names: &[&[u8]], name: &[u8]) -> Option<usize>
    ensures place { result ≡ position (λ n. bytes_eq n.now name.now) names.now }
    ensures within { IfSome result (λ i. i < length names.now) }
{
    names.iter().position(|n| is(n, name))
}

/// The number of the host of this name.
pub(crate) fn place_of(names: &[&[u8]], name: &[u8]) -> Option<usize>
    ensures place { result ≡ position (λ n. bytes_eq n name.now) (map (λ n. n.now) names.now) }
    ensures within { IfSome result (λ i. i < length names.now) }
{
    place_in(names, name)
}

/// The number of the host of this name; `-` is one past the last.
#[tactic(auto, unfolding(crate::specs::Fronts::or))]
fn host_of(names: &[&[u8]], name: &[u8]) -> Option<usize>
    ensures host { result ≡ rules.host_of (map (λ n. n.now) names.now) name.now }
    ensures within { IfSome result (λ i. i ≤ length names.now) }
{
    if let Some(host) = place_of(names, name) {
        return Some(host);
    }
    if is(name, b"-") {
        Some(names.len())
    } else {
        None
    }
}

/// The host of the name at the front, by its number.
#[tactic(auto, unfolding(crate::specs::Origins::host, crate::specs::Fronts::with))]
fn host_at<'a>(names: &[&[u8]], text: &'a [u8]) -> Option<(u32, &'a [u8])>
    requires { length names.now ≤ 8 }
    ensures { MatchOption result (rules.host (map (λ n. n.now) names.now) text.now ≡ None)
        (λ x. rules.host (map (λ n. n.now) names.now) text.now ≡ Some (x.0, x.1.now)) }
{
    let (name, rest) = text.split_at(name_length(text));
    match host_of(names, name) {
        Some(host) => Some((host as u32, rest)),
        None => None,
    }
}

/// The opening number of a flow, or `x` for none.
#[tactic(auto, unfolding(crate::specs::Origins::flow, crate::specs::Fronts::or, crate::specs::Fronts::with))]
fn flow_at(text: &[u8]) -> Option<(u32, &[u8])>
    ensures { MatchOption result (rules.flow text.now ≡ None) (λ x. rules.flow text.now ≡ Some (x.0, x.1.now)) }
{
    if let Some((flow, rest)) = number_at(4_294_967_294, text) {
        return Some((flow as u32, rest));
    }
    let rest = behind(text, b"x")?;
    Some((NO_FLOW, rest))
}

/// Which copy: a second one bears a `+`.
#[inline(always)]
#[tactic(auto, unfolding(crate::specs::Origins::copy, crate::specs::Fronts::or, crate::specs::Fronts::with))]
fn copy_at(text: &[u8]) -> (u32, &[u8])
    ensures { rules.copy text.now ≡ Some (result.0, result.1.now) }
{
    match behind(text, b"+") {
        Some(rest) => (1, rest),
        None => (0, text),
    }
}

/// A frame that a host sent: the host, its flow, and the frame's number.
#[tactic(auto, unfolding(crate::specs::Origins::sent_frame, crate::specs::Fronts::with))]
fn sent_at<'a>(names: &[&[u8]], text: &'a [u8]) -> Option<(FrameId, &'a [u8])>
    requires { length names.now ≤ 8 }
    ensures { MatchOption result (rules.sent_frame (map (λ n. n.now) names.now) text.now ≡ None)
        (λ x. rules.sent_frame (map (λ n. n.now) names.now) text.now ≡ Some (x.0, x.1.now)) }
{
    let (host, rest) = host_at(names, text)?;
    let (flow, rest) = flow_at(behind(rest, b":")?)?;
    let (number, rest) = number_at(u64::MAX, behind(rest, b".")?)?;
    let (copy, rest) = copy_at(rest);
    let frame = FrameId {
        host,
        flow,
        number,
        copy,
    };
    Some((frame, rest))
}

/// A record of a capture.
#[tactic(auto, unfolding(crate::specs::Origins::record_frame, crate::specs::Fronts::with))]
fn record_at(text: &[u8]) -> Option<(FrameId, &[u8])>
    ensures { MatchOption result (rules.record_frame text.now ≡ None)
        (λ x. rules.record_frame text.now ≡ Some (x.0, x.1.now)) }
{
    let (number, rest) = number_at(u64::MAX, behind(text, b"r:")?)?;
    let frame = FrameId {
        host: CAPTURE,
        flow: NO_FLOW,
        number,
        copy: 0,
    };
    Some((frame, rest))
}

/// Which frame it was.
#[tactic(auto, unfolding(crate::specs::Origins::frame, crate::specs::Fronts::or))]
pub(crate) fn frame_at<'a>(names: &[&[u8]], text: &'a [u8]) -> Option<(FrameId, &'a [u8])>
    requires { length names.now ≤ 8 }
    ensures { MatchOption result (rules.frame (map (λ n. n.now) names.now) text.now ≡ None)
        (λ x. rules.frame (map (λ n. n.now) names.now) text.now ≡ Some (x.0, x.1.now)) }
{
    if let Some(sent) = sent_at(names, text) {
        return Some(sent);
    }
    record_at(text)
}

/// A number up to 255.
#[inline(always)]
pub(crate) fn u8_at(text: &[u8]) -> Option<(u8, &[u8])>
    ensures number { MatchOption result (fronts.u8 text.now ≡ None)
        (λ x. fronts.u8 text.now ≡ Some (x.0, x.1.now)) }
    ensures range { IfSome result (λ x. x.0 ≤ 255) }
{
    let (number, rest) = number_at(255, text)?;
    Some((number as u8, rest))
}

/// An address: four numbers up to 255 with dots.
#[tactic(auto, unfolding(crate::specs::Origins::addr, crate::specs::Fronts::with))]
pub(crate) fn addr_at(text: &[u8]) -> Option<(u32, &[u8])>
    ensures { MatchOption result (rules.addr text.now ≡ None) (λ x. rules.addr text.now ≡ Some (x.0, x.1.now)) }
{
    let (a, rest) = u8_at(text)?;
    let (b, rest) = u8_at(behind(rest, b".")?)?;
    let (c, rest) = u8_at(behind(rest, b".")?)?;
    let (d, rest) = u8_at(behind(rest, b".")?)?;
    let addr = ((u32::from(a) * 256 + u32::from(b)) * 256 + u32::from(c)) * 256 + u32::from(d);
    Some((addr, rest))
}

/// An address with a port.
#[tactic(auto, unfolding(crate::specs::Origins::socket, crate::specs::Fronts::with))]
pub(crate) fn port_at(text: &[u8]) -> Option<(u32, u16, &[u8])>
    ensures { MatchOption result (rules.socket text.now ≡ None)
        (λ x. rules.socket text.now ≡ Some ((x.0, x.1), x.2.now)) }
{
    let (addr, rest) = addr_at(text)?;
    let (port, rest) = u16_at(behind(rest, b":")?)?;
    Some((addr, port, rest))
}
