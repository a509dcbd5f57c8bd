//! Lines of a host's log.

ghost use Rattle.std.specs.Prelude.{◌≡◌, ◌≤◌, map, length, codes, None, Some, MatchOption};
ghost use Rattle.report_lines.specs.Events as rules;
ghost use Rattle.report_lines.specs.Views.{seen_event};

use crate::fronts::behind;
use crate::line::EventLine;
use crate::origins::{frame_at, port_at, u8_at};
use crate::segments::{head_at, seg_at, u16_at, u32_at};
use tas_model::Head;

/// `ok` or `portinuse`.
#[tactic(auto, unfolding(crate::specs::Fronts::or, crate::specs::Fronts::with))]
fn listen_answer(text: &[u8]) -> Option<(bool, &[u8])>
    ensures { MatchOption result (rules.told (codes "ok") (codes "portinuse") text.now ≡ None)
        (λ x. rules.told (codes "ok") (codes "portinuse") text.now ≡ Some (x.0, x.1.now)) }
{
    if let Some(rest) = behind(text, b"ok") {
        return Some((true, rest));
    }
    let rest = behind(text, b"portinuse")?;
    Some((false, rest))
}

/// `noport` or `noflowslot`.
#[tactic(auto, unfolding(crate::specs::Fronts::or, crate::specs::Fronts::with))]
fn connect_answer(text: &[u8]) -> Option<(bool, &[u8])>
    ensures { MatchOption result (rules.told (codes "noport") (codes "noflowslot") text.now ≡ None)
        (λ x. rules.told (codes "noport") (codes "noflowslot") text.now ≡ Some (x.0, x.1.now)) }
{
    if let Some(rest) = behind(text, b"noport") {
        return Some((true, rest));
    }
    let rest = behind(text, b"noflowslot")?;
    Some((false, rest))
}

/// `backlogfull` or `noflowslot`.
#[tactic(auto, unfolding(crate::specs::Fronts::or, crate::specs::Fronts::with))]
fn drop_cause(text: &[u8]) -> Option<(bool, &[u8])>
    ensures { MatchOption result (rules.told (codes "backlogfull") (codes "noflowslot") text.now ≡ None)
        (λ x. rules.told (codes "backlogfull") (codes "noflowslot") text.now ≡ Some (x.0, x.1.now)) }
{
    if let Some(rest) = behind(text, b"backlogfull") {
        return Some((true, rest));
    }
    let rest = behind(text, b"noflowslot")?;
    Some((false, rest))
}

/// A listen and its answer.
#[tactic(auto, unfolding(crate::specs::Events::listened, crate::specs::Fronts::with))]
fn listened_at(text: &[u8]) -> Option<(EventLine<'_>, &[u8])>
    ensures { MatchOption result (rules.listened text.now ≡ None)
        (λ x. rules.listened text.now ≡ Some (seen_event x.0, x.1.now)) }
{
    let (app, rest) = u32_at(behind(text, b"p")?)?;
    let (port, rest) = u16_at(behind(rest, b" listen ")?)?;
    let (ok, rest) = listen_answer(behind(rest, b" = ")?)?;
    Some((EventLine::Listened { app, port, ok }, rest))
}

/// An accept for which nothing was ready.
#[tactic(auto, unfolding(crate::specs::Events::not_accepted, crate::specs::Fronts::with))]
fn not_accepted_at(text: &[u8]) -> Option<(EventLine<'_>, &[u8])>
    ensures { MatchOption result (rules.not_accepted text.now ≡ None)
        (λ x. rules.not_accepted text.now ≡ Some (seen_event x.0, x.1.now)) }
{
    let (app, rest) = u32_at(behind(text, b"p")?)?;
    let (port, rest) = u16_at(behind(rest, b" accept ")?)?;
    let rest = behind(rest, b" = notyet")?;
    Some((EventLine::NotAccepted { app, port }, rest))
}

/// A connect that was refused.
#[tactic(auto, unfolding(crate::specs::Events::not_connected, crate::specs::Fronts::with))]
fn not_connected_at(text: &[u8]) -> Option<(EventLine<'_>, &[u8])>
    ensures { MatchOption result (rules.not_connected text.now ≡ None)
        (λ x. rules.not_connected text.now ≡ Some (seen_event x.0, x.1.now)) }
{
    let (app, rest) = u32_at(behind(text, b"p")?)?;
    let (raddr, rport, rest) = port_at(behind(rest, b" connect ")?)?;
    let (no_port, rest) = connect_answer(behind(rest, b" = ")?)?;
    let event = EventLine::NotConnected {
        app,
        raddr,
        rport,
        no_port,
    };
    Some((event, rest))
}

/// The answer to a stray.
#[tactic(auto, unfolding(crate::specs::Events::answer, crate::specs::Fronts::or, crate::specs::Fronts::with))]
fn answer_at(text: &[u8]) -> Option<(Option<Head>, &[u8])>
    ensures { MatchOption result (rules.answer text.now ≡ None) (λ x. rules.answer text.now ≡ Some (x.0, x.1.now)) }
{
    if let Some((head, rest)) = head_at(text) {
        return Some((Some(head), rest));
    }
    let rest = behind(text, b"none")?;
    Some((None, rest))
}

/// A segment of no flow, and what it was answered.
#[tactic(auto, unfolding(crate::specs::Events::strayed, crate::specs::Fronts::with))]
fn strayed_at<'a>(names: &[&[u8]], text: &'a [u8]) -> Option<(EventLine<'a>, &'a [u8])>
    requires { length names.now ≤ 8 }
    ensures { MatchOption result (rules.strayed (map (λ n. n.now) names.now) text.now ≡ None)
        (λ x. rules.strayed (map (λ n. n.now) names.now) text.now ≡ Some (seen_event x.0, x.1.now)) }
{
    let (frame, rest) = frame_at(names, behind(text, b"stray ")?)?;
    let (seg, rest) = seg_at(behind(rest, b" ")?)?;
    let (answer, rest) = answer_at(behind(rest, b" = ")?)?;
    Some((EventLine::Strayed { frame, seg, answer }, rest))
}

/// A SYN that was dropped.
#[tactic(auto, unfolding(crate::specs::Events::dropped, crate::specs::Fronts::with))]
fn dropped_at<'a>(names: &[&[u8]], text: &'a [u8]) -> Option<(EventLine<'a>, &'a [u8])>
    requires { length names.now ≤ 8 }
    ensures { MatchOption result (rules.dropped (map (λ n. n.now) names.now) text.now ≡ None)
        (λ x. rules.dropped (map (λ n. n.now) names.now) text.now ≡ Some (seen_event x.0, x.1.now)) }
{
    let (frame, rest) = frame_at(names, behind(text, b"dropped ")?)?;
    let (backlog, rest) = drop_cause(behind(rest, b" = ")?)?;
    Some((EventLine::Dropped { frame, backlog }, rest))
}

/// A packet that breaks a rule of reading.
#[tactic(auto, unfolding(crate::specs::Events::refused, crate::specs::Fronts::with))]
fn refused_at<'a>(names: &[&[u8]], text: &'a [u8]) -> Option<(EventLine<'a>, &'a [u8])>
    requires { length names.now ≤ 8 }
    ensures { MatchOption result (rules.refused (map (λ n. n.now) names.now) text.now ≡ None)
        (λ x. rules.refused (map (λ n. n.now) names.now) text.now ≡ Some (seen_event x.0, x.1.now)) }
{
    let (frame, rest) = frame_at(names, behind(text, b"refused ")?)?;
    let (rule, rest) = u8_at(behind(rest, b" = ")?)?;
    Some((EventLine::Refused { frame, rule }, rest))
}

/// What a line of a log tells.
#[tactic(auto, unfolding(crate::specs::Events::event, crate::specs::Fronts::or))]
pub(crate) fn event_at<'a>(names: &[&[u8]], text: &'a [u8]) -> Option<(EventLine<'a>, &'a [u8])>
    requires { length names.now ≤ 8 }
    ensures { MatchOption result (rules.event (map (λ n. n.now) names.now) text.now ≡ None)
        (λ x. rules.event (map (λ n. n.now) names.now) text.now ≡ Some (seen_event x.0, x.1.now)) }
{
    if let Some(event) = listened_at(text) {
        return Some(event);
    }
    if let Some(event) = not_accepted_at(text) {
        return Some(event);
    }
    if let Some(event) = not_connected_at(text) {
        return Some(event);
    }
    if let Some(event) = strayed_at(names, text) {
        return Some(event);
    }
    if let Some(event) = dropped_at(names, text) {
        return Some(event);
    }
    refused_at(names, text)
}
