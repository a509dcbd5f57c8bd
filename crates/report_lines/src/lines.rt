//! A line of a report, whichever it is.

ghost use Rattle.std.specs.Prelude.{◌≡◌, ◌≤◌, not, map, length, position, codes, None, Some, MatchOption, IfSome};
ghost use Rattle.std.specs.Option.{option_map};
ghost use Rattle.std.specs.List.{prefix_len};
ghost use Rattle.report_lines.specs.Lines as rules;
ghost use Rattle.report_lines.specs.Lines.{Line};
ghost use Rattle.report_lines.specs.Shown.{AreNames, IsLine, line_text};
ghost use Rattle.report_lines.specs.Views.{seen_line};

use crate::entries::entry_at;
use crate::events::event_at;
use crate::fronts::{behind, number_at};
use crate::hex::hex_at;
use crate::line::ReportLine;
use crate::origins::{addr_at, place_of, port_at, reason_at};
use crate::segments::u32_at;
use tas_model::{FlowId, FourTuple, Phase};

/// The place of the first space.
#[inline(always)]
fn word_end(text: &[u8]) -> Option<usize>
    ensures { result ≡ position (λ c. not (rules.is_of_word c)) text.now }
{
    text.iter().position(|c| !(*c != b' '))
}

/// How many bytes the word has that a text begins with.
#[inline(always)]
fn word_length(text: &[u8]) -> usize
    ensures count { result ≡ prefix_len rules.is_of_word text.now }
    ensures within { result ≤ length text.now }
{
    word_end(text).unwrap_or(text.len())
}

/// The host of the name at the front, by its number.
#[tactic(auto, unfolding(crate::specs::Lines::named, crate::specs::Fronts::with))]
fn named_at<'a>(names: &[&[u8]], text: &'a [u8]) -> Option<(usize, &'a [u8])>
    ensures { MatchOption result (rules.named (map (λ n. n.now) names.now) text.now ≡ None)
        (λ x. rules.named (map (λ n. n.now) names.now) text.now ≡ Some (x.0, x.1.now)) }
{
    let (name, rest) = text.split_at(word_length(text));
    match place_of(names, name) {
        Some(host) => Some((host, rest)),
        None => None,
    }
}

/// A host's line.
#[tactic(auto, unfolding(crate::specs::Lines::host_line, crate::specs::Fronts::with))]
fn host_at<'a>(names: &[&[u8]], text: &'a [u8]) -> Option<(ReportLine<'a>, &'a [u8])>
    ensures { MatchOption result (rules.host_line (map (λ n. n.now) names.now) text.now ≡ None)
        (λ x. rules.host_line (map (λ n. n.now) names.now) text.now ≡ Some (seen_line x.0, x.1.now)) }
{
    let (host, rest) = named_at(names, behind(text, b"host ")?)?;
    let (addr, rest) = addr_at(behind(rest, b" ")?)?;
    Some((ReportLine::Host { host, addr }, rest))
}

/// The line that a flow begins with.
#[tactic(auto, unfolding(crate::specs::Lines::begins, crate::specs::Fronts::with))]
fn begins_at(text: &[u8]) -> Option<(ReportLine<'_>, &[u8])>
    ensures { MatchOption result (rules.begins text.now ≡ None)
        (λ x. rules.begins text.now ≡ Some (seen_line x.0, x.1.now)) }
{
    let (number, rest) = u32_at(behind(text, b"flow ")?)?;
    let (slot, rest) = u32_at(behind(rest, b" slot ")?)?;
    let (generation, rest) = u32_at(behind(rest, b".")?)?;
    let (laddr, lport, rest) = port_at(behind(rest, b" ")?)?;
    let (raddr, rport, rest) = port_at(behind(rest, b" ")?)?;
    let line = ReportLine::Begins {
        number,
        id: FlowId { slot, generation },
        tuple: FourTuple {
            laddr,
            lport,
            raddr,
            rport,
        },
    };
    Some((line, rest))
}

/// CLOSED with its reason.
#[tactic(auto, unfolding(crate::specs::Lines::closed_state, crate::specs::Fronts::with))]
fn closed_state_at(text: &[u8]) -> Option<(ReportLine<'_>, &[u8])>
    ensures { MatchOption result (rules.closed_state text.now ≡ None)
        (λ x. rules.closed_state text.now ≡ Some (seen_line x.0, x.1.now)) }
{
    let (reason, rest) = reason_at(behind(text, b"CLOSED ")?)?;
    let line = ReportLine::State {
        phase: Phase::Closed,
        reason: Some(reason),
    };
    Some((line, rest))
}

/// A state in which this side has ended, or the peer alone.
#[tactic(auto, unfolding(crate::specs::Lines::late_phase, crate::specs::Fronts::or, crate::specs::Fronts::with))]
fn late_phase_at(text: &[u8]) -> Option<(Phase, &[u8])>
    ensures { MatchOption result (rules.late_phase text.now ≡ None)
        (λ x. rules.late_phase text.now ≡ Some (x.0, x.1.now)) }
{
    if let Some(rest) = behind(text, b"FIN-WAIT-1") {
        return Some((Phase::FinWait1, rest));
    }
    if let Some(rest) = behind(text, b"FIN-WAIT-2") {
        return Some((Phase::FinWait2, rest));
    }
    if let Some(rest) = behind(text, b"CLOSE-WAIT") {
        return Some((Phase::CloseWait, rest));
    }
    if let Some(rest) = behind(text, b"CLOSING") {
        return Some((Phase::Closing, rest));
    }
    if let Some(rest) = behind(text, b"LAST-ACK") {
        return Some((Phase::LastAck, rest));
    }
    let rest = behind(text, b"TIME-WAIT")?;
    Some((Phase::TimeWait, rest))
}

/// A state that is not CLOSED.
#[tactic(auto, unfolding(crate::specs::Lines::open_phase, crate::specs::Fronts::or, crate::specs::Fronts::with))]
fn open_phase_at(text: &[u8]) -> Option<(Phase, &[u8])>
    ensures { MatchOption result (rules.open_phase text.now ≡ None)
        (λ x. rules.open_phase text.now ≡ Some (x.0, x.1.now)) }
{
    if let Some(rest) = behind(text, b"ESTABLISHED") {
        return Some((Phase::Established, rest));
    }
    if let Some(rest) = behind(text, b"SYN-SENT") {
        return Some((Phase::SynSent, rest));
    }
    if let Some(rest) = behind(text, b"SYN-RECEIVED") {
        return Some((Phase::SynReceived, rest));
    }
    late_phase_at(text)
}

/// The line of the state that a flow ends in.
#[tactic(auto, unfolding(crate::specs::Lines::state, crate::specs::Fronts::or, crate::specs::Fronts::with))]
fn state_at(text: &[u8]) -> Option<(ReportLine<'_>, &[u8])>
    ensures { MatchOption result (rules.state text.now ≡ None)
        (λ x. rules.state text.now ≡ Some (seen_line x.0, x.1.now)) }
{
    let text = behind(text, b"state ")?;
    if let Some(closed) = closed_state_at(text) {
        return Some(closed);
    }
    let (phase, rest) = open_phase_at(text)?;
    let line = ReportLine::State {
        phase,
        reason: None,
    };
    Some((line, rest))
}

/// The line of what was read.
#[tactic(auto, unfolding(crate::specs::Lines::read, crate::specs::Fronts::with))]
fn read_at(text: &[u8]) -> Option<(ReportLine<'_>, &[u8])>
    ensures { MatchOption result (rules.read text.now ≡ None)
        (λ x. rules.read text.now ≡ Some (seen_line x.0, x.1.now)) }
{
    let (count, rest) = number_at(u64::MAX, behind(text, b"read ")?)?;
    let (bytes, rest) = hex_at(behind(rest, b" ")?)?;
    Some((ReportLine::Read { count, bytes }, rest))
}

/// What follows a tick: an entry, or what a log tells.
#[tactic(auto, unfolding(crate::specs::Lines::ticked, crate::specs::Fronts::or, crate::specs::Fronts::with))]
fn ticked_at<'a>(names: &[&[u8]], tick: u32, text: &'a [u8]) -> Option<(ReportLine<'a>, &'a [u8])>
    requires { length names.now ≤ 8 }
    ensures { MatchOption result (rules.ticked (map (λ n. n.now) names.now) tick text.now ≡ None)
        (λ x. rules.ticked (map (λ n. n.now) names.now) tick text.now ≡ Some (seen_line x.0, x.1.now)) }
{
    if let Some((entry, rest)) = entry_at(names, tick, text) {
        return Some((ReportLine::Made(entry), rest));
    }
    let (event, rest) = event_at(names, text)?;
    Some((ReportLine::Logged { tick, event }, rest))
}

/// A line that begins with a tick: an entry's, or one of a log.
#[tactic(auto, unfolding(crate::specs::Lines::tick_line, crate::specs::Fronts::with))]
fn tick_line_at<'a>(names: &[&[u8]], text: &'a [u8]) -> Option<(ReportLine<'a>, &'a [u8])>
    requires { length names.now ≤ 8 }
    ensures { MatchOption result (rules.tick_line (map (λ n. n.now) names.now) text.now ≡ None)
        (λ x. rules.tick_line (map (λ n. n.now) names.now) text.now ≡ Some (seen_line x.0, x.1.now)) }
{
    let (tick, rest) = u32_at(text)?;
    ticked_at(names, tick, behind(rest, b" ")?)
}

/// The last line.
#[tactic(auto, unfolding(crate::specs::Lines::end, crate::specs::Fronts::with))]
fn end_at(text: &[u8]) -> Option<(ReportLine<'_>, &[u8])>
    ensures { MatchOption result (rules.end text.now ≡ None)
        (λ x. rules.end text.now ≡ Some (seen_line x.0, x.1.now)) }
{
    let (ticks, rest) = u32_at(behind(text, b"end ")?)?;
    let rest = behind(rest, b" ticks")?;
    Some((ReportLine::End { ticks }, rest))
}

/// A line at the front. Most lines begin with a tick.
#[tactic(auto, unfolding(crate::specs::Lines::line, crate::specs::Fronts::or, crate::specs::Fronts::with))]
fn line_at<'a>(names: &[&[u8]], text: &'a [u8]) -> Option<(ReportLine<'a>, &'a [u8])>
    requires { length names.now ≤ 8 }
    ensures { MatchOption result (rules.line (map (λ n. n.now) names.now) text.now ≡ None)
        (λ x. rules.line (map (λ n. n.now) names.now) text.now ≡ Some (seen_line x.0, x.1.now)) }
{
    if let Some(line) = tick_line_at(names, text) {
        return Some(line);
    }
    if let Some(line) = begins_at(text) {
        return Some(line);
    }
    if let Some(line) = state_at(text) {
        return Some(line);
    }
    if let Some(line) = read_at(text) {
        return Some(line);
    }
    if let Some(line) = host_at(names, text) {
        return Some(line);
    }
    if let Some(rest) = behind(text, b"tas run") {
        return Some((ReportLine::Title, rest));
    }
    end_at(text)
}

/// What a line says, its LF apart; `None` where it is of no form. `names` are those of the hosts.
pub fn read_line<'a>(names: &[&[u8]], text: &'a [u8]) -> Option<ReportLine<'a>>
    requires names { AreNames (map (λ n. n.now) names.now) }
    ensures exact { option_map seen_line result ≡ rules.line_in (map (λ n. n.now) names.now) text.now }
    ensures found { IfSome result (λ l. line_text (map (λ n. n.now) names.now) (seen_line l) ≡ text.now) }
    ensures shown { IfSome result (λ l. IsLine (map (λ n. n.now) names.now) (seen_line l)) }
    ensures only { (l : Line) → IsLine (map (λ n. n.now) names.now) l
        → line_text (map (λ n. n.now) names.now) l ≡ text.now → option_map seen_line result ≡ Some l }
{
    line_alone(names, text)
}

/// A line with nothing behind it.
#[tactic(auto, unfolding(crate::specs::Lines::line_in, crate::specs::Fronts::with))]
fn line_alone<'a>(names: &[&[u8]], text: &'a [u8]) -> Option<ReportLine<'a>>
    requires { length names.now ≤ 8 }
    ensures { option_map seen_line result ≡ rules.line_in (map (λ n. n.now) names.now) text.now }
{
    let (line, rest) = line_at(names, text)?;
    if !rest.is_empty() {
        return None;
    }
    Some(line)
}
