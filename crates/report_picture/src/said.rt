//! What a line of a report says.

ghost use Rattle.std.specs.Prelude.{◌≡◌, map, IfSome, Some, true, false, bytes_eq};
ghost use Rattle.std.specs.Option.{option_map};
ghost use Rattle.report_lines.specs.Lines.{Line};
ghost use Rattle.report_lines.specs.Shown.{AreNames};
ghost use Rattle.report_lines.specs.Views.{seen_line};
ghost use Rattle.trace_audit.specs.Forms.{IsSaid};
ghost use Rattle.report_picture.specs.Hosts.{replay_title, seen_hosts};
ghost use Rattle.report_picture.specs.Forms.{Said};
ghost use Rattle.report_picture.specs.Forms as rules;

use crate::hosts::Hosts;
use crate::lines::behind;
use report_lines::{ReportLine, read_line};

/// What a line says.
#[derive(Drop)]
pub enum SaidLine<'a> {
    /// What a line of a run's report says.
    Plain(ReportLine<'a>),
    /// It is a replay's line of counts.
    Counts,
}

/// What a line of a run's report says; `None` where it is of no form.
fn plain_line<'a>(names: &[&[u8]], text: &'a [u8]) -> Option<ReportLine<'a>>
    requires names { AreNames (map (λ n. n.now) names.now) }
    ensures found { IfSome result (λ l. IsSaid (map (λ n. n.now) names.now) text.now (seen_line l)) }
    ensures only { (l : Line) → IsSaid (map (λ n. n.now) names.now) text.now l
        → option_map seen_line result ≡ Some l }
{
    match text {
        [front @ .., b'\n'] => read_line(names, front),
        _ => None,
    }
}

/// Whether it is the title of a replay's report.
fn is_title(text: &[u8]) -> bool
    ensures { result ≡ bytes_eq text.now replay_title }
{
    text == b"tas replay\n".as_slice()
}

/// Whether it is a line of counts.
fn is_counts(text: &[u8]) -> bool
    ensures { result ≡ rules.is_counts text.now }
{
    behind(text, b"records ").is_some()
}

/// Whether a line says that it is the title of a run's report.
fn is_run_title(line: &ReportLine<'_>) -> bool
    ensures { result ≡ rules.is_run_title (seen_line line.now) }
{
    matches!(line, ReportLine::Title)
}

/// What a line of a replay's report says that is no title and no line of counts.
fn later_line<'a>(names: &[&[u8]], text: &'a [u8]) -> Option<SaidLine<'a>>
    requires names { AreNames (map (λ n. n.now) names.now) }
    requires title { bytes_eq text.now replay_title ≡ false }
    requires counts { rules.is_counts text.now ≡ false }
    ensures found { IfSome result (λ s. rules.IsOf true (map (λ n. n.now) names.now) text.now (rules.seen_said s)) }
    ensures only { (s : Said) → rules.IsOf true (map (λ n. n.now) names.now) text.now s
        → option_map rules.seen_said result ≡ Some s }
{
    let line = plain_line(names, text)?;
    if is_run_title(&line) {
        return None;
    }
    Some(SaidLine::Plain(line))
}

/// What a line says; `None` where it is of no form. `names` are those of the hosts.
fn said_of<'a>(replay: bool, names: &[&[u8]], text: &'a [u8]) -> Option<SaidLine<'a>>
    requires names { AreNames (map (λ n. n.now) names.now) }
    ensures found { IfSome result (λ s. rules.IsOf replay (map (λ n. n.now) names.now) text.now (rules.seen_said s)) }
    ensures only { (s : Said) → rules.IsOf replay (map (λ n. n.now) names.now) text.now s
        → option_map rules.seen_said result ≡ Some s }
{
    if !replay {
        let line = plain_line(names, text)?;
        return Some(SaidLine::Plain(line));
    }
    if is_title(text) {
        return Some(SaidLine::Plain(ReportLine::Title));
    }
    if is_counts(text) {
        return Some(SaidLine::Counts);
    }
    later_line(names, text)
}

/// What a line of a report says that names these hosts; `None` where it is of no form.
pub fn said_by<'a>(hosts: &Hosts<'_>, text: &'a [u8]) -> Option<SaidLine<'a>>
    requires names { AreNames (seen_hosts hosts.now).names }
    ensures found { IfSome result
        (λ s. rules.IsOf hosts.now.replay (seen_hosts hosts.now).names text.now (rules.seen_said s)) }
    ensures only { (s : Said) → rules.IsOf hosts.now.replay (seen_hosts hosts.now).names text.now s
        → option_map rules.seen_said result ≡ Some s }
{
    said_of(hosts.replay, &hosts.names, text)
}
